// A record: 32 words of four bytes each, the low byte first.
ghost use Rattle.std.specs.Prelude.{◌+◌, ◌<◌, ◌≤◌, length};

use predict::neighbours::PredictionData;

#[derive(Clone, Copy)]
pub struct Record {
    pub bytes: [u8; 128],
}

impl Record {
    // Byte k of those after word 0.
    pub fn byte(&self, k: usize) -> u32
        requires { k < 16 }
        ensures { result < 256 }
    {
        self.bytes[4 + k] as u32
    }

    // Word k as an unsigned number.
    pub fn bits(&self, k: usize) -> u32
        requires { k < 32 }
    {
        let at = 4 * k;
        u32::from_le_bytes([
            self.bytes[at],
            self.bytes[at + 1],
            self.bytes[at + 2],
            self.bytes[at + 3],
        ])
    }

    // Word k as a signed number.
    pub fn word(&self, k: usize) -> i32
        requires { k < 32 }
    {
        self.bits(k).cast_signed()
    }

    // Words k and k + 1, the low half first, as an unsigned number of 64 bits.
    pub fn long_bits(&self, k: usize) -> u64
        requires { k < 31 }
    {
        self.bits(k) as u64 | (self.bits(k + 1) as u64) << 32
    }

    // The same as a signed number.
    pub fn long_word(&self, k: usize) -> i64
        requires { k < 31 }
    {
        self.long_bits(k).cast_signed()
    }

    // So many words from k on.
    pub fn words<const N: usize>(&self, k: usize) -> [i32; N]
        requires { k + N ≤ 32 }
    {
        let mut words = [0; N];
        for i in 0..N {
            words[i] = self.word(k + i);
        }
        words
    }

    // Whether these words are those from k on.
    pub fn holds(&self, words: &[i32], k: usize) -> bool
        requires { k + length words.now ≤ 32 }
    {
        for i in 0..words.len() {
            if words[i] != self.word(k + i) {
                return false;
            }
        }
        true
    }

    // Seven words from k on: the neighbours, in their order.
    pub fn seven(&self, k: usize) -> PredictionData
        requires { k + 7 ≤ 32 }
    {
        PredictionData {
            left: self.word(k),
            top: self.word(k + 1),
            toptop: self.word(k + 2),
            topleft: self.word(k + 3),
            topright: self.word(k + 4),
            leftleft: self.word(k + 5),
            toprightright: self.word(k + 6),
        }
    }
}
