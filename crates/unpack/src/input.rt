// Words from standard input, the low byte first. No contract can say what standard input gives, so those of the functions that
// read it say how many words there are at the most.
ghost use Rattle.std.specs.Prelude.{◌≡◌, ◌+◌, ◌*◌, ◌/◌, ◌≤◌, ◌<◌, length, min};
ghost use Rattle.integer.specs.Fill.{filled};
ghost use Rattle.unpack.specs.Bytes.{word_at};

use integer::from_bits;
use std::io::Read;

fn wide(byte: u8) -> u32
    ensures { (result ≡ byte) × (result < 256) }
{
    byte as u32
}

// Word k of the bytes.
fn word(bytes: &[u8], k: usize) -> i32
    requires { 4 * k + 4 ≤ length bytes.now }
    ensures { result ≡ word_at bytes.now k }
{
    let at = 4 * k;
    from_bits(
        wide(bytes[at])
            + 256 * wide(bytes[at + 1])
            + 65536 * wide(bytes[at + 2])
            + 16777216 * wide(bytes[at + 3]),
    )
}

// Puts the whole words of the bytes at the front, as many as there is room for, and answers how many.
fn put_words(bytes: &[u8], words: &mut [i32]) -> usize
    ensures counts { result ≡ min (length bytes.now / 4) (length words.old) }
    ensures fills { words.new ≡ filled (word_at bytes.now) result words.old }
{
    let n = (bytes.len() / 4).min(words.len());
    for k in 0..n {
        words[k] = word(bytes, k);
    }
    n
}

// Reads until the bytes are full, the input ends or a read fails, and answers how many bytes came.
fn read_full(input: &mut impl Read, bytes: &mut [u8]) -> usize
    ensures { result ≤ length bytes.old }
{
    let mut done = 0;
    while done < bytes.len() {
        match input.read(&mut bytes[done..]) {
            Ok(0) => return done,
            Ok(n) => {
                done += n;
            }
            Err(_) => return done,
        }
    }
    done
}

fn read_into(rt: &impl Input, bytes: &mut [u8], words: &mut [i32]) -> usize
    ensures { result ≤ length words.old }
{
    let n = read_full(&mut rt.reader(), bytes);
    put_words(&bytes[..n], words)
}

// Reads no byte beyond the words. Not inlined: its buffer would lie on the stack beside those of the caller and the one that is written.
#[inline(never)]
fn read_some(rt: &impl Input, words: &mut [i32]) -> usize
    ensures { result ≤ length words.old }
{
    let mut buffer = [0u8; 65536];
    if words.len() < 16384 {
        let n = 4 * words.len();
        return read_into(rt, &mut buffer[0..n], words);
    }
    read_into(rt, &mut buffer, words)
}

// Fills the words from the front, and answers how many came before the input ended.
pub fn read(rt: &impl Input, words: &mut [i32]) -> usize
    ensures { result ≤ length words.old }
{
    let mut done = 0;
    while done < words.len() {
        let got = read_some(rt, &mut words[done..]);
        if got == 0 {
            return done;
        }
        done += got;
    }
    done
}

// Whether the input has ended. A read that fails is no end.
pub fn is_at_end(rt: &impl Input) -> bool {
    let mut byte = [0u8; 1];
    matches!(rt.reader().read(&mut byte), Ok(0))
}
