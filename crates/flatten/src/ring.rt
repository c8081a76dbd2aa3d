// The flattener's only queue: a ring over lent words.
ghost use Rattle.std.specs.Prelude.{[], ◌∷◌, ◌≡◌, ◌+◌, ◌<◌, length};
ghost use Rattle.flatten.specs.Ring.{goes_round, ends, Ready, Puts, TakesFirst};

use integer::to_bits;

// Where the first queued place stands, and how many are queued: full and empty have the same two ends.
#[derive(Drop)]
pub struct Ring<'a> {
    pub words: &'a mut [i32],
    pub first: usize,
    pub queued: usize,
}

// Word i of m words that go round.
fn round(m: usize, i: usize) -> usize
    requires { i < m + m }
    ensures { result ≡ goes_round m i }
{
    if i < m { i } else { i - m }
}

impl<'a> Ring<'a> {
    // Over these words, with nothing queued.
    pub fn new(words: &'a mut [i32]) -> Ring<'a>
        ensures same { result.words.ghost_name ≡ words.entry.ghost_name }
        ensures words { result.words.now ≡ words.old }
        ensures first { result.first ≡ 0 }
        ensures none { result.queued ≡ 0 }
    {
        Ring {
            words,
            first: 0,
            queued: 0,
        }
    }

    // One place more at the end.
    pub fn put(&mut self, place: usize)
        requires { Ready (ends self.old) self.old.words.now × (self.old.queued < length self.old.words.now) × (place < 2147483648) }
        ensures same { self.new.words.ghost_name ≡ self.old.words.ghost_name }
        ensures puts { Puts (ends self.old) self.old.words.now (place ∷ []) (ends self.new) self.new.words.now }
    {
        let m = self.words.len();
        let at = round(m, self.first + self.queued);
        self.words[at] = place as i32;
        self.queued += 1;
    }

    // The first place, which leaves the queue.
    pub fn take(&mut self) -> Option<usize>
        requires { Ready (ends self.old) self.old.words.now }
        ensures same { self.new.words.ghost_name ≡ self.old.words.ghost_name }
        ensures words { self.new.words.now ≡ self.old.words.now }
        ensures takes { TakesFirst (ends self.old) self.old.words.now result (ends self.new) }
    {
        if self.queued == 0 {
            return None;
        }
        let m = self.words.len();
        let place = to_bits(self.words[self.first]) as usize;
        self.first = round(m, self.first + 1);
        self.queued -= 1;
        Some(place)
    }
}
