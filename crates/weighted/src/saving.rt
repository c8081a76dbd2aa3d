// Saving the half of the memory that a later even row reads, and writing it back: an error row, then four sum rows.
ghost use Rattle.std.specs.Prelude.{◌≡◌, ◌≤◌, length};
ghost use Rattle.integer.specs.Fill.{filled};
ghost use Rattle.weighted.specs.Memory.{needed};
ghost use Rattle.refusal.specs.Paper.{said};
ghost use Rattle.weighted.specs.Saved.{
  saved_words,
  saved_word,
  restored_word,
  copies,
  list_after,
  memory_after,
  even_row_due,
};

use crate::state::WeightedState;
use refusal::Refusal;

// Word after word of the saved list: row k / positions holds that word of each position.
fn save_words(memory: &[u32], width: usize, saved: &mut [u32])
    requires { (width ≤ 65536) × (needed width ≤ length memory.now) × (saved_words width ≤ length saved.old) }
    ensures { saved.new ≡ filled (saved_word memory.now width) (saved_words width) saved.old }
{
    let positions = width + 2;
    for row in 0..5 {
        for x in 0..positions {
            saved[row * positions + x] = memory[5 * x + row];
        }
    }
}

// Word after word of the memory's first half.
fn restore_words(memory: &mut [u32], width: usize, saved: &[u32])
    requires { (width ≤ 65536) × (needed width ≤ length memory.old) × (saved_words width ≤ length saved.now) }
    ensures { memory.new ≡ filled (restored_word saved.now width) (saved_words width) memory.old }
{
    let positions = width + 2;
    for k in 0..5 * positions {
        memory[k] = saved[k % 5 * positions + k / 5];
    }
}

impl WeightedState {
    // Whether an ask that opens an even row is due.
    fn even_row_due(&self) -> bool
        ensures { result ≡ even_row_due self.now }
    {
        !self.asked && self.x == 0 && self.y % 2 == 0 && self.y < 1073741824
    }

    // Whether a list of this length can be saved to or restored from.
    fn check_copy(&self, lent: usize, saved: usize) -> Result<(), Refusal>
        ensures { said result ≡ copies self.now lent saved }
    {
        if !self.header.in_range() {
            return Err(Refusal::HeaderRange);
        }
        if 65536 < self.width || self.width <= self.x {
            return Err(Refusal::WrongSize);
        }
        if !self.even_row_due() {
            return Err(Refusal::OutOfTurn);
        }
        let needed = 10 * (self.width + 2);
        if lent < needed {
            return Err(Refusal::TooSmall {
                needed: needed as u32,
            });
        }
        let list = 5 * (self.width + 2);
        if saved < list {
            return Err(Refusal::TooSmall {
                needed: list as u32,
            });
        }
        Ok(())
    }

    // Copies the first half of the memory into the list.
    pub fn save_state(&self, memory: &[u32], saved: &mut [u32]) -> Result<(), Refusal>
        ensures answers { said result ≡ copies self.now (length memory.now) (length saved.old) }
        ensures holds { saved.new ≡ list_after self.now memory.now saved.old }
    {
        self.check_copy(memory.len(), saved.len())?;
        save_words(memory, self.width, saved);
        Ok(())
    }

    // Writes the list back into the first half of the memory.
    pub fn restore_state(&self, memory: &mut [u32], saved: &[u32]) -> Result<(), Refusal>
        ensures answers { said result ≡ copies self.now (length memory.old) (length saved.now) }
        ensures holds { memory.new ≡ memory_after self.now memory.old saved.now }
    {
        self.check_copy(memory.len(), saved.len())?;
        restore_words(memory, self.width, saved);
        Ok(())
    }
}
