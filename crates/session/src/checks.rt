// The tests before a call of a session goes on, each in the order of the paper.
ghost use Rattle.std.specs.Prelude.{◌≡◌, ◌≤◌, length};
ghost use Rattle.flat.specs.Records.{counted};
ghost use Rattle.refusal.specs.Paper.{gives, said};
ghost use Rattle.weighted.specs.Memory.{needed};
ghost use Rattle.weighted.specs.State.{test};
ghost use Rattle.session.specs.Session.{
  is_due,
  is_lent,
  is_pixel,
  may_ask,
  may_open,
  may_put,
  some_records,
};

use crate::Session;
use blend::WeightedHeader;
use cells::cells_needed;
use colour::rows::has_row;
use flat::records::count_records;
use refusal::Refusal;

// Whether the memory lent suffices for this width; with weights off none is needed.
fn check_memory(weights: bool, width: usize, lent: usize) -> Result<(), Refusal>
    requires { width ≤ 65536 }
    ensures { said result ≡ test (is_lent weights width lent) 8 (needed width) (gives tt) }
{
    let needed = 10 * (width + 2);
    if weights && lent < needed {
        return Err(Refusal::TooSmall {
            needed: needed as u32,
        });
    }
    Ok(())
}

// Whether a session may open, in the order of the paper: header, width, memory, cells.
pub fn check_open(
    header: WeightedHeader,
    width: usize,
    weights: bool,
    cells: usize,
    lent: usize,
) -> Result<(), Refusal>
    ensures { said result ≡ may_open header width weights cells lent }
{
    if !header.in_range() {
        return Err(Refusal::HeaderRange);
    }
    if width < 1 || 65536 < width {
        return Err(Refusal::WrongSize);
    }
    check_memory(weights, width, lent)?;
    if cells < 16 {
        return Err(Refusal::TooFewCells { needed: 16 });
    }
    Ok(())
}

// Whether there are records: their count, then that there are some.
fn check_records(records: &[i32]) -> Result<(), Refusal>
    ensures { said result ≡ some_records (counted records.now) }
{
    if count_records(records)? == 0 {
        return Err(Refusal::EmptyList);
    }
    Ok(())
}

impl Session {
    // Whether the next or pending pixel lies in a plane of this length.
    fn is_pixel(&self, size: usize) -> bool
        ensures { result ≡ is_pixel self.now size }
    {
        let state = &self.weighted;
        has_row(size, state.width, state.y) && state.x < state.width
    }

    // Whether the arguments of an ask are sound, in the order of the paper: header, place, turn, records, memory, cells.
    pub(crate) fn check_ask(
        &self,
        size: usize,
        references: &[i32],
        records: &[i32],
        cells: usize,
        lent: usize,
    ) -> Result<(), Refusal>
        ensures { said result ≡ may_ask self.now size (length references.now) records.now cells lent }
    {
        let needed = cells_needed(self.mask, references);
        if !self.weighted.header.in_range() {
            return Err(Refusal::HeaderRange);
        }
        if !self.is_pixel(size) || 4294967295 < needed {
            return Err(Refusal::WrongSize);
        }
        if !self.live || self.weighted.asked {
            return Err(Refusal::OutOfTurn);
        }
        check_records(records)?;
        check_memory(self.weights, self.weighted.width, lent)?;
        if cells < needed {
            return Err(Refusal::TooFewCells {
                needed: needed as u32,
            });
        }
        Ok(())
    }

    // Whether the session waits for a put. One with what no ask can have found does not.
    fn is_due(&self) -> bool
        ensures { result ≡ is_due self.now }
    {
        self.live && self.weighted.asked && (!self.weights || self.weighted.found.possible())
    }

    // Whether the arguments of a put are sound, in the order of the paper: header, place, turn, memory.
    pub(crate) fn check_put(&self, size: usize, lent: usize) -> Result<(), Refusal>
        ensures { said result ≡ may_put self.now size lent }
    {
        if !self.weighted.header.in_range() {
            return Err(Refusal::HeaderRange);
        }
        if !self.is_pixel(size) {
            return Err(Refusal::WrongSize);
        }
        if !self.is_due() {
            return Err(Refusal::OutOfTurn);
        }
        check_memory(self.weights, self.weighted.width, lent)
    }
}
