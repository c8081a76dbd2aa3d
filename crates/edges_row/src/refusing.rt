// The header (12), the place and the lists (11), the turn (13), then what the first ask tests, in that order.
ghost use Rattle.std.specs.Prelude.{◌≤◌};

use crate::calls;
use session::Session;

// Of a plane of 5 words, 3 residuals and contexts, 5 references, 7 words of a record, 18 cells and 40 words of memory, so many are lent.
// The record is a leaf: predictor Zero, multiplier 1, context 7.
fn lent(
    rt: &impl Print,
    session: Session,
    plane_lent: usize,
    residuals_lent: usize,
    contexts_lent: usize,
    references_lent: usize,
    records_lent: usize,
    memory_lent: usize,
    cells_lent: usize,
)
    requires { (plane_lent ≤ 5) × (residuals_lent ≤ 3) × (contexts_lent ≤ 3) × (references_lent ≤ 5) × (records_lent ≤ 7) × (memory_lent ≤ 40) × (cells_lent ≤ 18) }
{
    let residuals = [31, 32, 33];
    let references = [21, 22, 23, 24, 25];
    let records = [-1, 0, 1, 0, 7, 0, 0];
    let mut plane = [11, 12, 13, 14, 15];
    let mut contexts = [99u32; 3];
    let mut cells = [5i32; 18];
    let mut memory = [0u32; 40];
    let mut next = session;
    calls::row(
        rt,
        &mut next,
        &residuals[0..residuals_lent],
        &references[0..references_lent],
        &records[0..records_lent],
        &mut plane[0..plane_lent],
        &mut contexts[0..contexts_lent],
        &mut cells[0..cells_lent],
        &mut memory[0..memory_lent],
    );
}

// Lists of the row's length, and one more or less.
fn lists(rt: &impl Print, session: Session) {
    lent(rt, session, 4, 2, 2, 0, 6, 0, 16);
    lent(rt, session, 4, 1, 2, 0, 6, 0, 16);
    lent(rt, session, 4, 3, 2, 0, 6, 0, 16);
    lent(rt, session, 4, 2, 1, 0, 6, 0, 16);
    lent(rt, session, 4, 2, 3, 0, 6, 0, 16);
    lent(rt, session, 4, 2, 2, 3, 6, 0, 16);
    lent(rt, session, 4, 2, 2, 4, 6, 0, 16);
}

// Reference cells, one or two for each pixel, are copied where a bit from 16 on is set.
fn references(rt: &impl Print, session: Session) {
    lent(rt, session, 4, 2, 2, 2, 6, 0, 17);
    lent(rt, session, 4, 2, 2, 4, 6, 0, 18);
    lent(rt, session, 4, 2, 2, 4, 6, 0, 17);
    lent(rt, session, 4, 2, 2, 5, 6, 0, 18);
}

fn places(rt: &impl Print, session: Session) {
    lent(rt, calls::moved(session, 0, 1), 4, 2, 2, 0, 6, 0, 16);
    lent(rt, calls::moved(session, 0, 2), 4, 2, 2, 0, 6, 0, 16);
    lent(rt, calls::moved(session, 2, 0), 4, 2, 2, 0, 6, 0, 16);
    lent(rt, session, 5, 2, 2, 0, 6, 0, 16);
}

fn turns(rt: &impl Print, session: Session) {
    lent(rt, calls::moved(session, 1, 0), 4, 2, 2, 0, 6, 0, 16);
    lent(rt, calls::asked(session), 4, 2, 2, 0, 6, 0, 16);
    lent(rt, calls::closed(session), 4, 2, 2, 0, 6, 0, 16);
}

// A fault less each time: 12, 11, 13, 1, 5, 8, 10.
fn order(rt: &impl Print, session: Session) {
    let late = calls::moved(session, 1, 0);
    lent(rt, calls::ranged(late), 4, 2, 1, 2, 5, 39, 16);
    lent(rt, late, 4, 2, 1, 2, 5, 39, 16);
    lent(rt, late, 4, 2, 2, 2, 5, 39, 16);
    lent(rt, session, 4, 2, 2, 2, 5, 39, 16);
    lent(rt, session, 4, 2, 2, 2, 0, 39, 16);
    lent(rt, session, 4, 2, 2, 2, 6, 39, 16);
    lent(rt, session, 4, 2, 2, 2, 6, 40, 16);
    lent(rt, session, 4, 2, 2, 2, 6, 40, 17);
}

pub fn run(rt: &impl Print) {
    if let Ok(session) = calls::opened(false, 0) {
        lists(rt, session);
        places(rt, session);
        turns(rt, session);
    }
    if let Ok(session) = calls::opened(false, 65536) {
        references(rt, session);
    }
    if let Ok(session) = calls::opened(true, 65536) {
        order(rt, session);
    }
}
