// Ask: the header (12), the place and the plane (11), the turn (13), the records (1, 5), the memory (8), the cells (10), in that order.
ghost use Rattle.std.specs.Prelude.{◌≤◌};

use crate::calls;
use session::Session;

// Of a plane of 5 words, 2 references, 7 words of a record, 18 cells and 40 words of memory, so many are lent. The session afterwards.
fn lent(
    rt: &impl Print,
    session: Session,
    plane_lent: usize,
    references_lent: usize,
    records_lent: usize,
    memory_lent: usize,
    cells_lent: usize,
) -> Session
    requires { (plane_lent ≤ 5) × (references_lent ≤ 2) × (records_lent ≤ 7) × (memory_lent ≤ 40) × (cells_lent ≤ 18) }
{
    let plane = [11, 12, 13, 14, 15];
    let references = [21, 22];
    let records = [-1, 0, 1, 0, 7, 0, 0];
    let memory = [0u32; 40];
    let mut cells = [5i32; 18];
    let mut next = session;
    calls::ask(
        rt,
        &mut next,
        &plane[0..plane_lent],
        &references[0..references_lent],
        &records[0..records_lent],
        &mut cells[0..cells_lent],
        &memory[0..memory_lent],
    );
    next
}

fn headers(rt: &impl Print) {
    let session = calls::at(2, 0, 0, true, 0);
    lent(rt, session, 4, 0, 6, 40, 16);
    lent(rt, calls::ranged(session), 4, 0, 6, 40, 16);
}

// Rows that are whole, and a place inside them.
fn places(rt: &impl Print) {
    lent(rt, calls::at(2, 1, 1, false, 0), 4, 0, 6, 0, 16);
    lent(rt, calls::at(2, 1, 1, false, 0), 5, 0, 6, 0, 16);
    lent(rt, calls::at(2, 1, 1, false, 0), 2, 0, 6, 0, 16);
    lent(rt, calls::at(2, 0, 0, false, 0), 0, 0, 6, 0, 16);
    lent(rt, calls::at(2, 2, 1, false, 0), 4, 0, 6, 0, 16);
    lent(rt, calls::at(2, 0, 2, false, 0), 4, 0, 6, 0, 16);
    lent(rt, calls::at(0, 0, 0, false, 0), 4, 0, 6, 0, 16);
    lent(rt, calls::at(4, 0, 1073741824, false, 0), 4, 0, 6, 0, 16);
}

// An ask where a put is due; the second leaves the session as it was.
fn turns(rt: &impl Print) {
    let once = lent(rt, calls::at(2, 0, 0, false, 0), 4, 0, 6, 0, 16);
    lent(rt, once, 4, 0, 6, 0, 16);
}

fn records(rt: &impl Print) {
    let session = calls::at(2, 0, 0, false, 0);
    lent(rt, session, 4, 0, 5, 0, 16);
    lent(rt, session, 4, 0, 7, 0, 16);
    lent(rt, session, 4, 0, 0, 0, 16);
}

fn memories(rt: &impl Print) {
    lent(rt, calls::at(2, 0, 0, true, 0), 4, 0, 6, 39, 16);
    lent(rt, calls::at(2, 0, 0, false, 0), 4, 0, 6, 0, 16);
}

// References are copied where a bit from 16 on is set; with one too many the session stays open.
fn cells(rt: &impl Print) {
    lent(rt, calls::at(2, 0, 0, false, 0), 4, 0, 6, 0, 15);
    lent(rt, calls::at(2, 0, 0, false, 0), 4, 2, 6, 0, 16);
    let session = calls::at(2, 0, 0, false, 65536);
    let open = lent(rt, session, 4, 2, 6, 0, 17);
    lent(rt, open, 4, 1, 6, 0, 17);
    lent(rt, session, 4, 2, 6, 0, 18);
    lent(rt, session, 4, 2, 6, 0, 15);
    lent(rt, session, 4, 0, 6, 0, 16);
}

// A fault less each time: 12, 11, 13, 1, 5, 8, 10.
fn order(rt: &impl Print) {
    let session = calls::at(2, 0, 0, true, 65536);
    let asked = calls::waiting(session);
    lent(rt, calls::ranged(asked), 5, 2, 5, 39, 17);
    lent(rt, asked, 5, 2, 5, 39, 17);
    lent(rt, asked, 4, 2, 5, 39, 17);
    lent(rt, session, 4, 2, 5, 39, 17);
    lent(rt, session, 4, 2, 0, 39, 17);
    lent(rt, session, 4, 2, 6, 39, 17);
    lent(rt, session, 4, 2, 6, 40, 17);
}

pub fn run(rt: &impl Print) {
    headers(rt);
    places(rt);
    turns(rt);
    records(rt);
    memories(rt);
    cells(rt);
    order(rt);
}
