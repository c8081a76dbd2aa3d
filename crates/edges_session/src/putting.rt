// Put: the header (12), the place and the plane (11), the turn (13), the memory (8), in that order.
ghost use Rattle.std.specs.Prelude.{◌≤◌};

use crate::calls;
use session::Session;

// Of a plane of 5 words and 40 words of memory, so many are lent. The session afterwards.
fn lent(
    rt: &impl Print,
    session: Session,
    residual: i32,
    plane_lent: usize,
    memory_lent: usize,
) -> Session
    requires { (plane_lent ≤ 5) × (memory_lent ≤ 40) }
{
    let mut plane = [11, 12, 13, 14, 15];
    let mut memory = [0u32; 40];
    let mut next = session;
    calls::put(
        rt,
        &mut next,
        residual,
        &mut plane[0..plane_lent],
        &mut memory[0..memory_lent],
    );
    next
}

// Before any ask, and a second time.
fn turns(rt: &impl Print) {
    lent(rt, calls::at(2, 0, 0, false, 0), 3, 4, 0);
    let next = lent(rt, calls::waiting(calls::at(2, 0, 0, false, 0)), 3, 4, 0);
    lent(rt, next, 3, 4, 0);
}

// Where the session waits with this guess and multiplier.
fn value(rt: &impl Print, guess: i64, multiplier: u32, residual: i32) {
    let mut session = calls::waiting(calls::at(2, 1, 1, false, 0));
    session.guess = guess;
    session.multiplier = multiplier;
    let _ = print!(rt; "guess {guess} multiplier={multiplier}, ");
    lent(rt, session, residual, 4, 0);
}

// The low 32 bits of guess + residual * multiplier, which leaves 32 and 64 bits.
fn values(rt: &impl Print) {
    value(rt, 100, 3, -7);
    value(rt, 2147483647, 1, 1);
    value(rt, -2147483648, 1, -1);
    value(rt, 4294967296, 0, 5);
    value(rt, 0, 4294967295, -2147483648);
    value(rt, -2684354559, 4294967295, -2147483648);
    value(rt, 9223372036854775807, 4294967295, 2147483647);
}

fn places(rt: &impl Print) {
    lent(rt, calls::waiting(calls::at(2, 1, 1, false, 0)), 3, 5, 0);
    lent(rt, calls::waiting(calls::at(2, 1, 1, false, 0)), 3, 2, 0);
    lent(rt, calls::waiting(calls::at(2, 2, 1, false, 0)), 3, 4, 0);
    lent(
        rt,
        calls::ranged(calls::waiting(calls::at(2, 1, 1, false, 0))),
        3,
        4,
        0,
    );
}

fn memories(rt: &impl Print) {
    lent(rt, calls::waiting(calls::at(2, 0, 0, true, 0)), 3, 4, 39);
    lent(rt, calls::waiting(calls::at(2, 0, 0, true, 0)), 3, 4, 40);
}

// With a prediction that no ask can have found; with weights off it is not looked at.
fn forged(rt: &impl Print, weights: bool, pred: i64) {
    let mut session = calls::waiting(calls::at(2, 0, 0, weights, 0));
    session.weighted.found.pred = pred;
    let _ = print!(rt; "found {pred}, ");
    lent(rt, session, 3, 4, 40);
}

fn founds(rt: &impl Print) {
    forged(rt, true, 1099511627775);
    forged(rt, true, 1099511627776);
    forged(rt, false, 1099511627776);
}

// A fault less each time: 12, 11, 13, 8.
fn order(rt: &impl Print) {
    let session = calls::at(2, 0, 0, true, 0);
    lent(rt, calls::ranged(session), 3, 5, 39);
    lent(rt, session, 3, 5, 39);
    lent(rt, session, 3, 4, 39);
    lent(rt, calls::waiting(session), 3, 4, 39);
    lent(rt, calls::waiting(session), 3, 4, 40);
}

pub fn run(rt: &impl Print) {
    turns(rt);
    values(rt);
    places(rt);
    memories(rt);
    founds(rt);
    order(rt);
}
