// A damaged record in mid-channel, where a walk enters it: that pixel's cells are filled, the session is closed, and every later call is out
// of turn (13), but for a header (12) or a plane (11) that is wrong too. The plane keeps the pixels before.
ghost use Rattle.std.specs.Prelude.{◌≤◌};

use crate::calls;
use session::Session;

// Width 2, one row. Records: a split by column (property 3), its left leaf twice, context 1, its right leaf twice, context 2, and two
// leaves more. The second column meets the second of the left ones, record 2, which is as given.
fn damaged(rt: &impl Print, name: &str, first: i32, second: i32, fifth: i32) {
    let _ = println!(rt; "{name}");
    let records = [
        3, 0, 0, 0, 1, 0, -1, 0, 1, 0, 1, 0, first, second, 1, 0, fifth, 0, -1, 0, 1, 0, 2, 0, -1,
        0, 1, 0, 2, 0, -1, 0, 1, 0, 3, 0, -1, 0, 1, 0, 3, 0,
    ];
    let mut plane = [0i32; 2];
    let mut cells = [0i32; 16];
    let mut memory = [0u32; 1];
    let mut session = calls::at(2, 0, 0, false, 4);
    for _ in 0..3 {
        calls::pixel(
            rt,
            &mut session,
            10,
            &mut plane,
            &records,
            &mut cells,
            &mut memory,
        );
    }
}

fn records(rt: &impl Print) {
    damaged(rt, "sound", -1, 0, 1);
    damaged(rt, "predictor 14 (3)", -1, 14, 1);
    damaged(rt, "grandchildren out of place (4)", 0, 0, 2);
    damaged(rt, "property 16 of 16 cells (10)", 16, 0, 3);
}

// Of a plane of 3 words, so many are lent.
fn ask_lent(rt: &impl Print, session: Session, plane_lent: usize)
    requires { plane_lent ≤ 3 }
{
    let leaf = calls::leaf(1, 7, 0);
    let plane = [0i32; 3];
    let mut cells = [0i32; 16];
    let memory = [0u32; 1];
    let mut next = session;
    calls::ask(
        rt,
        &mut next,
        &plane[0..plane_lent],
        &[],
        &leaf,
        &mut cells,
        &memory,
    );
}

fn put_lent(rt: &impl Print, session: Session, plane_lent: usize)
    requires { plane_lent ≤ 3 }
{
    let mut plane = [0i32; 3];
    let mut memory = [0u32; 1];
    let mut next = session;
    calls::put(rt, &mut next, 1, &mut plane[0..plane_lent], &mut memory);
}

// On a closed session 12, then 11, come before 13.
fn order(rt: &impl Print) {
    let mut closed = calls::at(2, 0, 0, false, 0);
    closed.live = false;
    ask_lent(rt, calls::ranged(closed), 3);
    ask_lent(rt, closed, 3);
    ask_lent(rt, closed, 2);
    put_lent(rt, calls::ranged(closed), 3);
    put_lent(rt, closed, 3);
    put_lent(rt, closed, 2);
    put_lent(rt, calls::waiting(closed), 2);
}

pub fn run(rt: &impl Print) {
    records(rt);
    order(rt);
}
