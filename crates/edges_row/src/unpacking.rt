// Rows that are unpacked, and one whose second pixel is refused.
use crate::calls;
use session::Session;

// So many rows of width 2 over a plane of two.
fn rows(rt: &impl Print, opened: Session, count: usize, residuals: &[i32], records: &[i32]) {
    let mut session = opened;
    let mut plane = [0i32; 4];
    let mut contexts = [99u32; 2];
    let mut cells = [0i32; 16];
    let mut memory = [0u32; 40];
    for _ in 0..count {
        calls::row(
            rt,
            &mut session,
            residuals,
            &[],
            records,
            &mut plane,
            &mut contexts,
            &mut cells,
            &mut memory,
        );
    }
}

// The third of three is refused (11). Property 8 on left and right: cell 9 goes from row to row.
fn carried(rt: &impl Print, opened: Session) {
    let records = [
        8, 0, 0, 0, 1, 0, -1, 0, 1, 0, 0, 0, -1, 0, 1, 0, 0, 0, -1, 0, 1, 0, 1, 0, -1, 0, 1, 0, 1,
        0,
    ];
    rows(rt, opened, 3, &[5, 5], &records);
}

// Property 3, the column, above 0 leads to a leaf with predictor 14: the second pixel's walk is refused, and the session is closed.
fn halfway(rt: &impl Print, opened: Session) {
    let records = [
        3, 0, 0, 0, 1, 0, -1, 14, 1, 0, 0, 0, -1, 14, 1, 0, 0, 0, -1, 0, 1, 0, 1, 0, -1, 0, 1, 0,
        1, 0,
    ];
    rows(rt, opened, 2, &[5, 6], &records);
}

pub fn run(rt: &impl Print) {
    if let Ok(session) = calls::opened(false, 768) {
        carried(rt, session);
    }
    if let Ok(session) = calls::opened(true, 768) {
        carried(rt, session);
    }
    if let Ok(session) = calls::opened(false, 12) {
        halfway(rt, session);
    }
}
