// Module 2: the fallbacks of a fetch, the shortcut inside a row, and what each refuses. Cells are numbered so that a line
// shows where its values come from: the row holds 11 12 .., the row above 21 22 .., the row two above 31 32 ...
ghost use Rattle.std.specs.Prelude.{◌≡◌, length};

use predict::neighbours::PredictionData;
use refusal::Refusal;

fn answered(rt: &impl Print, found: Result<PredictionData, Refusal>) {
    match found {
        Ok(data) => {
            let _ = print!(rt; ":");
            print::seven(data);
            let _ = println!(rt);
        }
        Err(refusal) => print::refused(refusal),
    }
}

fn get_rows(rt: &impl Print, row: &[i32], above: &[i32], above2: &[i32], x: usize, y: usize) {
    let _ = print!(rt;
        "get_rows width={} above={} above2={} x={x} y={y}",
        row.len(),
        above.len(),
        above2.len()
    );
    answered(rt, predict::neighbours::get_rows(row, above, above2, x, y));
}

fn shortcut(
    rt: &impl Print,
    data: PredictionData,
    above: &[i32],
    above2: &[i32],
    x: usize,
    cur: i32,
    needs_top: bool,
    needs_toptop: bool,
) {
    let _ = print!(rt; "update_for_interior_row of");
    print::seven(data);
    let _ = print!(rt;
        " above={} above2={} x={x} cur={cur}",
        above.len(),
        above2.len()
    );
    let _ = print!(rt;
        " needs_top={} needs_toptop={}",
        needs_top as u8, needs_toptop as u8
    );
    answered(
        rt,
        data.update_for_interior_row(above, above2, x, cur, needs_top, needs_toptop),
    );
}

// The first row: every neighbour comes from the row, or is 0.
fn first_row(rt: &impl Print, row: &[i32]) {
    for x in [0, 1, 2, 4] {
        get_rows(rt, row, &[], &[], x, 0);
    }
}

// The second row: what lies two above falls back to the row above, also where such a row is lent.
fn second_row(rt: &impl Print, row: &[i32], above: &[i32], above2: &[i32]) {
    get_rows(rt, row, above, &[], 0, 1);
    get_rows(rt, row, above, &[], 2, 1);
    get_rows(rt, row, above, above2, 2, 1);
    get_rows(rt, row, above, &[], 4, 1);
}

// From the third row on: the first column, the second, the inside, the last but one and the last.
fn third_row(rt: &impl Print, row: &[i32], above: &[i32], above2: &[i32]) {
    for x in 0..5 {
        get_rows(rt, row, above, above2, x, 2);
    }
}

// The last row and the last column, and past them.
fn positions(rt: &impl Print, row: &[i32], above: &[i32], above2: &[i32]) {
    for (x, y) in [
        (2, 1073741823),
        (2, 1073741824),
        (2, 18446744073709551615),
        (5, 2),
        (18446744073709551615, 2),
    ] {
        get_rows(rt, row, above, above2, x, y);
    }
}

// Rows so narrow that first and last columns meet.
fn narrow_rows(rt: &impl Print) {
    get_rows(rt, &[11], &[], &[], 0, 0);
    get_rows(rt, &[11], &[21], &[], 0, 1);
    get_rows(rt, &[11], &[21], &[31], 0, 2);
    get_rows(rt, &[11, 12], &[21, 22], &[31, 32], 0, 2);
    get_rows(rt, &[11, 12], &[21, 22], &[31, 32], 1, 2);
}

fn widths(rt: &impl Print) {
    get_rows(rt, &[], &[], &[], 0, 0);
    get_rows(rt, &[], &[], &[], 0, 2);
}

// A row above of another width is refused where y has one.
fn other_above(rt: &impl Print) {
    let row = [11, 12, 13];
    let cells = [21, 22, 23, 24];
    let all = &cells[..];
    get_rows(rt, &row, &all[..2], &[], 2, 0);
    get_rows(rt, &row, all, &[], 2, 0);
    get_rows(rt, &row, &all[..2], &[], 2, 1);
    get_rows(rt, &row, all, &[], 2, 1);
    get_rows(rt, &row, all, &all[..3], 2, 2);
}

// The same two above.
fn other_above2(rt: &impl Print) {
    let row = [11, 12, 13];
    let above = [21, 22, 23];
    let cells = [31, 32, 33, 34];
    let all = &cells[..];
    get_rows(rt, &row, &above, &all[..2], 2, 1);
    get_rows(rt, &row, &above, all, 2, 1);
    get_rows(rt, &row, &above, &all[..2], 2, 2);
    get_rows(rt, &row, &above, all, 2, 2);
}

fn numbered() -> PredictionData {
    PredictionData {
        left: 1,
        top: 2,
        toptop: 3,
        topleft: 4,
        topright: 5,
        leftleft: 6,
        toprightright: 7,
    }
}

// Two cells before x and two after it; `four` is one cell too short.
fn insides(rt: &impl Print, above: &[i32], above2: &[i32], four: &[i32]) {
    let data = numbered();
    shortcut(rt, data, above, above2, 0, 9, true, true);
    shortcut(rt, data, above, above2, 1, 9, true, true);
    shortcut(rt, data, above, above2, 2, 9, true, true);
    shortcut(rt, data, four, above2, 2, 9, true, true);
    shortcut(rt, data, four, above2, 2, 9, false, false);
    shortcut(rt, data, above, above2, 3, 9, true, true);
    shortcut(rt, data, above, above2, 18446744073709551615, 9, true, true);
}

// What is not needed is not looked at, and becomes 0; `three` holds cell 2, and `two` does not.
fn needs(rt: &impl Print, above: &[i32], above2: &[i32], three: &[i32], two: &[i32]) {
    let data = numbered();
    shortcut(rt, data, above, above2, 2, 9, true, false);
    shortcut(rt, data, above, above2, 2, 9, false, true);
    shortcut(rt, data, above, above2, 2, 9, false, false);
    shortcut(rt, data, above, three, 2, 9, true, true);
    shortcut(rt, data, above, two, 2, 9, true, true);
    shortcut(rt, data, above, two, 2, 9, true, false);
}

// One cell more than the widest row has; the last five are numbered.
fn wide() -> [i32; 65537]
    ensures { 65537 ≡ length result }
{
    let mut cells = [0; 65537];
    cells[65532] = 2;
    cells[65533] = 3;
    cells[65534] = 4;
    cells[65535] = 5;
    cells[65536] = 6;
    cells
}

fn wide_rows(rt: &impl Print, all: &[i32])
    requires { 65537 ≡ length all.now }
{
    let first = &all[0..65536];
    let last = &all[1..];
    get_rows(rt, first, last, first, 65535, 2);
    get_rows(rt, all, all, all, 0, 2);
    get_rows(rt, all, all, all, 65536, 2);
}

fn wide_shortcuts(rt: &impl Print, all: &[i32])
    requires { 65537 ≡ length all.now }
{
    let data = numbered();
    let first = &all[0..65536];
    let last = &all[1..];
    shortcut(rt, data, last, first, 65533, 9, true, true);
    shortcut(rt, data, last, first, 65534, 9, true, true);
    shortcut(rt, data, all, first, 2, 9, true, true);
    shortcut(rt, data, last, all, 2, 9, true, true);
    shortcut(rt, data, last, all, 2, 9, true, false);
}

fn widest(rt: &impl Print) {
    let cells = wide();
    wide_rows(rt, &cells);
    wide_shortcuts(rt, &cells);
}

// The shortcut from the fetch at column 1, and then the fetch at column 2.
fn side_by_side(rt: &impl Print, row: &[i32], above: &[i32], above2: &[i32], y: usize) {
    if let Ok(data) = predict::neighbours::get_rows(row, above, above2, 1, y) {
        shortcut(rt, data, above, above2, 2, 12, true, true);
    }
    get_rows(rt, row, above, above2, 2, y);
}

fn fetches_of(rt: &impl Print, row: &[i32], above: &[i32], above2: &[i32]) {
    first_row(rt, row);
    second_row(rt, row, above, above2);
    third_row(rt, row, above, above2);
    positions(rt, row, above, above2);
    // At y = 1 the two differ in toptop, which the shortcut reads from the row lent; from y = 2 on they are equal.
    side_by_side(rt, row, above, above2, 1);
    side_by_side(rt, row, above, above2, 2);
}

fn fetches(rt: &impl Print) {
    let row = [11, 12, 13, 14, 15];
    let above = [21, 22, 23, 24, 25];
    let above2 = [31, 32, 33, 34, 35];
    fetches_of(rt, &row, &above, &above2);
}

fn shortcuts(rt: &impl Print) {
    let above = [21, 22, 23, 24, 25];
    let above2 = [31, 32, 33, 34, 35];
    insides(rt, &above, &above2, &[21, 22, 23, 24]);
    needs(rt, &above, &above2, &[31, 32, 33], &[31, 32]);
}

pub fn run(rt: &impl Print) {
    fetches(rt);
    narrow_rows(rt);
    widths(rt);
    other_above(rt);
    other_above2(rt);
    shortcuts(rt);
    widest(rt);
}
