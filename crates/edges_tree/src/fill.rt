// The cells of a pixel: each group alone, what wraps, the old cell 9, the reference row; 11 for the position, then 10.
ghost use Rattle.std.specs.Prelude.{◌≤◌};

use cells::compute_properties;
use predict::neighbours::PredictionData;
use refusal::Refusal;

fn told(rt: &impl Print, filled: Result<(), Refusal>) {
    match filled {
        Ok(()) => {
            let _ = print!(rt; ": done; ");
        }
        Err(refusal) => {
            print::refusal(refusal);
            let _ = print!(rt; "; ");
        }
    }
}

// left 11, top 22, toptop 44, topleft 7, topright 100, leftleft 1000
fn some() -> PredictionData {
    PredictionData {
        left: 11,
        top: 22,
        toptop: 44,
        topleft: 7,
        topright: 100,
        leftleft: 1000,
        toprightright: 9,
    }
}

fn ends(left: i32, top: i32, topleft: i32) -> PredictionData {
    PredictionData {
        left,
        top,
        toptop: 2147483647,
        topleft,
        topright: 2147483647,
        leftleft: 1,
        toprightright: 9,
    }
}

// Column 3 of row 2, a weighted property of -5 and two references, in eighteen cells of -7.
fn fill(rt: &impl Print, mask: u32, data: PredictionData) {
    let _ = print!(rt; "fill mask={mask}");
    let mut cells = [-7i32; 18];
    told(
        rt,
        compute_properties(mask, 3, 2, data, -5, &[70, 71], &mut cells),
    );
    print::words(&cells);
    let _ = println!(rt);
}

fn groups(rt: &impl Print) {
    for mask in [
        0, 3, 4, 8, 16, 128, 256, 512, 1024, 16384, 32768, 65536, 2147483648, 4294967295,
    ] {
        fill(rt, mask, some());
    }
}

fn wraps(rt: &impl Print) {
    fill(rt, 240, ends(-2147483648, -2147483648, 0));
    fill(rt, 240, ends(2147483647, -2147483647, 0));
    fill(rt, 768, ends(2147483647, 1, 0));
    fill(rt, 768, ends(-2147483648, -2147483648, 1));
    fill(rt, 31744, ends(-2147483648, -2147483648, 1));
}

// Twice: the second time cell 8 is left less what the first left in cell 9.
fn again(rt: &impl Print) {
    let mut cells = [0i32; 16];
    let _ = print!(rt; "fill twice, first");
    told(
        rt,
        compute_properties(768, 0, 0, some(), 0, &[], &mut cells),
    );
    print::words(&cells);
    let _ = print!(rt; "\nfill twice, second");
    told(
        rt,
        compute_properties(768, 1, 0, ends(5, 6, 7), 0, &[], &mut cells),
    );
    print::words(&cells);
    let _ = println!(rt);
}

// With so many cells lent.
fn at(rt: &impl Print, x: usize, y: usize, lent: usize)
    requires { lent ≤ 16 }
{
    let _ = print!(rt; "fill x={x} y={y} cells={lent}");
    let mut cells = [-7i32; 16];
    told(
        rt,
        compute_properties(12, x, y, some(), 0, &[], &mut cells[..lent]),
    );
    print::words(&cells);
    let _ = println!(rt);
}

fn positions(rt: &impl Print) {
    at(rt, 65535, 0, 16);
    at(rt, 65536, 0, 16);
    at(rt, 0, 1073741823, 16);
    at(rt, 0, 1073741824, 16);
    at(rt, 65536, 0, 15);
    at(rt, 0, 0, 15);
    at(rt, 0, 0, 0);
}

// With so many of the references and of the cells lent.
fn referring(rt: &impl Print, mask: u32, references: usize, lent: usize)
    requires { (references ≤ 2) × (lent ≤ 18) }
{
    let _ = print!(rt; "fill mask={mask} references={references} cells={lent}");
    let mut cells = [-7i32; 18];
    let row = [70, 71];
    told(
        rt,
        compute_properties(
            mask,
            0,
            0,
            some(),
            0,
            &row[..references],
            &mut cells[..lent],
        ),
    );
    print::words(&cells);
    let _ = println!(rt);
}

fn rows(rt: &impl Print) {
    referring(rt, 65536, 2, 15);
    referring(rt, 65536, 2, 17);
    referring(rt, 65536, 1, 17);
    referring(rt, 65536, 2, 18);
    referring(rt, 65536, 0, 16);
    referring(rt, 32768, 2, 16);
}

pub fn run(rt: &impl Print) {
    groups(rt);
    wraps(rt);
    again(rt);
    positions(rt);
    rows(rt);
}
