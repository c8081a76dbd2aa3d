// Module 9: a step of colour restore, with the planes before and after it, and the rows of a plane.
ghost use Rattle.std.specs.Prelude.{◌≡◌, length};

use refusal::Refusal;

fn planes(rt: &impl Print, a: &[i32], b: &[i32], c: &[i32]) {
    let _ = print!(rt; " a=");
    print::words(a);
    let _ = print!(rt; " b=");
    print::words(b);
    let _ = print!(rt; " c=");
    print::words(c);
}

// An answer without a value.
fn told(rt: &impl Print, answer: Result<(), Refusal>, done: &str) {
    match answer {
        Ok(()) => {
            let _ = print!(rt; ": {done}");
        }
        Err(refusal) => print::refusal(refusal),
    }
}

fn step(rt: &impl Print, a: &mut [i32], b: &mut [i32], c: &mut [i32], operation: u32, order: u32) {
    let _ = print!(rt; "do_rct_step operation={operation} order={order}");
    planes(rt, a, b, c);
    told(
        rt,
        colour::restore::do_rct_step(a, b, c, operation, order),
        "done",
    );
    let _ = print!(rt; ";");
    planes(rt, a, b, c);
    let _ = println!(rt);
}

// Planes of one word.
fn triple(rt: &impl Print, a: i32, b: i32, c: i32, operation: u32, order: u32) {
    let mut first = [a];
    let mut second = [b];
    let mut third = [c];
    step(rt, &mut first, &mut second, &mut third, operation, order);
}

// Document 01's three: their shifts go down, not toward zero.
fn starred(rt: &impl Print) {
    for (a, b, c, operation) in [(100, 7, -3, 6), (5, 0, -8, 4), (5, 0, -8, 5)] {
        triple(rt, a, b, c, operation, 0);
    }
}

// In the first a + c wraps before the shift.
fn wraps(rt: &impl Print) {
    for (a, b, c, operation) in [
        (2147483647, 0, 1, 4),
        (2147483647, -2147483648, 1, 3),
        (-2147483648, 2147483647, 2147483647, 6),
    ] {
        triple(rt, a, b, c, operation, 0);
    }
}

fn operations(rt: &impl Print) {
    for operation in 0..7 {
        triple(rt, 10, -3, 7, operation, 0);
    }
}

fn orders(rt: &impl Print) {
    for order in 0..6 {
        triple(rt, 1, 2, 3, 0, order);
    }
}

// The operation first, then the order.
fn two_triples(rt: &impl Print) {
    let mut a = [100, 10];
    let mut b = [7, -3];
    let mut c = [-3, 7];
    step(rt, &mut a, &mut b, &mut c, 6, 2);
}

fn no_triples(rt: &impl Print, operation: u32, order: u32) {
    let mut a: [i32; 0] = [];
    let mut b: [i32; 0] = [];
    let mut c: [i32; 0] = [];
    step(rt, &mut a, &mut b, &mut c, operation, order);
}

fn empties(rt: &impl Print) {
    for (operation, order) in [(6, 0), (6, 2), (7, 2)] {
        no_triples(rt, operation, order);
    }
}

fn no_such_colours(rt: &impl Print) {
    for (operation, order) in [(7, 0), (0, 6), (4294967295, 5), (6, 4294967295)] {
        triple(rt, 1, 2, 3, operation, order);
    }
}

// A wrong number comes before a wrong length.
fn unequal_and(rt: &impl Print, operation: u32, order: u32) {
    let mut a = [1, 2];
    let mut b = [3];
    let mut c = [4, 5];
    step(rt, &mut a, &mut b, &mut c, operation, order);
}

fn third_longer(rt: &impl Print) {
    let mut a = [1];
    let mut b = [3];
    let mut c = [4, 5];
    step(rt, &mut a, &mut b, &mut c, 6, 2);
}

fn unequals(rt: &impl Print) {
    for (operation, order) in [(7, 6), (7, 5), (6, 6), (6, 5), (0, 0)] {
        unequal_and(rt, operation, order);
    }
    third_longer(rt);
}

fn asked(rt: &impl Print, name: &str, words: usize, width: usize, y: usize) {
    let _ = print!(rt; "{name} words={words} width={width} y={y}");
}

fn checked(rt: &impl Print, answer: Result<(), Refusal>) {
    told(rt, answer, "there");
    let _ = print!(rt; " ");
}

fn row(rt: &impl Print, plane: &[i32], width: usize, y: usize) {
    asked(rt, "row", plane.len(), width, y);
    checked(rt, colour::rows::row_refusal(plane, width, y));
    print::words(colour::rows::row(plane, width, y));
    let _ = println!(rt);
}

// Of six words: rows of three, the first and the last of one and of six.
fn whole_rows(rt: &impl Print, plane: &[i32]) {
    for (width, y) in [
        (3, 0),
        (3, 1),
        (3, 2),
        (1, 0),
        (1, 5),
        (1, 6),
        (6, 0),
        (6, 1),
    ] {
        row(rt, plane, width, y);
    }
}

// Widths that no whole number of rows has, and rows past any plane.
fn no_rows(rt: &impl Print, plane: &[i32]) {
    for (width, y) in [
        (0, 0),
        (4, 0),
        (7, 0),
        (18446744073709551615, 0),
        (3, 1073741823),
        (3, 1073741824),
        (3, 18446744073709551615),
    ] {
        row(rt, plane, width, y);
    }
}

fn small_rows(rt: &impl Print) {
    let plane = [11, 12, 13, 21, 22, 23];
    whole_rows(rt, &plane);
    no_rows(rt, &plane);
    row(rt, &[], 0, 0);
    row(rt, &[], 1, 0);
    row(rt, &[], 3, 1073741824);
}

// The first word and the last of a part that is too long to print.
fn ends(rt: &impl Print, part: &[i32]) {
    let n = part.len();
    let _ = print!(rt; "{n} words");
    if 0 < n {
        let _ = print!(rt; " first={} last={}", part[0], part[n - 1]);
    }
    let _ = println!(rt);
}

fn long_row(rt: &impl Print, plane: &[i32], width: usize, y: usize) {
    asked(rt, "row", plane.len(), width, y);
    checked(rt, colour::rows::row_refusal(plane, width, y));
    ends(rt, colour::rows::row(plane, width, y));
}

// The widest row, one word too wide, and a word that is no whole row.
fn long_rows(rt: &impl Print, all: &[i32])
    requires { 65537 ≡ length all.now }
{
    let last = &all[1..];
    long_row(rt, last, 65536, 0);
    long_row(rt, last, 65536, 1);
    long_row(rt, all, 65537, 0);
    long_row(rt, all, 65536, 0);
    long_row(rt, all, 1, 65536);
    long_row(rt, all, 1, 65537);
    long_row(rt, all, 1, 1073741824);
}

// One word more than the widest row has; only the last is not 0, so that a line shows which end it read.
fn widest(rt: &impl Print) {
    let mut cells = [0; 65537];
    cells[65536] = 6;
    long_rows(rt, &cells);
}

// Changes the first word and then the last.
fn write(part: &mut [i32]) {
    let n = part.len();
    if n == 0 {
        return;
    }
    part[0] = -1;
    part[n - 1] = -2;
}

// A row of a plane of six words, written; then the whole plane.
fn write_row(rt: &impl Print, width: usize, y: usize) {
    let mut plane = [11, 12, 13, 21, 22, 23];
    asked(rt, "row_mut", 6, width, y);
    checked(rt, colour::rows::row_refusal(&plane, width, y));
    write(colour::rows::row_mut(&mut plane, width, y));
    print::words(&plane);
    let _ = println!(rt);
}

fn written_rows(rt: &impl Print) {
    for (width, y) in [
        (3, 0),
        (3, 1),
        (3, 2),
        (1, 4),
        (6, 0),
        (0, 0),
        (4, 0),
        (65537, 0),
        (3, 1073741824),
    ] {
        write_row(rt, width, y);
    }
}

pub fn run(rt: &impl Print) {
    starred(rt);
    wraps(rt);
    operations(rt);
    orders(rt);
    two_triples(rt);
    empties(rt);
    no_such_colours(rt);
    unequals(rt);
    small_rows(rt);
    widest(rt);
    written_rows(rt);
}
