// The direct walk: 1, 5, 16 cells (10), then at each node that is entered 3, 4, 10; left holds cell > value.
ghost use Rattle.std.specs.Prelude.{◌≤◌, length};

use crate::trees;
use walk::predict;

fn predicted(rt: &impl Print, words: &[i32], cells: &[i32]) {
    trees::told(rt, predict(words, cells, trees::some(), 1000));
}

fn walk(rt: &impl Print, name: &str, words: &[i32], cells: &[i32]) {
    let _ = print!(rt; "predict {name}");
    predicted(rt, words, cells);
}

// Of 17 cells, all 0, so many are lent.
fn lent(rt: &impl Print, name: &str, words: &[i32], lent: usize)
    requires { lent ≤ 17 }
{
    let _ = print!(rt; "predict {name} cells={lent}");
    let cells = [0i32; 17];
    predicted(rt, words, &cells[..lent]);
}

fn lengths(rt: &impl Print) {
    let leaf = [-1, 5, -30, -1, -2];
    lent(rt, "of no nodes", &leaf[..0], 16);
    lent(rt, "of no nodes", &leaf[..0], 0);
    lent(rt, "of four words", &leaf[..4], 0);
    lent(rt, "of a leaf", &leaf, 15);
    lent(rt, "of a leaf", &leaf, 16);
    lent(rt, "of a predictor 14", &[-1, 14, 0, 1, 0], 15);
    lent(rt, "of a predictor 14", &[-1, 14, 0, 1, 0], 16);
}

// A cell on both sides of a split's value.
fn side(rt: &impl Print, value: i32, cell: i32) {
    let _ = print!(rt; "predict value={value} cell={cell}");
    let words = [0, value, 1, 2, 0, -1, 0, 0, 1, 1, -1, 0, 0, 1, 2];
    predicted(
        rt,
        &words,
        &[cell, 0, 0, 0, 0, 0, 0, 0, 0, 0, 0, 0, 0, 0, 0, 0],
    );
}

fn sides(rt: &impl Print) {
    side(rt, 5, 5);
    side(rt, 5, 6);
    side(rt, -1, 0);
    side(rt, 2147483647, 2147483647);
    side(rt, -2147483648, -2147483648);
    side(rt, -2147483648, -2147483647);
}

fn split(rt: &impl Print, property: i32, left: i32, right: i32, cells: usize)
    requires { cells ≤ 17 }
{
    let _ = print!(rt; "split property={property} left={left} right={right}, ");
    lent(
        rt,
        "of it",
        &[property, 0, left, right, 0, -1, 0, 0, 1, 1, -1, 0, 0, 1, 2],
        cells,
    );
}

fn needs(rt: &impl Print) {
    split(rt, 15, 1, 2, 16);
    split(rt, 16, 1, 2, 16);
    split(rt, 16, 1, 2, 17);
    split(rt, 255, 1, 2, 16);
    split(rt, 256, 1, 2, 16);
}

// Children that do not lie later, side by side and inside; 4 before 10 at one node, and 3 before both.
fn places(rt: &impl Print) {
    split(rt, 0, 0, 1, 16);
    split(rt, 0, 1, 3, 16);
    split(rt, 0, 2, 1, 16);
    split(rt, 0, 1, 1, 16);
    split(rt, 0, 2, 3, 16);
    split(rt, 0, -1, 0, 16);
    split(rt, 0, -2, -1, 16);
    split(rt, 16, 0, 1, 16);
    split(rt, 256, 0, 1, 16);
}

// Only what is entered is looked at.
fn entered(rt: &impl Print) {
    let words = [0, 0, 1, 2, 0, -1, 14, 0, 1, 0, -1, 0, 0, 1, 2];
    walk(
        rt,
        "past a predictor 14",
        &words,
        &[0, 0, 0, 0, 0, 0, 0, 0, 0, 0, 0, 0, 0, 0, 0, 0],
    );
    walk(
        rt,
        "into a predictor 14",
        &words,
        &[1, 0, 0, 0, 0, 0, 0, 0, 0, 0, 0, 0, 0, 0, 0, 0],
    );
}

// A split at place 1 whose cell is not there, or whose children are not.
fn second(rt: &impl Print, property: i32, left: i32, cell: i32) {
    let _ = print!(rt;
        "second node property={property} left={left}, root cell={cell}, predict of both"
    );
    predicted(
        rt,
        &[
            0, 0, 1, 2, 0, property, 0, left, 4, 0, -1, 0, 0, 1, 2, -1, 0, 0, 1, 3, -1, 0, 0, 1, 4,
        ],
        &[cell, 0, 0, 0, 0, 0, 0, 0, 0, 0, 0, 0, 0, 0, 0, 0],
    );
}

fn seconds(rt: &impl Print) {
    second(rt, 15, 3, 1);
    second(rt, 16, 3, 1);
    second(rt, 16, 3, 0);
    second(rt, 16, 2, 1);
    second(rt, 16, 2, 0);
}

fn hops(rt: &impl Print) {
    let words = trees::full();
    walk(
        rt,
        "of 15 nodes, right each time",
        &words,
        &[0, 0, 0, 0, 0, 0, 0, 0, 0, 0, 0, 0, 0, 0, 0, 0],
    );
    walk(
        rt,
        "of 15 nodes, left each time",
        &words,
        &[1, 1, 1, 1, 1, 1, 1, 0, 0, 0, 0, 0, 0, 0, 0, 0],
    );
    walk(
        rt,
        "of 15 nodes, left, right, left",
        &words,
        &[1, 0, 0, 0, 1, 0, 0, 0, 0, 0, 0, 0, 0, 0, 0, 0],
    );
}

// The weighted predictor's guess and an offset, at the ends of 64 bits.
fn sum(rt: &impl Print, wp_pred: i64, offset: i32) {
    let _ = print!(rt; "predict, weighted {wp_pred} offset={offset}");
    let cells = [0i32; 16];
    trees::told(
        rt,
        predict(&[-1, 6, offset, 1, 0], &cells, trees::some(), wp_pred),
    );
}

fn sums(rt: &impl Print) {
    sum(rt, 9223372036854775806, 1);
    sum(rt, 9223372036854775807, 1);
    sum(rt, 9223372036854775807, 2147483647);
    sum(rt, -9223372036854775807, -1);
    sum(rt, -9223372036854775808, -1);
    sum(rt, -9223372036854775808, -2147483648);
}

pub fn run(rt: &impl Print) {
    lengths(rt);
    sides(rt);
    needs(rt);
    places(rt);
    entered(rt);
    seconds(rt);
    hops(rt);
    sums(rt);
}
