// The flat walk: the same tests over records. A split record reads both children's properties, also the one that it does not
// lead through, so that it can give 10 where the direct walk answers.
ghost use Rattle.std.specs.Prelude.{◌≤◌, length};

use crate::trees;
use flat::predict_flat;
use flatten::build_flat_tree;

fn predicted(rt: &impl Print, words: &[i32], cells: &[i32]) {
    trees::told(rt, predict_flat(words, cells, trees::some(), 1000));
}

// Of 17 cells, all 0, so many are lent.
fn lent(rt: &impl Print, name: &str, words: &[i32], lent: usize)
    requires { lent ≤ 17 }
{
    let _ = print!(rt; "predict_flat {name} cells={lent}");
    let cells = [0i32; 17];
    predicted(rt, words, &cells[..lent]);
}

fn lengths(rt: &impl Print) {
    let leaf = [-1, 5, -1, 0, -2, 65506];
    lent(rt, "of no records", &leaf[..0], 16);
    lent(rt, "of no records", &leaf[..0], 0);
    lent(rt, "of five words", &leaf[..5], 0);
    lent(rt, "of a leaf", &leaf, 15);
    lent(rt, "of a leaf", &leaf, 16);
}

fn leaf(rt: &impl Print, first: i32, predictor: i32, none: i32, last: i32) {
    let _ = print!(rt; "leaf first={first} predictor={predictor} fourth={none} last={last}, ");
    lent(rt, "of it", &[first, predictor, 1, none, 0, last], 16);
}

// Predictor Zero, so that the guess is the offset.
fn leaves(rt: &impl Print) {
    leaf(rt, -1, 0, 0, 32767);
    leaf(rt, -1, 0, 0, 32768);
    leaf(rt, -1, 0, 0, 65533);
    leaf(rt, -1, 0, 0, 65535);
    leaf(rt, -1, 0, 0, 65536);
    leaf(rt, -1, 0, 0, -1);
    leaf(rt, -1, 0, 1, 0);
    leaf(rt, -1, 13, 0, 0);
    leaf(rt, -1, 14, 0, 0);
    leaf(rt, -1, -1, 0, 0);
    leaf(rt, -2, 0, 0, 0);
}

// A split record of value 0 and four leaves, contexts 1 to 4.
fn walk(rt: &impl Print, property: i32, first: i32, last: i32, cells: &[i32]) {
    let _ = print!(rt;
        "predict_flat property={property} first={first} last={last} cells={}",
        cells.len()
    );
    predicted(
        rt,
        &[
            property, 0, 0, 0, first, last, -1, 0, 1, 0, 1, 0, -1, 0, 1, 0, 2, 0, -1, 0, 1, 0, 3,
            0, -1, 0, 1, 0, 4, 0,
        ],
        cells,
    );
}

// Cell 2 chooses, then cell 0 on the left or cell 1 on the right.
fn choose(rt: &impl Print, root: i32, left: i32, right: i32) {
    let _ = print!(rt; "root cell={root}, left cell={left}, right cell={right}, ");
    walk(
        rt,
        2,
        1,
        65536,
        &[left, right, root, 0, 0, 0, 0, 0, 0, 0, 0, 0, 0, 0, 0, 0],
    );
}

fn grandchildren(rt: &impl Print) {
    choose(rt, 1, 1, 0);
    choose(rt, 1, 0, 1);
    choose(rt, 0, 0, 1);
    choose(rt, 0, 1, 0);
}

fn at(rt: &impl Print, property: i32, first: i32, last: i32, lent: usize)
    requires { lent ≤ 17 }
{
    let cells = [0i32; 17];
    walk(rt, property, first, last, &cells[..lent]);
}

// Four grandchildren later and inside: 4; the first of them and three more are taken without wrapping.
fn places(rt: &impl Print) {
    at(rt, 0, 1, 0, 16);
    at(rt, 0, 2, 0, 16);
    at(rt, 0, 0, 0, 16);
    at(rt, 0, -1, 0, 16);
    at(rt, 0, -4, 0, 16);
    at(rt, 0, 2147483647, 0, 16);
}

// The first grandchild is a split record too, at place 1 of 5.
fn second(rt: &impl Print, property: i32, first: i32) {
    let _ = print!(rt; "second record property={property} first={first}, predict_flat of both");
    predicted(
        rt,
        &[
            0, 0, 0, 0, 1, 0, property, 0, 0, 0, first, 0, -1, 0, 1, 0, 2, 0, -1, 0, 1, 0, 3, 0,
            -1, 0, 1, 0, 4, 0,
        ],
        &[1, 0, 0, 0, 0, 0, 0, 0, 0, 0, 0, 0, 0, 0, 0, 0],
    );
}

fn seconds(rt: &impl Print) {
    second(rt, 0, 1);
    second(rt, 0, 2);
    second(rt, 256, 2);
}

// The largest of the three properties counts: 10. 3 before 4 before 10.
fn needs(rt: &impl Print) {
    at(rt, 15, 1, 983055, 16);
    at(rt, 16, 1, 0, 16);
    at(rt, 16, 1, 0, 17);
    at(rt, 0, 1, 16, 16);
    at(rt, 0, 1, 1048576, 16);
    at(rt, 0, 1, 1048576, 17);
    at(rt, 16, 1, 13041919, 16);
    at(rt, 255, 1, 16711935, 16);
    at(rt, 256, 1, 0, 16);
    at(rt, 0, 1, 256, 16);
    at(rt, 0, 1, 16777216, 16);
    at(rt, 16, 2, 0, 16);
    at(rt, 256, 2, 0, 16);
    at(rt, -2, 1, 0, 16);
}

// Over the 21 records of 15 nodes.
fn first_of(rt: &impl Print, output: &[i32], cells: &[i32])
    requires { 126 ≤ length output.now }
{
    predicted(rt, &output[..126], cells);
}

fn flattened(rt: &impl Print, name: &str, words: &[i32], cells: &[i32]) {
    let mut ring = [0i32; 16];
    let mut output = [0i32; 174];
    let _ = build_flat_tree(words, &mut ring, &mut output);
    let _ = print!(rt; "predict_flat {name}");
    first_of(rt, &output, cells);
}

// Half the direct walk's hops, rounded up.
fn hops(rt: &impl Print) {
    let words = trees::full();
    flattened(
        rt,
        "of 15 nodes, right each time",
        &words,
        &[0, 0, 0, 0, 0, 0, 0, 0, 0, 0, 0, 0, 0, 0, 0, 0],
    );
    flattened(
        rt,
        "of 15 nodes, left each time",
        &words,
        &[1, 1, 1, 1, 1, 1, 1, 0, 0, 0, 0, 0, 0, 0, 0, 0],
    );
    flattened(
        rt,
        "of 15 nodes, left, right, left",
        &words,
        &[1, 0, 0, 0, 1, 0, 0, 0, 0, 0, 0, 0, 0, 0, 0, 0],
    );
}

// The weighted predictor's guess and an offset, at the ends of 64 bits.
fn sum(rt: &impl Print, wp_pred: i64, offset: i32) {
    let _ = print!(rt; "predict_flat, weighted {wp_pred} offset={offset}");
    let cells = [0i32; 16];
    trees::told(
        rt,
        predict_flat(&[-1, 6, 1, 0, 0, offset], &cells, trees::some(), wp_pred),
    );
}

fn sums(rt: &impl Print) {
    sum(rt, 9223372036854775806, 1);
    sum(rt, 9223372036854775807, 1);
    sum(rt, 9223372036854775807, 32767);
    sum(rt, -9223372036854775807, 65535);
    sum(rt, -9223372036854775808, 65535);
    sum(rt, -9223372036854775808, 32768);
}

pub fn run(rt: &impl Print) {
    lengths(rt);
    leaves(rt);
    grandchildren(rt);
    places(rt);
    seconds(rt);
    needs(rt);
    hops(rt);
    sums(rt);
}
