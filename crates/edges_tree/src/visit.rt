// Validation: a split with an empty side (7), the work area (8), and what is left in it: its first word, its last, and one more
// that is lent beyond it.
ghost use Rattle.std.specs.Prelude.{◌≤◌};

use crate::shape;
use validation::validate_tree;

pub fn validate(rt: &impl Print, words: &[i32]) {
    let mut work = [7i32; 10763];
    shape::told(rt, validate_tree(words, &mut work));
    let _ = println!(rt;
        "; first={} last={} beyond={}",
        work[0], work[10761], work[10762]
    );
}

fn root(rt: &impl Print, value: i32) {
    let _ = print!(rt; "validate_tree of a split at={value}");
    validate(rt, &[0, value, 1, 2, 0, -1, 0, 0, 1, 0, -1, 0, 0, 1, 0]);
}

fn roots(rt: &impl Print) {
    root(rt, 2147483647);
    root(rt, 2147483646);
    root(rt, 0);
    root(rt, -2147483648);
}

// A split on property 9 at 5, and another below it: on its left, where 6 and more go, or on its right.
fn left(rt: &impl Print, property: i32, value: i32) {
    let _ = print!(rt; "validate_tree of 9 at 5, left property={property} at={value}");
    validate(
        rt,
        &[
            9, 5, 1, 2, 0, property, value, 3, 4, 0, -1, 0, 0, 1, 0, -1, 0, 0, 1, 0, -1, 0, 0, 1, 0,
        ],
    );
}

fn right(rt: &impl Print, property: i32, value: i32) {
    let _ = print!(rt; "validate_tree of 9 at 5, right property={property} at={value}");
    validate(
        rt,
        &[
            9, 5, 1, 2, 0, -1, 0, 0, 1, 0, property, value, 3, 4, 0, -1, 0, 0, 1, 0, -1, 0, 0, 1, 0,
        ],
    );
}

fn sides(rt: &impl Print) {
    left(rt, 9, 5);
    left(rt, 9, 6);
    left(rt, 9, 2147483646);
    left(rt, 9, 2147483647);
    left(rt, 255, 5);
    right(rt, 9, 5);
    right(rt, 9, 4);
    right(rt, 9, -2147483648);
    right(rt, 255, 5);
}

// Both children are splits at 5 on the same property: the left one is visited first. Each range is the path's own.
fn first(rt: &impl Print) {
    let _ = print!(rt; "validate_tree of 9 at 5, left and right at 5");
    validate(
        rt,
        &[
            9, 5, 1, 2, 0, 9, 5, 3, 4, 0, 9, 5, 5, 6, 0, -1, 0, 0, 1, 0, -1, 0, 0, 1, 0, -1, 0, 0,
            1, 0, -1, 0, 0, 1, 0,
        ],
    );
    let _ = print!(rt; "validate_tree of 9 at 5, left at 6, right at 4");
    validate(
        rt,
        &[
            9, 5, 1, 2, 0, 9, 6, 3, 4, 0, 9, 4, 5, 6, 0, -1, 0, 0, 1, 0, -1, 0, 0, 1, 0, -1, 0, 0,
            1, 0, -1, 0, 0, 1, 0,
        ],
    );
}

// The shape is tested first, and then the work area's length, for which an empty list has no need.
fn refused(rt: &impl Print) {
    let leaves = [-1, 0, 0, 1, 0, -1, 0, 0, 1, 0];
    let _ = print!(rt; "validate_tree of no nodes");
    validate(rt, &leaves[..0]);
    let _ = print!(rt; "validate_tree of a leaf");
    validate(rt, &leaves[..5]);
    let _ = print!(rt; "validate_tree of two leaves");
    validate(rt, &leaves);
    let _ = print!(rt; "validate_tree of four words");
    validate(rt, &leaves[..4]);
    let _ = print!(rt; "validate_tree of a predictor 14");
    validate(rt, &[-1, 14, 0, 1, 0]);
}

// With so many words lent of a work area that is just long enough.
fn lent(rt: &impl Print, name: &str, words: &[i32], lent: usize)
    requires { lent ≤ 10762 }
{
    let _ = print!(rt; "validate_tree {name} lent={lent}");
    let mut work = [7i32; 10762];
    shape::told(rt, validate_tree(words, &mut work[..lent]));
    let _ = println!(rt; "; first={} last={}", work[0], work[10761]);
}

fn short(rt: &impl Print) {
    let leaves = [-1, 0, 0, 1, 0, -1, 0, 0, 1, 0];
    lent(rt, "of no nodes", &leaves[..0], 0);
    lent(rt, "of two leaves", &leaves, 0);
    lent(rt, "of a leaf", &leaves[..5], 0);
    lent(rt, "of a leaf", &leaves[..5], 10761);
    lent(rt, "of a leaf", &leaves[..5], 10762);
}

pub fn run(rt: &impl Print) {
    roots(rt);
    sides(rt);
    first(rt);
    refused(rt);
    short(rt);
}
