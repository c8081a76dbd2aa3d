// The shape: 1, then 3 and 4 by place, 3 before 4 at one place; the empty list passes.
use refusal::{Refusal, Side};
use validation::check_shape;

fn side(rt: &impl Print, side: Side) {
    let _ = print!(rt;
        ": refused 7 ({}, property {}, value {}, low {}, high {})",
        side.place, side.property, side.value, side.low, side.high
    );
}

fn refused(rt: &impl Print, refusal: Refusal) {
    match refusal {
        Refusal::EmptySide(given) => side(rt, given),
        _ => print::refusal(refusal),
    }
}

pub fn told(rt: &impl Print, verdict: Result<(), Refusal>) {
    match verdict {
        Ok(()) => {
            let _ = print!(rt; ": accepted");
        }
        Err(refusal) => refused(rt, refusal),
    }
}

fn shape(rt: &impl Print, name: &str, words: &[i32]) {
    let _ = print!(rt; "check_shape {name}");
    told(rt, check_shape(words));
    let _ = println!(rt);
}

fn counts(rt: &impl Print) {
    let leaf = [-1, 13, 0, 1, 0];
    shape(rt, "of no words", &leaf[..0]);
    shape(rt, "of four words", &leaf[..4]);
    shape(rt, "of a leaf", &leaf);
    shape(rt, "of six words", &[-1, 13, 0, 1, 0, -1]);
}

fn lengths(rt: &impl Print) {
    shape(rt, "of two leaves", &[-1, 0, 0, 1, 0, -1, 0, 0, 1, 0]);
    shape(rt, "of a split alone", &[0, 0, 1, 2, 0]);
    shape(
        rt,
        "of a split and one leaf",
        &[0, 0, 1, 2, 0, -1, 0, 0, 1, 0],
    );
    shape(
        rt,
        "of a split and two leaves",
        &[0, 0, 1, 2, 0, -1, 0, 0, 1, 0, -1, 0, 0, 1, 0],
    );
    shape(
        rt,
        "of a split and three leaves",
        &[
            0, 0, 1, 2, 0, -1, 0, 0, 1, 0, -1, 0, 0, 1, 0, -1, 0, 0, 1, 0,
        ],
    );
}

fn children(rt: &impl Print, left: i32, right: i32) {
    let _ = print!(rt; "check_shape left={left} right={right}");
    let words = [0, 0, left, right, 0, -1, 0, 0, 1, 0, -1, 0, 0, 1, 0];
    told(rt, check_shape(&words));
    let _ = println!(rt);
}

fn places(rt: &impl Print) {
    children(rt, 1, 2);
    children(rt, 2, 1);
    children(rt, 1, 3);
    children(rt, 0, 2);
    children(rt, 1, 1);
    children(rt, -1, 2);
    children(rt, -1, 0);
}

// 3 before 4 at one place, and the lower place before either.
fn order(rt: &impl Print) {
    shape(
        rt,
        "of a split out of place and a predictor 14",
        &[0, 0, 2, 1, 0, -1, 14, 0, 1, 0, -1, 0, 0, 1, 0],
    );
    shape(
        rt,
        "of a predictor 14 and a split out of place",
        &[0, 0, 1, 2, 0, -1, 14, 0, 1, 0, 0, 0, 4, 3, 0],
    );
    shape(
        rt,
        "of a split out of place that ends in 1",
        &[0, 0, 2, 1, 1, -1, 0, 0, 1, 0, -1, 0, 0, 1, 0],
    );
    shape(
        rt,
        "of a leaf and a predictor 14",
        &[-1, 0, 0, 1, 0, -1, 14, 0, 1, 0],
    );
    shape(
        rt,
        "of two leaves and a word",
        &[-1, 0, 0, 1, 0, -1, 0, 0, 1, 0, 0],
    );
}

pub fn run(rt: &impl Print) {
    counts(rt);
    lengths(rt);
    places(rt);
    order(rt);
}
