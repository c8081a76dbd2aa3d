// Ask and put: the starred pixels, the turns (13), the last row (11), the memory lent (8), what is clamped, ties of the property.
use blend::{Found, WeightedHeader};
use predict::neighbours::PredictionData;
use weighted::state::WeightedState;

pub fn none() -> Found {
    Found {
        p0: 0,
        p1: 0,
        p2: 0,
        p3: 0,
        pred: 0,
    }
}

pub fn at(width: usize, x: usize, y: usize, asked: bool) -> WeightedState {
    WeightedState {
        header: WeightedHeader::default(),
        width,
        x,
        y,
        asked,
        found: none(),
    }
}

pub fn same(v: i32) -> PredictionData {
    PredictionData {
        left: v,
        top: v,
        toptop: v,
        topleft: v,
        topright: v,
        leftleft: v,
        toprightright: v,
    }
}

fn place(rt: &impl Print, state: WeightedState) {
    let _ = print!(rt; " width={} x={} y={}", state.width, state.x, state.y);
    if state.asked {
        let _ = print!(rt; " asked");
    }
}

fn found(rt: &impl Print, guess: i64, property: i32) {
    let _ = println!(rt; ": guess {guess} property {property}");
}

pub fn ask(rt: &impl Print, state: &mut WeightedState, memory: &[u32], data: PredictionData) {
    let _ = print!(rt; "ask");
    place(rt, *state);
    match state.ask(memory, data) {
        Ok(answer) => found(rt, answer.guess, answer.property),
        Err(refusal) => print::refused(refusal),
    }
}

pub fn put(rt: &impl Print, state: &mut WeightedState, memory: &mut [u32], value: i32) {
    let _ = print!(rt; "put value={value}");
    place(rt, *state);
    match state.put(memory, value) {
        Ok(()) => {
            let _ = println!(rt; ": done");
        }
        Err(refusal) => print::refused(refusal),
    }
}

// Default header, width 4, put 10: the next guess is 10, its property -80.
fn starred(rt: &impl Print) {
    let mut memory = [0u32; 60];
    let mut state = at(4, 0, 0, false);
    ask(rt, &mut state, &memory, same(0));
    put(rt, &mut state, &mut memory, 10);
    ask(rt, &mut state, &memory, same(10));
    put(rt, &mut state, &mut memory, 10);
    ask(rt, &mut state, &memory, same(10));
}

// A state that waits for a put with a prediction that was not found by asking.
fn forged(pred: i64) -> WeightedState {
    WeightedState {
        header: WeightedHeader::default(),
        width: 4,
        x: 0,
        y: 0,
        asked: true,
        found: Found {
            p0: 0,
            p1: 0,
            p2: 0,
            p3: 0,
            pred,
        },
    }
}

// An ask where a put is due, and the other way round; a state that no ask has left.
fn turns(rt: &impl Print) {
    let mut memory = [0u32; 60];
    let mut state = at(4, 0, 0, false);
    ask(rt, &mut state, &memory, same(0));
    ask(rt, &mut state, &memory, same(0));
    put(rt, &mut at(4, 0, 0, false), &mut memory, 10);
    put(rt, &mut forged(1099511627776), &mut memory, 10);
    put(rt, &mut forged(1099511627775), &mut memory, 10);
}

// Row 2^30 is past the picture; so is a column that the width has not.
fn places(rt: &impl Print) {
    let memory = [0u32; 60];
    ask(rt, &mut at(4, 0, 1073741823, false), &memory, same(0));
    ask(rt, &mut at(4, 0, 1073741824, false), &memory, same(0));
    ask(rt, &mut at(4, 4, 0, false), &memory, same(0));
    ask(rt, &mut at(4, 0, 1073741824, true), &memory, same(0));
}

fn lent(rt: &impl Print) {
    let mut memory = [0u32; 59];
    ask(rt, &mut at(4, 0, 0, false), &memory, same(0));
    put(rt, &mut at(4, 0, 0, true), &mut memory, 0);
}

// Errors at NW, N, NE and W of column 1 in row 0, width 3: positions 0, 1, 2 of the first half, 0 of the second.
fn errors(rt: &impl Print, nw: u32, n: u32, ne: u32, w: u32) {
    let _ = print!(rt; "errors nw={nw} n={n} ne={ne} w={w} ");
    let mut memory = [0u32; 50];
    memory[0] = nw;
    memory[5] = n;
    memory[10] = ne;
    memory[25] = w;
    ask(rt, &mut at(3, 1, 0, false), &memory, same(0));
}

// Equal errors are clamped, unequal ones of a sign are not, and 0 counts as positive.
fn clamping(rt: &impl Print) {
    errors(rt, 5, 5, 5, 5);
    errors(rt, 49, 50, 50, 50);
    errors(rt, 50, 0, 50, 50);
    errors(rt, 50, 4294967246, 50, 50);
    errors(rt, 4294967246, 4294967246, 4294967246, 4294967200);
}

// The first of W, N, NW, NE with the largest magnitude: a tie keeps the earlier, and |-2^31| beats 2^31 - 1.
fn properties(rt: &impl Print) {
    errors(rt, 0, 4294967289, 0, 7);
    errors(rt, 4294967288, 4294967289, 8, 7);
    errors(rt, 0, 2147483647, 2147483648, 0);
    errors(rt, 0, 2147483648, 0, 2147483648);
}

pub fn run(rt: &impl Print) {
    starred(rt);
    turns(rt);
    places(rt);
    lent(rt);
    clamping(rt);
    properties(rt);
}
