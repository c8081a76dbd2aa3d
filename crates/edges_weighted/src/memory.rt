// What puts leave in the memory: the five words of the current position, and the sums of the next position of the other half.
use crate::pixels;

fn words(rt: &impl Print, memory: &[u32]) {
    let _ = print!(rt; "memory");
    print::naturals(memory);
    let _ = println!(rt);
}

// Width 1: each half has three positions. The second row writes the first half.
fn values(rt: &impl Print, first: i32, second: i32) {
    let mut memory = [0u32; 30];
    let mut state = pixels::at(1, 0, 0, false);
    pixels::ask(rt, &mut state, &memory, pixels::same(0));
    pixels::put(rt, &mut state, &mut memory, first);
    words(rt, &memory);
    pixels::ask(rt, &mut state, &memory, pixels::same(first));
    pixels::put(rt, &mut state, &mut memory, second);
    words(rt, &memory);
}

// The first put of -2^31 stores error 0, of 2^31 - 1 stores 8: the low 32 bits of their eightfold.
fn ends(rt: &impl Print) {
    values(rt, -2147483648, 0);
    values(rt, 2147483647, 0);
    values(rt, 10, 20);
}

// Sums that are full wrap.
fn full(rt: &impl Print) {
    let mut memory = [4294967295u32; 30];
    let mut state = pixels::at(1, 0, 0, false);
    pixels::ask(rt, &mut state, &memory, pixels::same(0));
    pixels::put(rt, &mut state, &mut memory, 10);
    words(rt, &memory);
}

pub fn run(rt: &impl Print) {
    ends(rt);
    full(rt);
}
