// Module 1: the highest set bit, the division lookup, the weight of an error.

fn floor_logs(rt: &impl Print) {
    for x in [
        0,
        1,
        2,
        4294967295,
        4294967296,
        9223372036854775807,
        9223372036854775808,
        18446744073709551615,
    ] {
        let _ = println!(rt; "floor_log2_nonzero {x}: {}", arith::floor_log2_nonzero(x));
    }
}

// The index counts modulo 64: 64 is 0 again.
fn entries(rt: &impl Print) {
    for index in [0, 1, 62, 63, 64, 4294967295] {
        let _ = println!(rt; "division_entry {index}: {}", arith::division_entry(index));
    }
}

fn error_weight(rt: &impl Print, x: u32, m: u32) {
    let _ = print!(rt; "error_weight x={x} m={m}");
    match arith::error_weight(x, m) {
        Ok(weight) => {
            let _ = println!(rt; ": {weight}");
        }
        Err(refusal) => print::refused(refusal),
    }
}

// Document 01's five, and the neighbours of 31, where the shift begins.
fn paper_weights(rt: &impl Print) {
    for x in [0, 30, 31, 32, 62, 63, 4294967294, 4294967295] {
        error_weight(rt, x, 13);
    }
}

// The range of m.
fn limits(rt: &impl Print) {
    for (x, m) in [
        (0, 0),
        (0, 15),
        (4294967295, 15),
        (0, 16),
        (4294967295, 16),
        (31, 4294967295),
    ] {
        error_weight(rt, x, m);
    }
}

pub fn run(rt: &impl Print) {
    floor_logs(rt);
    entries(rt);
    paper_weights(rt);
    limits(rt);
}
