// 32-bit words: where a sum, a difference or a magnitude wraps, and how far a shift goes.

fn low_words(rt: &impl Print) {
    for x in [
        2147483647,
        2147483648,
        -2147483648,
        -2147483649,
        4294967295,
        4294967296,
        9223372036854775807,
        -9223372036854775808,
    ] {
        let _ = println!(rt; "low_word {x}: {}", integer::low_word(x));
    }
}

fn sums(rt: &impl Print) {
    for (a, b) in [
        (2147483646, 1),
        (2147483647, 1),
        (2147483647, 2147483647),
        (-2147483647, -1),
        (-2147483648, -1),
        (-2147483648, -2147483648),
    ] {
        let _ = println!(rt; "wrapping_add {a} + {b}: {}", integer::wrapping_add(a, b));
    }
}

fn differences(rt: &impl Print) {
    for (a, b) in [
        (-2147483647, 1),
        (-2147483648, 1),
        (2147483646, -1),
        (2147483647, -1),
        (0, -2147483648),
        (-2147483648, 2147483647),
    ] {
        let _ = println!(rt; "wrapping_sub {a} - {b}: {}", integer::wrapping_sub(a, b));
    }
}

fn magnitudes(rt: &impl Print) {
    for a in [0, -1, 2147483647, -2147483647, -2147483648] {
        let _ = println!(rt; "wrapping_abs {a}: {}", integer::wrapping_abs(a));
    }
}

// From a shift of 32 on nothing but the sign is left.
fn shifts(rt: &impl Print) {
    for (a, k) in [
        (-1, 1),
        (-3, 1),
        (3, 1),
        (-2147483648, 0),
        (-2147483648, 30),
        (-2147483648, 31),
        (2147483647, 31),
        (-2147483648, 32),
        (2147483647, 32),
        (-2147483648, 40),
        (2147483647, 40),
        (-2147483648, 4294967295),
    ] {
        let _ = println!(rt; "shift_right {a} by {k}: {}", integer::shift_right(a, k));
    }
}

fn patterns(rt: &impl Print) {
    for a in [0, -1, 2147483647, -2147483648] {
        let _ = println!(rt; "to_bits {a}: {}", integer::to_bits(a));
    }
    for bits in [0, 2147483647, 2147483648, 4294967295] {
        let _ = println!(rt; "from_bits {bits}: {}", integer::from_bits(bits));
    }
}

fn orders(rt: &impl Print) {
    let pairs = [
        (-1, 0),
        (0, -1),
        (-9223372036854775808, 9223372036854775807),
    ];
    for (a, b) in pairs {
        let _ = println!(rt; "min {a} {b}: {}", integer::min(a, b));
    }
    for (a, b) in pairs {
        let _ = println!(rt; "max {a} {b}: {}", integer::max(a, b));
    }
}

pub fn run(rt: &impl Print) {
    low_words(rt);
    sums(rt);
    differences(rt);
    magnitudes(rt);
    shifts(rt);
    patterns(rt);
    orders(rt);
}
