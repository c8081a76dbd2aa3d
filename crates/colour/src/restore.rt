// Colour restore: an operation on each triple of words, then an order of the three planes. All wrap at 32 bits.
ghost use Rattle.std.specs.Prelude.{◌≡◌, ◌≤◌, ◌<◌, length};
ghost use Rattle.colour.specs.Restore.{
  after,
  averaged,
  first,
  operate,
  outcome,
  reorder,
  second,
  third,
  Written,
};
ghost use Rattle.refusal.specs.Paper.{said};

use integer::{shift_right, wrapping_add, wrapping_sub};
use refusal::Refusal;

// A word of each plane.
#[derive(Clone, Copy, Debug, PartialEq, Eq)]
pub struct Triple {
    pub a: i32,
    pub b: i32,
    pub c: i32,
}

// The average of a and c joins b.
fn average(t: Triple) -> Triple
    ensures { result ≡ averaged t }
{
    let b = wrapping_add(t.b, shift_right(wrapping_add(t.a, t.c), 1));
    Triple { a: t.a, b, c: t.c }
}

// The operation of this number, 0..6.
fn operated(t: Triple, operation: u32) -> Triple
    ensures { result ≡ operate operation t }
{
    match operation {
        1 => {
            let c = wrapping_add(t.c, t.a);
            Triple { a: t.a, b: t.b, c }
        }
        2 => {
            let b = wrapping_add(t.b, t.a);
            Triple { a: t.a, b, c: t.c }
        }
        3 => {
            let b = wrapping_add(t.b, t.a);
            let c = wrapping_add(t.c, t.a);
            Triple { a: t.a, b, c }
        }
        4 => average(t),
        5 => {
            let c = wrapping_add(t.c, t.a);
            average(Triple { a: t.a, b: t.b, c })
        }
        6 => {
            let y = wrapping_sub(t.a, shift_right(t.c, 1));
            let g = wrapping_add(t.c, y);
            let z = wrapping_sub(y, shift_right(t.b, 1));
            Triple {
                a: wrapping_add(z, t.b),
                b: g,
                c: z,
            }
        }
        _ => t,
    }
}

// The order of this number, 0..5.
fn reordered(t: Triple, order: u32) -> Triple
    ensures { result ≡ reorder order t }
{
    match order {
        1 => Triple {
            a: t.c,
            b: t.a,
            c: t.b,
        },
        2 => Triple {
            a: t.b,
            b: t.c,
            c: t.a,
        },
        3 => Triple {
            a: t.a,
            b: t.c,
            c: t.b,
        },
        4 => Triple {
            a: t.b,
            b: t.a,
            c: t.c,
        },
        5 => Triple {
            a: t.c,
            b: t.b,
            c: t.a,
        },
        _ => t,
    }
}

// Every triple's image in place, one after the other.
fn restore_all(a: &mut [i32], b: &mut [i32], c: &mut [i32], operation: u32, order: u32)
    requires { (length b.old ≡ length a.old) × (length c.old ≡ length a.old) }
    ensures { Written operation order a.old b.old c.old a.new b.new c.new }
{
    for i in 0..a.len() {
        let t = Triple {
            a: a[i],
            b: b[i],
            c: c[i],
        };
        let image = reordered(operated(t, operation), order);
        let first = image.a;
        let second = image.b;
        let third = image.c;
        // b last: where the operation changes b alone, the compiler leaves a and c unwritten
        a[i] = first;
        c[i] = third;
        b[i] = second;
    }
}

// The same in order 0, the operation told by a literal: so the compiler makes a loop of vector code for each.
fn operate_all(a: &mut [i32], b: &mut [i32], c: &mut [i32], operation: u32)
    requires { (length b.old ≡ length a.old) × (length c.old ≡ length a.old) × (operation ≤ 6) }
    ensures { Written operation 0 a.old b.old c.old a.new b.new c.new }
{
    match operation {
        0 => {}
        // c + a is b + a with b and c exchanged
        1 => restore_all(a, c, b, 2, 0),
        2 => restore_all(a, b, c, 2, 0),
        3 => restore_all(a, b, c, 3, 0),
        4 => restore_all(a, b, c, 4, 0),
        5 => restore_all(a, b, c, 5, 0),
        _ => restore_all(a, b, c, 6, 0),
    }
}

// The order alone, told by a literal for the same reason.
fn reorder_all(a: &mut [i32], b: &mut [i32], c: &mut [i32], order: u32)
    requires { (length b.old ≡ length a.old) × (length c.old ≡ length a.old) × (order ≤ 5) }
    ensures { Written 0 order a.old b.old c.old a.new b.new c.new }
{
    match order {
        0 => {}
        1 => restore_all(a, b, c, 0, 1),
        2 => restore_all(a, b, c, 0, 2),
        3 => restore_all(a, b, c, 0, 3),
        4 => restore_all(a, b, c, 0, 4),
        _ => restore_all(a, b, c, 0, 5),
    }
}

// The operation and then the order of a part that stays in the nearest memory in between.
fn restore_part(a: &mut [i32], b: &mut [i32], c: &mut [i32], operation: u32, order: u32)
    requires { (length b.old ≡ length a.old) × (length c.old ≡ length a.old) × (operation ≤ 6) × (order ≤ 5) }
    ensures { Written operation order a.old b.old c.old a.new b.new c.new }
{
    operate_all(a, b, c, operation);
    reorder_all(a, b, c, order);
}

// The end of the part that starts here: 1024 words on, or the plane's end.
fn part_end(start: usize, n: usize) -> usize
    requires { start < n }
    ensures { (start < result) × (result ≤ n) }
{
    if n - start < 1024 { n } else { start + 1024 }
}

// Part after part.
fn restore_parts(a: &mut [i32], b: &mut [i32], c: &mut [i32], operation: u32, order: u32)
    requires { (length b.old ≡ length a.old) × (length c.old ≡ length a.old) × (operation ≤ 6) × (order ≤ 5) }
    ensures { Written operation order a.old b.old c.old a.new b.new c.new }
{
    let n = a.len();
    let mut start = 0;
    while start < n {
        let end = part_end(start, n);
        restore_part(
            &mut a[start..end],
            &mut b[start..end],
            &mut c[start..end],
            operation,
            order,
        );
        start = end;
    }
}

// One step of colour restore, in place over three planes of one length.
pub fn do_rct_step(
    a: &mut [i32],
    b: &mut [i32],
    c: &mut [i32],
    operation: u32,
    order: u32,
) -> Result<(), Refusal>
    ensures answers { said result ≡ outcome operation order a.old b.old c.old }
    ensures holds_a { a.new ≡ after first operation order a.old b.old c.old (outcome operation order a.old b.old c.old) a.old }
    ensures holds_b { b.new ≡ after second operation order a.old b.old c.old (outcome operation order a.old b.old c.old) b.old }
    ensures holds_c { c.new ≡ after third operation order a.old b.old c.old (outcome operation order a.old b.old c.old) c.old }
{
    if 6 < operation || 5 < order {
        return Err(Refusal::NoSuchColour);
    }
    if b.len() != a.len() || c.len() != a.len() {
        return Err(Refusal::WrongSize);
    }
    if order == 0 {
        operate_all(a, b, c, operation);
    } else {
        restore_parts(a, b, c, operation, order);
    }
    Ok(())
}
