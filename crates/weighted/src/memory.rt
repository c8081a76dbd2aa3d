// The lent memory: two halves of width + 2 positions of five words, a signed error and four unsigned sums. Odd rows write the
// first half. Nothing here is for callers: they go by the state.
ghost use Rattle.std.specs.Prelude.{◌≡◌, ◌+◌, ◌*◌, ◌%◌, ◌≤◌, ◌<◌, ◌^◌, length};
ghost use Rattle.weighted.specs.Memory.{
  needed,
  current,
  previous,
  error_at,
  words_added,
  errors_read,
  sums_read,
  stored,
  added,
  updated,
};

use arith::Four;
use blend::{PixelErrors, TrueErrors};
use integer::{from_bits, to_bits};

// Where the half begins that row y writes.
fn current_half(width: usize, y: usize) -> usize
    requires { width ≤ 65536 }
    ensures { result ≡ current width y }
{
    if y % 2 == 0 { width + 2 } else { 0 }
}

// Where the half begins that the row above y wrote.
fn previous_half(width: usize, y: usize) -> usize
    requires { width ≤ 65536 }
    ensures { result ≡ previous width y }
{
    if y % 2 == 0 { 0 } else { width + 2 }
}

fn error_at(memory: &[u32], k: usize) -> i32
    requires { (5 * k < length memory.now) × (k < 2 ^ 18) }
    ensures { result ≡ error_at memory.now k }
{
    from_bits(memory[5 * k])
}

// Word i of three positions, added.
fn add_three(memory: &[u32], a: usize, b: usize, c: usize, i: usize) -> u32
    requires { (5 * a + i < length memory.now) × (5 * b + i < length memory.now) × (5 * c + i < length memory.now) × (a < 2 ^ 18) × (b < 2 ^ 18) × (c < 2 ^ 18) × (i < 5) }
    ensures { result ≡ words_added memory.now a b c i }
{
    let sum = memory[5 * a + i] as u64 + memory[5 * b + i] as u64 + memory[5 * c + i] as u64;
    (sum % 4294967296) as u32
}

// The true errors around column x of row y.
pub fn errors_around(memory: &[u32], width: usize, x: usize, y: usize) -> TrueErrors
    requires { (width ≤ 65536) × (x < width) × (needed width ≤ length memory.now) }
    ensures { result ≡ errors_read memory.now width x y }
{
    let n = previous_half(width, y) + x;
    let ne = if x + 1 < width { n + 1 } else { n };
    if 0 < x {
        TrueErrors {
            w: error_at(memory, current_half(width, y) + x - 1),
            n: error_at(memory, n),
            nw: error_at(memory, n - 1),
            ne: error_at(memory, ne),
        }
    } else {
        let error = error_at(memory, n);
        TrueErrors {
            w: 0,
            n: error,
            nw: error,
            ne: error_at(memory, ne),
        }
    }
}

// The sums of each sub-predictor's errors around column x of row y.
pub fn sums_around(memory: &[u32], width: usize, x: usize, y: usize) -> Four
    requires { (width ≤ 65536) × (x < width) × (needed width ≤ length memory.now) }
    ensures { result ≡ sums_read memory.now width x y }
{
    let n = previous_half(width, y) + x;
    let ne = if x + 1 < width { n + 1 } else { n };
    let nw = if 0 < x { n - 1 } else { n };
    Four {
        e0: add_three(memory, n, ne, nw, 1),
        e1: add_three(memory, n, ne, nw, 2),
        e2: add_three(memory, n, ne, nw, 3),
        e3: add_three(memory, n, ne, nw, 4),
    }
}

fn store(memory: &mut [u32], k: usize, errors: PixelErrors)
    requires { (5 * k + 4 < length memory.old) × (k < 2 ^ 18) }
    ensures { memory.new ≡ stored memory.old k errors }
{
    let sub = errors.sub;
    let first = 5 * k;
    memory[first] = to_bits(errors.error);
    memory[first + 1] = sub.e0;
    memory[first + 2] = sub.e1;
    memory[first + 3] = sub.e2;
    memory[first + 4] = sub.e3;
}

// a + b in 32 bits.
fn wrapped_sum(a: u32, b: u32) -> u32
    ensures { result ≡ (a + b) % 2 ^ 32 }
{
    ((a as u64 + b as u64) % 4294967296) as u32
}

fn add(memory: &mut [u32], k: usize, sub: Four)
    requires { (5 * k + 4 < length memory.old) × (k < 2 ^ 18) }
    ensures { memory.new ≡ added memory.old k sub }
{
    let first = 5 * k;
    let sum0 = wrapped_sum(memory[first + 1], sub.e0);
    let sum1 = wrapped_sum(memory[first + 2], sub.e1);
    let sum2 = wrapped_sum(memory[first + 3], sub.e2);
    let sum3 = wrapped_sum(memory[first + 4], sub.e3);
    memory[first + 1] = sum0;
    memory[first + 2] = sum1;
    memory[first + 3] = sum2;
    memory[first + 4] = sum3;
}

// What a pixel's errors leave in the memory.
pub fn update(memory: &mut [u32], width: usize, x: usize, y: usize, errors: PixelErrors)
    requires { (width ≤ 65536) × (x < width) × (needed width ≤ length memory.old) }
    ensures { memory.new ≡ updated memory.old width x y errors }
{
    let here = current_half(width, y) + x;
    let next = previous_half(width, y) + x + 1;
    store(memory, here, errors);
    add(memory, next, errors.sub);
}
