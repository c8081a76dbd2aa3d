// The four sub-predictions, in eighths. Each private contract says how large its result is, so that no operation wraps.
ghost use Rattle.std.specs.Prelude.{◌≡◌, true, ◌+◌, ◌*◌, ◌≤◌, ◌<◌, ◌^◌, ◌+ℤ◌, ◌-ℤ◌, ◌*ℤ◌, pos};
ghost use Rattle.std.specs.Int.Signed.{mag};
ghost use Rattle.blend.specs.Blend.{in_range, eighths, share, weighed_errors, weighed_steps, sub3};

use crate::{TrueErrors, WeightedHeader};
use predict::neighbours::PredictionData;

// A value in eighths.
pub fn add_bits(x: i32) -> i64
    ensures value { result ≡ eighths x }
    ensures small { mag result < 2 ^ 34 }
{
    8 * x as i64
}

// W + NE - N.
pub fn gradient(data: PredictionData) -> i64
    ensures value { result ≡ eighths «data».left +ℤ eighths «data».topright -ℤ eighths «data».top }
    ensures small { mag result < 2 ^ 37 }
{
    add_bits(data.left) + add_bits(data.topright) - add_bits(data.top)
}

// A number times a factor of at most 31.
pub fn times(x: i64, factor: u32) -> i64
    requires small { mag x < 2 ^ 37 }
    requires factor { factor ≤ 31 }
    ensures value { result ≡ x *ℤ pos factor }
    ensures small { mag result ≤ 31 * (mag x + 1) }
{
    x * factor as i64
}

// A value less its share of three errors.
pub fn corrected(value: i32, a: i32, b: i32, c: i32, factor: u32) -> i64
    requires { factor ≤ 31 }
    ensures value { result ≡ eighths value -ℤ share a b c factor }
    ensures small { mag result < 2 ^ 37 }
{
    add_bits(value) - (times(a as i64 + b as i64 + c as i64, factor) >> 5)
}

// Three errors, each times its factor.
pub fn weighed_errors(errors: TrueErrors, a: u32, b: u32, c: u32) -> i64
    requires a { a ≤ 31 }
    requires b { b ≤ 31 }
    requires c { c ≤ 31 }
    ensures value { result ≡ weighed_errors errors a b c }
    ensures small { mag result < 2 ^ 38 }
{
    times(errors.nw as i64, a) + times(errors.n as i64, b) + times(errors.ne as i64, c)
}

// The steps from N to NN and from W to NW, each times its factor.
pub fn weighed_steps(data: PredictionData, a: u32, b: u32) -> i64
    requires a { a ≤ 31 }
    requires b { b ≤ 31 }
    ensures value { result ≡ weighed_steps «data» a b }
    ensures small { mag result < 2 ^ 41 }
{
    let n = add_bits(data.top);
    let w = add_bits(data.left);
    let nw = add_bits(data.topleft);
    let nn = add_bits(data.toptop);
    times(nn - n, a) + times(nw - w, b)
}

// N less a share of the weighed errors and steps.
#[tactic(auto, using(crate::proofs::Range::ranges))]
pub fn weighed(header: WeightedHeader, data: PredictionData, errors: TrueErrors) -> i64
    requires { in_range header ≡ true }
    ensures value { result ≡ sub3 header «data» errors }
    ensures small { mag result < 2 ^ 37 }
{
    let n = add_bits(data.top);
    let by_errors = weighed_errors(errors, header.p3ca, header.p3cb, header.p3cc);
    let by_steps = weighed_steps(data, header.p3cd, header.p3ce);
    n - ((by_errors + by_steps) >> 5)
}
