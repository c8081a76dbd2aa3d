// Module 4, the arithmetic of one pixel: four sub-predictions, their weighted average, the property, and the errors that the
// pixel's true value leaves. Predictions and true errors are in eighths. The crate `weighted` has the place and the memory.
#![tactic(auto)]

mod averaging;
mod sub_predictions;

ghost use Rattle.std.specs.Prelude.{◌≡◌, true, ◌<◌, ◌^◌};
ghost use Rattle.std.specs.Int.Signed.{mag};
ghost use Rattle.blend.specs.Blend.{
  in_range,
  defaults,
  farther,
  property_of,
  found,
  prediction,
  sub_error,
  within,
  possible,
  errors_of,
  leaves,
};
ghost use Rattle.refusal.specs.Paper.{said};

use crate::averaging::{normalise, settled, weighted_average, weights};
use crate::sub_predictions::{add_bits, corrected, gradient, weighed};
use arith::Four;
use integer::low_word;
use predict::neighbours::PredictionData;
use refusal::Refusal;

// The eleven values of the weighted header: p1c to p3ce are 0..31, w0 to w3 0..15.
#[derive(Clone, Copy, Debug, PartialEq, Eq)]
pub struct WeightedHeader {
    pub p1c: u32,
    pub p2c: u32,
    pub p3ca: u32,
    pub p3cb: u32,
    pub p3cc: u32,
    pub p3cd: u32,
    pub p3ce: u32,
    pub w0: u32,
    pub w1: u32,
    pub w2: u32,
    pub w3: u32,
}

// The true errors of four neighbours: prediction less value, in eighths.
#[derive(Clone, Copy, Debug, PartialEq, Eq)]
pub struct TrueErrors {
    pub w: i32,
    pub n: i32,
    pub nw: i32,
    pub ne: i32,
}

// The four sub-predictions and what they blend to, in eighths.
#[derive(Clone, Copy, Debug, PartialEq, Eq)]
pub struct Found {
    pub p0: i64,
    pub p1: i64,
    pub p2: i64,
    pub p3: i64,
    pub pred: i64,
}

#[derive(Clone, Copy, Debug, PartialEq, Eq)]
pub struct Prediction {
    pub found: Found,
    pub guess: i64,
    pub property: i32,
}

// What a pixel's true value leaves: its true error, and the error of each sub-prediction.
#[derive(Clone, Copy, Debug, PartialEq, Eq)]
pub struct PixelErrors {
    pub error: i32,
    pub sub: Four,
}

impl Default for WeightedHeader {
    ghost is_default = { λ header. header ≡ defaults };

    fn default() -> WeightedHeader {
        WeightedHeader {
            p1c: 16,
            p2c: 10,
            p3ca: 7,
            p3cb: 7,
            p3cc: 7,
            p3cd: 0,
            p3ce: 0,
            w0: 13,
            w1: 12,
            w2: 12,
            w3: 12,
        }
    }
}

impl WeightedHeader {
    // Whether each value is in its range.
    #[tactic(auto, unfolding(crate::specs::Blend::in_range))]
    pub fn in_range(self) -> bool
        ensures { result ≡ in_range self }
    {
        self.p1c <= 31
            && self.p2c <= 31
            && self.p3ca <= 31
            && self.p3cb <= 31
            && self.p3cc <= 31
            && self.p3cd <= 31
            && self.p3ce <= 31
            && self.w0 <= 15
            && self.w1 <= 15
            && self.w2 <= 15
            && self.w3 <= 15
    }
}

// The second only if it lies farther from 0.
fn farther_of(p: i32, q: i32) -> i32
    ensures { result ≡ farther p q }
{
    if p.unsigned_abs() < q.unsigned_abs() {
        q
    } else {
        p
    }
}

// The first of W, N, NW, NE with the largest magnitude.
fn property(errors: TrueErrors) -> i32
    ensures { result ≡ property_of errors }
{
    let n = farther_of(errors.w, errors.n);
    let nw = farther_of(n, errors.nw);
    farther_of(nw, errors.ne)
}

// The four sub-predictions and what they blend to.
#[tactic(auto, using(crate::proofs::Range::ranges))]
fn find(header: WeightedHeader, data: PredictionData, errors: TrueErrors, sums: Four) -> Found
    requires { in_range header ≡ true }
    ensures found { result ≡ found header «data» errors sums }
    ensures small { mag result.pred < 2 ^ 41 }
{
    let p0 = gradient(data);
    let p1 = corrected(data.top, errors.n, errors.w, errors.ne, header.p1c);
    let p2 = corrected(data.left, errors.n, errors.w, errors.nw, header.p2c);
    let p3 = weighed(header, data, errors);
    let average = weighted_average(p0, p1, p2, p3, normalise(weights(header, sums)));
    Found {
        p0,
        p1,
        p2,
        p3,
        pred: settled(average, data, errors),
    }
}

// What is found for a pixel from its neighbours, their true errors and the sums of each sub-predictor's errors.
pub fn predict_and_property(
    header: WeightedHeader,
    data: PredictionData,
    errors: TrueErrors,
    sums: Four,
) -> Result<Prediction, Refusal>
    ensures { said result ≡ prediction header «data» errors sums }
{
    if !header.in_range() {
        return Err(Refusal::HeaderRange);
    }
    let found = find(header, data, errors, sums);
    Ok(Prediction {
        found,
        guess: (found.pred + 3) >> 3,
        property: property(errors),
    })
}

fn is_within(z: i64) -> bool
    ensures { result ≡ within z }
{
    -1099511627776 <= z && z < 1099511627776
}

impl Found {
    // Whether asking can have found these.
    #[tactic(auto, using(crate::proofs::Sizes::back64), unfolding(crate::specs::Blend::possible))]
    pub fn possible(self) -> bool
        ensures { result ≡ possible self }
    {
        is_within(self.p0)
            && is_within(self.p1)
            && is_within(self.p2)
            && is_within(self.p3)
            && is_within(self.pred)
    }
}

// How far a sub-prediction lay from the value, in whole units: the low 32 bits.
#[tactic(auto, using(crate::proofs::Sizes::back64))]
fn sub_error(p: i64, value: i32) -> u32
    requires { mag p < 2 ^ 40 }
    ensures { result ≡ sub_error p value }
{
    let apart = (p - add_bits(value)).unsigned_abs();
    (((apart + 3) >> 3) % 4294967296) as u32
}

// What the pixel's true value leaves of what asking can have found.
fn errors_from(found: Found, value: i32) -> PixelErrors
    requires p0 { mag found.p0 < 2 ^ 40 }
    requires p1 { mag found.p1 < 2 ^ 40 }
    requires p2 { mag found.p2 < 2 ^ 40 }
    requires p3 { mag found.p3 < 2 ^ 40 }
    requires pred { mag found.pred < 2 ^ 40 }
    ensures { result ≡ errors_of found value }
{
    PixelErrors {
        error: low_word(found.pred - add_bits(value)),
        sub: Four {
            e0: sub_error(found.p0, value),
            e1: sub_error(found.p1, value),
            e2: sub_error(found.p2, value),
            e3: sub_error(found.p3, value),
        },
    }
}

// The same; 13 for what no asking can have found.
#[tactic(auto, using(crate::proofs::Range::all_within))]
pub fn errors_of(found: Found, value: i32) -> Result<PixelErrors, Refusal>
    ensures { said result ≡ leaves found value }
{
    if !found.possible() {
        return Err(Refusal::OutOfTurn);
    }
    Ok(errors_from(found, value))
}
