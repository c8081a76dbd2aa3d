// The weights of the sub-predictions, their average, and when it is clamped.
ghost use Rattle.std.specs.Prelude.{◌≡◌, true, ◌≤◌, ◌<◌, ◌^◌};
ghost use Rattle.std.specs.Int.Signed.{mag};
ghost use Rattle.integer.specs.Order.{if};
ghost use Rattle.blend.specs.Blend.{
  in_range,
  weights_for,
  Light,
  Small,
  total,
  average_by,
  normalised,
  least,
  most,
  agree,
  clamped_to,
};

use crate::sub_predictions::{add_bits, times};
use crate::{TrueErrors, WeightedHeader};
use arith::{Four, division_entry, error_weights, floor_log2_nonzero};
use predict::neighbours::PredictionData;

// What the error sums leave of the header's w values.
pub fn weights(header: WeightedHeader, sums: Four) -> Four
    requires { in_range header ≡ true }
    ensures { result ≡ weights_for header sums }
{
    let maxweights = Four {
        e0: header.w0,
        e1: header.w1,
        e2: header.w2,
        e3: header.w3,
    };
    // a header in range is not refused
    error_weights(sums, maxweights).unwrap_or(sums)
}

// The weights shifted so that they sum to 13..31.
#[tactic(auto, using(crate::proofs::Average::log_bounds), unfolding(crate::specs::Blend::normalised))]
pub fn normalise(weights: Four) -> Four
    requires { Light weights }
    ensures { result ≡ normalised weights }
{
    let sum = weights.e0 + weights.e1 + weights.e2 + weights.e3;
    let shift = floor_log2_nonzero(sum as u64) - 4;
    Four {
        e0: weights.e0 >> shift,
        e1: weights.e1 >> shift,
        e2: weights.e2 >> shift,
        e3: weights.e3 >> shift,
    }
}

// The average of the four sub-predictions by such weights.
pub fn weighted_average(p0: i64, p1: i64, p2: i64, p3: i64, weights: Four) -> i64
    requires small { Small p0 p1 p2 p3 }
    requires at_least { 13 ≤ total weights }
    requires at_most { total weights ≤ 31 }
    ensures value { result ≡ average_by weights p0 p1 p2 p3 }
    ensures small { mag result < 2 ^ 39 }
{
    let weight_sum = weights.e0 + weights.e1 + weights.e2 + weights.e3;
    let entry = division_entry(weight_sum - 1);
    let sum = (weight_sum / 2 - 1) as i64
        + times(p0, weights.e0)
        + times(p1, weights.e1)
        + times(p2, weights.e2)
        + times(p3, weights.e3);
    (sum * entry as i64) >> 24
}

// The least of three.
#[tactic(auto, using(crate::proofs::Sizes::chosen))]
pub fn least(a: i64, b: i64, c: i64) -> i64
    ensures { result ≡ least a b c }
{
    a.min(b.min(c))
}

// The most of three.
#[tactic(auto, using(crate::proofs::Sizes::chosen))]
pub fn most(a: i64, b: i64, c: i64) -> i64
    ensures { result ≡ most a b c }
{
    a.max(b.max(c))
}

// Whether the errors of N, W and NW have one sign and are not all equal.
pub fn agreeing(errors: TrueErrors) -> bool
    ensures { result ≡ agree errors }
{
    let n = errors.n as i64;
    let w = errors.w as i64;
    let nw = errors.nw as i64;
    let least = least(n, w, nw);
    let most = most(n, w, nw);
    least < most && (0 <= least || most < 0)
}

// Kept between the least and the most of N, W and NE.
pub fn clamped(pred: i64, data: PredictionData) -> i64
    requires { mag pred < 2 ^ 39 }
    ensures value { result ≡ clamped_to «data» pred }
    ensures small { mag result < 2 ^ 41 }
{
    let n = add_bits(data.top);
    let w = add_bits(data.left);
    let ne = add_bits(data.topright);
    least(w, ne, n).max(most(w, ne, n).min(pred))
}

// The average, clamped unless the errors agree.
pub fn settled(average: i64, data: PredictionData, errors: TrueErrors) -> i64
    requires { mag average < 2 ^ 39 }
    ensures value { result ≡ if (agree errors) average (clamped_to «data» average) }
    ensures small { mag result < 2 ^ 41 }
{
    if agreeing(errors) {
        average
    } else {
        clamped(average, data)
    }
}
