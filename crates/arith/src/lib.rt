// Module 1: the division lookup, the highest set bit, and the weight of an error.
#![tactic(auto)]

ghost use Rattle.std.specs.Prelude.{◌≡◌, ◌≤◌};
ghost use Rattle.refusal.specs.Paper.{said};
ghost use Rattle.arith.specs.Weights.{
  entry,
  entry_at,
  floor_log2,
  weight_of,
  error_weight,
  error_weights,
};

use refusal::Refusal;

// Entry i is 2^24 / (i + 1) rounded down: division by a number from 1 to 64 becomes a product.
const DIVLOOKUP: [u32; 64] = [
    16777216, 8388608, 5592405, 4194304, 3355443, 2796202, 2396745, 2097152, 1864135, 1677721,
    1525201, 1398101, 1290555, 1198372, 1118481, 1048576, 986895, 932067, 883011, 838860, 798915,
    762600, 729444, 699050, 671088, 645277, 621378, 599186, 578524, 559240, 541200, 524288, 508400,
    493447, 479349, 466033, 453438, 441505, 430185, 419430, 409200, 399457, 390167, 381300, 372827,
    364722, 356962, 349525, 342392, 335544, 328965, 322638, 316551, 310689, 305040, 299593, 294337,
    289262, 284359, 279620, 275036, 270600, 266305, 262144,
];

// The entry at index modulo 64.
pub fn division_entry(index: u32) -> u32
    ensures { result ≡ entry_at index }
{
    let table = &DIVLOOKUP;
    table[(index % 64) as usize]
}

// The place of the highest set bit, by leading zeros. At 0, which has none, 127 as the Rust answers.
pub fn floor_log2_nonzero(x: u64) -> u32
    ensures { result ≡ floor_log2 x }
{
    let zeros = u64::leading_zeros(x);
    if zeros < 64 { 63 - zeros } else { 127 }
}

// A number for each of the four sub-predictors: its errors, their sums, its weight.
#[derive(Clone, Copy, Debug, PartialEq, Eq)]
pub struct Four {
    pub e0: u32,
    pub e1: u32,
    pub e2: u32,
    pub e3: u32,
}

// The weight that an error x leaves of maxweight.
fn weight_of(x: u32, maxweight: u32) -> u32
    requires { maxweight ≤ 15 }
    ensures { result ≡ weight_of x maxweight }
{
    // x + 1 in 64 bits: it does not wrap
    let log = floor_log2_nonzero(x as u64 + 1);
    if log < 5 {
        return 4 + maxweight * division_entry(x);
    }
    let shift = log - 5;
    4 + ((maxweight * division_entry(x >> shift)) >> shift)
}

// The weight that an error x leaves of maxweight, which is at most 15.
pub fn error_weight(x: u32, maxweight: u32) -> Result<u32, Refusal>
    ensures { said result ≡ error_weight x maxweight }
{
    if 15 < maxweight {
        return Err(Refusal::HeaderRange);
    }
    Ok(weight_of(x, maxweight))
}

// The same for each of four.
pub fn error_weights(x: Four, maxweight: Four) -> Result<Four, Refusal>
    ensures { said result ≡ error_weights x maxweight }
{
    if 15 < maxweight.e0 || 15 < maxweight.e1 || 15 < maxweight.e2 || 15 < maxweight.e3 {
        return Err(Refusal::HeaderRange);
    }
    Ok(Four {
        e0: weight_of(x.e0, maxweight.e0),
        e1: weight_of(x.e1, maxweight.e1),
        e2: weight_of(x.e2, maxweight.e2),
        e3: weight_of(x.e3, maxweight.e3),
    })
}
