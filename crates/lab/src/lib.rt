// What the oracle calls from Rust (../../oracle): the library's leaves behind C functions. No part of what a
// board links. An answer of 0 says done, another is a refusal's number; a refusal writes nothing.
#![tactic(auto)]

ghost use Rattle.std.specs.Prelude.{◌≡◌, length, ◌≤◌};
ghost use Rattle.arith.specs.Weights.{floor_log2, error_weight};
ghost use Rattle.predict.specs.Neighbours.{neighbours};
ghost use Rattle.lab.specs.Answers.{
  as_number,
  PutsSeven,
  Shifts,
  Guesses,
  put_seven,
  put_status,
  shifted,
  Steps,
};
ghost use Rattle.refusal.specs.Paper.{said};

use colour::restore::do_rct_step;
use predict::neighbours::PredictionData;
use predict::predictors::Predictor;
use refusal::Refusal;
use told::take_seven;

#[unsafe(no_mangle)]
pub extern "C" fn matuviso_floor_log2_nonzero(x: u64) -> u32
    ensures { result ≡ floor_log2 x }
{
    arith::floor_log2_nonzero(x)
}

// The weight, or minus the refusal's number.
#[unsafe(no_mangle)]
pub extern "C" fn matuviso_error_weight(x: u32, m: u32) -> i64
    ensures { result ≡ as_number (error_weight x m) }
{
    match arith::error_weight(x, m) {
        Ok(weight) => weight as i64,
        Err(refusal) => -(refusal.number() as i64),
    }
}

// Writes the seven in their order.
fn put_seven(data: PredictionData, seven: &mut [i32]) -> u32
    ensures { (result ≡ put_status seven.old) × (seven.new ≡ put_seven «data» seven.old) }
{
    if seven.len() < 7 {
        return 8;
    }
    seven[0] = data.left;
    seven[1] = data.top;
    seven[2] = data.toptop;
    seven[3] = data.topleft;
    seven[4] = data.topright;
    seven[5] = data.leftleft;
    seven[6] = data.toprightright;
    0
}

#[unsafe(no_mangle)]
pub extern "C" fn matuviso_get_rows(
    row: &[i32],
    top: &[i32],
    toptop: &[i32],
    x: usize,
    y: usize,
    seven: &mut [i32],
) -> u32
    ensures { PutsSeven (neighbours row.now top.now toptop.now x y) seven.old result seven.new }
{
    match predict::neighbours::get_rows(row, top, toptop, x, y) {
        Ok(data) => put_seven(data, seven),
        Err(refusal) => refusal.number(),
    }
}

// The neighbours one place on from those in `data`, of which there are to be seven words.
fn shifted(
    data: &[i32],
    top: &[i32],
    toptop: &[i32],
    x: usize,
    cur: i32,
    needs_top: bool,
    needs_toptop: bool,
) -> Result<PredictionData, Refusal>
    ensures { said result ≡ shifted «data».now top.now toptop.now x cur needs_top needs_toptop }
{
    if data.len() < 7 {
        return Err(Refusal::TooSmall { needed: 7 });
    }
    take_seven(data).update_for_interior_row(top, toptop, x, cur, needs_top, needs_toptop)
}

#[unsafe(no_mangle)]
pub extern "C" fn matuviso_update_for_interior_row(
    data: &[i32],
    top: &[i32],
    toptop: &[i32],
    x: usize,
    cur: i32,
    needs_top: bool,
    needs_toptop: bool,
    seven: &mut [i32],
) -> u32
    ensures { Shifts «data».now top.now toptop.now x cur needs_top needs_toptop seven.old result seven.new }
{
    match shifted(data, top, toptop, x, cur, needs_top, needs_toptop) {
        Ok(moved) => put_seven(moved, seven),
        Err(refusal) => refusal.number(),
    }
}

// The guess of predictor p as the first word of `guess`; 3 where no predictor has that number.
#[unsafe(no_mangle)]
pub extern "C" fn matuviso_predict_one(p: u32, data: &[i32], wp_pred: i64, guess: &mut [i64]) -> u32
    ensures { Guesses p «data».now wp_pred guess.old result guess.new }
{
    let Ok(predictor) = Predictor::try_from(p) else {
        return 3;
    };
    if data.len() < 7 || guess.len() < 1 {
        return 8;
    }
    guess[0] = predictor.predict_one(take_seven(data), wp_pred);
    0
}

// One step of colour restore over the three planes.
#[unsafe(no_mangle)]
pub extern "C" fn matuviso_do_rct_step(
    a: &mut [i32],
    b: &mut [i32],
    c: &mut [i32],
    operation: u32,
    order: u32,
) -> u32
    ensures { Steps operation order a.old b.old c.old result a.new b.new c.new }
{
    match do_rct_step(a, b, c, operation, order) {
        Ok(()) => 0,
        Err(refusal) => refusal.number(),
    }
}
