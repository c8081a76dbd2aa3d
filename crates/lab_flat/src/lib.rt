// What the oracle calls from Rust (../../oracle): flattening and both walks behind C functions. No part of what a board links.
// An answer of 0 says done, another is a refusal's number; its details are then the first words of `told`, where there must be
// room for five. A list that is too short is 8, before all else, and nothing is written.
#![tactic(auto)]

ghost use Rattle.std.specs.Prelude.{◌≡◌, length, ◌≤◌, true};
ghost use Rattle.flat.specs.FlatWalk.{flat_of};
ghost use Rattle.flatten.specs.Flatten.{ring_after, output_after};
ghost use Rattle.integer.specs.Order.{if};
ghost use Rattle.refusal.specs.Paper.{said};
ghost use Rattle.told.specs.Told.{Tells, begun, room};
ghost use Rattle.walk.specs.Walk.{walk_of};
ghost use Rattle.lab_flat.specs.Told.{WalkTold, answer, count_words, result_words};

use flat::predict_flat;
use flatten::build_flat_tree;
use refusal::Refusal;
use told::{take_seven, tell};
use walk::{PredictionResult, predict};

// Guess, multiplier, context and hops, in this order.
fn tell_result(res: PredictionResult, told: &mut [i64])
    requires { 5 ≤ length told.old }
    ensures { told.new ≡ begun (result_words res) told.old }
{
    told[..4].copy_from_slice(&[
        res.guess,
        res.multiplier as i64,
        res.context as i64,
        res.hops as i64,
    ]);
}

fn tell_walked(walked: Result<PredictionResult, Refusal>, told: &mut [i64]) -> u32
    requires { 5 ≤ length told.old }
    ensures { Tells result_words true (said walked) told.old result told.new }
{
    match walked {
        Ok(result) => {
            tell_result(result, told);
            0
        }
        Err(refusal) => tell(refusal, told),
    }
}

// The direct walk for a pixel whose neighbours are the seven of `data`.
#[unsafe(no_mangle)]
pub extern "C" fn matuviso_predict(
    words: &[i32],
    cells: &[i32],
    data: &[i32],
    wp_pred: i64,
    told: &mut [i64],
) -> u32
    ensures { WalkTold (walk_of words.now cells.now) «data».now wp_pred told.old result told.new }
{
    if data.len() < 7 || told.len() < 5 {
        return 8;
    }
    tell_walked(predict(words, cells, take_seven(data), wp_pred), told)
}

// The same over flat records.
#[unsafe(no_mangle)]
pub extern "C" fn matuviso_predict_flat(
    words: &[i32],
    cells: &[i32],
    data: &[i32],
    wp_pred: i64,
    told: &mut [i64],
) -> u32
    ensures { WalkTold (flat_of words.now cells.now) «data».now wp_pred told.old result told.new }
{
    if data.len() < 7 || told.len() < 5 {
        return 8;
    }
    tell_walked(predict_flat(words, cells, take_seven(data), wp_pred), told)
}

fn tell_flattened(flattened: Result<usize, Refusal>, told: &mut [i64]) -> u32
    requires { 5 ≤ length told.old }
    ensures { Tells count_words true (said flattened) told.old result told.new }
{
    match flattened {
        Ok(count) => {
            told[0] = (count % 4294967296) as i64;
            0
        }
        Err(refusal) => tell(refusal, told),
    }
}

// The count of records as the first word told, by its low 32 bits, which are all that it has.
#[unsafe(no_mangle)]
pub extern "C" fn matuviso_build_flat_tree(
    words: &[i32],
    ring: &mut [i32],
    output: &mut [i32],
    told: &mut [i64],
) -> u32
    ensures tells { Tells count_words (room told.old) (answer words.now ring.old output.old) told.old result told.new }
    ensures leaves { ring.new ≡ if (room told.old) (ring_after (answer words.now ring.old output.old) words.now ring.old) ring.old }
    ensures writes { output.new ≡ if (room told.old) (output_after (answer words.now ring.old output.old) words.now output.old) output.old }
{
    if told.len() < 5 {
        return 8;
    }
    tell_flattened(build_flat_tree(words, ring, output), told)
}
