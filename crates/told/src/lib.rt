// What C functions tell of an answer, and what they are given of a pixel, shared by those of trees and those of flat trees. An
// answer of 0 says done, another is a refusal's number; its details are then the first words of `told`, where there must be
// room for five.
#![tactic(auto)]

ghost use Rattle.std.specs.Prelude.{◌≡◌, length, ◌≤◌, true};
ghost use Rattle.refusal.specs.Paper.{number_of, details_of, said};
ghost use Rattle.told.specs.Told.{Tells, begun, data_of, nothing, side_of};

use predict::neighbours::PredictionData;
use refusal::{Refusal, Side};

// An empty side's number, and its five details into the list.
fn tell_side(side: Side, told: &mut [i64]) -> u32
    requires { 5 ≤ length told.old }
    ensures { (result ≡ 7) × (told.new ≡ begun (side_of side) told.old) }
{
    told[..5].copy_from_slice(&[
        side.place as i64,
        side.property as i64,
        side.value as i64,
        side.low as i64,
        side.high as i64,
    ]);
    7
}

// A refusal's number, and its details into the list.
pub fn tell(refusal: Refusal, told: &mut [i64]) -> u32
    requires { 5 ≤ length told.old }
    ensures { (result ≡ number_of refusal) × (told.new ≡ begun (details_of refusal) told.old) }
{
    match refusal {
        Refusal::EmptySide(side) => tell_side(side, told),
        _ => {
            told[0] = refusal.first_detail() as i64;
            refusal.number()
        }
    }
}

// 0, or what is told of the refusal.
pub fn tell_done(done: Result<(), Refusal>, told: &mut [i64]) -> u32
    requires { 5 ≤ length told.old }
    ensures { Tells nothing true (said done) told.old result told.new }
{
    match done {
        Ok(()) => 0,
        Err(refusal) => tell(refusal, told),
    }
}

// Reads the seven in their order.
pub fn take_seven(seven: &[i32]) -> PredictionData
    requires { 7 ≤ length seven.now }
    ensures { result ≡ data_of seven.now }
{
    PredictionData {
        left: seven[0],
        top: seven[1],
        toptop: seven[2],
        topleft: seven[3],
        topright: seven[4],
        leftleft: seven[5],
        toprightright: seven[6],
    }
}
