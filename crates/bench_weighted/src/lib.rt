// What the bench times from Rust (../../oracle): ask and put of a whole plane behind one C function. A crate of its own, so
// that each has one caller and is compiled into its loop.
#![tactic(auto)]

ghost use Rattle.std.specs.Prelude.{◌≡◌, leb, length, set, ◌+◌, ◌*◌, ◌^◌, ◌≤◌, Ok};
ghost use Rattle.history.specs.Calls.{Words};
ghost use Rattle.bench_weighted.specs.Weighed.{
  neighbours_of,
  Fresh,
  memory_after,
  answers_to,
  WeighsPlane,
};

use lab_weighted::header_of;
use predict::neighbours::PredictionData;
use refusal::Refusal;
use told::take_seven;
use weighted::state::{Answer, WeightedState};

// The neighbours of pixel k, seven words a pixel.
fn neighbours_of(data: &[i32], k: usize) -> PredictionData
    requires { 7 * k + 7 ≤ length «data».now }
    ensures value { result ≡ neighbours_of «data».now k }
    ensures small { Words result }
{
    take_seven(&data[7 * k..])
}

// Whether that many pixels begin no more rows than a plane may have.
fn rows_fit(width: usize, pixels: usize) -> bool
    ensures { result ≡ leb pixels (width * 2 ^ 30) }
{
    pixels == 0 || (pixels - 1) / 1073741824 < width
}

// The answer of pixel k, two words a pixel.
fn tell(answers: &mut [i64], k: usize, answer: Answer)
    requires { 2 * k + 2 ≤ length answers.old }
    ensures { answers.new ≡ set (set answers.old (2 * k) answer.guess) (2 * k + 1) answer.property }
{
    answers[2 * k] = answer.guess;
    answers[2 * k + 1] = answer.property as i64;
}

// Ask, answer and put, pixel after pixel. Neither call is refused from a fresh state on.
fn weigh_all(
    opened: WeightedState,
    data: &[i32],
    plane: &[i32],
    memory: &mut [u32],
    answers: &mut [i64],
) -> Result<(), Refusal>
    requires data { 7 * length plane.now ≤ length «data».now }
    requires answers { 2 * length plane.now ≤ length answers.old }
    requires rows { length plane.now ≤ opened.width * 2 ^ 30 }
    requires fresh { Fresh opened memory.old }
    ensures answers { result ≡ Ok tt }
    ensures holds_memory { memory.new ≡ memory_after opened.header opened.width «data».now plane.now memory.old }
    ensures holds_answers { answers.new ≡ answers_to opened.header opened.width «data».now plane.now (length plane.now) answers.old }
{
    let mut state = opened;
    for k in 0..plane.len() {
        let answer = state.ask(memory, neighbours_of(data, k))?;
        tell(answers, k, answer);
        state.put(memory, plane[k])?;
    }
    Ok(())
}

// The guess and the property of each pixel of a plane: refused by the lists' lengths (8), by the number of rows (11), then as
// opening is (12, 11, 8).
#[unsafe(no_mangle)]
pub extern "C" fn matuviso_weigh_plane(
    header: &[u32],
    width: usize,
    data: &[i32],
    plane: &[i32],
    memory: &mut [u32],
    answers: &mut [i64],
) -> u32
    ensures { WeighsPlane header.now width «data».now plane.now memory.old answers.old result memory.new answers.new }
{
    if header.len() < 11 || data.len() / 7 < plane.len() || answers.len() / 2 < plane.len() {
        return 8;
    }
    if !rows_fit(width, plane.len()) {
        return 11;
    }
    let state = match WeightedState::open(header_of(header), width, memory) {
        Ok(state) => state,
        Err(refusal) => return refusal.number(),
    };
    match weigh_all(state, data, plane, memory, answers) {
        Ok(()) => 0,
        Err(refusal) => refusal.number(),
    }
}
