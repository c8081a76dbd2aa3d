// Records 7 and 8: a pixel of a weighted state. The memory has what an ask reads, laid where the state reads it, and 0
// elsewhere: the rows of a picture are in turn in its second half, of even y, and its first.
ghost use Rattle.std.specs.Prelude.{◌+◌, ◌<◌, ◌≤◌, length};

use crate::fault::{Fault, expect};
use crate::record::Record;
use blend::WeightedHeader;
use predict::neighbours::PredictionData;
use weighted::state::WeightedState;

fn header(record: &Record) -> WeightedHeader {
    WeightedHeader {
        p1c: record.byte(0),
        p2c: record.byte(1),
        p3ca: record.byte(2),
        p3cb: record.byte(3),
        p3cc: record.byte(4),
        p3cd: record.byte(5),
        p3ce: record.byte(6),
        w0: record.byte(7),
        w1: record.byte(8),
        w2: record.byte(9),
        w3: record.byte(10),
    }
}

// The state at the record's place, an ask due.
fn state(record: &Record) -> WeightedState {
    let mut state = WeightedState::start(header(record), record.byte(11) as usize);
    state.x = record.byte(12) as usize;
    state.y = record.byte(13) as usize;
    state
}

// The five neighbours that the weighted predictor looks at.
fn neighbours(record: &Record) -> PredictionData {
    PredictionData {
        left: record.word(5),
        top: record.word(6),
        toptop: record.word(7),
        topleft: record.word(8),
        topright: record.word(9),
        leftleft: 0,
        toprightright: 0,
    }
}

// Position k becomes the five words from `from` on.
fn lay(memory: &mut [u32], k: usize, record: &Record, from: usize)
    requires { (80 ≤ length memory.old) × (k < 16) × (from + 5 ≤ 32) }
{
    for i in 0..5 {
        memory[5 * k + i] = record.bits(from + i);
    }
}

// Whether position k has the five words from `from` on.
fn lies(memory: &[u32], k: usize, record: &Record, from: usize) -> bool
    requires { (80 ≤ length memory.now) × (k < 16) × (from + 5 ≤ 32) }
{
    for i in 0..5 {
        if memory[5 * k + i] != record.bits(from + i) {
            return false;
        }
    }
    true
}

// What the record has of the neighbours: N at position n, NE after it but in the last column, NW before it but in the first, and the
// error of W before the pixel's own, which is position `here`.
fn recall(memory: &mut [u32], here: usize, n: usize, state: WeightedState, record: &Record)
    requires { (80 ≤ length memory.old) × (state.x ≤ here) × (here < 15) × (state.x ≤ n) × (n < 15) }
{
    lay(memory, n, record, 11);
    if state.x + 1 < state.width {
        lay(memory, n + 1, record, 16);
    }
    if 0 < state.x {
        lay(memory, n - 1, record, 21);
        memory[5 * (here - 1)] = record.bits(26);
    }
}

// A record of an ask, or of an ask and its put.
pub fn pixel(record: &Record, puts: bool) -> Result<(), Fault> {
    let mut state = state(record);
    if 6 < state.width || state.width <= state.x {
        return Err(Fault::NoForm);
    }
    let second = state.width + 2 + state.x;
    let (here, n) = if state.y % 2 == 0 {
        (second, state.x)
    } else {
        (state.x, second)
    };
    let mut memory = [0u32; 80];
    recall(&mut memory, here, n, state, record);
    let answer = state.ask(&memory, neighbours(record))?;
    if puts {
        state.put(&mut memory, record.word(10))?;
        expect(lies(&memory, here, record, 27))
    } else {
        expect(answer.guess == record.long_word(27) && answer.property == record.word(29))
    }
}
