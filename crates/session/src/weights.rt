// The weighted state of a session with weights on or off.
ghost use Rattle.std.specs.Prelude.{◌≡◌};
ghost use Rattle.refusal.specs.Paper.{said};
ghost use Rattle.weighted.specs.State.{done, next_state};
ghost use Rattle.session.specs.Weights.{finds, learns, learns_on, starts, starts_on};

use blend::{Found, Prediction, WeightedHeader};
use predict::neighbours::PredictionData;
use refusal::Refusal;
use weighted::state::WeightedState;

// The state before the first pixel, over memory that is cleared.
pub fn start(
    header: WeightedHeader,
    width: usize,
    weights: bool,
    memory: &mut [u32],
) -> Result<WeightedState, Refusal>
    ensures answers { said result ≡ starts weights header width memory.old }
    ensures memory_is { memory.new ≡ starts_on weights header width memory.old }
{
    if weights {
        WeightedState::open(header, width, memory)
    } else {
        Ok(WeightedState::start(header, width))
    }
}

// What is found for the pixel at the state's place: nothing with weights off.
pub fn predict(
    state: &WeightedState,
    weights: bool,
    memory: &[u32],
    data: PredictionData,
) -> Result<Prediction, Refusal>
    ensures { said result ≡ finds weights state.now memory.now «data» }
{
    if weights {
        return state.predict(memory, data);
    }
    Ok(Prediction {
        found: Found {
            p0: 0,
            p1: 0,
            p2: 0,
            p3: 0,
            pred: 0,
        },
        guess: 0,
        property: 0,
    })
}

// The true value of that pixel; with weights off the state only moves on.
pub fn put(
    state: &mut WeightedState,
    weights: bool,
    memory: &mut [u32],
    value: i32,
) -> Result<(), Refusal>
    ensures answers { said result ≡ done (learns weights state.old memory.old) }
    ensures state_is { state.new ≡ next_state state.old (learns weights state.old memory.old) }
    ensures memory_is { memory.new ≡ learns_on weights state.old memory.old value }
{
    if weights {
        return state.put(memory, value);
    }
    state.advance();
    Ok(())
}
