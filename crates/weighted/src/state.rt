// The state: it keeps its place. Ask and put alternate in raster order, and a refusal leaves the state as it was.
ghost use Rattle.std.specs.Prelude.{◌&&◌, ◌≡◌};
ghost use Rattle.blend.specs.Blend.{possible};
ghost use Rattle.refusal.specs.Paper.{gives, said};
ghost use Rattle.weighted.specs.State.{
  after_ask,
  after_put,
  allowed,
  answered,
  asks,
  at_start,
  cleared,
  done,
  is_place,
  moved,
  next_state,
  opens,
  predicts,
  puts,
  tells,
  told,
};

use crate::memory::{errors_around, sums_around, update};
use blend::{Found, Prediction, WeightedHeader};
use predict::neighbours::PredictionData;
use refusal::Refusal;

// The header, the place of the next or pending pixel, and whether an ask waits for its put, with what it found.
#[derive(Clone, Copy, Debug, PartialEq, Eq)]
pub struct WeightedState {
    pub header: WeightedHeader,
    pub width: usize,
    pub x: usize,
    pub y: usize,
    pub asked: bool,
    pub found: Found,
}

// What an ask tells.
#[derive(Clone, Copy, Debug, PartialEq, Eq)]
pub struct Answer {
    pub guess: i64,
    pub property: i32,
}

impl WeightedState {
    // The state before the first pixel of a picture of this width.
    pub fn start(header: WeightedHeader, width: usize) -> WeightedState
        ensures { result ≡ at_start header width }
    {
        let found = Found {
            p0: 0,
            p1: 0,
            p2: 0,
            p3: 0,
            pred: 0,
        };
        WeightedState {
            header,
            width,
            x: 0,
            y: 0,
            asked: false,
            found,
        }
    }

    // The same, over memory that is cleared as far as it is needed.
    pub fn open(
        header: WeightedHeader,
        width: usize,
        memory: &mut [u32],
    ) -> Result<WeightedState, Refusal>
        ensures answers { said result ≡ opens header width memory.old }
        ensures holds { memory.new ≡ cleared memory.old (opens header width memory.old) }
    {
        if !header.in_range() {
            return Err(Refusal::HeaderRange);
        }
        if width < 1 || 65536 < width {
            return Err(Refusal::WrongSize);
        }
        let needed = 10 * (width + 2);
        if memory.len() < needed {
            return Err(Refusal::TooSmall {
                needed: needed as u32,
            });
        }
        memory[..needed].fill(0);
        Ok(WeightedState::start(header, width))
    }

    // Whether the next or pending pixel is one of the picture.
    fn is_place(&self) -> bool
        ensures { result ≡ is_place self.now }
    {
        self.width <= 65536 && self.x < self.width && self.y < 1073741824
    }

    // Whether a call may go on, in the order of the paper: header, place, turn, memory.
    #[tactic(auto, unfolding(crate::specs::State::allowed))]
    fn check(&self, turn: bool, lent: usize) -> Result<(), Refusal>
        ensures { said result ≡ allowed self.now turn lent (gives tt) }
    {
        if !self.header.in_range() {
            return Err(Refusal::HeaderRange);
        }
        if !self.is_place() {
            return Err(Refusal::WrongSize);
        }
        if !turn {
            return Err(Refusal::OutOfTurn);
        }
        let needed = 10 * (self.width + 2);
        if lent < needed {
            return Err(Refusal::TooSmall {
                needed: needed as u32,
            });
        }
        Ok(())
    }

    // What is found for the pixel at the state's place, whose neighbours these are; the state does not remember it.
    pub fn predict(&self, memory: &[u32], data: PredictionData) -> Result<Prediction, Refusal>
        ensures { said result ≡ predicts self.now memory.now «data» }
    {
        self.check(!self.asked, memory.len())?;
        let errors = errors_around(memory, self.width, self.x, self.y);
        let sums = sums_around(memory, self.width, self.x, self.y);
        blend::predict_and_property(self.header, data, errors, sums)
    }

    // Remembers what was found, for the put, and tells the guess and the property.
    pub fn answer(&mut self, prediction: Prediction) -> Answer
        ensures answers { result ≡ told (answered self.old prediction) }
        ensures state_is { self.new ≡ (answered self.old prediction).state }
    {
        self.asked = true;
        self.found = prediction.found;
        Answer {
            guess: prediction.guess,
            property: prediction.property,
        }
    }

    // The guess and the property of the pixel at the state's place, whose neighbours these are.
    pub fn ask(&mut self, memory: &[u32], data: PredictionData) -> Result<Answer, Refusal>
        ensures answers { said result ≡ tells (asks self.old memory.now «data») }
        ensures state_is { self.new ≡ after_ask self.old (asks self.old memory.now «data») }
    {
        let prediction = self.predict(memory, data)?;
        Ok(self.answer(prediction))
    }

    // Whether an ask waits for its put. A state with what no ask can have found does not.
    fn put_due(&self) -> bool
        ensures { result ≡ (self.now.asked && possible self.now.found) }
    {
        self.asked && self.found.possible()
    }

    // One pixel on, an ask due, and nothing put; outside of the picture the state stays.
    pub fn advance(&mut self)
        ensures { self.new ≡ moved self.old }
    {
        if !self.is_place() {
            return;
        }
        self.asked = false;
        self.x += 1;
        if self.x == self.width {
            self.x = 0;
            self.y += 1;
        }
    }

    // The true value of the pixel that was asked for.
    pub fn put(&mut self, memory: &mut [u32], value: i32) -> Result<(), Refusal>
        ensures answers { said result ≡ done (puts self.old memory.old) }
        ensures state_is { self.new ≡ next_state self.old (puts self.old memory.old) }
        ensures holds { memory.new ≡ after_put self.old memory.old value (puts self.old memory.old) }
    {
        self.check(self.put_due(), memory.len())?;
        let errors = blend::errors_of(self.found, value)?;
        update(memory, self.width, self.x, self.y, errors);
        self.advance();
        Ok(())
    }
}
