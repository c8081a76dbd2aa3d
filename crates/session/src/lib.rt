// Module 10: a channel, pixel after pixel. A session keeps its place; ask and put alternate in raster order.
#![tactic(auto)]

ghost use Rattle.std.specs.Prelude.{true, ◌≡◌, ◌+◌, ◌-◌, ◌≤◌, pos, ◌+ℤ◌, ◌*ℤ◌, length, take, drop};
ghost use Rattle.cells.specs.Cells.{outcome};
ghost use Rattle.colour.specs.Rows.{row_of};
ghost use Rattle.flat.specs.FlatWalk.{flat_of};
ghost use Rattle.integer.specs.Word.{wrap};
ghost use Rattle.predict.specs.Neighbours.{neighbours};
ghost use Rattle.refusal.specs.Paper.{gives, said};
ghost use Rattle.session.specs.Session.{asks, column, is_pixel, line, opens, pixel_cells, puts, width};

use blend::{Prediction, WeightedHeader};
use cells::{compute_properties, start_cells};
use checks::check_open;
use flat::predict_flat;
use integer::{from_bits, low_word, to_bits, wrapping_add};
use predict::neighbours::{PredictionData, get_rows};
use refusal::Refusal;
use walk::PredictionResult;
use weighted::state::WeightedState;

mod checks;
mod weights;

// The weighted state has the place of the next or pending pixel, also with weights off. A session lives until a walk is refused. Guess
// and multiplier are the pending pixel's. The two flags stand together for speed: LLVM copies a gap of three or seven bytes after a flag
// through memory, at every pixel.
#[derive(Clone, Copy, Debug, PartialEq, Eq)]
pub struct Session {
    pub weighted: WeightedState,
    pub weights: bool,
    pub live: bool,
    pub mask: u32,
    pub guess: i64,
    pub multiplier: u32,
}

// The low 32 bits of guess + residual * multiplier, which may leave 64 bits.
fn unpack(guess: i64, residual: i32, multiplier: u32) -> i32
    ensures { result ≡ wrap (guess +ℤ residual *ℤ pos multiplier) }
{
    let product = to_bits(residual) as u64 * multiplier as u64;
    wrapping_add(low_word(guess), from_bits((product % 4294967296) as u32))
}

// The row that begins at this word, as that part of the plane.
fn row_from(plane: &[i32], start: usize, width: usize) -> &[i32]
    requires { start + width ≤ length plane.now }
    ensures { result.now ≡ take width (drop start plane.now) }
{
    &plane[start..start + width]
}

impl Session {
    // A session before a channel's first pixel: cells 0 and 1 are the two numbers, the others and the memory are cleared.
    pub fn open(
        width: usize,
        header: WeightedHeader,
        weights: bool,
        mask: u32,
        channel: i32,
        stream: i32,
        cells: &mut [i32],
        memory: &mut [u32],
    ) -> Result<Session, Refusal>
        ensures answers { said result ≡ (opens width header weights mask «channel» «stream» cells.old memory.old).says }
        ensures cells_are { cells.new ≡ (opens width header weights mask «channel» «stream» cells.old memory.old).cells }
        ensures memory_is { memory.new ≡ (opens width header weights mask «channel» «stream» cells.old memory.old).memory }
    {
        check_open(header, width, weights, cells.len(), memory.len())?;
        let weighted = weights::start(header, width, weights, memory)?;
        start_cells(channel, stream, cells)?;
        Ok(Session {
            weighted,
            weights,
            mask,
            live: true,
            guess: 0,
            multiplier: 0,
        })
    }

    // The neighbours of the pixel at the session's place, from the rows as parts of the plane. Rows above the first are not looked at.
    fn neighbours(&self, plane: &[i32]) -> Result<PredictionData, Refusal>
        requires { is_pixel self.now (length plane.now) ≡ true }
        ensures { said result ≡ neighbours (row_of plane.now (width self.now) (line self.now)) (row_of plane.now (width self.now) (line self.now - 1)) (row_of plane.now (width self.now) (line self.now - 2)) (column self.now) (line self.now) }
    {
        let width = self.weighted.width;
        let y = self.weighted.y;
        let start = y * width;
        // the first row stands for those above it
        let one_up = start.saturating_sub(width);
        let two_up = one_up.saturating_sub(width);
        get_rows(
            row_from(plane, start, width),
            row_from(plane, one_up, width),
            row_from(plane, two_up, width),
            self.weighted.x,
            y,
        )
    }

    // The cells of the pixel, and the walk with them.
    fn walk(
        &self,
        data: PredictionData,
        prediction: Prediction,
        references: &[i32],
        records: &[i32],
        cells: &mut [i32],
    ) -> Result<PredictionResult, Refusal>
        requires { outcome self.now.mask (column self.now) (line self.now) (length references.now) (length cells.old) ≡ gives tt }
        ensures cells_are { cells.new ≡ pixel_cells self.now «data» prediction.property references.now cells.old }
        ensures answers { said result ≡ flat_of records.now cells.new «data» prediction.guess }
    {
        compute_properties(
            self.mask,
            self.weighted.x,
            self.weighted.y,
            data,
            prediction.property,
            references,
            cells,
        )?;
        predict_flat(records, cells, data, prediction.guess)
    }

    // The context of the pixel at the session's place, whose row is part of the plane. A refusal of the arguments changes nothing; one of
    // the walk leaves the cells filled and the session closed.
    pub fn ask(
        &mut self,
        plane: &[i32],
        references: &[i32],
        records: &[i32],
        cells: &mut [i32],
        memory: &[u32],
    ) -> Result<u32, Refusal>
        ensures answers { said result ≡ (asks self.old plane.now references.now records.now cells.old memory.now).says }
        ensures session_is { self.new ≡ (asks self.old plane.now references.now records.now cells.old memory.now).session }
        ensures cells_are { cells.new ≡ (asks self.old plane.now references.now records.now cells.old memory.now).cells }
    {
        self.check_ask(plane.len(), references, records, cells.len(), memory.len())?;
        let data = self.neighbours(plane)?;
        let prediction = weights::predict(&self.weighted, self.weights, memory, data)?;
        match self.walk(data, prediction, references, records, cells) {
            Ok(result) => {
                self.weighted.answer(prediction);
                self.guess = result.guess;
                self.multiplier = result.multiplier;
                Ok(result.context)
            }
            Err(refusal) => {
                self.live = false;
                Err(refusal)
            }
        }
    }

    // The pixel that was asked for becomes guess + residual * multiplier, in its low 32 bits.
    pub fn put(
        &mut self,
        residual: i32,
        plane: &mut [i32],
        memory: &mut [u32],
    ) -> Result<(), Refusal>
        ensures answers { said result ≡ (puts self.old residual plane.old memory.old).says }
        ensures session_is { self.new ≡ (puts self.old residual plane.old memory.old).session }
        ensures plane_is { plane.new ≡ (puts self.old residual plane.old memory.old).plane }
        ensures memory_is { memory.new ≡ (puts self.old residual plane.old memory.old).memory }
    {
        self.check_put(plane.len(), memory.len())?;
        let at = self.weighted.y * self.weighted.width + self.weighted.x;
        let value = unpack(self.guess, residual, self.multiplier);
        weights::put(&mut self.weighted, self.weights, memory, value)?;
        plane[at] = value;
        Ok(())
    }
}
