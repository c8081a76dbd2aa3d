// Module 8, the flat walk: from record 0 down to a leaf. Each split record decides two levels of the tree.
#![tactic(auto)]

ghost use Rattle.std.specs.Prelude.{◌≡◌, ◌*◌, ◌≤◌, ◌<◌, length};
ghost use Rattle.std.specs.Int.Signed.{lt_z};
ghost use Rattle.flat.specs.FlatWalk.{
  cells_needed,
  flat_from,
  flat_of,
  grandchild,
  in_order,
  step_of,
};
ghost use Rattle.integer.specs.Order.{if};
ghost use Rattle.refusal.specs.Paper.{said};

use form::{read_leaf, read_split};
use predict::neighbours::PredictionData;
use records::{FlatSplit, count_records};
use refusal::Refusal;
use walk::{PredictionResult, answer};

mod form;
pub mod records;

// Whether all four grandchildren lie later and inside the list.
fn in_order(split: FlatSplit, place: usize, count: usize) -> bool
    ensures { result ≡ in_order «split» place count }
{
    let first = split.first as usize;
    place < first && first + 3 < count
}

// The cells that all three tests of a split record need.
fn cells_needed(split: FlatSplit) -> u32
    requires { («split».property < 256) × («split».left_property < 256) × («split».right_property < 256) }
    ensures { result ≡ cells_needed «split» }
{
    split
        .property
        .max(split.left_property.max(split.right_property))
        + 1
}

// Left holds cell > value.
fn side(value: i32, cell: i32, left: usize, right: usize) -> usize
    ensures { result ≡ if (lt_z «value» «cell») left right }
{
    if cell > value { left } else { right }
}

// Which of the four grandchildren: the child is chosen among its own two, whichever is entered.
fn grandchild_of(split: FlatSplit, cells: &[i32]) -> usize
    requires { cells_needed «split» ≤ length cells.now }
    ensures { result ≡ grandchild cells.now «split» }
{
    let property = split.property as usize;
    let left_property = split.left_property as usize;
    let right_property = split.right_property as usize;
    let left = side(split.left_value, cells[left_property], 0, 1);
    let right = side(split.right_value, cells[right_property], 2, 3);
    side(split.value, cells[property], left, right)
}

// Where a split record leads.
fn step(split: FlatSplit, place: usize, count: usize, cells: &[i32]) -> Result<usize, Refusal>
    requires { (place < 2097150) × («split».property < 256) × («split».left_property < 256) × («split».right_property < 256) }
    ensures { said result ≡ step_of cells.now count «split» place }
{
    let needed = cells_needed(split);
    let sound = in_order(split, place, count);
    if !sound {
        return Err(Refusal::OutOfPlace {
            place: place as u32,
        });
    }
    if cells.len() < needed as usize {
        return Err(Refusal::TooFewCells { needed });
    }
    let grandchild = grandchild_of(split, cells);
    Ok(split.first as usize + grandchild)
}

// From record 0 down to a leaf, record after record, each read from its own six words onward.
fn walk_flat(
    words: &[i32],
    count: usize,
    cells: &[i32],
    data: PredictionData,
    wp_pred: i64,
) -> Result<PredictionResult, Refusal>
    requires { (0 < count) × (count < 2097150) × (length words.now ≡ 6 * count) }
    ensures { said result ≡ flat_from words.now cells.now count «data» wp_pred count 0 0 }
{
    let mut place = 0;
    let mut hops: u32 = 0;
    loop {
        let at = 6 * place;
        if words[at] == -1 {
            match read_leaf(&words[at..], place as u32) {
                Err(refusal) => break Err(refusal),
                Ok(leaf) => break Ok(answer(leaf.as_leaf(), data, wp_pred, hops)),
            }
        }
        match read_split(&words[at..], place as u32) {
            Err(refusal) => break Err(refusal),
            Ok(split) => match step(split, place, count, cells) {
                Err(refusal) => break Err(refusal),
                Ok(grandchild) => {
                    place = grandchild;
                    hops += 1;
                }
            },
        }
    }
}

// What the flat tree says of a pixel with these cells and neighbours; wp_pred is the weighted predictor's guess.
pub fn predict_flat(
    words: &[i32],
    cells: &[i32],
    data: PredictionData,
    wp_pred: i64,
) -> Result<PredictionResult, Refusal>
    ensures { said result ≡ flat_of words.now cells.now «data» wp_pred }
{
    let count = count_records(words)?;
    if count == 0 {
        return Err(Refusal::EmptyList);
    }
    if cells.len() < 16 {
        return Err(Refusal::TooFewCells { needed: 16 });
    }
    walk_flat(words, count, cells, data, wp_pred)
}
