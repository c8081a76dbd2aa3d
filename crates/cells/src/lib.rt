// The cells that a tree tests: filled for each pixel, by groups that a mask turns on.
#![tactic(auto)]

ghost use Rattle.std.specs.Prelude.{◌≡◌, ◌≤◌, ◌<◌, ◌^◌, length};
ghost use Rattle.cells.specs.Cells.{
  positioned,
  neighboured,
  graded,
  contexted,
  weighed,
  referred,
  Holds,
  cells_needed,
  in_domain,
  filled_cells,
  outcome,
  start_cells,
  starting,
  after,
  uses,
};
ghost use Rattle.refusal.specs.Paper.{said};

use integer::clear;
use predict::neighbours::PredictionData;
use refusal::Refusal;

// The cells before a channel's first pixel: 0 the channel, 1 the stream, the rest 0.
pub fn start_cells(channel: i32, stream: i32, cells: &mut [i32]) -> Result<(), Refusal>
    ensures answers { said result ≡ starting (length cells.old) }
    ensures holds { cells.new ≡ after (start_cells «channel» «stream» (length cells.old)) (starting (length cells.old)) cells.old }
{
    if cells.len() < 16 {
        return Err(Refusal::TooFewCells { needed: 16 });
    }
    clear(cells);
    cells[0] = channel;
    cells[1] = stream;
    Ok(())
}

// Whether the mask has one of the `count` bits from bit `low` on.
fn uses(mask: u32, low: u32, count: u32) -> bool
    requires { (low < 32) × (count < 32) }
    ensures { result ≡ uses mask low count }
{
    (mask >> low) % (1 << count) != 0
}

// 2 y, 3 x.
fn fill_position(mask: u32, x: usize, y: usize, cells: &mut [i32])
    requires { (16 ≤ length cells.old) × (x < 65536) × (y < 2 ^ 30) }
    ensures { cells.new ≡ positioned mask x y cells.old }
{
    if uses(mask, 2, 2) {
        cells[2] = y as i32;
        cells[3] = x as i32;
    }
}

// 4 |top|, 5 |left|, 6 top, 7 left.
fn fill_neighbours(mask: u32, data: PredictionData, cells: &mut [i32])
    requires { 16 ≤ length cells.old }
    ensures { cells.new ≡ neighboured mask «data» cells.old }
{
    if uses(mask, 4, 4) {
        cells[4] = data.top.wrapping_abs();
        cells[5] = data.left.wrapping_abs();
        cells[6] = data.top;
        cells[7] = data.left;
    }
}

// 8 left less the old cell 9, then 9 left + top - topleft.
fn fill_gradient(mask: u32, data: PredictionData, cells: &mut [i32])
    requires { 16 ≤ length cells.old }
    ensures { cells.new ≡ graded mask «data» cells.old }
{
    if uses(mask, 8, 2) {
        cells[8] = data.left.wrapping_sub(cells[9]);
        cells[9] = data.left.wrapping_add(data.top).wrapping_sub(data.topleft);
    }
}

// 10 left - topleft, 11 topleft - top, 12 top - topright, 13 top - toptop, 14 left - leftleft.
fn fill_context(mask: u32, data: PredictionData, cells: &mut [i32])
    requires { 16 ≤ length cells.old }
    ensures { cells.new ≡ contexted mask «data» cells.old }
{
    if uses(mask, 10, 5) {
        cells[10] = data.left.wrapping_sub(data.topleft);
        cells[11] = data.topleft.wrapping_sub(data.top);
        cells[12] = data.top.wrapping_sub(data.topright);
        cells[13] = data.top.wrapping_sub(data.toptop);
        cells[14] = data.left.wrapping_sub(data.leftleft);
    }
}

// 15 the weighted property.
fn fill_weighted(mask: u32, wp_property: i32, cells: &mut [i32])
    requires { 16 ≤ length cells.old }
    ensures { cells.new ≡ weighed mask wp_property cells.old }
{
    if uses(mask, 15, 1) {
        cells[15] = wp_property;
    }
}

// Word after word. std's `copy_from_slice` would ask a C library for memmove, which a board need not have.
fn copy(from: &[i32], to: &mut [i32])
    requires { length to.old ≡ length from.now }
    ensures { to.new ≡ from.now }
{
    for i in 0..from.len() {
        let word = from[i];
        to[i] = word;
    }
}

// From 16 the reference row.
fn fill_references(mask: u32, references: &[i32], cells: &mut [i32])
    requires { (16 ≤ length cells.old) × Holds mask (length references.now) (length cells.old) }
    ensures { cells.new ≡ referred mask references.now cells.old }
{
    if uses(mask, 16, 16) {
        let end = 16 + references.len();
        copy(references, &mut cells[16..end]);
    }
}

// The cells that are needed: 16, and as many as the reference row has where it is copied.
pub fn cells_needed(mask: u32, references: &[i32]) -> usize
    ensures { result ≡ cells_needed mask (length references.now) }
{
    if uses(mask, 16, 16) {
        16 + references.len()
    } else {
        16
    }
}

// Whether the pixel lies in the domain, and 32 bits can say how many cells are needed.
fn in_domain(x: usize, y: usize, needed: usize) -> bool
    ensures { result ≡ in_domain x y needed }
{
    x < 65536 && y < 1073741824 && needed <= 4294967295
}

// Group after group, if any is used: the tree of a leaf alone uses none.
fn fill_all(
    mask: u32,
    x: usize,
    y: usize,
    data: PredictionData,
    wp_property: i32,
    references: &[i32],
    cells: &mut [i32],
)
    requires { (x < 65536) × (y < 2 ^ 30) × (16 ≤ length cells.old) × Holds mask (length references.now) (length cells.old) }
    ensures { cells.new ≡ filled_cells mask x y «data» wp_property references.now cells.old }
{
    let unused = mask == 0;
    if unused {
        return;
    }
    fill_position(mask, x, y, cells);
    fill_neighbours(mask, data, cells);
    fill_gradient(mask, data, cells);
    fill_context(mask, data, cells);
    fill_weighted(mask, wp_property, cells);
    fill_references(mask, references, cells);
}

// Fills the cells of the groups that the mask uses, for the pixel at x, y with these neighbours.
pub fn compute_properties(
    mask: u32,
    x: usize,
    y: usize,
    data: PredictionData,
    wp_property: i32,
    references: &[i32],
    cells: &mut [i32],
) -> Result<(), Refusal>
    ensures answers { said result ≡ outcome mask x y (length references.now) (length cells.old) }
    ensures holds { cells.new ≡ after (filled_cells mask x y «data» wp_property references.now cells.old) (outcome mask x y (length references.now) (length cells.old)) cells.old }
{
    let needed = cells_needed(mask, references);
    if !in_domain(x, y, needed) {
        return Err(Refusal::WrongSize);
    }
    if cells.len() < needed {
        return Err(Refusal::TooFewCells {
            needed: needed as u32,
        });
    }
    fill_all(mask, x, y, data, wp_property, references, cells);
    Ok(())
}
