// What the bench times from Rust (../../oracle): the cells of a row of pixels behind one C function. A crate of its own, so
// that the filling has one caller and is compiled into its loop, as it is in a program that unpacks a scan.
#![tactic(auto)]

ghost use Rattle.bench_tree.specs.Row.{FillsRow};

use cells::compute_properties;
use told::take_seven;

// The cells are filled for pixel after pixel, its neighbours seven words, weighted prediction off; the first refusal ends the row, and its number is told.
#[unsafe(no_mangle)]
pub extern "C" fn matuviso_fill_row(
    mask: u32,
    y: usize,
    data: &[i32],
    references: &[i32],
    cells: &mut [i32],
) -> u32
    ensures { FillsRow mask y «data».now references.now cells.old result cells.new }
{
    let pixels = data.len() / 7;
    for x in 0..pixels {
        let neighbours = take_seven(&data[7 * x..]);
        if let Err(refusal) = compute_properties(mask, x, y, neighbours, 0, references, cells) {
            return refusal.number();
        }
    }
    0
}
