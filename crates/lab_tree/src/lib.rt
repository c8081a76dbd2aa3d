// What the oracle calls from Rust (../../oracle): the functions of trees and of cells behind C functions. No part of what a
// board links. An answer of 0 says done, another is a refusal's number; its details are then the first words of `told`, where
// there must be room for five. A list that is too short is 8, before all else, and nothing is written.
#![tactic(auto)]

ghost use Rattle.lab_tree.specs.Told.{MaskTold, ShapeTold, ValidTold, FillTold};

use cells::compute_properties;
use nodes::mask::compute_used_property_mask;
use told::{take_seven, tell, tell_done};
use validation::{check_shape, validate_tree};

// The mask as the first word told.
#[unsafe(no_mangle)]
pub extern "C" fn matuviso_property_mask(words: &[i32], told: &mut [i64]) -> u32
    ensures { MaskTold words.now told.old result told.new }
{
    if told.len() < 5 {
        return 8;
    }
    match compute_used_property_mask(words) {
        Ok(mask) => {
            told[0] = mask as i64;
            0
        }
        Err(refusal) => tell(refusal, told),
    }
}

#[unsafe(no_mangle)]
pub extern "C" fn matuviso_check_shape(words: &[i32], told: &mut [i64]) -> u32
    ensures { ShapeTold words.now told.old result told.new }
{
    if told.len() < 5 {
        return 8;
    }
    tell_done(check_shape(words), told)
}

#[unsafe(no_mangle)]
pub extern "C" fn matuviso_validate_tree(words: &[i32], work: &mut [i32], told: &mut [i64]) -> u32
    ensures { ValidTold words.now work.old told.old result work.new told.new }
{
    if told.len() < 5 {
        return 8;
    }
    tell_done(validate_tree(words, work), told)
}

// Fills the cells of a pixel whose neighbours are the seven of `data`.
#[unsafe(no_mangle)]
pub extern "C" fn matuviso_compute_properties(
    mask: u32,
    x: usize,
    y: usize,
    data: &[i32],
    wp_property: i32,
    references: &[i32],
    cells: &mut [i32],
    told: &mut [i64],
) -> u32
    ensures { FillTold mask x y «data».now wp_property references.now cells.old told.old result cells.new told.new }
{
    if data.len() < 7 || told.len() < 5 {
        return 8;
    }
    let filled = compute_properties(mask, x, y, take_seven(data), wp_property, references, cells);
    tell_done(filled, told)
}
