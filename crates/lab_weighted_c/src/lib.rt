// What the oracle calls from Rust (../../oracle): the weighted state behind C functions. No part of what a board links.
// Each function is the one of its name in lab_weighted, where it is said how a state is told and what is answered.
#![tactic(auto)]

ghost use Rattle.lab_weighted.specs.Told.{
  OpenTold,
  AskTold,
  PutTold,
  SaveTold,
  RestoreTold,
};

// Clears the memory of a state before the first pixel of a picture of this width.
#[unsafe(no_mangle)]
pub extern "C" fn matuviso_weighted_open(header: &[u32], width: usize, memory: &mut [u32]) -> u32
    ensures { OpenTold header.now width memory.old result memory.new }
{
    lab_weighted::matuviso_weighted_open(header, width, memory)
}

// The guess and the property of the pixel at the place, whose neighbours are the seven of `data`.
#[unsafe(no_mangle)]
pub extern "C" fn matuviso_weighted_ask(
    header: &[u32],
    place: &mut [u64],
    found: &mut [i64],
    memory: &[u32],
    data: &[i32],
    answer: &mut [i64],
) -> u32
    ensures { AskTold header.now place.old found.old memory.now «data».now answer.old result place.new found.new answer.new }
{
    lab_weighted::matuviso_weighted_ask(header, place, found, memory, data, answer)
}

// The true value of the pixel that was asked for.
#[unsafe(no_mangle)]
pub extern "C" fn matuviso_weighted_put(
    header: &[u32],
    place: &mut [u64],
    found: &[i64],
    memory: &mut [u32],
    value: i32,
) -> u32
    ensures { PutTold header.now place.old found.now memory.old value result place.new memory.new }
{
    lab_weighted::matuviso_weighted_put(header, place, found, memory, value)
}

// Copies the first half of the memory into the list.
#[unsafe(no_mangle)]
pub extern "C" fn matuviso_save_state(
    header: &[u32],
    place: &[u64],
    found: &[i64],
    memory: &[u32],
    saved: &mut [u32],
) -> u32
    ensures { SaveTold header.now place.now found.now memory.now saved.old result saved.new }
{
    lab_weighted::matuviso_save_state(header, place, found, memory, saved)
}

// Writes the list back into the first half of the memory.
#[unsafe(no_mangle)]
pub extern "C" fn matuviso_restore_state(
    header: &[u32],
    place: &[u64],
    found: &[i64],
    memory: &mut [u32],
    saved: &[u32],
) -> u32
    ensures { RestoreTold header.now place.now found.now memory.old saved.now result memory.new }
{
    lab_weighted::matuviso_restore_state(header, place, found, memory, saved)
}
