// Validation: a visit of the whole tree, depth first, left first. The work area holds the range of each property and, for each
// split on the way from the root, a frame of five words: property, value, the range that was found, and the right child while
// it is still to be visited, else 0.
ghost use Rattle.std.specs.Prelude.{◌≡◌, ◌≤◌, ◌<◌, ◌*◌, length, drop};
ghost use Rattle.refusal.specs.Paper.{said};
ghost use Rattle.validation.specs.Frames.{
  leaf_step,
  split_step,
  split_work,
  RightFits,
  entering,
  entered_work,
  frame_in,
  back_of,
  back_work,
  ranges,
};
ghost use Rattle.validation.specs.Visit.{visit, levels, all_ranges};
ghost use Rattle.validation.specs.Verdict.{SoundList};

use integer::to_bits;
use nodes::{Node, Split, read_node};
use refusal::{Refusal, Side};

fn enter_leaf(place: u32, depth: usize) -> Result<Option<usize>, Refusal>
    ensures { said result ≡ leaf_step place depth }
{
    if depth <= 2048 {
        Ok(None)
    } else {
        Err(Refusal::TooDeep { place })
    }
}

// Depth is tested before range. A split whose sides both hold a value is left on the stack, with its left range set.
fn enter_split(
    split: Split,
    place: u32,
    depth: usize,
    work: &mut [i32],
) -> Result<Option<usize>, Refusal>
    requires { (depth ≤ 2049) × (10762 ≤ length work.old) × («split».property < 256) × («split».right < 1048576) }
    ensures result_value { said result ≡ split_step «split» place depth work.old }
    ensures work_after { work.new ≡ split_work «split» depth work.old }
{
    if 2048 < depth {
        return Err(Refusal::TooDeep { place });
    }
    let property = split.property;
    let value = split.value;
    let lowest = 2 * (property as usize);
    let low = work[lowest];
    let high = work[lowest + 1];
    if high <= value || value < low {
        return Err(Refusal::EmptySide(Side {
            place,
            property,
            value,
            low,
            high,
        }));
    }
    // word by word: a copy of five would go by the stack first
    let at = 512 + 5 * depth;
    work[at] = property as i32;
    work[at + 1] = value;
    work[at + 2] = low;
    work[at + 3] = high;
    work[at + 4] = split.right as i32;
    work[lowest] = value + 1;
    Ok(Some(split.left as usize))
}

// The node at this place: a leaf leads nowhere, a split to its left child.
fn enter(
    words: &[i32],
    place: usize,
    depth: usize,
    work: &mut [i32],
) -> Result<Option<usize>, Refusal>
    requires { (place < 1048576) × (5 * place ≤ length words.now) × (depth ≤ 2049) × (10762 ≤ length work.old) × RightFits words.now place }
    ensures result_value { said result ≡ entering words.now place depth work.old }
    ensures work_after { work.new ≡ entered_work words.now place depth work.old }
{
    let number = place as u32;
    match read_node(&words[5 * place..], number)? {
        Node::Leaf(_) => enter_leaf(number, depth),
        Node::Split(split) => enter_split(split, number, depth, work),
    }
}

// Back from a child: on to the right side with its range, or up with the range restored.
fn leave(depth: usize, work: &mut [i32]) -> Option<usize>
    requires { (depth ≤ 2048) × (10762 ≤ length work.old) × ((frame_in work.old depth).property < 256) }
    ensures value { result ≡ back_of (frame_in work.old depth) }
    ensures work_after { work.new ≡ back_work (frame_in work.old depth) depth work.old }
{
    let at = 512 + 5 * depth;
    let property = to_bits(work[at]);
    let value = work[at + 1];
    let low = work[at + 2];
    let high = work[at + 3];
    let right = to_bits(work[at + 4]);
    let lowest = 2 * (property as usize);
    work[lowest] = low;
    if right == 0 {
        work[lowest + 1] = high;
        return None;
    }
    work[lowest + 1] = value;
    work[at + 4] = 0;
    Some(right as usize)
}

// The whole visit of a sound tree: down to a leaf, left first, then up to the first split whose right side is still to be visited.
pub fn visit_all(words: &[i32], work: &mut [i32]) -> Result<(), Refusal>
    requires { SoundList words.now × (10762 ≤ length work.old) × (ranges work.old ≡ all_ranges) }
    ensures result_value { said result ≡ visit words.now levels 0 all_ranges }
    ensures rest_unchanged { drop 10762 work.new ≡ drop 10762 work.old }
{
    let mut place = 0;
    let mut depth = 0;
    'visit: loop {
        loop {
            match enter(words, place, depth, work) {
                Err(refusal) => break 'visit Err(refusal),
                Ok(None) => break,
                Ok(Some(left)) => {
                    place = left;
                    depth += 1;
                }
            }
        }
        loop {
            if depth == 0 {
                break 'visit Ok(());
            }
            let above = depth - 1;
            if let Some(right) = leave(above, work) {
                place = right;
                break;
            }
            depth = above;
        }
    }
}
