// Whether every leaf's offset has 16 bits, as its record has.
ghost use Rattle.std.specs.Prelude.{◌≡◌, ◌*◌, ◌≤◌, ◌<◌, length};
ghost use Rattle.flatten.specs.Offsets.{judged, offset_of, first_wide};
ghost use Rattle.nodes.specs.Nodes.{node_at};
ghost use Rattle.refusal.specs.Paper.{said};

use nodes::{Node, read_node};
use refusal::Refusal;

fn judge_offset(offset: i32, place: u32) -> Result<(), Refusal>
    ensures { said result ≡ judged offset place }
{
    if offset < -32768 || 32767 < offset {
        return Err(Refusal::WideOffset { place });
    }
    Ok(())
}

fn check_offset(words: &[i32], place: usize) -> Result<(), Refusal>
    requires { (place < 1048576) × (5 * place ≤ length words.now) }
    ensures { said result ≡ offset_of (node_at words.now place) place }
{
    let number = place as u32;
    match read_node(&words[5 * place..], number)? {
        Node::Split(_) => Ok(()),
        Node::Leaf(leaf) => judge_offset(leaf.offset, number),
    }
}

// Place after place: the lowest counts.
pub fn check_offsets(words: &[i32], n: usize) -> Result<(), Refusal>
    requires { (n < 1048576) × (length words.now ≡ 5 * n) }
    ensures { said result ≡ first_wide words.now n }
{
    for place in 0..n {
        check_offset(words, place)?;
    }
    Ok(())
}
