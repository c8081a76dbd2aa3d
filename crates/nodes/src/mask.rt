// The mask of the properties that the splits of a list test, so that only those cells are filled.
ghost use Rattle.std.specs.Prelude.{◌≡◌, ◌*◌, ◌≤◌, length};
ghost use Rattle.nodes.specs.Mask.{bits_for, bits_of_node, mask_up_to, mask_of};
ghost use Rattle.refusal.specs.Paper.{said};

use crate::{Node, count_nodes, read_node};
use refusal::Refusal;

// The bits of one property: 8 and 9 go together, and one from 32 on has no bit of its own, so it sets all.
fn bits_for(property: u32) -> u32
    ensures { result ≡ bits_for property }
{
    if property >= 32 {
        return 4294967295;
    }
    if property == 8 || property == 9 {
        return 768;
    }
    1 << property
}

fn bits_of_node(node: Node) -> u32
    ensures { result ≡ bits_of_node node }
{
    match node {
        Node::Split(split) => bits_for(split.property),
        Node::Leaf(_) => 0,
    }
}

// Node after node, each read from its own words onward.
fn mask_of(words: &[i32], nodes: usize) -> Result<u32, Refusal>
    requires { (5 * nodes ≤ length words.now) × (nodes ≤ 1048575) }
    ensures { said result ≡ mask_up_to words.now nodes }
{
    let mut mask: u32 = 0;
    for k in 0..nodes {
        let node = read_node(&words[5 * k..], k as u32)?;
        mask |= bits_of_node(node);
    }
    Ok(mask)
}

// Which properties the splits test. Children are not tested.
pub fn compute_used_property_mask(words: &[i32]) -> Result<u32, Refusal>
    ensures { said result ≡ mask_of words.now }
{
    let nodes = count_nodes(words)?;
    mask_of(words, nodes)
}
