// A node is five words: a split (property 0..255, value, left, right, 0) or a leaf (-1, predictor, offset, multiplier, id).
#![tactic(auto)]

ghost use Rattle.std.specs.Prelude.{◌≡◌, ◌≤◌, length};
ghost use Rattle.nodes.specs.Nodes.{counted, leaf_of, node_of};
ghost use Rattle.refusal.specs.Paper.{said};

use integer::to_bits;
use predict::predictors::Predictor;
use refusal::Refusal;

pub mod mask;

// Left holds cell > value.
#[derive(Clone, Copy, Debug, PartialEq, Eq)]
pub struct Split {
    pub property: u32,
    pub value: i32,
    pub left: u32,
    pub right: u32,
}

#[derive(Clone, Copy, Debug, PartialEq, Eq)]
pub struct Leaf {
    pub predictor: Predictor,
    pub offset: i32,
    pub multiplier: u32,
    pub id: u32,
}

#[derive(Clone, Copy, Debug, PartialEq, Eq)]
pub enum Node {
    Split(Split),
    Leaf(Leaf),
}

// The leaf of these words, whose first is -1.
fn read_leaf(words: &[i32], place: u32) -> Result<Node, Refusal>
    requires { 5 ≤ length words.now }
    ensures { said result ≡ leaf_of words.now place }
{
    let number = to_bits(words[1]);
    let offset = words[2];
    let multiplier = to_bits(words[3]);
    let id = to_bits(words[4]);
    let Ok(predictor) = Predictor::try_from(number) else {
        return Err(Refusal::NotInForm { place });
    };
    Ok(Node::Leaf(Leaf {
        predictor,
        offset,
        multiplier,
        id,
    }))
}

// The node at the begin of this part of a list, whose place in the list is told.
pub fn read_node(words: &[i32], place: u32) -> Result<Node, Refusal>
    ensures { said result ≡ node_of words.now place }
{
    if words.len() < 5 {
        return Err(Refusal::NotInForm { place });
    }
    let first = words[0];
    if first == -1 {
        return read_leaf(words, place);
    }
    let property = to_bits(first);
    if 255 < property {
        return Err(Refusal::NotInForm { place });
    }
    if words[4] != 0 {
        return Err(Refusal::NotInForm { place });
    }
    let value = words[1];
    let left = to_bits(words[2]);
    let right = to_bits(words[3]);
    Ok(Node::Split(Split {
        property,
        value,
        left,
        right,
    }))
}

// How many nodes a list has: at most 1,048,575, of five words each.
pub fn count_nodes(words: &[i32]) -> Result<usize, Refusal>
    ensures { said result ≡ counted words.now }
{
    if words.len() % 5 != 0 {
        return Err(Refusal::WordCount);
    }
    let nodes = words.len() / 5;
    if 1048575 < nodes {
        return Err(Refusal::TooMany);
    }
    Ok(nodes)
}
