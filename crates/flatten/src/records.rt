// The six words of each record, and what it queues.
ghost use Rattle.std.specs.Prelude.{[], ◌∷◌, ◌≡◌, ◌+◌, ◌*◌, ◌/◌, ◌≤◌, ◌<◌, length};
ghost use Rattle.std.proofs.lemmas.List.Edits.{sets};
ghost use Rattle.nodes.specs.Nodes.{node_at};
ghost use Rattle.refusal.specs.Paper.{gives};
ghost use Rattle.nodes.specs.declared.Node.TheVariants as variant;
ghost use Rattle.flatten.specs.Child.{child_of, split_words, Narrow, There};
ghost use Rattle.flatten.specs.Queue.{grandchildren};
ghost use Rattle.flatten.specs.Records.{record_size, leaf_words, record_for};
ghost use Rattle.flatten.specs.Ring.{ends, Ready, Puts};
ghost use Rattle.validation.specs.Verdict.{SoundList};

use crate::ring::Ring;
use integer::{from_bits, to_bits};
use nodes::{Leaf, Node, Split, read_node};

// What a split's record says of a child, and the two places that are queued for it.
#[derive(Clone, Copy, Debug, PartialEq, Eq)]
pub struct Child {
    pub property: u32,
    pub value: i32,
    pub one: u32,
    pub two: u32,
}

fn write_leaf(leaf: Leaf, output: &mut [i32], at: usize)
    requires { at + record_size ≤ length output.old }
    ensures { output.new ≡ sets output.old at (leaf_words «leaf») }
{
    output[at] = -1;
    output[at + 1] = leaf.predictor as i32;
    output[at + 2] = from_bits(leaf.multiplier);
    output[at + 3] = 0;
    output[at + 4] = from_bits(leaf.id);
    output[at + 5] = (to_bits(leaf.offset) % 65536) as i32;
}

fn write_split(split: Split, left: Child, right: Child, first: usize, output: &mut [i32], at: usize)
    requires { (at + record_size ≤ length output.old) × («split».property < 256) × («left».property < 256) × («right».property < 256) × (first < 2147483648) }
    ensures { output.new ≡ sets output.old at (split_words «split» «left» «right» first) }
{
    output[at] = split.property as i32;
    output[at + 1] = split.value;
    output[at + 2] = left.value;
    output[at + 3] = right.value;
    output[at + 4] = first as i32;
    output[at + 5] = (left.property + 65536 * right.property) as i32;
}

// Of a split of a sound list: a child that is no split is a leaf.
fn read_child(words: &[i32], place: u32) -> Child
    requires { 5 * place ≤ length words.now }
    ensures { result ≡ child_of (node_at words.now place) place }
{
    if let Ok(Node::Split(split)) = read_node(&words[5 * (place as usize)..], place) {
        Child {
            property: split.property,
            value: split.value,
            one: split.left,
            two: split.right,
        }
    } else {
        Child {
            property: 0,
            value: 0,
            one: place,
            two: place,
        }
    }
}

fn queue_child(child: Child, ring: &mut Ring)
    requires { Ready (ends ring.old) ring.old.words.now × (ring.old.queued + 2 ≤ length ring.old.words.now) × Narrow «child» }
    ensures same { ring.new.words.ghost_name ≡ ring.old.words.ghost_name }
    ensures puts { Puts (ends ring.old) ring.old.words.now («child».one ∷ «child».two ∷ []) (ends ring.new) ring.new.words.now }
{
    ring.put(child.one as usize);
    ring.put(child.two as usize);
}

// A split's record stands for its two children as well, and queues theirs.
fn write_three(
    words: &[i32],
    split: Split,
    first: usize,
    ring: &mut Ring,
    output: &mut [i32],
    at: usize,
)
    requires there { There words.now «split».left × There words.now «split».right × («split».property < 256) × (first < 2147483648) }
    requires ready { Ready (ends ring.old) ring.old.words.now × (ring.old.queued + 4 ≤ length ring.old.words.now) × (at + record_size ≤ length output.old) }
    ensures same { ring.new.words.ghost_name ≡ ring.old.words.ghost_name }
    ensures puts { Puts (ends ring.old) ring.old.words.now (grandchildren words.now (gives (variant.Split «split»))) (ends ring.new) ring.new.words.now }
    ensures output_after { output.new ≡ sets output.old at (record_for words.now (gives (variant.Split «split»)) first) }
{
    let left = read_child(words, split.left);
    let right = read_child(words, split.right);
    write_split(split, left, right, first, output, at);
    queue_child(left, ring);
    queue_child(right, ring);
}

// Record k, of the node at this place: written in its words, and its grandchildren queued. Each word is stored at once: with a record made
// first, and then copied, a tree took up to half as long again.
pub fn write_record(words: &[i32], place: usize, k: usize, ring: &mut Ring, output: &mut [i32])
    requires sound_list { SoundList words.now × (place < length words.now / 5) × (record_size * k + record_size ≤ length output.old) × (k + ring.old.queued < 2147483647) }
    requires ready { Ready (ends ring.old) ring.old.words.now × (ring.old.queued + length (grandchildren words.now (node_at words.now place)) ≤ length ring.old.words.now) }
    ensures same { ring.new.words.ghost_name ≡ ring.old.words.ghost_name }
    ensures puts { Puts (ends ring.old) ring.old.words.now (grandchildren words.now (node_at words.now place)) (ends ring.new) ring.new.words.now }
    ensures output_after { output.new ≡ sets output.old (record_size * k) (record_for words.now (node_at words.now place) (k + ring.old.queued + 1)) }
{
    match read_node(&words[5 * place..], place as u32) {
        Ok(Node::Split(split)) => {
            let first = k + ring.queued + 1;
            write_three(words, split, first, ring, output, 6 * k);
        }
        Ok(Node::Leaf(leaf)) => write_leaf(leaf, output, 6 * k),
        Err(_) => {}
    }
}
