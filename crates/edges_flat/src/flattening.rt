// Flattening: 1, 3 and 4, then 9, then 8, the ring before the output. Of the output the records are shown and one word beyond.
ghost use Rattle.std.specs.Prelude.{◌+◌, ◌*◌, ◌≤◌, length};

use crate::trees;
use flatten::build_flat_tree;
use refusal::Refusal;

// How many words of the output are the records.
fn told(rt: &impl Print, flattened: Result<usize, Refusal>) -> usize {
    match flattened {
        Ok(count) => {
            let _ = print!(rt; ": {count} records");
            if count <= 21 { 6 * count } else { 0 }
        }
        Err(refusal) => {
            print::refusal(refusal);
            0
        }
    }
}

fn lend(
    rt: &impl Print,
    words: &[i32],
    ring: &mut [i32],
    ring_lent: usize,
    output: &mut [i32],
    output_lent: usize,
) -> usize
    requires { (ring_lent ≤ length ring.old) × (output_lent ≤ length output.old) }
{
    let answered = build_flat_tree(words, &mut ring[..ring_lent], &mut output[..output_lent]);
    told(rt, answered)
}

fn show(output: &[i32], written: usize) {
    if written < output.len() {
        print::words(&output[..written + 1]);
    }
}

// With so many words lent of a ring of 17 and of an output of 175.
fn flatten(rt: &impl Print, name: &str, words: &[i32], ring_lent: usize, output_lent: usize)
    requires { (ring_lent ≤ 17) × (output_lent ≤ 175) }
{
    let _ = print!(rt; "build_flat_tree {name} ring={ring_lent} output={output_lent}");
    let mut ring = [7i32; 17];
    let mut output = [7i32; 175];
    let written = lend(rt, words, &mut ring, ring_lent, &mut output, output_lent);
    let _ = print!(rt; "; ");
    print::words(&ring);
    let _ = print!(rt; " ");
    show(&output, written);
    let _ = println!(rt);
}

// Three nodes, property 9 and value 0: left twice, right twice, and the ring of 4 full.
fn three(rt: &impl Print) {
    let words = [9, 0, 1, 2, 0, -1, 5, 20, 3, 1, -1, 13, -3, -1, 2];
    flatten(rt, "of three nodes", &words, 4, 30);
    flatten(rt, "of three nodes", &words, 5, 31);
    flatten(rt, "of three nodes", &words, 3, 30);
    flatten(rt, "of three nodes", &words, 4, 29);
    flatten(rt, "of three nodes", &words, 0, 0);
}

// 15 nodes, all leaves at depth 3: the ring of 16 is full.
fn fifteen(rt: &impl Print) {
    let words = trees::full();
    flatten(rt, "of 15 nodes", &words, 16, 174);
    flatten(rt, "of 15 nodes", &words, 15, 174);
    flatten(rt, "of 15 nodes", &words, 16, 173);
}

fn small(rt: &impl Print) {
    let leaf = [-1, 6, 0, 1, 0];
    flatten(rt, "of no nodes", &leaf[..0], 0, 0);
    flatten(rt, "of no nodes", &leaf[..0], 17, 175);
    flatten(rt, "of a leaf", &leaf, 2, 6);
    flatten(rt, "of a leaf", &leaf, 1, 6);
    flatten(rt, "of a leaf", &leaf, 2, 5);
    flatten(rt, "of four words", &leaf[..4], 17, 175);
}

fn offset(rt: &impl Print, offset: i32, ring_lent: usize)
    requires { ring_lent ≤ 17 }
{
    let _ = print!(rt; "offset {offset}, ");
    flatten(rt, "of it", &[-1, 0, offset, 1, 0], ring_lent, 175);
}

fn offsets(rt: &impl Print) {
    offset(rt, 32767, 2);
    offset(rt, -32768, 2);
    offset(rt, 32768, 2);
    offset(rt, -32769, 2);
    offset(rt, 32768, 0);
}

// At the lowest place, after all of 3 and 4.
fn refused(rt: &impl Print) {
    flatten(
        rt,
        "of two wide offsets",
        &[0, 0, 1, 2, 0, -1, 0, 40000, 1, 0, -1, 0, -40000, 1, 0],
        17,
        175,
    );
    flatten(
        rt,
        "of a wide offset and a predictor 14",
        &[0, 0, 1, 2, 0, -1, 0, 40000, 1, 0, -1, 14, 0, 1, 0],
        17,
        175,
    );
    flatten(
        rt,
        "of children exchanged",
        &[0, 0, 2, 1, 0, -1, 0, 0, 1, 0, -1, 0, 0, 1, 0],
        17,
        175,
    );
    flatten(
        rt,
        "of two leaves",
        &[-1, 0, 0, 1, 0, -1, 0, 0, 1, 0],
        17,
        175,
    );
}

pub fn run(rt: &impl Print) {
    three(rt);
    fifteen(rt);
    small(rt);
    offsets(rt);
    refused(rt);
}
