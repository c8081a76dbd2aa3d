// Records 9 and 10: a tree in the order of its splits, its mask and its verdict. The Rust does not tell the place of a split
// with an empty side, so that it is not compared.
ghost use Rattle.std.specs.Prelude.{◌+◌, ◌*◌, ◌<◌, ◌≤◌, length, IfOk};

use crate::fault::{Fault, expect};
use crate::record::Record;
use nodes::mask::compute_used_property_mask;
use refusal::Refusal;
use validation::validate_tree;

// Split k of the record, as a node.
fn split(record: &Record, k: usize) -> [i32; 5]
    requires { k < 8 }
{
    [
        record.byte(8 + k) as i32,
        record.word(5 + k),
        (2 * k + 1) as i32,
        (2 * k + 2) as i32,
        0,
    ]
}

// No two leaves of a tree are alike.
fn leaf(place: usize) -> [i32; 5]
    requires { place < 17 }
{
    let offset = if place % 2 == 1 {
        -3
    } else {
        (100 * place) as i32
    };
    [
        -1,
        (place % 14) as i32,
        offset,
        (place + 1) as i32,
        place as i32,
    ]
}

// The nodes of the record's tree: splits where the bits of its first word say so, as many as it has, else leaves.
fn put_tree(list: &mut [i32], nodes: usize, record: &Record)
    requires { (5 * nodes ≤ length list.old) × (nodes ≤ 17) }
{
    let mut bits = record.bits(1);
    let mut k = 0;
    for place in 0..nodes {
        let node = if bits % 2 == 1 && k < 8 {
            k += 1;
            split(record, k - 1)
        } else {
            leaf(place)
        };
        list[5 * place..5 * place + 5].copy_from_slice(&node);
        bits /= 2;
    }
}

// The tree of a record, and how many words it has.
pub fn tree(record: &Record) -> Result<([i32; 85], usize), Fault>
    ensures { IfOk result (λ tree. tree.1 ≤ 85) }
{
    let nodes = record.bits(2) as usize;
    if 17 < nodes {
        return Err(Fault::NoForm);
    }
    let mut list = [0i32; 85];
    put_tree(&mut list, nodes, record);
    Ok((list, 5 * nodes))
}

// A record of a mask.
pub fn mask(record: &Record) -> Result<(), Fault> {
    let (list, words) = tree(record)?;
    let mask = compute_used_property_mask(&list[..words])?;
    expect(mask == record.bits(13))
}

// A record of a verdict. Not inlined: its work area would lie on the stack for the whole run.
#[inline(never)]
pub fn verdict(record: &Record) -> Result<(), Fault> {
    let (list, words) = tree(record)?;
    let mut work = [0i32; 10762];
    match validate_tree(&list[..words], &mut work) {
        Ok(()) => expect(record.bits(13) == 0),
        Err(Refusal::EmptySide(side)) => expect(
            record.bits(13) == 7
                && side.property == record.bits(14)
                && side.value == record.word(15)
                && side.low == record.word(16)
                && side.high == record.word(17),
        ),
        Err(_) => Err(Fault::Refused),
    }
}
