// The form of a record whose six words are there.
ghost use Rattle.std.specs.Prelude.{◌≡◌, ◌≤◌, ◌<◌, length};
ghost use Rattle.flat.specs.Records.{flat_leaf, flat_split, record_of, signed_half};
ghost use Rattle.refusal.specs.Paper.{said};

use crate::records::{FlatLeaf, FlatSplit, Record};
use integer::to_bits;
use predict::predictors::Predictor;
use refusal::Refusal;

// 16 bits as signed.
fn signed_half(half: u32) -> i32
    requires { half < 65536 }
    ensures { result ≡ signed_half half }
{
    if half < 32768 {
        half as i32
    } else {
        half as i32 - 65536
    }
}

// The leaf of these words, whose first is -1. A leaf and a split are read apart: through one enum of both, the walk would carry each record
// by way of memory.
pub fn read_leaf(words: &[i32], place: u32) -> Result<FlatLeaf, Refusal>
    requires { 6 ≤ length words.now }
    ensures { said result ≡ flat_leaf words.now place }
{
    let number = to_bits(words[1]);
    let multiplier = to_bits(words[2]);
    let none = to_bits(words[3]);
    let context = to_bits(words[4]);
    let last = to_bits(words[5]);
    if none != 0 || last / 65536 != 0 {
        return Err(Refusal::NotInForm { place });
    }
    let offset = signed_half(last % 65536);
    let Ok(predictor) = Predictor::try_from(number) else {
        return Err(Refusal::NotInForm { place });
    };
    Ok(FlatLeaf {
        predictor,
        multiplier,
        context,
        offset,
    })
}

// The split of these words, whose first is not -1.
pub fn read_split(words: &[i32], place: u32) -> Result<FlatSplit, Refusal>
    requires { 6 ≤ length words.now }
    ensures { said result ≡ flat_split words.now place }
{
    let property = to_bits(words[0]);
    let value = words[1];
    let left_value = words[2];
    let right_value = words[3];
    let first = to_bits(words[4]);
    let last = to_bits(words[5]);
    let left_property = last % 65536;
    let right_property = last / 65536;
    if 255 < property || 255 < left_property || 255 < right_property {
        return Err(Refusal::NotInForm { place });
    }
    Ok(FlatSplit {
        property,
        value,
        left_value,
        right_value,
        first,
        left_property,
        right_property,
    })
}

// The record at the begin of this part of a list, which has at least its six words.
pub fn record_here(words: &[i32], place: u32) -> Result<Record, Refusal>
    requires { 6 ≤ length words.now }
    ensures { said result ≡ record_of words.now place }
{
    if words[0] == -1 {
        let leaf = read_leaf(words, place)?;
        Ok(Record::Leaf(leaf))
    } else {
        let split = read_split(words, place)?;
        Ok(Record::Split(split))
    }
}
