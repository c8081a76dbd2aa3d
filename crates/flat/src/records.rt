// A flat record is six words: a split with both its children's tests, or a leaf whose offset has 16 bits.
ghost use Rattle.std.specs.Prelude.{◌≡◌};
ghost use Rattle.flat.specs.FlatWalk.{as_leaf};
ghost use Rattle.flat.specs.Records.{counted, record_of};
ghost use Rattle.refusal.specs.Paper.{said};

use crate::form::record_here;
use nodes::Leaf;
use predict::predictors::Predictor;
use refusal::Refusal;

// The four grandchildren lie from `first` on: left's left, left's right, right's left, right's right.
#[derive(Clone, Copy, Debug, PartialEq, Eq)]
pub struct FlatSplit {
    pub property: u32,
    pub value: i32,
    pub left_value: i32,
    pub right_value: i32,
    pub first: u32,
    pub left_property: u32,
    pub right_property: u32,
}

#[derive(Clone, Copy, Debug, PartialEq, Eq)]
pub struct FlatLeaf {
    pub predictor: Predictor,
    pub multiplier: u32,
    pub context: u32,
    pub offset: i32,
}

impl FlatLeaf {
    // It answers as this leaf does in the direct walk.
    pub fn as_leaf(self) -> Leaf
        ensures { result ≡ as_leaf self }
    {
        Leaf {
            predictor: self.predictor,
            offset: self.offset,
            multiplier: self.multiplier,
            id: self.context,
        }
    }
}

#[derive(Clone, Copy, Debug, PartialEq, Eq)]
pub enum Record {
    Split(FlatSplit),
    Leaf(FlatLeaf),
}

// The record at the begin of this part of a list, whose place in the list is told.
pub fn read_record(words: &[i32], place: u32) -> Result<Record, Refusal>
    ensures { said result ≡ record_of words.now place }
{
    if words.len() < 6 {
        return Err(Refusal::NotInForm { place });
    }
    record_here(words, place)
}

// How many records a list has: at most 2,097,149, of six words each.
pub fn count_records(words: &[i32]) -> Result<usize, Refusal>
    ensures { said result ≡ counted words.now }
{
    if words.len() % 6 != 0 {
        return Err(Refusal::WordCount);
    }
    let records = words.len() / 6;
    if 2097149 < records {
        return Err(Refusal::TooMany);
    }
    Ok(records)
}
