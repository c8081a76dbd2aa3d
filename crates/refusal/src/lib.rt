// Why a call was refused: document 01's table, one case a number. The number and the details of each
// case are `specs/Paper.antt`'s; every promise of the library speaks of a refusal through them.
#![tactic(auto)]

ghost use Rattle.std.specs.Prelude.{◌≡◌, pos, get_or};
ghost use Rattle.refusal.specs.Paper.{number_of, details_of};
ghost use Rattle.refusal.specs.Shown.{shown, shown_side};
ghost use Rattle.std.specs.Prelude.{Some};

use std::error::Error;
use std::fmt;

// A split that leaves a side empty: its place, its test, and the range in which its property still lies.
#[derive(Clone, Copy, Debug, PartialEq, Eq)]
pub struct Side {
    pub place: u32,
    pub property: u32,
    pub value: i32,
    pub low: i32,
    pub high: i32,
}

#[derive(Clone, Copy, Debug, PartialEq, Eq)]
pub enum Refusal {
    // 1: the word count is no multiple of the node or record size
    WordCount,
    // 2: too many nodes or records
    TooMany,
    // 3: a node or record that is not in its form
    NotInForm { place: u32 },
    // 4: children out of place, a list too short or too long
    OutOfPlace { place: u32 },
    // 5: a walk over an empty list
    EmptyList,
    // 6: a node at depth 2,049
    TooDeep { place: u32 },
    // 7: a split with an empty side
    EmptySide(Side),
    // 8: a work area, memory, ring or output too small
    TooSmall { needed: u32 },
    // 9: a leaf offset outside 16 bits, in flattening
    WideOffset { place: u32 },
    // 10: too few cells
    TooFewCells { needed: u32 },
    // 11: a width, position, row length or plane length that is wrong
    WrongSize,
    // 12: a header value out of range
    HeaderRange,
    // 13: a call out of turn
    OutOfTurn,
    // 14: a colour operation over 6 or an order over 5
    NoSuchColour,
}

impl Refusal {
    // The paper's number.
    pub fn number(self) -> u32
        ensures { result ≡ number_of self }
    {
        match self {
            Refusal::WordCount => 1,
            Refusal::TooMany => 2,
            Refusal::NotInForm { place: _ } => 3,
            Refusal::OutOfPlace { place: _ } => 4,
            Refusal::EmptyList => 5,
            Refusal::TooDeep { place: _ } => 6,
            Refusal::EmptySide(_) => 7,
            Refusal::TooSmall { needed: _ } => 8,
            Refusal::WideOffset { place: _ } => 9,
            Refusal::TooFewCells { needed: _ } => 10,
            Refusal::WrongSize => 11,
            Refusal::HeaderRange => 12,
            Refusal::OutOfTurn => 13,
            Refusal::NoSuchColour => 14,
        }
    }

    // The paper's first detail: a place, the words or cells needed, or 0. Only 7 has more, in its fields.
    pub fn first_detail(self) -> u32
        ensures { pos result ≡ get_or (details_of self) 0 (pos 0) }
    {
        match self {
            Refusal::NotInForm { place } => place,
            Refusal::OutOfPlace { place } => place,
            Refusal::TooDeep { place } => place,
            Refusal::EmptySide(side) => side.place,
            Refusal::TooSmall { needed } => needed,
            Refusal::WideOffset { place } => place,
            Refusal::TooFewCells { needed } => needed,
            Refusal::WordCount => 0,
            Refusal::TooMany => 0,
            Refusal::EmptyList => 0,
            Refusal::WrongSize => 0,
            Refusal::HeaderRange => 0,
            Refusal::OutOfTurn => 0,
            Refusal::NoSuchColour => 0,
        }
    }
}

impl fmt::Display for Side {
    ghost output = { λ side. Some (shown_side side) };

    fn fmt<W: fmt::Write>(&self, f: &mut fmt::Formatter<W>) -> fmt::Result {
        let place = self.place;
        let property = self.property;
        let value = self.value;
        let low = self.low;
        let high = self.high;
        write!(
            f,
            "place {place}, property {property}, value {value}, low {low}, high {high}"
        )
    }
}

// The number, the meaning in words, and the details: what a log shows.
impl fmt::Display for Refusal {
    ghost output = { λ refusal. Some (shown refusal) };

    fn fmt<W: fmt::Write>(&self, f: &mut fmt::Formatter<W>) -> fmt::Result {
        match self {
            Refusal::WordCount => write!(
                f,
                "1, a word count that is no multiple of the node or record size"
            ),
            Refusal::TooMany => write!(f, "2, too many nodes or records"),
            Refusal::NotInForm { place } => write!(
                f,
                "3, a node or record that is not in its form: place {place}"
            ),
            Refusal::OutOfPlace { place } => write!(
                f,
                "4, children out of place, or a list too short or too long: place {place}"
            ),
            Refusal::EmptyList => write!(f, "5, a walk over an empty list"),
            Refusal::TooDeep { place } => write!(f, "6, a node at depth 2049: place {place}"),
            Refusal::EmptySide(side) => write!(f, "7, a split with an empty side: {side}"),
            Refusal::TooSmall { needed } => write!(
                f,
                "8, a work area, memory, ring or output too small: words needed {needed}"
            ),
            Refusal::WideOffset { place } => write!(
                f,
                "9, a leaf offset outside -32768..32767: place {place}"
            ),
            Refusal::TooFewCells { needed } => write!(
                f,
                "10, too few cells: cells needed {needed}"
            ),
            Refusal::WrongSize => write!(
                f,
                "11, a width, position, row length or plane length that is wrong"
            ),
            Refusal::HeaderRange => write!(f, "12, a header value out of range"),
            Refusal::OutOfTurn => write!(f, "13, a call out of turn"),
            Refusal::NoSuchColour => write!(f, "14, a colour operation over 6 or an order over 5"),
        }
    }
}

impl Error for Refusal {}
