// Why a record ends the run.
use predict::predictors::NoSuchPredictor;
use refusal::Refusal;
use std::fmt;

#[derive(Clone, Copy, Debug, PartialEq, Eq)]
pub enum Fault {
    Differs,
    Refused,
    // no such kind, or a number that no record of its kind has
    NoForm,
    CutShort,
    Unread,
}

impl From<Refusal> for Fault {
    fn from(_refusal: Refusal) -> Fault {
        Fault::Refused
    }
}

impl From<NoSuchPredictor> for Fault {
    fn from(_none: NoSuchPredictor) -> Fault {
        Fault::Refused
    }
}

impl fmt::Display for Fault {
    fn fmt<W: fmt::Write>(&self, f: &mut fmt::Formatter<W>) -> fmt::Result {
        f.write_str(match self {
            Fault::Differs => "differs",
            Fault::Refused => "is refused",
            Fault::NoForm => "has no form",
            Fault::CutShort => "is cut short",
            Fault::Unread => "cannot be read",
        })
    }
}

// An answer that must equal the Rust's.
pub fn expect(equal: bool) -> Result<(), Fault> {
    if equal { Ok(()) } else { Err(Fault::Differs) }
}
