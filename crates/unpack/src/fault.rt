// Why nothing is unpacked.
use refusal::Refusal;

#[derive(Clone, Copy, Debug, PartialEq, Eq)]
pub enum Fault {
    // an argument that names no form, or one too many
    Usage,
    // the input ends, or cannot be read, before the words of the header or the words of the nodes
    HeaderCutShort { got: usize },
    NodesCutShort { got: usize, all: usize },
    // weights that are neither on nor off
    Weights(u32),
    TooLarge,
    Refused(Refusal),
}

impl From<Refusal> for Fault {
    fn from(refusal: Refusal) -> Fault {
        Fault::Refused(refusal)
    }
}
