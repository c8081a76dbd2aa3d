// What is told on standard error. That it cannot be written is told nowhere. Two of these are kept from being inlined: what they write
// with would lie on the stack of the caller for the whole run.
use crate::fault::Fault;
use crate::input;
use refusal::Refusal;

pub fn refused(rt: &impl Eprint, refusal: Refusal) {
    let _ = eprintln!(rt; "refused: {refusal}");
}

// Fewer words came than are needed.
pub fn cut_short(rt: &(impl Eprint + Input), what: &str, got: usize, all: usize) {
    if input::is_at_end(rt) {
        let _ = eprintln!(rt; "the input is cut short: {got} of {all} {what}");
    } else {
        let _ = eprintln!(rt; "the input cannot be read: {got} of {all} {what}");
    }
}

pub fn goes_on(rt: &impl Eprint) {
    let _ = eprintln!(rt; "the input goes on after the last residual");
}

pub fn unwritten(rt: &impl Eprint) {
    let _ = eprintln!(rt; "standard output cannot be written");
}

#[inline(never)]
pub fn rows_written(rt: &impl Eprint, done: usize, rows: usize) {
    let _ = eprintln!(rt; "{done} of {rows} rows are written");
}

#[inline(never)]
pub fn fault(rt: &(impl Eprint + Input), fault: Fault) {
    match fault {
        Fault::Usage => {
            let _ = eprintln!(rt; "usage: unpack [pgm] < packed > plane");
        }
        Fault::HeaderCutShort { got } => cut_short(rt, "words of the header", got, 17),
        Fault::NodesCutShort { got, all } => cut_short(rt, "words of nodes", got, all),
        Fault::Weights(word) => {
            let _ = eprintln!(rt; "weights are 1 or 0 and not {word}");
        }
        Fault::TooLarge => {
            let _ = eprintln!(rt;
                "too large for this program, which has room for 1048576 pixels, a width of 16384 and 8191 nodes"
            );
        }
        Fault::Refused(refusal) => refused(rt, refusal),
    }
}
