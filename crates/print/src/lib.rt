// What the edge programs print with: numbers, refusals, neighbourhoods and planes, on standard output. No contract can say
// which bytes a call of C's writes, so the functions have none: each is proved safe, and to end, for any arguments. What a
// program wrote is compared with its file `stdout`. No function tells that a write failed; the comparison finds it.
#![tactic(auto)]

use predict::neighbours::PredictionData;
use refusal::Refusal;

// The number of standard output.
const STDOUT: i32 = 1;

// The bytes as they are.
pub fn text(bytes: &[u8]) {
    io::write_all(STDOUT, bytes);
}

// n in decimal.
pub fn natural(n: u64) {
    io::print_decimal(STDOUT, n);
}

// n in decimal, with a minus where it is negative.
pub fn signed(n: i64) {
    if n < 0 {
        text(b"-");
    }
    natural(n.unsigned_abs());
}

// The same of a 32-bit word.
pub fn word(n: i32) {
    signed(integer::widen(n));
}

// A name with its number, as ` x=3`.
pub fn named(name: &[u8], n: u64) {
    text(b" ");
    text(name);
    text(b"=");
    natural(n);
}

// A name with its word, as ` cur=-3`.
pub fn named_word(name: &[u8], n: i32) {
    text(b" ");
    text(name);
    text(b"=");
    word(n);
}

// The end of a line whose answer is a number.
pub fn answer(n: i64) {
    text(b": ");
    signed(n);
    text(b"\n");
}

// A refusal by its number and first detail, as `: refused 11 (0)`.
pub fn refusal(refusal: Refusal) {
    text(b": refused ");
    natural(refusal.number() as u64);
    text(b" (");
    natural(refusal.first_detail() as u64);
    text(b")");
}

// The end of a line whose answer is a refusal.
pub fn refused(given: Refusal) {
    refusal(given);
    text(b"\n");
}

// The seven neighbours, each with its name.
pub fn seven(data: PredictionData) {
    named_word(b"left", data.left);
    named_word(b"top", data.top);
    named_word(b"toptop", data.toptop);
    named_word(b"topleft", data.topleft);
    named_word(b"topright", data.topright);
    named_word(b"leftleft", data.leftleft);
    named_word(b"toprightright", data.toprightright);
}

// The words of a plane, as `[3 -1]`.
pub fn words(plane: &[i32]) {
    text(b"[");
    for i in 0..plane.len() {
        if 0 < i {
            text(b" ");
        }
        word(plane[i]);
    }
    text(b"]");
}

// Numbers one after the other, each after a blank.
pub fn naturals(numbers: &[u32]) {
    for number in numbers {
        text(b" ");
        natural(*number as u64);
    }
}
