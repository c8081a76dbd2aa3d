// Module 8, the direct walk: from the root of a list of nodes down to a leaf, whose predictor gives the guess.
#![tactic(auto)]

ghost use Rattle.std.specs.Prelude.{◌≡◌, ◌*◌, ◌<◌, ◌+ℤ◌, length};
ghost use Rattle.walk.specs.Walk.{answer_of, in_order, step_of, walk_from, walk_of};
ghost use Rattle.walk.specs.Wide.{wrap64};
ghost use Rattle.refusal.specs.Paper.{said};

use nodes::{Leaf, Node, Split, count_nodes, read_node};
use predict::neighbours::PredictionData;
use refusal::Refusal;

// The context is the leaf's id; hops is how many splits were entered.
#[derive(Clone, Copy, Debug, PartialEq, Eq)]
pub struct PredictionResult {
    pub guess: i64,
    pub multiplier: u32,
    pub context: u32,
    pub hops: u32,
}

// a + b, wrapping at 64 bits: where the sum would not fit, each of the two is moved by 2^63 first, 2^64 in all.
fn wrapping_sum(a: i64, b: i64) -> i64
    ensures { result ≡ wrap64 (a +ℤ b) }
{
    if b < 0 {
        if a < -9223372036854775808 - b {
            return (a - -9223372036854775808) + (b - -9223372036854775808);
        }
        return a + b;
    }
    if 9223372036854775807 - b < a {
        return (a + -9223372036854775808) + (b + -9223372036854775808);
    }
    a + b
}

// Guess plus offset, wrapping at 64 bits. Far from the ends of the range, where every guess of 32-bit neighbours lies, it cannot wrap, so
// that no test hangs on the offset's sign.
pub fn sum(guess: i64, offset: i32) -> i64
    ensures { result ≡ wrap64 (guess +ℤ offset) }
{
    let wide = offset as i64;
    if guess < -4611686018427387904 {
        return wrapping_sum(guess, wide);
    }
    if guess > 4611686018427387903 {
        return wrapping_sum(guess, wide);
    }
    guess + wide
}

// A leaf's answer. Inlined into each walk: called, it would carry the leaf and the neighbours by way of memory.
#[inline(always)]
pub fn answer(leaf: Leaf, data: PredictionData, wp_pred: i64, hops: u32) -> PredictionResult
    ensures { result ≡ answer_of «leaf» «data» wp_pred hops }
{
    let predictor = leaf.predictor;
    let guess = predictor.predict_one(data, wp_pred);
    PredictionResult {
        guess: sum(guess, leaf.offset),
        multiplier: leaf.multiplier,
        context: leaf.id,
        hops,
    }
}

// Whether the children lie later and inside the list, side by side.
fn in_order(split: Split, place: usize, n: usize) -> bool
    ensures { result ≡ in_order «split» place n }
{
    let left = split.left as usize;
    let right = split.right as usize;
    place < left && right == left + 1 && right < n
}

// The child to enter: left holds cell > value.
fn step(split: Split, place: usize, n: usize, cells: &[i32]) -> Result<usize, Refusal>
    requires { (place < 1048576) × («split».property < 256) }
    ensures { said result ≡ step_of cells.now n «split» place }
{
    let property = split.property as usize;
    if !in_order(split, place, n) {
        return Err(Refusal::OutOfPlace {
            place: place as u32,
        });
    }
    if cells.len() <= property {
        return Err(Refusal::TooFewCells {
            needed: split.property + 1,
        });
    }
    if cells[property] > split.value {
        Ok(split.left as usize)
    } else {
        Ok(split.right as usize)
    }
}

// From the root down to a leaf, node after node, each read from its own five words.
fn walk(
    words: &[i32],
    n: usize,
    cells: &[i32],
    data: PredictionData,
    wp_pred: i64,
) -> Result<PredictionResult, Refusal>
    requires { (0 < n) × (n < 1048576) × (length words.now ≡ 5 * n) }
    ensures { said result ≡ walk_from words.now cells.now n «data» wp_pred n 0 0 }
{
    let mut place = 0;
    let mut hops: u32 = 0;
    loop {
        let at = 5 * place;
        match read_node(&words[at..at + 5], place as u32) {
            Err(refusal) => break Err(refusal),
            Ok(Node::Leaf(leaf)) => break Ok(answer(leaf, data, wp_pred, hops)),
            Ok(Node::Split(split)) => match step(split, place, n, cells) {
                Err(refusal) => break Err(refusal),
                Ok(child) => {
                    place = child;
                    hops += 1;
                }
            },
        }
    }
}

// What the tree says of a pixel with these cells and neighbours; wp_pred is the weighted predictor's guess.
pub fn predict(
    words: &[i32],
    cells: &[i32],
    data: PredictionData,
    wp_pred: i64,
) -> Result<PredictionResult, Refusal>
    ensures { said result ≡ walk_of words.now cells.now «data» wp_pred }
{
    let n = count_nodes(words)?;
    if n == 0 {
        return Err(Refusal::EmptyList);
    }
    if cells.len() < 16 {
        return Err(Refusal::TooFewCells { needed: 16 });
    }
    walk(words, n, cells, data, wp_pred)
}
