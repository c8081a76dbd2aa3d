// What the bench times from Rust (../../oracle): both walks over many pixels behind one C function each. A crate of its own, so
// that a walk has one caller and is compiled into its loop, as it is in a program that unpacks a scan.
#![tactic(auto)]

ghost use Rattle.std.specs.Prelude.{◌≡◌, length, ℕ, ◌+◌, ◌*◌, ◌≤◌, ◌<◌, pos, get_or, EachIndex};
ghost use Rattle.bench_flat.specs.Pixels.{guess_of, direct_at, flat_at, too_few, GuessesPixels};
ghost use Rattle.refusal.specs.Paper.{said};

use flat::predict_flat;
use refusal::Refusal;
use told::take_seven;
use walk::{PredictionResult, predict};

// A walk's guess, 0 where it is refused.
fn guess_of(walked: Result<PredictionResult, Refusal>) -> i64
    ensures { result ≡ guess_of (said walked) }
{
    match walked {
        Ok(result) => result.guess,
        Err(_) => 0,
    }
}

// The direct walk of pixel k: sixteen cells and seven neighbours a pixel.
fn direct_at(words: &[i32], cells: &[i32], data: &[i32], wp_pred: i64, k: usize) -> i64
    requires { (16 * k + 16 ≤ length cells.now) × (7 * k + 7 ≤ length «data».now) }
    ensures { result ≡ direct_at words.now cells.now «data».now wp_pred k }
{
    let from = 16 * k;
    let seven = take_seven(&data[7 * k..]);
    guess_of(predict(words, &cells[from..from + 16], seven, wp_pred))
}

fn flat_at(words: &[i32], cells: &[i32], data: &[i32], wp_pred: i64, k: usize) -> i64
    requires { (16 * k + 16 ≤ length cells.now) × (7 * k + 7 ≤ length «data».now) }
    ensures { result ≡ flat_at words.now cells.now «data».now wp_pred k }
{
    let from = 16 * k;
    let seven = take_seven(&data[7 * k..]);
    guess_of(predict_flat(words, &cells[from..from + 16], seven, wp_pred))
}

// A guess for each pixel.
fn guess_all<F: Fn(usize) -> i64>(guesses: &mut [i64], guess: F)
    requires { (k : ℕ) → k < length guesses.old → F.pre guess k }
    ensures { EachIndex guesses.new (λ k. F.post guess k (get_or guesses.new k (pos 0))) }
{
    for k in 0..guesses.len() {
        guesses[k] = guess(k);
    }
}

// Whether cells or neighbours are too few for the guesses that there is room for.
fn too_few(cells: &[i32], data: &[i32], guesses: &[i64]) -> bool
    ensures { result ≡ too_few (length cells.now) (length «data».now) (length guesses.now) }
{
    cells.len() / 16 < guesses.len() || data.len() / 7 < guesses.len()
}

// The direct walk's guesses, as many as there is room for: 8 where cells or neighbours are too few for that.
#[unsafe(no_mangle)]
pub extern "C" fn matuviso_walk_pixels(
    words: &[i32],
    cells: &[i32],
    data: &[i32],
    wp_pred: i64,
    guesses: &mut [i64],
) -> u32
    ensures { GuessesPixels (direct_at words.now cells.now «data».now wp_pred) (length cells.now) (length «data».now) guesses.old result guesses.new }
{
    if too_few(cells, data, guesses) {
        return 8;
    }
    guess_all(guesses, |k| direct_at(words, cells, data, wp_pred, k));
    0
}

// The same over flat records.
#[unsafe(no_mangle)]
pub extern "C" fn matuviso_walk_flat_pixels(
    words: &[i32],
    cells: &[i32],
    data: &[i32],
    wp_pred: i64,
    guesses: &mut [i64],
) -> u32
    ensures { GuessesPixels (flat_at words.now cells.now «data».now wp_pred) (length cells.now) (length «data».now) guesses.old result guesses.new }
{
    if too_few(cells, data, guesses) {
        return 8;
    }
    guess_all(guesses, |k| flat_at(words, cells, data, wp_pred, k));
    0
}
