// What the bench times from Rust (../../oracle): fetches and predictions of a whole row behind one C function. A crate of its
// own, so that the fetch has one caller and is compiled into its loop, as it is in a program that unpacks a scan.
#![tactic(auto)]

ghost use Rattle.std.specs.Prelude.{◌≡◌, length, ◌≤◌};
ghost use Rattle.integer.specs.Fill.{filled};
ghost use Rattle.bench.specs.Guesses.{guess_at, GuessesRow};

use predict::neighbours::{get_rows, in_domain};
use predict::predictors::Predictor;

// The guess at column x, 0 where the neighbours are refused.
fn guess_at(
    row: &[i32],
    top: &[i32],
    toptop: &[i32],
    x: usize,
    y: usize,
    predictor: Predictor,
    wp_pred: i64,
) -> i64
    ensures { result ≡ guess_at row.now top.now toptop.now y predictor wp_pred x }
{
    match get_rows(row, top, toptop, x, y) {
        Ok(data) => predictor.predict_one(data, wp_pred),
        Err(_) => 0,
    }
}

// A guess for each column, left to right.
fn guess_all(
    row: &[i32],
    top: &[i32],
    toptop: &[i32],
    y: usize,
    predictor: Predictor,
    wp_pred: i64,
    guesses: &mut [i64],
)
    requires { length row.now ≤ length guesses.old }
    ensures { guesses.new ≡ filled (guess_at row.now top.now toptop.now y predictor wp_pred) (length row.now) guesses.old }
{
    for x in 0..row.len() {
        guesses[x] = guess_at(row, top, toptop, x, y, predictor, wp_pred);
    }
}

// The guesses of predictor p for a whole row: refused as its first column is (11), then 3 for the number, then 8 for room.
#[unsafe(no_mangle)]
pub extern "C" fn matuviso_guess_row(
    row: &[i32],
    top: &[i32],
    toptop: &[i32],
    y: usize,
    p: u32,
    wp_pred: i64,
    guesses: &mut [i64],
) -> u32
    ensures { GuessesRow row.now top.now toptop.now y p wp_pred guesses.old result guesses.new }
{
    if !in_domain(row, top, toptop, 0, y) {
        return 11;
    }
    let Ok(predictor) = Predictor::try_from(p) else {
        return 3;
    };
    if guesses.len() < row.len() {
        return 8;
    }
    guess_all(row, top, toptop, y, predictor, wp_pred, guesses);
    0
}
