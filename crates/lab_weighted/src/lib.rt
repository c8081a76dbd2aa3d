// The weighted state over plain lists, as the oracle calls it from Rust (../../oracle): lab_weighted_c exports the five functions
// below. No part of what a board links.
// A state is told as three lists: its header (eleven values in the struct's order), its place (width, x, y, and whether an
// ask waits for its put: 0 no, else yes), and the five values that an ask found. An answer of 0 says done, another is a
// refusal's number, 8 first where a list is too short; a refusal writes nothing.
#![tactic(auto)]

ghost use Rattle.std.specs.Prelude.{◌≡◌, ◌∷◌, length, drop, ◌≤◌};
ghost use Rattle.refusal.specs.Paper.{said};
ghost use Rattle.lab_weighted.specs.Told.{
  header_of,
  found_of,
  state_of,
  tell,
  placed,
  found_put,
  done_or,
  OpenTold,
  AskTold,
  PutTold,
  SaveTold,
  RestoreTold,
};

use blend::{Found, WeightedHeader};
use refusal::Refusal;
use told::take_seven;
use weighted::state::{Answer, WeightedState};

// The eleven values, or the defaults where there are fewer.
#[tactic(auto, unfolding(crate::specs::Told::header_of))]
pub fn header_of(words: &[u32]) -> WeightedHeader
    ensures { result ≡ header_of words.now }
{
    if words.len() < 11 {
        return WeightedHeader::default();
    }
    WeightedHeader {
        p1c: words[0],
        p2c: words[1],
        p3ca: words[2],
        p3cb: words[3],
        p3cc: words[4],
        p3cd: words[5],
        p3ce: words[6],
        w0: words[7],
        w1: words[8],
        w2: words[9],
        w3: words[10],
    }
}

// The five values, 0 where there are fewer.
#[tactic(auto, unfolding(crate::specs::Told::found_of))]
pub fn found_of(words: &[i64]) -> Found
    ensures { result ≡ found_of words.now }
{
    if words.len() < 5 {
        return Found {
            p0: 0,
            p1: 0,
            p2: 0,
            p3: 0,
            pred: 0,
        };
    }
    Found {
        p0: words[0],
        p1: words[1],
        p2: words[2],
        p3: words[3],
        pred: words[4],
    }
}

// Whether lists of these lengths tell a state.
fn tell(header: usize, place: usize, found: usize) -> bool
    ensures { result ≡ tell header place found }
{
    11 <= header && 4 <= place && 5 <= found
}

#[tactic(auto, unfolding(crate::specs::Told::state_of))]
fn state_of(header: &[u32], place: &[u64], found: &[i64]) -> WeightedState
    requires { (11 ≤ length header.now) × (4 ≤ length place.now) × (5 ≤ length found.now) }
    ensures { result ≡ state_of header.now place.now found.now }
{
    WeightedState {
        header: header_of(header),
        width: place[0] as usize,
        x: place[1] as usize,
        y: place[2] as usize,
        asked: place[3] != 0,
        found: found_of(found),
    }
}

// The state's place as the first four words, where there are as many.
pub fn put_place(state: WeightedState, place: &mut [u64])
    ensures { place.new ≡ placed state place.old }
{
    if place.len() < 4 {
        return;
    }
    place[0] = state.width as u64;
    place[1] = state.x as u64;
    place[2] = state.y as u64;
    place[3] = state.asked as u64;
}

// What was found as the first five words, where there are as many.
pub fn put_found(given: Found, found: &mut [i64])
    ensures { found.new ≡ found_put given found.old }
{
    if found.len() < 5 {
        return;
    }
    found[0] = given.p0;
    found[1] = given.p1;
    found[2] = given.p2;
    found[3] = given.p3;
    found[4] = given.pred;
}

fn put_answer(given: Answer, answer: &mut [i64])
    requires { 2 ≤ length answer.old }
    ensures { answer.new ≡ given.guess ∷ given.property ∷ drop 2 answer.old }
{
    answer[0] = given.guess;
    answer[1] = given.property as i64;
}

// Clears the memory of a state before the first pixel of a picture of this width.
pub fn matuviso_weighted_open(header: &[u32], width: usize, memory: &mut [u32]) -> u32
    ensures { OpenTold header.now width memory.old result memory.new }
{
    if header.len() < 11 {
        return 8;
    }
    match WeightedState::open(header_of(header), width, memory) {
        Ok(_) => 0,
        Err(refusal) => refusal.number(),
    }
}

// The guess and the property of the pixel at the place, whose neighbours are the seven of `data`.
pub fn matuviso_weighted_ask(
    header: &[u32],
    place: &mut [u64],
    found: &mut [i64],
    memory: &[u32],
    data: &[i32],
    answer: &mut [i64],
) -> u32
    ensures { AskTold header.now place.old found.old memory.now «data».now answer.old result place.new found.new answer.new }
{
    if !tell(header.len(), place.len(), found.len()) || data.len() < 7 || answer.len() < 2 {
        return 8;
    }
    let mut state = state_of(header, place, found);
    match state.ask(memory, take_seven(data)) {
        Ok(given) => {
            put_place(state, place);
            put_found(state.found, found);
            put_answer(given, answer);
            0
        }
        Err(refusal) => refusal.number(),
    }
}

// The true value of the pixel that was asked for.
pub fn matuviso_weighted_put(
    header: &[u32],
    place: &mut [u64],
    found: &[i64],
    memory: &mut [u32],
    value: i32,
) -> u32
    ensures { PutTold header.now place.old found.now memory.old value result place.new memory.new }
{
    if !tell(header.len(), place.len(), found.len()) {
        return 8;
    }
    let mut state = state_of(header, place, found);
    match state.put(memory, value) {
        Ok(()) => {
            put_place(state, place);
            0
        }
        Err(refusal) => refusal.number(),
    }
}

fn status(answered: Result<(), Refusal>) -> u32
    ensures { result ≡ done_or (said answered) }
{
    match answered {
        Ok(()) => 0,
        Err(refusal) => refusal.number(),
    }
}

// Copies the first half of the memory into the list.
pub fn matuviso_save_state(
    header: &[u32],
    place: &[u64],
    found: &[i64],
    memory: &[u32],
    saved: &mut [u32],
) -> u32
    ensures { SaveTold header.now place.now found.now memory.now saved.old result saved.new }
{
    if !tell(header.len(), place.len(), found.len()) {
        return 8;
    }
    let state = state_of(header, place, found);
    status(state.save_state(memory, saved))
}

// Writes the list back into the first half of the memory.
pub fn matuviso_restore_state(
    header: &[u32],
    place: &[u64],
    found: &[i64],
    memory: &mut [u32],
    saved: &[u32],
) -> u32
    ensures { RestoreTold header.now place.now found.now memory.old saved.now result memory.new }
{
    if !tell(header.len(), place.len(), found.len()) {
        return 8;
    }
    let state = state_of(header, place, found);
    status(state.restore_state(memory, saved))
}
