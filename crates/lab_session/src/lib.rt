// What the oracle calls from Rust (../../oracle): a session behind C functions. No part of what a board links. A session is told
// as four lists: its header, its place and what was found as lab_weighted tells a weighted state, the guess after the latter, and
// four settings (whether weights are on, the mask, whether it lives, the multiplier). An answer of 0 says done, another is a
// refusal's number; its details are then the first words of `told`, where there must be room for five, and for a row, which tells
// how many of its pixels were put as the sixth, for six. A list that is too short is 8, before all else, and nothing is written.
#![tactic(auto)]

ghost use Rattle.std.specs.Prelude.{true, ◌≡◌, length, ◌≤◌};
ghost use Rattle.refusal.specs.Paper.{gives, said};
ghost use Rattle.row.specs.Row as rows;
ghost use Rattle.told.specs.Told.{Tells};
ghost use Rattle.lab_session.specs.Told.{
  AskTold,
  EndTold,
  OpenTold,
  PutTold,
  RowTold,
  Written,
  context_words,
  session_of,
  tell_session,
};

use lab_weighted::{found_of, header_of, put_found, put_place};
use refusal::Refusal;
use row::{Stopped, unpack_row};
use session::Session;
use told::{tell, tell_done};
use weighted::state::WeightedState;

// Whether these lists tell a session, with room for what is told of an answer.
fn tell_session(
    header: &[u32],
    place: &[u64],
    found: &[i64],
    settings: &[u32],
    told: &[i64],
) -> bool
    ensures { result ≡ tell_session (length header.now) (length place.now) (length found.now) (length settings.now) (length told.now) }
{
    11 <= header.len()
        && 4 <= place.len()
        && 6 <= found.len()
        && 4 <= settings.len()
        && 5 <= told.len()
}

// The session that the lists tell.
#[tactic(auto, unfolding(crate::specs::Told::session_of, lab_weighted::specs::Told::state_of))]
fn session_of(header: &[u32], place: &[u64], found: &[i64], settings: &[u32]) -> Session
    requires { (4 ≤ length place.now) × (6 ≤ length found.now) × (4 ≤ length settings.now) }
    ensures { result ≡ session_of header.now place.now found.now settings.now }
{
    let weighted = WeightedState {
        header: header_of(header),
        width: place[0] as usize,
        x: place[1] as usize,
        y: place[2] as usize,
        asked: place[3] != 0,
        found: found_of(found),
    };
    Session {
        weighted,
        weights: settings[0] != 0,
        mask: settings[1],
        live: settings[2] != 0,
        guess: found[5],
        multiplier: settings[3],
    }
}

// The lists of this session.
fn put_session(session: Session, place: &mut [u64], found: &mut [i64], settings: &mut [u32])
    requires { (6 ≤ length found.old) × (4 ≤ length settings.old) }
    ensures { Written (gives session) place.old found.old settings.old place.new found.new settings.new }
{
    put_place(session.weighted, place);
    put_found(session.weighted.found, found);
    found[5] = session.guess;
    settings[..4].copy_from_slice(&[
        session.weights as u32,
        session.mask,
        session.live as u32,
        session.multiplier,
    ]);
}

// Opens a session and tells it.
#[unsafe(no_mangle)]
pub extern "C" fn matuviso_session_open(
    width: usize,
    header: &[u32],
    weights: bool,
    mask: u32,
    channel: i32,
    stream: i32,
    place: &mut [u64],
    found: &mut [i64],
    settings: &mut [u32],
    cells: &mut [i32],
    memory: &mut [u32],
    told: &mut [i64],
) -> u32
    ensures { OpenTold header.now place.old found.old settings.old width weights mask «channel» «stream» cells.old memory.old told.old result place.new found.new settings.new cells.new memory.new told.new }
{
    if !tell_session(header, place, found, settings, told) {
        return 8;
    }
    match Session::open(
        width,
        header_of(header),
        weights,
        mask,
        channel,
        stream,
        cells,
        memory,
    ) {
        Ok(session) => {
            put_session(session, place, found, settings);
            0
        }
        Err(refusal) => tell(refusal, told),
    }
}

// 0 and the context as the first word, or what is told of the refusal.
fn tell_asked(asked: Result<u32, Refusal>, told: &mut [i64]) -> u32
    requires { 5 ≤ length told.old }
    ensures { Tells context_words true (said asked) told.old result told.new }
{
    match asked {
        Ok(context) => {
            told[0] = context as i64;
            0
        }
        Err(refusal) => tell(refusal, told),
    }
}

// The context of the pixel at the session's place, as the first word told, and the session as it is then.
#[unsafe(no_mangle)]
pub extern "C" fn matuviso_session_ask(
    header: &[u32],
    place: &mut [u64],
    found: &mut [i64],
    settings: &mut [u32],
    plane: &[i32],
    references: &[i32],
    records: &[i32],
    cells: &mut [i32],
    memory: &[u32],
    told: &mut [i64],
) -> u32
    ensures { AskTold header.now place.old found.old settings.old plane.now references.now records.now cells.old memory.now told.old result place.new found.new settings.new cells.new told.new }
{
    if !tell_session(header, place, found, settings, told) {
        return 8;
    }
    let mut session = session_of(header, place, found, settings);
    let asked = session.ask(plane, references, records, cells, memory);
    put_session(session, place, found, settings);
    tell_asked(asked, told)
}

// The residual of the pixel that was asked for, and the session as it is then.
#[unsafe(no_mangle)]
pub extern "C" fn matuviso_session_put(
    header: &[u32],
    place: &mut [u64],
    found: &mut [i64],
    settings: &mut [u32],
    residual: i32,
    plane: &mut [i32],
    memory: &mut [u32],
    told: &mut [i64],
) -> u32
    ensures { PutTold header.now place.old found.old settings.old «residual» plane.old memory.old told.old result place.new found.new settings.new plane.new memory.new told.new }
{
    if !tell_session(header, place, found, settings, told) {
        return 8;
    }
    let mut session = session_of(header, place, found, settings);
    let put = session.put(residual, plane, memory);
    put_session(session, place, found, settings);
    tell_done(put, told)
}

// 0, or what is told of the refusal, with how many pixels were put before it as the sixth word.
fn tell_row(row: Result<(), Stopped>, told: &mut [i64]) -> u32
    requires { 6 ≤ length told.old }
    ensures { EndTold true (rows.said row) told.old result told.new }
{
    match row {
        Ok(()) => 0,
        Err(stopped) => {
            let number = tell(stopped.refusal, told);
            told[5] = stopped.pixels as i64;
            number
        }
    }
}

// A row from its residuals and its packed reference cells, and the session as it is then.
#[unsafe(no_mangle)]
pub extern "C" fn matuviso_session_row(
    header: &[u32],
    place: &mut [u64],
    found: &mut [i64],
    settings: &mut [u32],
    residuals: &[i32],
    references: &[i32],
    records: &[i32],
    plane: &mut [i32],
    contexts: &mut [u32],
    cells: &mut [i32],
    memory: &mut [u32],
    told: &mut [i64],
) -> u32
    ensures { RowTold header.now place.old found.old settings.old residuals.now references.now records.now plane.old contexts.old cells.old memory.old told.old result place.new found.new settings.new plane.new contexts.new cells.new memory.new told.new }
{
    if told.len() < 6 || !tell_session(header, place, found, settings, told) {
        return 8;
    }
    let mut session = session_of(header, place, found, settings);
    let row = unpack_row(
        &mut session,
        residuals,
        references,
        records,
        plane,
        contexts,
        cells,
        memory,
    );
    put_session(session, place, found, settings);
    tell_row(row, told)
}
