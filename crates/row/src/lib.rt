// Request [1] of document 02: a row of a session's channel in one call, ask and put of each pixel.
#![tactic(auto)]

ghost use Rattle.std.specs.Prelude.{length, ◌≡◌, ◌*◌, ◌≤◌, ◌<◌};
ghost use Rattle.refusal.specs.Paper as paper;
ghost use Rattle.row.specs.Row.{
  answer_of,
  fits,
  is_row_due,
  is_row_of,
  may_unpack,
  pixels_from,
  said,
  session_of,
  unpacks,
};

use cells::cells_needed;
use colour::rows::has_row;
use refusal::Refusal;
use session::Session;

// A refusal, and how many pixels of the row were put before it.
#[derive(Clone, Copy, Debug, PartialEq, Eq)]
pub struct Stopped {
    pub pixels: u32,
    pub refusal: Refusal,
}

// Whether there is a residual and a context for each pixel, and reference cells, as many for each.
fn fits(width: usize, residuals: usize, contexts: usize, references: usize) -> bool
    requires { 0 < width }
    ensures { result ≡ fits width residuals contexts references }
{
    residuals == width && contexts == width && references % width == 0
}

// Whether the session's pixel lies in the plane, the lists have its row's length, and 32 bits can say how many cells a pixel needs.
fn is_row_of(
    session: &Session,
    size: usize,
    residuals: usize,
    contexts: usize,
    references: &[i32],
) -> bool
    ensures { result ≡ is_row_of session.now size residuals contexts (length references.now) }
{
    let state = &session.weighted;
    let width = state.width;
    has_row(size, width, state.y)
        && state.x < width
        && fits(width, residuals, contexts, references.len())
        && cells_needed(session.mask, &references[..references.len() / width]) <= 4294967295
}

// Whether an ask that opens a row is due.
fn is_row_due(session: &Session) -> bool
    ensures { result ≡ is_row_due session.now }
{
    session.live && !session.weighted.asked && session.weighted.x == 0
}

// Whether a row may be unpacked, in the order of the paper: header, place and lists, turn.
fn check_row(
    session: &Session,
    size: usize,
    residuals: usize,
    contexts: usize,
    references: &[i32],
) -> Result<(), Refusal>
    ensures { paper.said result ≡ may_unpack session.now size residuals contexts (length references.now) }
{
    if !session.weighted.header.in_range() {
        return Err(Refusal::HeaderRange);
    }
    if !is_row_of(session, size, residuals, contexts, references) {
        return Err(Refusal::WrongSize);
    }
    if !is_row_due(session) {
        return Err(Refusal::OutOfTurn);
    }
    Ok(())
}

// Ask and put of each pixel; the first refusal ends it.
fn pixels(
    session: &mut Session,
    residuals: &[i32],
    references: &[i32],
    each: usize,
    records: &[i32],
    plane: &mut [i32],
    contexts: &mut [u32],
    cells: &mut [i32],
    memory: &mut [u32],
) -> Result<(), Stopped>
    requires { (length residuals.now ≤ 65536) × (length contexts.old ≡ length residuals.now) × (length residuals.now * each ≤ length references.now) }
    ensures answers { said result ≡ answer_of (pixels_from residuals.now references.now records.now each (length residuals.now) 0 session.old plane.old contexts.old cells.old memory.old).ended }
    ensures session_is { session.new ≡ session_of (pixels_from residuals.now references.now records.now each (length residuals.now) 0 session.old plane.old contexts.old cells.old memory.old).ended }
    ensures plane_is { plane.new ≡ (pixels_from residuals.now references.now records.now each (length residuals.now) 0 session.old plane.old contexts.old cells.old memory.old).plane }
    ensures contexts_are { contexts.new ≡ (pixels_from residuals.now references.now records.now each (length residuals.now) 0 session.old plane.old contexts.old cells.old memory.old).contexts }
    ensures cells_are { cells.new ≡ (pixels_from residuals.now references.now records.now each (length residuals.now) 0 session.old plane.old contexts.old cells.old memory.old).cells }
    ensures memory_is { memory.new ≡ (pixels_from residuals.now references.now records.now each (length residuals.now) 0 session.old plane.old contexts.old cells.old memory.old).memory }
{
    for k in 0..residuals.len() {
        let from = k * each;
        match session.ask(
            plane,
            &references[from..from + each],
            records,
            cells,
            memory,
        ) {
            Ok(context) => contexts[k] = context,
            Err(refusal) => {
                return Err(Stopped {
                    pixels: k as u32,
                    refusal,
                });
            }
        }
        if let Err(refusal) = session.put(residuals[k], plane, memory) {
            return Err(Stopped {
                pixels: k as u32,
                refusal,
            });
        }
    }
    Ok(())
}

// A row from its residuals and its reference cells, packed, as many for each pixel: as the single calls of its pixels are. A refusal of
// the tests changes nothing; at a later one the pixels before it stay, and the session is as the refused call left it.
pub fn unpack_row(
    session: &mut Session,
    residuals: &[i32],
    references: &[i32],
    records: &[i32],
    plane: &mut [i32],
    contexts: &mut [u32],
    cells: &mut [i32],
    memory: &mut [u32],
) -> Result<(), Stopped>
    ensures answers { said result ≡ answer_of (unpacks session.old residuals.now references.now records.now plane.old contexts.old cells.old memory.old).ended }
    ensures session_is { session.new ≡ session_of (unpacks session.old residuals.now references.now records.now plane.old contexts.old cells.old memory.old).ended }
    ensures plane_is { plane.new ≡ (unpacks session.old residuals.now references.now records.now plane.old contexts.old cells.old memory.old).plane }
    ensures contexts_are { contexts.new ≡ (unpacks session.old residuals.now references.now records.now plane.old contexts.old cells.old memory.old).contexts }
    ensures cells_are { cells.new ≡ (unpacks session.old residuals.now references.now records.now plane.old contexts.old cells.old memory.old).cells }
    ensures memory_is { memory.new ≡ (unpacks session.old residuals.now references.now records.now plane.old contexts.old cells.old memory.old).memory }
{
    if let Err(refusal) = check_row(
        session,
        plane.len(),
        residuals.len(),
        contexts.len(),
        references,
    ) {
        return Err(Stopped { pixels: 0, refusal });
    }
    let each = references.len() / residuals.len();
    pixels(
        session, residuals, references, each, records, plane, contexts, cells, memory,
    )
}
