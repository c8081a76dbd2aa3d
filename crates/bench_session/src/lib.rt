// What the bench times from Rust (../../oracle): a whole channel behind one C function. A crate of its own, so that ask and put have
// one caller each and are compiled into its loop, as they are in a program that unpacks a scan.
#![tactic(auto)]

ghost use Rattle.std.specs.Prelude.{length, ◌≤◌};
ghost use Rattle.refusal.specs.Paper.{said};
ghost use Rattle.told.specs.Channel.{Ends};
ghost use Rattle.told.specs.Told.{done_or};
ghost use Rattle.bench_session.specs.Run.{channel, opened};

use blend::WeightedHeader;
use lab_weighted::header_of;
use refusal::Refusal;
use session::Session;

// Opening, then ask and put of a pixel for each residual, one reference row for all; the first refusal ends it.
fn run(
    width: usize,
    header: WeightedHeader,
    weights: bool,
    mask: u32,
    number: i32,
    stream: i32,
    references: &[i32],
    records: &[i32],
    residuals: &[i32],
    plane: &mut [i32],
    contexts: &mut [u32],
    cells: &mut [i32],
    memory: &mut [u32],
) -> Result<(), Refusal>
    requires { length residuals.now ≤ length contexts.old }
    ensures { Ends (opened references.now records.now residuals.now width header weights mask number stream plane.old contexts.old cells.old memory.old) (done_or (said result)) plane.new contexts.new cells.new memory.new }
{
    let mut session = Session::open(width, header, weights, mask, number, stream, cells, memory)?;
    for k in 0..residuals.len() {
        contexts[k] = session.ask(plane, references, records, cells, memory)?;
        session.put(residuals[k], plane, memory)?;
    }
    Ok(())
}

// A channel from its residuals: 8 where the header or the contexts have too few words, else 0 or the number of the first refusal.
#[unsafe(no_mangle)]
pub extern "C" fn matuviso_run_channel(
    width: usize,
    header: &[u32],
    weights: bool,
    mask: u32,
    number: i32,
    stream: i32,
    references: &[i32],
    records: &[i32],
    residuals: &[i32],
    plane: &mut [i32],
    contexts: &mut [u32],
    cells: &mut [i32],
    memory: &mut [u32],
) -> u32
    ensures { Ends (channel references.now records.now residuals.now width header.now weights mask number stream plane.old contexts.old cells.old memory.old) result plane.new contexts.new cells.new memory.new }
{
    if header.len() < 11 || contexts.len() < residuals.len() {
        return 8;
    }
    let known = header_of(header);
    match run(
        width, known, weights, mask, number, stream, references, records, residuals, plane,
        contexts, cells, memory,
    ) {
        Ok(()) => 0,
        Err(refusal) => refusal.number(),
    }
}
