// What the bench times from Rust (../../oracle): a whole channel by rows behind one C function. A crate of its own, so that
// `unpack_row`, ask and put have one caller each and are compiled into its loop, as they are in a program that unpacks a scan by rows.
#![tactic(auto)]

ghost use Rattle.std.specs.Prelude.{length, ◌≤◌};
ghost use Rattle.refusal.specs.Paper.{said};
ghost use Rattle.told.specs.Channel.{Ends};
ghost use Rattle.told.specs.Told.{done_or};
ghost use Rattle.bench_row.specs.Run.{channel, opened};

use blend::WeightedHeader;
use lab_weighted::header_of;
use refusal::Refusal;
use row::unpack_row;
use session::Session;

// Opening, then each whole row, one list of references for all; the first refusal ends it.
fn run(
    width: usize,
    header: WeightedHeader,
    weights: bool,
    mask: u32,
    number: i32,
    stream: i32,
    references: &[i32],
    records: &[i32],
    residuals: &[i32],
    plane: &mut [i32],
    contexts: &mut [u32],
    cells: &mut [i32],
    memory: &mut [u32],
) -> Result<(), Refusal>
    requires { length residuals.now ≤ length contexts.old }
    ensures { Ends (opened width references.now records.now residuals.now header weights mask number stream plane.old contexts.old cells.old memory.old) (done_or (said result)) plane.new contexts.new cells.new memory.new }
{
    let mut session = Session::open(width, header, weights, mask, number, stream, cells, memory)?;
    for y in 0..residuals.len() / width {
        let from = y * width;
        let end = from + width;
        if let Err(stopped) = unpack_row(
            &mut session,
            &residuals[from..end],
            references,
            records,
            plane,
            &mut contexts[from..end],
            cells,
            memory,
        ) {
            return Err(stopped.refusal);
        }
    }
    Ok(())
}

// A channel from the whole rows of its residuals: 8 where the header or the contexts have too few words, else 0 or the number of the
// first refusal.
#[unsafe(no_mangle)]
pub extern "C" fn matuviso_run_rows(
    width: usize,
    header: &[u32],
    weights: bool,
    mask: u32,
    number: i32,
    stream: i32,
    references: &[i32],
    records: &[i32],
    residuals: &[i32],
    plane: &mut [i32],
    contexts: &mut [u32],
    cells: &mut [i32],
    memory: &mut [u32],
) -> u32
    ensures { Ends (channel width references.now records.now residuals.now header.now weights mask number stream plane.old contexts.old cells.old memory.old) result plane.new contexts.new cells.new memory.new }
{
    if header.len() < 11 || contexts.len() < residuals.len() {
        return 8;
    }
    let known = header_of(header);
    match run(
        width, known, weights, mask, number, stream, references, records, residuals, plane,
        contexts, cells, memory,
    ) {
        Ok(()) => 0,
        Err(refusal) => refusal.number(),
    }
}
