// Unpacks a channel. Standard input is words of 32 bits, the low byte first: width, rows, the eleven values of the weighted
// header (p1c p2c p3ca p3cb p3cc p3cd p3ce w0 w1 w2 w3), weights on or off (1 or 0), channel and stream (cells 0 and 1), the
// number of nodes, five words a node, and a residual a pixel, row by row. No pixel has references. Standard output is the plane
// as such words or, with the argument `pgm`, as a picture of 16 bits (output.rt).
// What is wrong is told in words on standard error, which is empty where nothing is. The exit status is always 0, so nothing is
// made up to look whole either: finished rows are written and no others, and a picture that lacks rows is shorter than its first
// lines promise, so that whoever opens it is told too.
#![tactic(auto)]

ghost use Rattle.std.specs.Prelude.{true, ◌≡◌, ◌*◌, ◌≤◌};
ghost use Rattle.unpack.specs.Room.{has_room};

mod channel;
mod fault;
mod input;
mod output;
mod packed;
mod said;
mod tree;

use fault::Fault;
use output::Form;
use packed::Packed;
use session::Session;
use std::env::Env;

// How many rows are finished.
fn whole_rows(done: usize, width: usize) -> usize
    ensures { result * width ≤ done }
{
    if width == 0 { 0 } else { done / width }
}

// The residuals, unpacked where they stand, and the finished rows written; what is not as it should be is told.
fn unpack(
    rt: &(impl Eprint + Input + Print),
    packed: &Packed,
    form: Form,
    session: &mut Session,
    records: &[i32],
    plane: &mut [i32],
    cells: &mut [i32],
    memory: &mut [u32],
) {
    let got = input::read(rt, plane);
    let unpacked = channel::unpack(session, got, records, plane, cells, memory);
    let done = match unpacked {
        Ok(()) => got,
        Err(stopped) => stopped.done,
    };
    let rows = whole_rows(done, packed.width);
    if output::write(rt, form, packed.width, packed.rows, rows, plane).is_err() {
        said::unwritten(rt);
    }
    if let Err(stopped) = unpacked {
        said::refused(rt, stopped.refusal);
    }
    if got < plane.len() {
        said::cut_short(rt, "residuals", got, plane.len());
    } else if !input::is_at_end(rt) {
        said::goes_on(rt);
    }
    if rows < packed.rows {
        said::rows_written(rt, rows, packed.rows);
    }
}

// With cells for every property, the largest of which is 255, and memory for the widest row.
fn with_records(
    rt: &(impl Eprint + Input + Print),
    packed: &Packed,
    form: Form,
    mask: u32,
    records: &[i32],
    plane: &mut [i32],
) -> Result<(), Fault> {
    let mut cells = [0i32; 256];
    let mut memory = [0u32; 163860];
    let mut session = Session::open(
        packed.width,
        packed.header,
        packed.weights,
        mask,
        packed.channel,
        packed.stream,
        &mut cells,
        &mut memory,
    )?;
    unpack(
        rt,
        packed,
        form,
        &mut session,
        records,
        plane,
        &mut cells,
        &mut memory,
    );
    Ok(())
}

// The tree, which is read, validated and flattened before any pixel.
fn with_nodes(
    rt: &(impl Eprint + Input + Print),
    packed: &Packed,
    form: Form,
    nodes: &mut [i32],
    records: &mut [i32],
    plane: &mut [i32],
) -> Result<(), Fault> {
    let got = input::read(rt, nodes);
    if got < nodes.len() {
        return Err(Fault::NodesCutShort {
            got,
            all: nodes.len(),
        });
    }
    let flat = tree::flatten(nodes, records)?;
    with_records(rt, packed, form, flat.mask, &records[..flat.words], plane)
}

fn with_tree(
    rt: &(impl Eprint + Input + Print),
    packed: &Packed,
    form: Form,
    plane: &mut [i32],
) -> Result<(), Fault>
    requires { has_room packed.now ≡ true }
{
    let mut nodes = [0i32; 40955];
    let mut records = [0i32; 98286];
    let words = 5 * packed.nodes;
    with_nodes(rt, packed, form, &mut nodes[0..words], &mut records, plane)
}

// All that is lent lies on the stack: some 5.5 MB of the 8 that a process has where nothing else is set.
fn with_plane(rt: &(impl Eprint + Input + Print), packed: &Packed, form: Form) -> Result<(), Fault>
    requires { has_room packed.now ≡ true }
{
    let mut plane = [0i32; 1048576];
    let pixels = packed.rows * packed.width;
    with_tree(rt, packed, form, &mut plane[0..pixels])
}

fn run(rt: &(impl Env + Eprint + Input + Print)) -> Result<(), Fault> {
    let Some(form) = output::wanted(rt) else {
        return Err(Fault::Usage);
    };
    let packed = packed::read(rt)?;
    if !packed.fits() {
        return Err(Fault::TooLarge);
    }
    with_plane(rt, &packed, form)
}

fn main(rt: HostRuntime) {
    if let Err(fault) = run(&rt) {
        said::fault(&rt, fault);
    }
}
