// Opening: the header's ranges (12), the width's (11), the memory (8), the cells (10), in that order. Cells 0 and 1 become the two
// numbers, the others and the memory 0; a refusal writes nothing.
ghost use Rattle.std.specs.Prelude.{◌≤◌};

use blend::WeightedHeader;
use session::Session;

fn open(
    rt: &impl Print,
    header: WeightedHeader,
    width: usize,
    weights: bool,
    cells: &mut [i32],
    memory: &mut [u32],
) {
    let _ = print!(rt; "open p1c={} w0={} width={width}", header.p1c, header.w0);
    if weights {
        let _ = print!(rt; " weights");
    }
    let _ = print!(rt; " memory={} cells={}", memory.len(), cells.len());
    match Session::open(width, header, weights, 4294967295, -3, 8, cells, memory) {
        Ok(_) => {
            let _ = print!(rt; ": opened");
        }
        Err(refusal) => print::refusal(refusal),
    }
    let _ = print!(rt; "; ");
    print::words(cells);
    print::naturals(memory);
    let _ = println!(rt);
}

// With so many of 17 cells and 31 words.
fn lent(
    rt: &impl Print,
    header: WeightedHeader,
    width: usize,
    weights: bool,
    cells_lent: usize,
    memory_lent: usize,
)
    requires { (cells_lent ≤ 17) × (memory_lent ≤ 31) }
{
    let mut cells = [7i32; 17];
    let mut memory = [9u32; 31];
    open(
        rt,
        header,
        width,
        weights,
        &mut cells[0..cells_lent],
        &mut memory[0..memory_lent],
    );
}

fn p_of(p: u32) -> WeightedHeader {
    let mut header = WeightedHeader::default();
    header.p1c = p;
    header
}

fn w_of(w: u32) -> WeightedHeader {
    let mut header = WeightedHeader::default();
    header.w0 = w;
    header
}

// Weights off do not make a header sound.
fn headers(rt: &impl Print) {
    lent(rt, p_of(31), 1, true, 16, 30);
    lent(rt, p_of(32), 1, true, 16, 30);
    lent(rt, p_of(32), 1, false, 16, 0);
    lent(rt, w_of(15), 1, true, 16, 30);
    lent(rt, w_of(16), 1, true, 16, 30);
}

fn widths(rt: &impl Print) {
    lent(rt, p_of(16), 0, false, 16, 0);
    lent(rt, p_of(16), 65536, false, 16, 0);
    lent(rt, p_of(16), 65537, false, 16, 0);
    lent(rt, p_of(16), 65536, true, 16, 30);
    lent(rt, p_of(16), 65537, true, 16, 30);
}

// With weights off none is needed, and none is cleared.
fn memories(rt: &impl Print) {
    lent(rt, p_of(16), 1, true, 16, 29);
    lent(rt, p_of(16), 1, true, 16, 31);
    lent(rt, p_of(16), 1, false, 16, 31);
}

fn cells(rt: &impl Print) {
    lent(rt, p_of(16), 1, false, 15, 0);
    lent(rt, p_of(16), 1, false, 17, 0);
    lent(rt, p_of(16), 1, false, 0, 0);
}

// A fault less each time.
fn order(rt: &impl Print) {
    lent(rt, p_of(32), 0, true, 15, 29);
    lent(rt, p_of(16), 0, true, 15, 29);
    lent(rt, p_of(16), 1, true, 15, 29);
    lent(rt, p_of(16), 1, true, 15, 30);
}

pub fn run(rt: &impl Print) {
    headers(rt);
    widths(rt);
    memories(rt);
    cells(rt);
    order(rt);
}
