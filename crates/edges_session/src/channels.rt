// Whole channels from opening on: three pixels each.
use crate::calls;
use blend::WeightedHeader;
use session::Session;

// Default header, both numbers 0, a plane of four words.
fn channel(
    rt: &impl Print,
    width: usize,
    weights: bool,
    mask: u32,
    records: &[i32],
    residuals: &[i32],
) {
    let mut plane = [0i32; 4];
    let mut cells = [7i32; 16];
    let mut memory = [7u32; 60];
    let opened = Session::open(
        width,
        WeightedHeader::default(),
        weights,
        mask,
        0,
        0,
        &mut cells,
        &mut memory,
    );
    let Ok(mut session) = opened else {
        return;
    };
    for residual in residuals {
        calls::pixel(
            rt,
            &mut session,
            *residual,
            &mut plane,
            records,
            &mut cells,
            &mut memory,
        );
    }
}

// Width 1, weights off, one split of property 8 at 0, its left leaf context 0 and its right one context 1, residuals 5: contexts 1 0 1.
// Cell 9 goes from row to row.
fn carried(rt: &impl Print) {
    let records = [
        8, 0, 0, 0, 1, 0, -1, 0, 1, 0, 0, 0, -1, 0, 1, 0, 0, 0, -1, 0, 1, 0, 1, 0, -1, 0, 1, 0, 1,
        0,
    ];
    channel(rt, 1, false, 768, &records, &[5, 5, 5]);
}

// AverageAll with multiplier 2^32 - 1: in the third row the guess is -2,684,354,559, and guess + residual * multiplier leaves 64 bits.
fn far(rt: &impl Print) {
    channel(
        rt,
        1,
        false,
        0,
        &[-1, 13, -1, 0, 0, 0],
        &[-2147483647, -1, -2147483648],
    );
}

// Default header, width 4, the weighted predictor: put 10, and the next guess is 10, its property -80 in cell 15.
fn starred(rt: &impl Print) {
    channel(rt, 4, true, 32768, &[-1, 6, 1, 0, 0, 0], &[10, 0, 0]);
}

// Offset -3 and multiplier 3.
fn scaled(rt: &impl Print) {
    channel(rt, 2, false, 0, &[-1, 0, 3, 0, 7, 65533], &[5, -5, 0]);
}

// Bit 15 of the mask: with weights off cell 15 becomes 0; with weights on and the bit clear it stays.
fn fifteenth(rt: &impl Print, weights: bool, mask: u32) {
    let mut plane = [0i32; 1];
    let mut cells = [9i32; 16];
    let mut memory = [0u32; 30];
    let leaf = calls::leaf(1, 7, 0);
    let mut session = calls::at(1, 0, 0, weights, mask);
    calls::pixel(
        rt,
        &mut session,
        4,
        &mut plane,
        &leaf,
        &mut cells,
        &mut memory,
    );
    let _ = print!(rt; "memory");
    print::naturals(&memory);
    let _ = println!(rt);
}

pub fn run(rt: &impl Print) {
    carried(rt);
    far(rt);
    starred(rt);
    scaled(rt);
    fifteenth(rt, false, 32768);
    fifteenth(rt, true, 32768);
    fifteenth(rt, true, 0);
}
