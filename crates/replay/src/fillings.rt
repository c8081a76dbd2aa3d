// Record 11: the cells of a pixel. Beforehand cell k holds 100 + k, but for cell 9; cells 0 and 1 must stay.
use crate::fault::{Fault, expect};
use crate::record::Record;
use cells::compute_properties;
use predict::neighbours::PredictionData;

fn neighbours(record: &Record) -> PredictionData {
    PredictionData {
        left: record.word(4),
        top: record.word(5),
        topleft: record.word(7),
        topright: record.word(8),
        toptop: record.word(6),
        leftleft: record.word(9),
        toprightright: 0,
    }
}

pub fn filling(record: &Record) -> Result<(), Fault> {
    let count = record.bits(12) as usize;
    if 2 < count {
        return Err(Fault::NoForm);
    }
    let row = record.words::<2>(13);
    let old = record.word(10);
    let mut cells = [
        100, 101, 102, 103, 104, 105, 106, 107, 108, old, 110, 111, 112, 113, 114, 115, 116, 117,
    ];
    compute_properties(
        record.bits(1),
        record.bits(2) as usize,
        record.bits(3) as usize,
        neighbours(record),
        record.word(11),
        &row[..count],
        &mut cells,
    )?;
    expect(cells[0] == 100 && cells[1] == 101 && record.holds(&cells[2..], 15))
}
