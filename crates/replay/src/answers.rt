// A record holds a call and the Rust's answer. Its first word is the kind:
// 1 floor_log2_nonzero: words 1, 2 the number; 3 the answer
// 2 error_weight: word 1 the error; 2 the largest weight; 3 the answer
// 3 get_rows: word 1 the width, at most 6; 2 x; 3 y; 4.. the row; 10.. the row above; 16.. the one above that; 22.. the seven
// 4 update_for_interior_row: word 1 the length of both rows above, at most 6; 2 x; 3 the pixel; 4 what is needed, 1 top and
//   2 toptop; 5.. the seven before; 12.. the row above; 18.. the one above that; 24.. the seven
// 5 predict_one: word 1 the predictor; 2.. the seven; 9, 10 the weighted guess; 11, 12 the answer
// 6 do_rct_step: word 1 the operation; 2 the order; 3 the number of triples, 1 to 4; 4.. the first plane; 8.. the second;
//   12.. the third; 16.., 20.. and 24.. the three afterwards
// 7 predict_and_property: words 1 to 4 a byte each of the eleven of the header, the width, at most 6, x and y; 5.. left, top,
//   toptop, topleft, topright; 10 the true value; 11.. the position N, its error and four sums; 16.. NE; 21.. NW; 26 the error
//   of W; 27, 28 the guess; 29 the property
// 8 update_errors: the same up to 26; 27.. the pixel's position after the true value is put
// 9 compute_used_property_mask: word 1 which nodes of a tree are splits, a bit a node; 2 how many nodes, at most 17; 3, 4 the
//   properties of the splits, a byte each; 5.. their values, at most eight; 13 the mask
// 10 validate_tree: the same up to 12; 13 0 or 7; 14.. the property, the value, the low and the high end of a split with an
//   empty side
// 11 compute_properties: word 1 the mask; 2 x; 3 y; 4.. left, top, toptop, topleft, topright, leftleft; 10 the old cell 9; 11
//   the weighted property; 12 the number of references, at most 2; 13, 14 the references; 15.. cells 2 to 17
// 12 predict: words 1 to 12 as in 9; 13.. the sixteen cells, of which 4 to 10 are the seven too; 29, 30 the guess; 31 the
//   context, the multiplier, a byte each, and the hops
// 13 build_flat_tree: words 1 to 12 as in 9; 13 how many records; 14 the place of one; 15.. its six words
// 14 predict_flat: as 12
use crate::fault::{Fault, expect};
use crate::record::Record;
use crate::{fillings, pixels, trees, walks};
use predict::predictors::Predictor;

fn floor_log2(record: &Record) -> Result<(), Fault> {
    expect(arith::floor_log2_nonzero(record.long_bits(1)) == record.bits(3))
}

fn error_weight(record: &Record) -> Result<(), Fault> {
    let weight = arith::error_weight(record.bits(1), record.bits(2))?;
    expect(weight == record.bits(3))
}

fn get_rows(record: &Record) -> Result<(), Fault> {
    let width = record.bits(1) as usize;
    if 6 < width {
        return Err(Fault::NoForm);
    }
    let row = record.words::<6>(4);
    let above = record.words::<6>(10);
    let above2 = record.words::<6>(16);
    let found = predict::neighbours::get_rows(
        &row[..width],
        &above[..width],
        &above2[..width],
        record.bits(2) as usize,
        record.bits(3) as usize,
    )?;
    expect(found == record.seven(22))
}

fn update_for_interior_row(record: &Record) -> Result<(), Fault> {
    let width = record.bits(1) as usize;
    let needs = record.bits(4);
    if 6 < width || 3 < needs {
        return Err(Fault::NoForm);
    }
    let above = record.words::<6>(12);
    let above2 = record.words::<6>(18);
    let found = record.seven(5).update_for_interior_row(
        &above[..width],
        &above2[..width],
        record.bits(2) as usize,
        record.word(3),
        needs & 1 != 0,
        needs & 2 != 0,
    )?;
    expect(found == record.seven(24))
}

fn predict_one(record: &Record) -> Result<(), Fault> {
    let predictor = Predictor::try_from(record.bits(1))?;
    let guess = predictor.predict_one(record.seven(2), record.long_word(9));
    expect(guess == record.long_word(11))
}

fn do_rct_step(record: &Record) -> Result<(), Fault> {
    let n = record.bits(3) as usize;
    if n < 1 || 4 < n {
        return Err(Fault::NoForm);
    }
    let mut a = record.words::<4>(4);
    let mut b = record.words::<4>(8);
    let mut c = record.words::<4>(12);
    colour::restore::do_rct_step(
        &mut a[..n],
        &mut b[..n],
        &mut c[..n],
        record.bits(1),
        record.bits(2),
    )?;
    expect(record.holds(&a[..n], 16) && record.holds(&b[..n], 20) && record.holds(&c[..n], 24))
}

// Whether the library's answer is the record's.
pub fn hold(record: &Record) -> Result<(), Fault> {
    match record.bits(0) {
        1 => floor_log2(record),
        2 => error_weight(record),
        3 => get_rows(record),
        4 => update_for_interior_row(record),
        5 => predict_one(record),
        6 => do_rct_step(record),
        7 => pixels::pixel(record, false),
        8 => pixels::pixel(record, true),
        9 => trees::mask(record),
        10 => trees::verdict(record),
        11 => fillings::filling(record),
        12 => walks::direct(record),
        13 => walks::form(record),
        14 => walks::flat(record),
        _ => Err(Fault::NoForm),
    }
}
