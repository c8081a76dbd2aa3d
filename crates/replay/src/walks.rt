// Records 12 to 14: a tree as in records 9 and 10, and a walk down it, direct or flat, or a record of its flat form.
ghost use Rattle.std.specs.Prelude.{◌≤◌, ◌*◌, IfOk};

use crate::fault::{Fault, expect};
use crate::record::Record;
use crate::trees::tree;
use flat::predict_flat;
use flatten::build_flat_tree;
use walk::{PredictionResult, predict};

// Context and multiplier in a byte each, then the hops.
fn is(res: PredictionResult, record: &Record) -> Result<(), Fault> {
    let last = record.bits(31);
    expect(
        res.guess == record.long_word(29)
            && res.context == last % 256
            && res.multiplier == last / 256 % 256
            && res.hops == last / 65536,
    )
}

// A record of the direct walk.
pub fn direct(record: &Record) -> Result<(), Fault> {
    let (list, words) = tree(record)?;
    let cells = record.words::<16>(13);
    let result = predict(&list[..words], &cells, record.seven(17), 0)?;
    is(result, record)
}

// The flat form of the record's tree, and how many records it has.
fn flattened(record: &Record) -> Result<([i32; 198], usize), Fault>
    ensures { IfOk result (λ form. 6 * form.1 ≤ 198) }
{
    let (list, words) = tree(record)?;
    let mut ring = [0i32; 18];
    let mut output = [0i32; 198];
    let count = build_flat_tree(&list[..words], &mut ring, &mut output)?;
    if 33 < count {
        return Err(Fault::NoForm);
    }
    Ok((output, count))
}

// A record of the flat walk.
pub fn flat(record: &Record) -> Result<(), Fault> {
    let (output, count) = flattened(record)?;
    let cells = record.words::<16>(13);
    let result = predict_flat(&output[..6 * count], &cells, record.seven(17), 0)?;
    is(result, record)
}

// A record of the flat form: how many records, and the six words of one.
pub fn form(record: &Record) -> Result<(), Fault> {
    let (output, count) = flattened(record)?;
    let k = record.bits(14) as usize;
    if 32 < k {
        return Err(Fault::NoForm);
    }
    expect(count == record.bits(13) as usize && record.holds(&output[6 * k..6 * k + 6], 15))
}
