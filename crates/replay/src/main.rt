// Recorded answers of the Rust, compared with the library's. Standard input is a list of records of 128 bytes, which
// `oracle/run .. record` wrote to the file stdin (answers.rt says what a record holds). A line tells how many of each kind
// were equal. The first record that differs, that the library refuses, that has no form or that is cut short ends the run,
// and its number, from 0, is told. Only an input that was equal to its end has the last line `all equal`.
#![tactic(auto)]

mod answers;
mod fault;
mod fillings;
mod pixels;
mod record;
mod tally;
mod trees;
mod walks;

ghost use Rattle.std.specs.Prelude.{◌≤◌, length};

use fault::Fault;
use record::Record;
use std::io;
use std::io::Read;
use tally::Tally;

// Compares records until one is at fault. Bytes at the end that fill no record are one cut short.
fn compare(bytes: &[u8], tally: &mut Tally) -> Result<(), Fault> {
    for chunk in bytes.chunks(128) {
        let Ok(bytes) = <[u8; 128]>::try_from(chunk) else {
            return Err(Fault::CutShort);
        };
        let record = Record { bytes };
        answers::hold(&record)?;
        tally.count(record.bits(0));
    }
    Ok(())
}

// Reads until the bytes are full, the input ends or a read fails, and answers how many bytes came.
fn read_full(input: &mut impl Read, bytes: &mut [u8]) -> usize
    ensures { result ≤ length bytes.old }
{
    let mut done = 0;
    while done < bytes.len() {
        match input.read(&mut bytes[done..]) {
            Ok(0) => return done,
            Ok(n) => {
                done += n;
            }
            Err(_) => return done,
        }
    }
    done
}

// Whether a read finds the end. `read_full` reads nothing at the end and where a read fails.
fn is_at_end(input: &mut impl Read) -> bool {
    let mut byte = [0u8; 1];
    matches!(input.read(&mut byte), Ok(0))
}

// Reads up to 512 records, and answers whether more may follow. A buffer that is not full is the last one, so no record lies in two.
fn read_some(input: &mut impl Read, tally: &mut Tally) -> Result<bool, Fault> {
    let mut buffer = [0u8; 65536];
    let n = read_full(input, &mut buffer);
    if 0 < n {
        compare(&buffer[..n], tally)?;
        return Ok(true);
    }
    if is_at_end(input) {
        Ok(false)
    } else {
        Err(Fault::Unread)
    }
}

// Whether the input came to its end. Nothing says that an input ends, so the loop has a number of turns that no run uses up.
fn read_all(input: &mut impl Read, tally: &mut Tally) -> Result<bool, Fault> {
    for _ in 0..u64::MAX {
        if !read_some(input, tally)? {
            return Ok(true);
        }
    }
    Ok(false)
}

// No record at all is no success: then the input is missing.
fn end(rt: &impl Print, tally: &Tally, ended: Result<bool, Fault>) -> io::Result<()> {
    match ended {
        Ok(true) if tally.all == 0 => println!(rt; "no records"),
        Ok(true) => println!(rt; "all equal"),
        Ok(false) => println!(rt; "the input goes on"),
        Err(fault) => {
            let all = tally.all;
            println!(rt; "record {all} {fault}")
        }
    }
}

// That standard output cannot be written is told nowhere.
fn main(rt: HostRuntime) {
    let mut tally = Tally::none();
    let ended = read_all(&mut rt.reader(), &mut tally);
    tally.print(&rt);
    let _ = end(&rt, &tally, ended);
}
