// The plane on standard output: words of 32 bits, the low byte first, or a binary PGM: `P5`, width, rows, 65535 and samples of
// 16 bits, the high byte first, where a value outside 0..65,535 becomes the nearer end.
ghost use Rattle.std.specs.Prelude.{◌≡◌, ◌+◌, ◌*◌, ◌%◌, ◌≤◌, ◌<◌, length};
ghost use Rattle.integer.specs.Fill.{tabulate};
ghost use Rattle.unpack.specs.Bytes.{sample_of, word_byte, sample_byte, byte_of, size_of};

use integer::to_bits;
use std::env::FillError;
use std::io;
use std::rt::Env;

#[derive(Clone, Copy, Debug, PartialEq, Eq)]
pub enum Form {
    Words,
    Picture,
}

// By the program's argument: none, or `pgm`. Another names no form.
pub fn wanted(rt: &impl Env) -> Option<Form> {
    let mut name = [0u8; 4];
    match rt.arg(1, &mut name) {
        Err(FillError::NotPresent) => Some(Form::Words),
        Err(FillError::TooLong) => None,
        Ok(n) => named(&name[..n], has_one_argument(rt)),
    }
}

fn has_one_argument(rt: &impl Env) -> bool {
    let mut name = [0u8; 4];
    matches!(rt.arg(2, &mut name), Err(FillError::NotPresent))
}

// The form that an argument names, if it is the only one.
fn named(name: &[u8], alone: bool) -> Option<Form> {
    if alone && name == b"pgm".as_slice() {
        Some(Form::Picture)
    } else {
        None
    }
}

// The number of 0..65,535 that is nearest to the value.
fn sample(value: i32) -> u32
    ensures { result ≡ sample_of value }
{
    if value < 0 {
        return 0;
    }
    if 65535 < value {
        return 65535;
    }
    to_bits(value)
}

fn low_byte(n: u32) -> u8
    ensures { result ≡ n % 256 }
{
    (n % 256) as u8
}

// Byte i of the words of a plane.
fn word_byte(plane: &[i32], i: usize) -> u8
    requires { i < 4 * length plane.now }
    ensures { result ≡ word_byte plane.now i }
{
    let bits = to_bits(plane[i / 4]);
    match i % 4 {
        0 => low_byte(bits),
        1 => low_byte(bits / 256),
        2 => low_byte(bits / 65536),
        _ => low_byte(bits / 16777216),
    }
}

// Byte i of its samples.
fn sample_byte(plane: &[i32], i: usize) -> u8
    requires { i < 2 * length plane.now }
    ensures { result ≡ sample_byte plane.now i }
{
    let sample = sample(plane[i / 2]);
    if i % 2 == 0 {
        low_byte(sample / 256)
    } else {
        low_byte(sample)
    }
}

fn byte_of(plane: &[i32], i: usize, picture: bool) -> u8
    requires { i < size_of picture (length plane.now) }
    ensures { result ≡ byte_of picture plane.now i }
{
    if picture {
        sample_byte(plane, i)
    } else {
        word_byte(plane, i)
    }
}

// The bytes of the plane from byte `from` on.
fn put_bytes(plane: &[i32], picture: bool, from: usize, bytes: &mut [u8])
    requires { from + length bytes.old ≤ size_of picture (length plane.now) }
    ensures { bytes.new ≡ tabulate (λ i. byte_of picture plane.now (from + i)) (length bytes.old) }
{
    for i in 0..bytes.len() {
        bytes[i] = byte_of(plane, from + i, picture);
    }
}

// How many bytes the plane is.
fn size(plane: &[i32], picture: bool) -> usize
    ensures { result ≡ size_of picture (length plane.now) }
{
    if picture {
        2 * plane.len()
    } else {
        4 * plane.len()
    }
}

fn write_plane(rt: &impl Print, plane: &[i32], picture: bool) -> io::Result<()> {
    let mut buffer = [0u8; 65536];
    let size = size(plane, picture);
    for from in (0..size).step_by(65536) {
        let n = (size - from).min(65536);
        put_bytes(plane, picture, from, &mut buffer[..n]);
        rt.write_all(&buffer[..n])?;
    }
    Ok(())
}

// The finished rows; for a picture after the lines that promise all of them.
// Not inlined, as `read_some` is not: so what is written with and what is read with never lie on the stack together.
#[inline(never)]
pub fn write(
    rt: &impl Print,
    form: Form,
    width: usize,
    rows: usize,
    done: usize,
    plane: &[i32],
) -> io::Result<()>
    requires { done * width ≤ length plane.now }
{
    let words = &plane[..done * width];
    match form {
        Form::Words => write_plane(rt, words, false),
        Form::Picture => {
            print!(rt; "P5\n{width} {rows}\n65535\n")?;
            write_plane(rt, words, true)
        }
    }
}
