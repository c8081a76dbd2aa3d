// 32-bit words: the low word of a 64-bit value, and wrapping operations. Each is total; its meaning is
// `wrap`, the low 32 bits as signed, of the operation on whole numbers (specs/Word.antt).
#![tactic(auto)]

ghost use Rattle.std.specs.Prelude.{◌≡◌, ◌^◌, pos, ◌+ℤ◌, ◌-ℤ◌, length};
ghost use Rattle.std.specs.Int.Signed.{shr_z};
ghost use Rattle.integer.specs.Fill.{tabulate};
ghost use Rattle.integer.specs.Order.{smaller, larger, magnitude};
ghost use Rattle.integer.specs.Word.{wrap, bits_of};

// The low 32 bits of x, as signed.
pub fn low_word(x: i64) -> i32
    ensures { result ≡ wrap x }
{
    ((x << 32) >> 32) as i32
}

// The smaller of two, by the test a < b.
pub fn min(a: i64, b: i64) -> i64
    ensures { result ≡ smaller a b }
{
    b.min(a)
}

// The larger of two, by the same test.
pub fn max(a: i64, b: i64) -> i64
    ensures { result ≡ larger a b }
{
    b.max(a)
}

// The same number in 64 bits.
pub fn widen(x: i32) -> i64
    ensures { result ≡ x }
{
    x as i64
}

pub fn wrapping_add(a: i32, b: i32) -> i32
    ensures { result ≡ wrap (a +ℤ b) }
{
    a.wrapping_add(b)
}

pub fn wrapping_sub(a: i32, b: i32) -> i32
    ensures { result ≡ wrap (a -ℤ b) }
{
    a.wrapping_sub(b)
}

// The magnitude; that of -2^31 wraps to -2^31.
pub fn wrapping_abs(a: i32) -> i32
    ensures { result ≡ wrap (magnitude a) }
{
    a.wrapping_abs()
}

// a / 2^k rounded down, for every k.
pub fn shift_right(a: i32, k: u32) -> i32
    ensures { result ≡ shr_z a (2 ^ k) }
{
    if k < 32 { a >> k } else { a >> 31 }
}

// The bit pattern of a.
pub fn to_bits(a: i32) -> u32
    ensures { result ≡ bits_of a }
{
    a.cast_unsigned()
}

// The number with this bit pattern.
pub fn from_bits(bits: u32) -> i32
    ensures { result ≡ wrap (pos bits) }
{
    bits.cast_signed()
}

// All lent words become 0.
pub fn clear(lent: &mut [i32])
    ensures { lent.new ≡ tabulate (λ i. pos 0) (length lent.old) }
{
    lent.fill(0);
}
