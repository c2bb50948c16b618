// Numbers in bytes, as rule 1 has them: two's complement, floats as their bits, the highest byte first or, in the pocket edition's form
// (02, [2]), the lowest. They are read from a slice at a place and written to one; byte order is in `place_of` alone, and the width is a
// parameter.
#![tactic(auto)]

ghost use Rattle.std.specs.Prelude.{◌≡◌, ◌+◌, ◌^◌, ◌<◌, ◌≤◌, length};
ghost use Rattle.std.specs.Int.Signed.{mag};
ghost use Rattle.form.specs.Form.{order_in};
ghost use Rattle.form.specs.Numbers.{big_endian, bytes_in, bytes_of, bits_of, FitsIn};
ghost use Rattle.form.specs.Spans.{part, over};
ghost use Rattle.raw.specs.Numbers.{place_of, Number};

// Where digit i, counted from the highest, of a number of `width` bytes at `at` stands.
fn place_of(at: usize, width: usize, i: usize, little: bool) -> usize
    requires { (i < width) × (at + width < 2 ^ 64) }
    ensures { result ≡ place_of (order_in little) at width i }
{
    if little { at + (width - 1 - i) } else { at + i }
}

// The number in the `width` bytes at `at` (rule 1). The compiler unrolls the loop where width and order are literals.
fn number_by(s: &[u8], at: usize, width: usize, little: bool) -> u64
    requires { (width ≤ 8) × (at + width ≤ length s.now) }
    ensures { Number (order_in little) (part s.now at width) width result }
{
    let mut n: u64 = 0;
    for i in 0..width {
        n = n * 256 + s[place_of(at, width, i, little)] as u64;
    }
    n
}

// The same where the order is a value: both numbers are taken, of which the compiler makes one load, a swap and a choice with no branch.
pub fn number_in(s: &[u8], at: usize, width: usize, little: bool) -> u64
    requires { (width ≤ 8) × (at + width ≤ length s.now) }
    ensures { Number (order_in little) (part s.now at width) width result }
{
    let highest = number_by(s, at, width, false);
    let lowest = number_by(s, at, width, true);
    if little { lowest } else { highest }
}

// Rule 1 at two bytes.
pub fn u16_at(s: &[u8], at: usize) -> u16
    requires { at + 2 ≤ length s.now }
    ensures { result ≡ big_endian (part s.now at 2) }
{
    number_by(s, at, 2, false) as u16
}

// Rule 1 at four bytes, and the bits of a float.
pub fn u32_at(s: &[u8], at: usize) -> u32
    requires { at + 4 ≤ length s.now }
    ensures { result ≡ big_endian (part s.now at 4) }
{
    number_by(s, at, 4, false) as u32
}

// How far an integer lies from 0, and a negative one from -1, so that the lowest has one too.
pub fn magnitude(v: i64) -> u64
    ensures { result ≡ mag v }
{
    if 0 <= v {
        return v as u64;
    }
    (-1 - v) as u64
}

// The 64 bits of an integer (rule 1: two's complement): of a negative one, what its distance from zero wraps back to zero with.
pub fn bits_of(v: i64) -> u64
    ensures { result ≡ bits_of 8 v }
{
    let m = magnitude(v);
    if 0 <= v {
        return m;
    }
    std::num::wrapping_sub_u64(0, m + 1)
}

// The lowest `width` bytes of v put at `at` (rule 1), from the last digit to the first.
fn put_by(d: &mut [u8], at: usize, width: usize, v: u64, little: bool)
    requires { (width ≤ 8) × (at + width ≤ length d.old) }
    ensures { d.new ≡ over d.old at (bytes_in (order_in little) width v) }
{
    let mut rest = v;
    for done in 0..width {
        d[place_of(at, width, width - 1 - done, little)] = (rest % 256) as u8;
        rest /= 256;
    }
}

// The same with a literal order on each side, so that either is one store.
pub fn put_in(d: &mut [u8], at: usize, width: usize, v: u64, little: bool)
    requires { (width ≤ 8) × (at + width ≤ length d.old) }
    ensures { d.new ≡ over d.old at (bytes_in (order_in little) width v) }
{
    if little {
        put_by(d, at, width, v, true)
    } else {
        put_by(d, at, width, v, false)
    }
}

// The lowest `width` bytes of v put at `at`, the highest first.
pub fn put_number(d: &mut [u8], at: usize, width: usize, v: u64)
    requires { (width ≤ 8) × (at + width ≤ length d.old) }
    ensures { d.new ≡ over d.old at (bytes_of width v) }
{
    put_by(d, at, width, v, false);
}

// An integer that fits `width` bytes put at `at` (rule 1): the lowest digits of its 64 bits.
pub fn put_signed(d: &mut [u8], at: usize, width: usize, v: i64)
    requires { (width ≤ 8) × (at + width ≤ length d.old) × FitsIn width v }
    ensures { d.new ≡ over d.old at (bytes_of width (bits_of width v)) }
{
    put_number(d, at, width, bits_of(v));
}
