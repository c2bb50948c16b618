// One character of modified UTF-8 (rule 2) or UTF-8: the value at a place, and one value written, by the rule of a form where both are in use.
#![tactic(auto)]

ghost use Rattle.std.specs.Prelude.{◌≡◌, ℕ, ◌+◌, ◌%◌, ◌≤◌, ◌<◌, length, drop};
ghost use Rattle.form.specs.Spans.{over};
ghost use Rattle.form.specs.Form.{form_no};
ghost use Rattle.form.specs.Strings.{two_bytes, three_bytes, four_bytes, unit_bytes, scalar_bytes, utf8_bytes, enc_of};
ghost use Rattle.form.specs.Decoding.{six, two_of, three_of, four_of, unit_of, pair_of, scalar_of, utf8_of};
ghost use Rattle.chars.specs.Answers.{sequence_of, Wrote};

use form::forms::is_pocket;

// What stands at a place: a value, and how many bytes it takes.
#[derive(Clone, Copy)]
pub struct Character {
    pub value: u32,
    pub size: usize,
}

// A six-bit group shifted in below what is there.
fn join(hi: u32, b: u8) -> u32
    requires { hi < 65536 }
    ensures { result ≡ six hi b }
{
    (hi << 6) | ((b & 0x3F) as u32)
}

// A unit in two bytes: C0 80 is 0, and no other below 128 is written so.
fn two(a: u8, b: u8) -> Option<Character>
    ensures { sequence_of result ≡ two_of a b }
{
    if b < 128 {
        return None;
    }
    if 192 <= b {
        return None;
    }
    let u = join((a & 0x1F) as u32, b);
    if u == 0 {
        return Some(Character { value: u, size: 2 });
    }
    if u < 128 {
        return None;
    }
    Some(Character { value: u, size: 2 })
}

// A unit in three bytes: none below 2048.
fn three(a: u8, b: u8, c: u8) -> Option<Character>
    ensures { sequence_of result ≡ three_of a b c }
{
    if b < 128 {
        return None;
    }
    if 192 <= b {
        return None;
    }
    if c < 128 {
        return None;
    }
    if 192 <= c {
        return None;
    }
    let u = join(join((a & 0x0F) as u32, b), c);
    if u < 2048 {
        return None;
    }
    Some(Character { value: u, size: 3 })
}

// The 16-bit unit at a place. Compiled into the two that ask for it, since a call for each character costs a text of long ones a third more.
#[inline(always)]
fn unit_at(s: &[u8], at: usize) -> Option<Character>
    ensures { sequence_of result ≡ unit_of (drop at s.now) }
{
    if s.len() <= at {
        return None;
    }
    let a = s[at];
    if a == 0 {
        return None;
    }
    if a < 128 {
        return Some(Character {
            value: a as u32,
            size: 1,
        });
    }
    if a < 192 {
        return None;
    }
    let left = s.len() - at;
    if left < 2 {
        return None;
    }
    let b = s[at + 1];
    if a < 224 {
        return two(a, b);
    }
    if 240 <= a {
        return None;
    }
    if left < 3 {
        return None;
    }
    let c = s[at + 2];
    three(a, b, c)
}

// The two halves of a pair assembled into one scalar value.
fn pair(hi: u32, lo: u32) -> u32
    ensures { result ≡ pair_of hi lo }
{
    0x10000 + (((hi & 0x3FF) << 10) | (lo & 0x3FF))
}

// The scalar value of modified UTF-8 at a place.
pub fn scalar_at(s: &[u8], at: usize) -> Option<Character>
    ensures { sequence_of result ≡ scalar_of (drop at s.now) }
{
    let first = unit_at(s, at)?;
    if first.value < 0xD800 {
        return Some(first);
    }
    if 0xE000 <= first.value {
        return Some(first);
    }
    if 0xDC00 <= first.value {
        return None;
    }
    match unit_at(s, at + first.size) {
        Some(second) => {
            if second.value < 0xDC00 {
                return None;
            }
            if 0xE000 <= second.value {
                return None;
            }
            Some(Character {
                value: pair(first.value, second.value),
                size: first.size + second.size,
            })
        }
        None => None,
    }
}

// A scalar value of UTF-8 in four bytes.
fn four(a: u8, b: u8, c: u8, d: u8) -> Option<Character>
    ensures { sequence_of result ≡ four_of a b c d }
{
    if b < 128 {
        return None;
    }
    if 192 <= b {
        return None;
    }
    if c < 128 {
        return None;
    }
    if 192 <= c {
        return None;
    }
    if d < 128 {
        return None;
    }
    if 192 <= d {
        return None;
    }
    let u = join(join(join((a & 0x07) as u32, b), c), d);
    if u < 0x10000 {
        return None;
    }
    if 0x110000 <= u {
        return None;
    }
    Some(Character { value: u, size: 4 })
}

// The scalar value of UTF-8 at a place.
pub fn utf8_at(s: &[u8], at: usize) -> Option<Character>
    ensures { sequence_of result ≡ utf8_of (drop at s.now) }
{
    if s.len() <= at {
        return None;
    }
    let a = s[at];
    if a == 0 {
        return Some(Character { value: 0, size: 1 });
    }
    if 240 <= a {
        if 248 <= a {
            return None;
        }
        if s.len() - at < 4 {
            return None;
        }
        return four(a, s[at + 1], s[at + 2], s[at + 3]);
    }
    let unit = unit_at(s, at)?;
    if unit.value == 0 {
        return None;
    }
    if unit.value < 0xD800 {
        return Some(unit);
    }
    if unit.value < 0xE000 {
        return None;
    }
    Some(unit)
}

// How many bytes a scalar value takes in modified UTF-8.
pub fn length_of(c: u32) -> usize
    ensures { result ≡ length (scalar_bytes c) }
{
    if c == 0 {
        return 2;
    }
    if c < 128 {
        return 1;
    }
    if c < 2048 {
        return 2;
    }
    if c < 0x10000 {
        return 3;
    }
    6
}

// The lowest six-bit group, as a byte that follows a lead byte.
fn group(u: u32) -> u8
    ensures { result ≡ 128 + u % 64 }
{
    ((u & 0x3F) as u8) | 0x80
}

// Two bytes: the upper group on a lead byte, and the lower.
fn put_two(u: u32, out: &mut [u8], at: usize)
    requires { (u < 2048) × (at + 2 ≤ length out.old) }
    ensures { out.new ≡ over out.old at (two_bytes u) }
{
    out[at] = ((u >> 6) as u8) | 0xC0;
    out[at + 1] = group(u);
}

// Three bytes: the upper group on a lead byte, and two below it.
fn put_three(u: u32, out: &mut [u8], at: usize)
    requires { (u < 65536) × (at + 3 ≤ length out.old) }
    ensures { out.new ≡ over out.old at (three_bytes u) }
{
    out[at] = ((u >> 12) as u8) | 0xE0;
    out[at + 1] = group(u >> 6);
    out[at + 2] = group(u);
}

// A 16-bit unit in one, two or three bytes.
fn put_unit(u: u32, out: &mut [u8], at: usize)
    requires { (u < 65536) × (at + length (unit_bytes u) ≤ length out.old) }
    ensures { out.new ≡ over out.old at (unit_bytes u) }
{
    if u == 0 {
        put_two(u, out, at);
        return;
    }
    if u < 128 {
        out[at] = u as u8;
        return;
    }
    if u < 2048 {
        put_two(u, out, at);
        return;
    }
    put_three(u, out, at);
}

// A scalar value in modified UTF-8 at a place, above the basic plane as its two halves; the place behind it, or none where there is no room.
pub fn put_scalar(c: u32, out: &mut [u8], at: usize) -> Option<usize>
    requires { (c < 1114112) × (at ≤ length out.old) }
    ensures { Wrote out.old at (scalar_bytes c) result out.new }
{
    let size = length_of(c);
    if out.len() - at < size {
        return None;
    }
    if c < 0x10000 {
        put_unit(c, out, at);
        return Some(at + size);
    }
    let v = c - 0x10000;
    put_unit(0xD800 + (v >> 10), out, at);
    put_unit(0xDC00 + (v & 0x3FF), out, at + 3);
    Some(at + size)
}

// How many bytes a scalar value takes in UTF-8.
fn utf8_length_of(c: u32) -> usize
    ensures { result ≡ length (utf8_bytes c) }
{
    if c < 128 {
        return 1;
    }
    if c < 2048 {
        return 2;
    }
    if c < 0x10000 {
        return 3;
    }
    4
}

// Four bytes: the upper group on a lead byte, and three below it.
fn put_four(u: u32, out: &mut [u8], at: usize)
    requires { (u < 1114112) × (at + 4 ≤ length out.old) }
    ensures { out.new ≡ over out.old at (four_bytes u) }
{
    out[at] = ((u >> 18) as u8) | 0xF0;
    out[at + 1] = group(u >> 12);
    out[at + 2] = group(u >> 6);
    out[at + 3] = group(u);
}

// A scalar value in UTF-8 at a place.
fn put_utf8(c: u32, out: &mut [u8], at: usize)
    requires { (c < 1114112) × (at + length (utf8_bytes c) ≤ length out.old) }
    ensures { out.new ≡ over out.old at (utf8_bytes c) }
{
    if c < 128 {
        out[at] = c as u8;
        return;
    }
    if c < 2048 {
        put_two(c, out, at);
        return;
    }
    if c < 0x10000 {
        put_three(c, out, at);
        return;
    }
    put_four(c, out, at);
}

// How many bytes a scalar value takes by the rule of a form (02, [2]).
pub fn length_in(c: u32, form: u32) -> usize
    ensures { result ≡ length (enc_of (form_no form).strings c) }
{
    if is_pocket(form) {
        return utf8_length_of(c);
    }
    length_of(c)
}

// A scalar value by the rule of a form, where it is known to have room; the place behind it.
pub fn put_in(c: u32, out: &mut [u8], at: usize, form: u32) -> usize
    requires { (c < 1114112) × (at + length (enc_of (form_no form).strings c) ≤ length out.old) }
    ensures { (out.new ≡ over out.old at (enc_of (form_no form).strings c)) × (result ≡ at + length (enc_of (form_no form).strings c)) }
{
    let size = length_in(c, form);
    if is_pocket(form) {
        put_utf8(c, out, at);
        return at + size;
    }
    put_scalar(c, out, at);
    at + size
}
