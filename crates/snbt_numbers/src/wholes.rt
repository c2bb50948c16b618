// Rule 13 without a point: an optional minus, digits within the range of an i64, an optional suffix. The number's bits are raw's
// `bits_of`.
ghost use Rattle.std.specs.Prelude.{◌≡◌, Bool, true, ℕ, ◌+◌, ◌-◌, ◌^◌, ◌≤◌, ◌<◌, leb, length};
ghost use Rattle.std.proofs.Math.Seq.{slice};
ghost use Rattle.form.specs.Answer.{got, pick};
ghost use Rattle.snbt_form.specs.Values.{signed};
ghost use Rattle.snbt_form.specs.Numbers.{is_suffix, suffixed, whole_number};
ghost use Rattle.snbt_numbers.specs.Answers.{number_is, number_out};
ghost use Rattle.snbt_numbers.specs.Rows.{whole_digits};

use crate::Number;
use form::refusals::{Refusal, Refused};

// The whole number itself (rule 13), -2^63 among them.
pub fn signed_i64(negative: bool, m: u64) -> i64
    requires { leb m (pick negative (2 ^ 63) (2 ^ 63 - 1)) ≡ true }
    ensures { result ≡ signed negative m }
{
    if negative {
        if m == 0 {
            return 0;
        }
        return -1 - ((m - 1) as i64);
    }
    m as i64
}

// The magnitude of the digits from a place up to another (rule 13): one digit at least, 2^63 only where a minus stands before them. None:
// they are no such digits.
pub fn whole_at(text: &[u8], negative: bool, from: usize, to: usize) -> Option<u64>
    requires { (from ≤ to) × (to ≤ length text.now) }
    ensures { result ≡ whole_digits negative (slice from to text.now) }
{
    if to <= from {
        return None;
    }
    let n = crate::digits::digits_from(text, 0, from, to)?;
    if 9223372036854775808 < n {
        return None;
    }
    if negative {
        return Some(n);
    }
    if 9223372036854775807 < n {
        return None;
    }
    Some(n)
}

// Whether a byte is one of the suffixes b s l f d, of either case (rule 13).
pub fn is_suffix(b: u8) -> bool
    ensures { result ≡ is_suffix b }
{
    matches!(
        b,
        b'b' | b'B' | b's' | b'S' | b'l' | b'L' | b'f' | b'F' | b'd' | b'D'
    )
}

// What a whole number becomes by its suffix (rule 13): with f or d the nearest double, with none an int.
pub fn suffixed_number(b: u8, negative: bool, m: u64) -> Number
    requires { leb m (pick negative (2 ^ 63) (2 ^ 63 - 1)) ≡ true }
    ensures { number_is result ≡ suffixed b (signed negative m) }
{
    match b {
        b'b' | b'B' => Number::Byte(signed_i64(negative, m)),
        b's' | b'S' => Number::Short(signed_i64(negative, m)),
        b'l' | b'L' => Number::Long(signed_i64(negative, m)),
        b'f' | b'F' => Number::Float(snbt_floats::nearest::nearest_double(negative, m)),
        b'd' | b'D' => Number::Double(snbt_floats::nearest::nearest_double(negative, m)),
        _ => Number::Int(signed_i64(negative, m)),
    }
}

// The whole number of a token without a point (rule 13).
pub fn whole_number(text: &[u8], start: usize, end: usize) -> Result<Number, Refused>
    requires { (start ≤ end) × (end ≤ length text.now) }
    ensures { number_out result ≡ whole_number (slice start end text.now) start }
{
    if end <= start {
        return Err(Refused {
            refusal: Refusal::BadNumber,
            place: start,
        });
    }
    let last = text[end - 1];
    let to = stem_end(last, end);
    let negative = crate::digits::minus_at(text, start, to);
    let from = crate::digits::behind_minus(negative, start);
    let m = whole_at(text, negative, from, to).ok_or(Refused {
        refusal: Refusal::BadNumber,
        place: start,
    })?;
    Ok(suffixed_number(last, negative, m))
}

// Where the bytes without their suffix end (rule 13).
fn stem_end(last: u8, end: usize) -> usize
    requires { 0 < end }
    ensures { result ≡ pick (is_suffix last) (end - 1) end }
{
    if is_suffix(last) { end - 1 } else { end }
}
