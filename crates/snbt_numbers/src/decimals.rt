// Rule 13 with a point: an optional minus, digits, a point, digits, an optional exponent, an optional f or d. The digits are
// one whole number w, and the power p is the exponent less the digits behind the point.
ghost use Rattle.std.specs.Prelude.{◌≡◌, Bool, true, false, ◌++◌, ℕ, ◌+◌, ◌-◌, ◌^◌, ◌≤◌, ◌<◌, leb, pos, ◌-ℤ◌, length, get_or};
ghost use Rattle.std.proofs.Math.Seq.{slice};
ghost use Rattle.form.specs.Answer.{pick};
ghost use Rattle.snbt_floats.specs.Scaled.{scaled_out};
ghost use Rattle.snbt_form.specs.Values.{signed, scaled};
ghost use Rattle.snbt_form.specs.Numbers.{decimal_of, decimal, real_number, decimal_number};
ghost use Rattle.snbt_numbers.specs.Answers.{number_out, real_out};
ghost use Rattle.snbt_numbers.specs.Rows.{FirstAt, HeadAt, powered, digits_of, power_of, exponent_of, combine, value_in, ending_of};

use crate::Number;
use form::refusals::{Refusal, Refused};

// An exponent by its sign and its magnitude.
#[derive(Clone, Copy)]
pub struct Exponent {
    pub down: bool,
    pub e: u64,
}

// The place of the first byte from at on that is x or y, and to where there is none (rule 13: the point, the exponent's letter).
pub fn first_of(text: &[u8], at: usize, to: usize, x: u8, y: u8) -> usize
    requires { (at ≤ to) × (to ≤ length text.now) }
    ensures { FirstAt x y text.now at to result }
{
    for i in at..to {
        let b = text[i];
        if b == x || b == y {
            return i;
        }
    }
    to
}

// The digits on both sides of the point as one number (rule 13).
fn mantissa(text: &[u8], from: usize, point: usize, ex: usize) -> Option<u64>
    requires { (from ≤ point) × (point + 1 ≤ ex) × (ex ≤ length text.now) }
    ensures { result ≡ digits_of 0 (slice from point text.now ++ slice (point + 1) ex text.now) }
{
    let v = crate::digits::digits_from(text, 0, from, point)?;
    crate::digits::digits_from(text, v, point + 1, ex)
}

// The power that digits spell, one at least (rule 13).
fn power_at(text: &[u8], down: bool, at: usize, to: usize) -> Option<Exponent>
    requires { (at ≤ to) × (to ≤ length text.now) }
    ensures { result ≡ power_of down (slice at to text.now) }
{
    if to <= at {
        return None;
    }
    let e = crate::digits::digits_from(text, 0, at, to)?;
    Some(Exponent { down, e })
}

// The exponent behind its letter: an optional sign, and digits (rule 13).
fn exponent_at(text: &[u8], at: usize, to: usize) -> Option<Exponent>
    requires { (at ≤ to) × (to ≤ length text.now) }
    ensures { result ≡ exponent_of (slice at to text.now) }
{
    if to <= at {
        return None;
    }
    match text[at] {
        b'-' => power_at(text, true, at + 1, to),
        b'+' => power_at(text, false, at + 1, to),
        _ => power_at(text, false, at, to),
    }
}

// The exponent from its letter on, and 0 where there is no letter (rule 13).
fn exponent_from(text: &[u8], ex: usize, to: usize) -> Option<Exponent>
    requires { (ex ≤ to) × (to ≤ length text.now) }
    ensures { result ≡ pick (leb to ex) (Some (powered false 0)) (exponent_of (slice (ex + 1) to text.now)) }
{
    if to <= ex {
        return Some(Exponent { down: false, e: 0 });
    }
    exponent_at(text, ex + 1, to)
}

// The value of digits and an exponent less the digits behind the point (rule 13).
fn valued(negative: bool, w: u64, down: bool, e: u64, behind: u64) -> Option<f64>
    requires { behind < 2 ^ 63 }
    ensures { (place : ℕ) → scaled_out result place ≡ scaled negative w (signed down e -ℤ pos behind) place }
{
    if down {
        // so far below that the digits behind the point change nothing
        if 22 < e {
            return snbt_floats::decimal::scaled_or_beyond(negative, w, true, e);
        }
        return snbt_floats::decimal::scaled_or_beyond(negative, w, true, e + behind);
    }
    if behind <= e {
        return snbt_floats::decimal::scaled_or_beyond(negative, w, false, e - behind);
    }
    snbt_floats::decimal::scaled_or_beyond(negative, w, true, behind - e)
}

// The digits and the exponent together (rule 13): 18 where one of them is none, before 23.
fn combined(
    negative: bool,
    behind: u64,
    m: Option<u64>,
    x: Option<Exponent>,
) -> Result<f64, Refusal>
    requires { behind < 2 ^ 63 }
    ensures { (place : ℕ) → real_out result place ≡ combine negative behind m x place }
{
    let w = m.ok_or(Refusal::BadNumber)?;
    let x = x.ok_or(Refusal::BadNumber)?;
    valued(negative, w, x.down, x.e, behind).ok_or(Refusal::DecimalBeyond)
}

// The decimal whose point and whose exponent's letter stand at known places (rule 13): a digit on one side of the point at least.
fn value_of(
    text: &[u8],
    negative: bool,
    from: usize,
    point: usize,
    ex: usize,
    to: usize,
) -> Result<f64, Refusal>
    requires { (from ≤ point) × (point + 1 ≤ ex) × (ex ≤ to) × (to ≤ length text.now) }
    ensures { (place : ℕ) → real_out result place ≡ value_in negative text.now from point ex to place }
{
    let behind = ex - (point + 1);
    if point - from + behind == 0 {
        return Err(Refusal::BadNumber);
    }
    let m = mantissa(text, from, point, ex);
    let x = exponent_from(text, ex, to);
    combined(negative, behind as u64, m, x)
}

// A decimal without its sign (rule 13): digits, a point, digits, an optional exponent.
fn decimal_of(text: &[u8], negative: bool, from: usize, to: usize) -> Result<f64, Refusal>
    requires { (from ≤ to) × (to ≤ length text.now) }
    ensures { (place : ℕ) → real_out result place ≡ decimal_of negative (slice from to text.now) place }
{
    let point = first_of(text, from, to, 46, 46);
    if to <= point {
        return Err(Refusal::BadNumber);
    }
    let ex = first_of(text, point + 1, to, 101, 69);
    value_of(text, negative, from, point, ex, to)
}

// A decimal with its sign (rule 13).
fn decimal_at(text: &[u8], at: usize, to: usize) -> Result<f64, Refusal>
    requires { (at ≤ to) × (to ≤ length text.now) }
    ensures { (place : ℕ) → real_out result place ≡ decimal (slice at to text.now) place }
{
    let negative = crate::digits::minus_at(text, at, to);
    let from = crate::digits::behind_minus(negative, at);
    decimal_of(text, negative, from, to)
}

// A float or a double token, or the refusal at the token's place (rule 13).
fn token_of(single: bool, x: Result<f64, Refusal>, place: usize) -> Result<Number, Refused>
    ensures { number_out result ≡ real_number single (real_out x place) }
{
    match x {
        Ok(v) => {
            if single {
                return Ok(Number::Float(v));
            }
            Ok(Number::Double(v))
        }
        Err(refusal) => Err(Refused { refusal, place }),
    }
}

// What a token with a point ends with (rule 13): f, d, a digit, or anything else.
#[derive(Drop)]
pub enum Ending {
    Float,
    Double,
    Digit,
    Other,
}

// The ending of a token by its last byte (rule 13).
fn ending_of(b: u8) -> Ending
    ensures { result ≡ ending_of b }
{
    match b {
        b'f' | b'F' => Ending::Float,
        b'd' | b'D' => Ending::Double,
        b'0'..=b'9' => Ending::Digit,
        _ => Ending::Other,
    }
}

// The number of a token with a point (rule 13): f or d is dropped, otherwise the last character is a digit.
pub fn decimal_number(text: &[u8], start: usize, end: usize) -> Result<Number, Refused>
    requires { (start ≤ end) × (end ≤ length text.now) }
    ensures { number_out result ≡ decimal_number (slice start end text.now) start }
{
    if end <= start {
        return Err(Refused {
            refusal: Refusal::BadNumber,
            place: start,
        });
    }
    let last = text[end - 1];
    let ending = ending_of(last);
    match ending {
        Ending::Float => token_of(true, decimal_at(text, start, end - 1), start),
        Ending::Double => token_of(false, decimal_at(text, start, end - 1), start),
        Ending::Digit => token_of(false, decimal_at(text, start, end), start),
        Ending::Other => Err(Refused {
            refusal: Refusal::BadNumber,
            place: start,
        }),
    }
}

// A float or a double token of digits with so many of them behind the point, and no exponent (rule 13).
fn short_real(
    single: bool,
    negative: bool,
    w: u64,
    behind: u64,
    place: usize,
) -> Result<Number, Refused>
    ensures { number_out result ≡ real_number single (scaled negative w (signed true behind) place) }
{
    let x = snbt_floats::decimal::scaled_or_beyond(negative, w, true, behind);
    token_of(single, x.ok_or(Refusal::DecimalBeyond), place)
}

// The number of a token whose sign and first digits are read, up to its point (rule 13): with digits behind it, up to the end or to
// f or d, the whole token is read once.
pub fn fraction_number(
    text: &[u8],
    negative: bool,
    value: u64,
    start: usize,
    point: usize,
    end: usize,
) -> Result<Number, Refused>
    requires { (point < end) × (end ≤ length text.now) × HeadAt text.now start end negative value point × (get_or text.now point 0 ≡ 46) }
    ensures { number_out result ≡ decimal_number (slice start end text.now) start }
{
    let row = crate::runs::run_from(text, value, point + 1, end);
    let w = row.value;
    let to = row.end;
    if to <= point + 1 {
        return decimal_number(text, start, end);
    }
    let behind = (to - (point + 1)) as u64;
    if to == end {
        return short_real(false, negative, w, behind, start);
    }
    if to + 1 < end {
        return decimal_number(text, start, end);
    }
    let last = text[to];
    let ending = ending_of(last);
    match ending {
        Ending::Float => short_real(true, negative, w, behind, start),
        Ending::Double => short_real(false, negative, w, behind, start),
        Ending::Digit => decimal_number(text, start, end),
        Ending::Other => decimal_number(text, start, end),
    }
}
