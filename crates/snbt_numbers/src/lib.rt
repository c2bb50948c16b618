// Rule 13: the number that an unquoted token's bytes spell, or its refusal. `number_at` is what the lexer calls; the bits
// of what it answers are `raw::bits_of`, the double's own, and `snbt_floats::single::f32_bits`.
#![tactic(auto)]

pub mod decimals;
pub mod digits;
pub mod runs;
pub mod wholes;

ghost use Rattle.std.specs.Prelude.{◌≡◌, Bool, false, ◌+◌, ◌-◌, ◌≤◌, ◌<◌, length, take, drop};
ghost use Rattle.std.proofs.Math.Seq.{slice};
ghost use Rattle.snbt_form.specs.Numbers.{is_point, has, number};
ghost use Rattle.snbt_numbers.specs.Answers.{number_out};
ghost use Rattle.snbt_numbers.specs.Rows.{HeadAt};

use form::refusals::Refused;

// A number token.
#[derive(Clone, Copy)]
pub enum Number {
    Byte(i64),
    Short(i64),
    Int(i64),
    Long(i64),
    Float(f64),
    Double(f64),
}

// The number of the bytes from start up to end (rule 13); a refusal's place is the token's start. A number of up to 18
// digits and without an exponent is read in one pass.
pub fn number_at(text: &[u8], start: usize, end: usize) -> Result<Number, Refused>
    requires { (start ≤ end) × (end ≤ length text.now) }
    ensures { number_out result ≡ number (take (end - start) (drop start text.now)) start }
{
    let negative = digits::minus_at(text, start, end);
    let from = digits::behind_minus(negative, start);
    if 18 < end - from {
        return any_number(text, start, start, end);
    }
    let row = runs::run_from(text, 0, from, end);
    let value = row.value;
    let to = row.end;
    if to <= from {
        return tail_number(text, negative, value, start, to, end);
    }
    if to == end {
        return Ok(Number::Int(wholes::signed_i64(negative, value)));
    }
    if to + 1 == end {
        let last = text[to];
        if wholes::is_suffix(last) {
            return Ok(wholes::suffixed_number(last, negative, value));
        }
    }
    tail_number(text, negative, value, start, to, end)
}

// The number of a token whose sign and first digits are read, up to at (rule 13).
fn tail_number(
    text: &[u8],
    negative: bool,
    value: u64,
    start: usize,
    at: usize,
    end: usize,
) -> Result<Number, Refused>
    requires { (end ≤ length text.now) × HeadAt text.now start end negative value at }
    ensures { number_out result ≡ number (take (end - start) (drop start text.now)) start }
{
    if end <= at {
        return any_number(text, start, at, end);
    }
    if text[at] == 46 {
        return decimals::fraction_number(text, negative, value, start, at, end);
    }
    any_number(text, start, at, end)
}

// The number of any token (rule 13), whose point, if it has one, is looked for from at on.
fn any_number(text: &[u8], start: usize, at: usize, end: usize) -> Result<Number, Refused>
    requires { (start ≤ at) × (at ≤ end) × (end ≤ length text.now) × (has is_point (slice start at text.now) ≡ false) }
    ensures { number_out result ≡ number (take (end - start) (drop start text.now)) start }
{
    let point = decimals::first_of(text, at, end, 46, 46);
    if point < end {
        return decimals::decimal_number(text, start, end);
    }
    wholes::whole_number(text, start, end)
}
