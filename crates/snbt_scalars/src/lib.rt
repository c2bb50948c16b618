// Strings and numbers of a text as the bytes of a document (rules 13 and 15): a value goes to a place of the output.
#![tactic(auto)]

ghost use Rattle.std.specs.Prelude.{◌≡◌, Bool, ◌≤◌, ◌<◌, length};
ghost use Rattle.form.specs.Numbers.{bytes_of};
ghost use Rattle.form.specs.Tree.{Tag, kind_of};
ghost use Rattle.form.specs.Layout.{payload, int_bytes};
ghost use Rattle.snbt_form.specs.Text.{scalar_value};
ghost use Rattle.snbt_tokens.specs.Answers.{data_is};
ghost use Rattle.snbt_contents.specs.Puts.{Verbatim};
ghost use Rattle.form.specs.Refusals.{out_of};
ghost use Rattle.snbt_placing.specs.Done.{Spanned, Puts, admits};
ghost use Rattle.snbt_scalars.specs.Placed.{placed, whole_placed, string_placed};

use form::kinds;
use form::refusals::{Refusal, Refused};
use snbt_placing::Done;
use snbt_tokens::{Index, Token, TokenData};

// Where a scalar stands: its token's index, the next place in the text, the kind that its list has (0 for any), its place in the output.
#[derive(Drop)]
struct Target {
    index: Index,
    next: usize,
    want: u8,
    at: usize,
}

// Whether a value of a kind and a size may stand there, or the refusal at its token.
fn admitted(target: &Target, kind: u8, room: usize, size: usize) -> Result<(), Refused>
    ensures { out_of (λ u. u) result ≡ admits target.now.want kind room target.now.at size target.now.index.0 }
{
    snbt_placing::admits(target.want, kind, room, target.at, size).map_err(|refusal| Refused {
        refusal,
        place: target.index.0,
    })
}

// A number by its bits, `width` bytes of them: its kind (refusal 11), its room (refusal 13), then its bytes.
fn put_bits(
    bits: u64,
    width: usize,
    kind: u8,
    target: Target,
    out: &mut [u8],
) -> Result<Done, Refused>
    requires { width ≤ 8 }
    ensures { (tag : Tag) → kind_of tag ≡ kind → payload tag ≡ bytes_of width bits
        → Puts (placed (length out.old) target.want tag target.index.0 target.next target.at) out.old target.at result out.new }
{
    let at = target.at;
    admitted(&target, kind, out.len(), width)?;
    raw::put_number(out, at, width, bits);
    Ok(Done {
        next: target.next,
        used: at + width,
        kind,
    })
}

// A whole number in `width` bytes: its range (refusal 19), then as its bits.
fn put_whole(
    v: i64,
    width: usize,
    kind: u8,
    target: Target,
    out: &mut [u8],
) -> Result<Done, Refused>
    requires { (0 < width) × (width ≤ 8) }
    ensures { (tag : Tag) → kind_of tag ≡ kind → payload tag ≡ int_bytes width v
        → Puts (whole_placed width v (length out.old) target.want tag target.index.0 target.next target.at)
        out.old target.at result out.new }
{
    if snbt_placing::in_range(v, width) {
        return put_bits(raw::bits_of(v), width, kind, target, out);
    }
    Err(Refused {
        refusal: Refusal::UnexpectedToken,
        place: target.index.0,
    })
}

// A string that is its own content, and too short for refusal 12: its kind (refusal 11), its room (refusal 13), its length and its bytes.
fn put_plain(
    text: &[u8],
    start: usize,
    end: usize,
    target: Target,
    out: &mut [u8],
) -> Result<Done, Refused>
    requires { (start ≤ end) × (end ≤ length text.now) × Verbatim text.now start end }
    ensures { (quoted : Bool) → Puts (string_placed text.now quoted start end (length out.old) target.want target.index.0 target.next target.at)
        out.old target.at result out.new }
{
    let at = target.at;
    let size = end - start;
    admitted(&target, kinds::STRING, out.len(), 2 + size)?;
    raw::put_number(out, at, 2, size as u64);
    slices::copy(text, start, size, out, at + 2);
    Ok(Done {
        next: target.next,
        used: at + 2 + size,
        kind: kinds::STRING,
    })
}

// A string that is measured first: its content's own refusals and 12, its kind (refusal 11), its room (refusal 13).
fn put_measured(
    text: &[u8],
    quoted: bool,
    start: usize,
    end: usize,
    target: Target,
    out: &mut [u8],
) -> Result<Done, Refused>
    requires { (start ≤ end) × (end ≤ length text.now) }
    ensures { Puts (string_placed text.now quoted start end (length out.old) target.want target.index.0 target.next target.at)
        out.old target.at result out.new }
{
    let at = target.at;
    let size = snbt_contents::content_length(text, start, end, quoted)?;
    if form::STRING < size {
        return Err(Refused {
            refusal: Refusal::LongString,
            place: target.index.0,
        });
    }
    admitted(&target, kinds::STRING, out.len(), 2 + size)?;
    raw::put_number(out, at, 2, size as u64);
    let used = snbt_contents::put_content(text, start, end, quoted, out, at + 2);
    Ok(Done {
        next: target.next,
        used,
        kind: kinds::STRING,
    })
}

// A string's length and its content: its own refusals (12 among them), its kind (refusal 11), its room (refusal 13).
fn put_string(
    text: &[u8],
    quoted: bool,
    start: usize,
    end: usize,
    target: Target,
    out: &mut [u8],
) -> Result<Done, Refused>
    requires { (start ≤ end) × (end ≤ length text.now) }
    ensures { Puts (string_placed text.now quoted start end (length out.old) target.want target.index.0 target.next target.at)
        out.old target.at result out.new }
{
    if plain::is_plain(92, &text[start..end]) {
        return put_plain(text, start, end, target, out);
    }
    put_measured(text, quoted, start, end, target, out)
}

// A scalar value that begins with a token that was read (rule 15): its own checks (19, 12), then its kind (11), then its room (13).
pub fn scalar(
    text: &[u8],
    data: TokenData,
    next: usize,
    want: u8,
    out: &mut [u8],
    at: usize,
) -> Result<Done, Refused>
    requires { Spanned (data_is «data») (length text.now) }
    ensures { Puts (scalar_value text.now (length out.old) want (data_is «data») next at) out.old at result out.new }
{
    let index = data.index;
    let token = data.token;
    let target = Target {
        index,
        next,
        want,
        at,
    };
    match token {
        Token::Str { quoted, start, end } => put_string(text, quoted, start, end, target, out),
        Token::Byte(v) => put_whole(v, 1, kinds::BYTE, target, out),
        Token::Short(v) => put_whole(v, 2, kinds::SHORT, target, out),
        Token::Int(v) => put_whole(v, 4, kinds::INT, target, out),
        Token::Long(v) => put_whole(v, 8, kinds::LONG, target, out),
        Token::Float(x) => put_bits(
            snbt_floats::single::f32_bits(x) as u64,
            4,
            kinds::FLOAT,
            target,
            out,
        ),
        Token::Double(x) => put_bits(f64::to_bits(x), 8, kinds::DOUBLE, target, out),
        _ => Err(Refused {
            refusal: Refusal::UnexpectedToken,
            place: index.0,
        }),
    }
}
