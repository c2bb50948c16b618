// What a string token's content is in rule 2's form: its length, and its bytes in an output (rule 12).
// A run of plain bytes is taken at once; what is not plain goes character by character.
#![tactic(auto)]

ghost use Rattle.std.specs.Prelude.{◌≡◌, ◌&&◌, ◌+◌, ◌-◌, ◌≤◌, ◌<◌, eqb, length};
ghost use Rattle.form.specs.Spans.{part, over};
ghost use Rattle.form.specs.Strings.{scalar_bytes};
ghost use Rattle.form.specs.Decoding.{utf8_of};
ghost use Rattle.form.specs.Writing.{length_of, Gives};
ghost use Rattle.snbt_form.specs.Lexing.{escape_of, escaped, character_of, front_of, content_of, content as single};
ghost use Rattle.snbt_contents.specs.Answers.{decoded_out, content_out};
ghost use Rattle.snbt_contents.specs.Puts.{Ready, PutIs, fitted};

use chars::Character;
use form::refusals::{Refusal, Refused};
use snbt_quotes::escapes::escape_at;

// An escape as the front of a content: one that the content's end cuts is none, refusal 17 (rule 12).
fn escaped_at(text: &[u8], at: usize, end: usize) -> Result<Character, Refused>
    requires { (at < end) × (end ≤ length text.now) }
    ensures { decoded_out result ≡ escaped (escape_of (part text.now (at + 1) (end - (at + 1))) at) at }
{
    escape_at(text, at, end)?.ok_or(Refused {
        refusal: Refusal::UnknownEscape,
        place: at,
    })
}

// A character as the front of a content, in the bytes before an end.
fn written_at(text: &[u8], at: usize, end: usize) -> Result<Character, Refused>
    requires { (at < end) × (end ≤ length text.now) }
    ensures { decoded_out result ≡ character_of (utf8_of (part text.now at (end - at))) }
{
    chars::utf8_at(&text[..end], at).ok_or(Refused {
        refusal: Refusal::BadText,
        place: 0,
    })
}

// Whether a byte begins an escape: a backslash within quotes (rule 12).
fn opens_escape(quoted: bool, b: u8) -> bool
    ensures { result ≡ (quoted && eqb b 92) }
{
    quoted && b == b'\\'
}

// What a content begins with at a place: an escape or a character (rule 12).
fn front_at(text: &[u8], at: usize, end: usize, quoted: bool) -> Result<Character, Refused>
    requires { (at < end) × (end ≤ length text.now) }
    ensures { decoded_out result ≡ front_of quoted (part text.now at (end - at)) at }
{
    if opens_escape(quoted, text[at]) {
        return escaped_at(text, at, end);
    }
    written_at(text, at, end)
}

// The length of a string token's content in rule 2's form, or an escape's refusal (rule 12).
pub fn content_length(text: &[u8], start: usize, end: usize, quoted: bool) -> Result<usize, Refused>
    requires { (start ≤ end) × (end ≤ length text.now) }
    ensures { content_out result ≡ length_of (content_of text.now quoted start end) }
{
    let mut i = start;
    let mut n: usize = 0;
    // A `while`: the next turn begins where a run, an escape or a character ends.
    while i < end {
        let j = plain::plain_end(92, 92, text, i, end);
        n += j - i;
        i = j;
        if i == end {
            continue;
        }
        let front = front_at(text, i, end, quoted)?;
        n += chars::length_of(front.value);
        i += front.size;
    }
    Ok(n)
}

// A scalar value in rule 2's form, at a place of the output that has room for it; the place behind it.
fn put_value(c: u32, out: &mut [u8], at: usize) -> usize
    requires { (c < 1114112) × (at + length (scalar_bytes c) ≤ length out.old) }
    ensures { (result ≡ at + length (scalar_bytes c)) × (out.new ≡ over out.old at (scalar_bytes c)) }
{
    chars::put_scalar(c, out, at).unwrap_or(at)
}

// A string token's content in rule 2's form, at a place of the output that has room for it; the place behind it (rule 12).
pub fn put_content(
    text: &[u8],
    start: usize,
    end: usize,
    quoted: bool,
    out: &mut [u8],
    at: usize,
) -> usize
    requires { Ready text.now quoted start end out.old at }
    ensures { PutIs (content_of text.now quoted start end) out.old at result out.new }
{
    let mut i = start;
    let mut to = at;
    // A `while`, as in `content_length`.
    while i < end {
        let j = plain::plain_end(92, 92, text, i, end);
        slices::copy(text, i, j - i, out, to);
        to += j - i;
        i = j;
        if i == end {
            continue;
        }
        let Ok(front) = front_at(text, i, end, quoted) else {
            return to;
        };
        to = put_value(front.value, out, to);
        i += front.size;
    }
    to
}

// A content into the output from 0 on, or refusal 13 where there is no room for it.
fn put_fitted(
    text: &[u8],
    start: usize,
    end: usize,
    quoted: bool,
    out: &mut [u8],
) -> Result<usize, Refused>
    requires { (start ≤ end) × (end ≤ length text.now) }
    ensures { Gives (fitted (content_of text.now quoted start end) (length out.old)) out.old (content_out result) out.new }
{
    let bytes = content_length(text, start, end, quoted)?;
    if out.len() < bytes {
        return Err(Refused {
            refusal: Refusal::OutputFull,
            place: 0,
        });
    }
    put_content(text, start, end, quoted, out, 0);
    Ok(bytes)
}

// A single content (rule 12): refusal 9, then 15, then an escape's, then 13.
pub fn content(
    text: &[u8],
    start: usize,
    end: usize,
    quoted: bool,
    out: &mut [u8],
) -> Result<usize, Refused>
    ensures { Gives (single text.now start end quoted (length out.old)) out.old (content_out result) out.new }
{
    if let Err(refusal) = snbt_text::judged_text(text) {
        return Err(Refused { refusal, place: 0 });
    }
    if snbt_text::in_order(text, start, end) {
        return put_fitted(text, start, end, quoted, out);
    }
    Err(Refused {
        refusal: Refusal::BadText,
        place: 0,
    })
}
