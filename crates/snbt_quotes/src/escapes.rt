// Escapes (rule 12): what a backslash begins.
ghost use Rattle.std.specs.Prelude.{◌≡◌, [], ◌∷◌, ◌+◌, ◌-◌, ◌≤◌, ◌<◌, length};
ghost use Rattle.form.specs.Spans.{part};
ghost use Rattle.snbt_form.specs.Lexing.{hex_of, hexes, unicode, escape_of};
ghost use Rattle.snbt_quotes.specs.Answers.{hex_out, escape_is};

use chars::Character;
use form::refusals::{Refusal, Refused};

// A hexadecimal digit of either case, and 16 for any other byte (rule 12).
#[tactic(auto, unfolding(snbt_form::specs::Lexing::hex_of))]
fn hex(b: u8) -> u8
    ensures { result ≡ hex_of b }
{
    match b {
        b'0'..=b'9' => b - b'0',
        b'A'..=b'F' => b - b'A' + 10,
        b'a'..=b'f' => b - b'a' + 10,
        _ => 16,
    }
}

// Four hexadecimal digits from a place on; 20 where the bytes end among them, 19 at any other byte (rule 12).
fn hexes_at(text: &[u8], at: usize, end: usize) -> Result<u32, Refused>
    requires { (at ≤ end) × (end ≤ length text.now) }
    ensures { hex_out result ≡ hexes 4 0 (part text.now at (end - at)) at }
{
    let mut v: u32 = 0;
    for i in at..at + 4 {
        if end <= i {
            return Err(Refused {
                refusal: Refusal::TextEnds,
                place: i,
            });
        }
        let h = hex(text[i]);
        if 16 <= h {
            return Err(Refused {
                refusal: Refusal::UnexpectedToken,
                place: i,
            });
        }
        v = v * 16 + h as u32;
    }
    Ok(v)
}

// `\uXXXX` with its backslash at a place: a surrogate is no scalar value, refusal 17.
fn unicode_at(text: &[u8], at: usize, end: usize) -> Result<Option<Character>, Refused>
    requires { (at + 2 ≤ end) × (end ≤ length text.now) }
    ensures { escape_is result ≡ unicode (hexes 4 0 (part text.now (at + 2) (end - (at + 2))) (at + 2)) at }
{
    let v = hexes_at(text, at + 2, end)?;
    if 0xD800 <= v && v < 0xE000 {
        return Err(Refused {
            refusal: Refusal::UnknownEscape,
            place: at,
        });
    }
    Ok(Some(Character { value: v, size: 6 }))
}

// The escapes of one letter, which take two bytes, with their backslash at a place; any other letter is refusal 17 (rule 12).
#[tactic(auto, unfolding(snbt_form::specs::Lexing::escape_of, snbt_form::specs::Lexing::among))]
fn letter(b: u8, at: usize) -> Result<Option<Character>, Refused>
    requires { b ≡ 117 → ⊥ }
    ensures { escape_is result ≡ escape_of (b ∷ []) at }
{
    let value = match b {
        b'"' | b'\'' | b'\\' => u32::from(b),
        b'n' => 10,
        b'r' => 13,
        b't' => 9,
        _ => {
            return Err(Refused {
                refusal: Refusal::UnknownEscape,
                place: at,
            });
        }
    };
    Ok(Some(Character { value, size: 2 }))
}

// The escape whose backslash stands at a place, in the bytes before an end (rule 12): its scalar value and its bytes, or none where they
// end behind the backslash.
pub fn escape_at(text: &[u8], at: usize, end: usize) -> Result<Option<Character>, Refused>
    requires { (at < end) × (end ≤ length text.now) }
    ensures { escape_is result ≡ escape_of (part text.now (at + 1) (end - (at + 1))) at }
{
    if end <= at + 1 {
        return Ok(None);
    }
    let b = text[at + 1];
    if b == b'u' {
        return unicode_at(text, at, end);
    }
    letter(b, at)
}
