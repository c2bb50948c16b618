// Quoted tokens (rule 12): where one ends, and its width.
// A run of plain bytes is passed at once; what is not plain goes character by character.
#![tactic(auto)]

pub mod escapes;

ghost use Rattle.std.specs.Prelude.{◌≡◌, ◌<◌, length};
ghost use Rattle.form.specs.Answer.{quote_open};
ghost use Rattle.form.specs.Refusals.{number_of};
ghost use Rattle.snbt_form.specs.Lexing.{quoted};
ghost use Rattle.snbt_quotes.specs.Answers.{quoted_out};

use crate::escapes::escape_at;
use form::refusals::{Refusal, Refused};
use snbt_tokens::{Width, wider};

// Where a quoted content ends, and the token's width.
#[derive(Clone, Copy)]
pub struct Closed {
    pub end: usize,
    pub width: Width,
}

// A quote that stays open: refusal 16, at the token.
fn left_open(start: usize) -> Refused
    ensures { (number_of result.refusal ≡ quote_open) × (result.place ≡ start) }
{
    Refused {
        refusal: Refusal::QuoteOpen,
        place: start,
    }
}

// The quoted token whose quote stands at a place (rule 12): refusal 16 where it stays open, and those of its escapes: 17, 19, 20.
pub fn quoted_at(text: &[u8], start: usize) -> Result<Closed, Refused>
    requires { start < length text.now }
    ensures { quoted_out result ≡ quoted text.now start }
{
    let q = text[start];
    let mut i = start + 1;
    let mut width = Width(1);
    // A `while`: the next turn begins where a run, an escape or a character ends.
    while i < text.len() {
        let end = plain::plain_end(92, q, text, i, text.len());
        width = wider(width, end - i);
        i = end;
        if i == text.len() {
            continue;
        }
        let b = text[i];
        if b == q {
            width = wider(width, 1);
            return Ok(Closed { end, width });
        }
        if b == b'\\' {
            let escape = escape_at(text, i, text.len())?.ok_or(left_open(start))?;
            i += escape.size;
            width = wider(width, escape.size);
            continue;
        }
        width = wider(width, snbt_text::begins(b));
        i += 1;
    }
    Err(left_open(start))
}
