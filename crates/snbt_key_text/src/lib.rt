// A key's content into a lent buffer (rule 15): a string token (19) of at most 65,535 bytes (12).
#![tactic(auto)]

ghost use Rattle.std.specs.Prelude.{ℕ, ◌≤◌, length};
ghost use Rattle.snbt_form.specs.Text.{string_of, key_of};
ghost use Rattle.snbt_tokens.specs.Answers.{data_is};
ghost use Rattle.snbt_placing.specs.Done.{Spanned};
ghost use Rattle.snbt_key_text.specs.Keys.{KeyRoom, KeyAgrees};

use form::refusals::{Refusal, Refused};
use snbt_tokens::{Index, Token, TokenData};

// A string token's content at the buffer's start, measured first: its own refusals, 12 among them. Answers how many bytes it takes.
fn key_measured(
    text: &[u8],
    quoted: bool,
    start: usize,
    end: usize,
    index: Index,
    buffer: &mut [u8],
) -> Result<usize, Refused>
    requires { (start ≤ end) × (end ≤ length text.now) × KeyRoom (length text.now) (length buffer.old) }
    ensures { (room : ℕ) → KeyAgrees (string_of text.now room quoted start end index.0) buffer.old result buffer.new }
{
    let size = snbt_contents::content_length(text, start, end, quoted)?;
    if form::STRING < size {
        return Err(Refused {
            refusal: Refusal::LongString,
            place: index.0,
        });
    }
    Ok(snbt_contents::put_content(text, start, end, quoted, buffer, 0))
}

// A string token's content at the buffer's start: its own refusals, 12 among them. One that is its own content is copied.
fn put_key(
    text: &[u8],
    quoted: bool,
    start: usize,
    end: usize,
    index: Index,
    buffer: &mut [u8],
) -> Result<usize, Refused>
    requires { (start ≤ end) × (end ≤ length text.now) × KeyRoom (length text.now) (length buffer.old) }
    ensures { (room : ℕ) → KeyAgrees (string_of text.now room quoted start end index.0) buffer.old result buffer.new }
{
    if plain::is_plain(92, &text[start..end]) {
        let size = end - start;
        slices::copy(text, start, size, buffer, 0);
        return Ok(size);
    }
    key_measured(text, quoted, start, end, index, buffer)
}

// A key's content into a lent buffer (rule 15): a string token (19) of at most 65,535 bytes (12).
pub fn take_key(text: &[u8], data: TokenData, buffer: &mut [u8]) -> Result<usize, Refused>
    requires { Spanned (data_is «data») (length text.now) × KeyRoom (length text.now) (length buffer.old) }
    ensures { (room : ℕ) → KeyAgrees (key_of text.now room (data_is «data»).token (data_is «data»).index) buffer.old result buffer.new }
{
    let index = data.index;
    let Token::Str { quoted, start, end } = data.token else {
        return Err(Refused {
            refusal: Refusal::UnexpectedToken,
            place: index.0,
        });
    };
    put_key(text, quoted, start, end, index, buffer)
}
