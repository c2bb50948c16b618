// Rules 10 and 11: the token at a place of a text. A caller that has judged the text asks `token_at`; `token` judges it first.
// Numbers are the crate numbers' (rule 13), quoted tokens the crate quotes' (rule 12).
#![tactic(auto)]

pub mod characters;
pub mod words;

ghost use Rattle.std.specs.Prelude.{◌≡◌, ◌+◌, ◌≤◌, ◌<◌, ◌^◌, ◌||◌, eqb, length};
ghost use Rattle.snbt_form.specs.Numbers.{is_digit};
ghost use Rattle.snbt_form.specs.Lexing.{numeral, made, unquoted_at, quoted_at, token_by, token_at, lexed};
ghost use Rattle.snbt_numbers.specs.Answers.{number_is};
ghost use Rattle.snbt_tokens.specs.Answers.{token_is, lexed_is, lexed_out, stops_is};
ghost use Rattle.snbt_lexer.specs.Answers.{PeekedIs};

use form::refusals::{Refusal, Refused};
use snbt_numbers::Number;
use snbt_tokens::{Index, Lexed, Stops, Token, TokenData, Width};

// The byte that the next token begins with, and that token's index.
#[derive(Drop)]
pub struct Peeked {
    pub byte: u8,
    pub index: Index,
}

// A token with its index and its width, and the next place (rule 10).
fn found(token: Token, index: Index, char_width: Width, next: usize) -> Lexed
    ensures { lexed_is result ≡ made (token_is token) index.0 char_width.0 next }
{
    Lexed::Found {
        data: TokenData {
            token,
            index,
            char_width,
        },
        next,
    }
}

// A sign: a token of one character at an index (rule 10).
fn sign(token: Token, index: Index) -> Lexed
    requires { index.0 + 1 < 2 ^ 64 }
    ensures { lexed_is result ≡ made (token_is token) index.0 1 (index.0 + 1) }
{
    found(token, index, Width(1), index.0 + 1)
}

// A number's token (rule 13).
fn numeral_of(n: Number) -> Token
    ensures { token_is result ≡ numeral (number_is n) }
{
    match n {
        Number::Byte(z) => Token::Byte(z),
        Number::Short(z) => Token::Short(z),
        Number::Int(z) => Token::Int(z),
        Number::Long(z) => Token::Long(z),
        Number::Float(x) => Token::Float(x),
        Number::Double(x) => Token::Double(x),
    }
}

// Whether a byte begins a number: a minus or a digit (rule 13).
fn opens_number(b: u8) -> bool
    ensures { result ≡ (eqb b 45 || is_digit b) }
{
    matches!(b, b'-' | b'0'..=b'9')
}

// The unquoted token at i: a number or a string (rules 11 and 13).
fn unquoted_at(text: &[u8], i: usize, set: Stops) -> Result<Lexed, Refused>
    requires { i < length text.now }
    ensures { lexed_out result ≡ unquoted_at (stops_is set) text.now i }
{
    let w = words::word_at(text, i, set);
    let end = w.end;
    let width = w.width;
    if opens_number(text[i]) {
        let token = numeral_of(snbt_numbers::number_at(text, i, end)?);
        return Ok(found(token, Index(i), width, w.next));
    }
    let token = Token::Str {
        quoted: false,
        start: i,
        end,
    };
    Ok(found(token, Index(i), width, w.next))
}

// The quoted token at i, its content between the quotes (rule 12).
fn quoted_found(text: &[u8], i: usize) -> Result<Lexed, Refused>
    requires { i < length text.now }
    ensures { lexed_out result ≡ quoted_at text.now i }
{
    let q = snbt_quotes::quoted_at(text, i)?;
    let token = Token::Str {
        quoted: true,
        start: i + 1,
        end: q.end,
    };
    Ok(found(token, Index(i), q.width, q.end + 1))
}

// The token at i, which is not blank, by its first byte (rule 10).
fn token_by(text: &[u8], i: usize, set: Stops, b: u8) -> Result<Lexed, Refused>
    requires { i < length text.now }
    ensures { lexed_out result ≡ token_by (stops_is set) text.now i b }
{
    match b {
        b',' => Ok(sign(Token::Comma, Index(i))),
        b':' => Ok(sign(Token::Colon, Index(i))),
        b';' => Ok(sign(Token::Semicolon, Index(i))),
        b'[' => Ok(sign(Token::OpenSquare, Index(i))),
        b']' => Ok(sign(Token::ClosedSquare, Index(i))),
        b'{' => Ok(sign(Token::OpenCurly, Index(i))),
        b'}' => Ok(sign(Token::ClosedCurly, Index(i))),
        b'"' | b'\'' => quoted_found(text, i),
        _ => unquoted_at(text, i, set),
    }
}

// The first byte from a place on that is not blank, and its place: a sign's where the next token is that sign (rule 10). 0 at the end.
pub fn peek_at(text: &[u8], start: usize) -> Peeked
    ensures { PeekedIs text.now start result }
{
    let place = characters::skip_blank(text, start);
    let index = Index(place);
    if place < text.len() {
        return Peeked {
            byte: text[place],
            index,
        };
    }
    Peeked { byte: 0, index }
}

// The next token from a place on, or the end, in a text that was judged (rules 10 to 13): the parser asks this.
pub fn token_at(text: &[u8], start: usize, set: Stops) -> Result<Lexed, Refused>
    requires { start ≤ length text.now }
    ensures { lexed_out result ≡ token_at (stops_is set) text.now start }
{
    let i = characters::skip_blank(text, start);
    if text.len() <= i {
        return Ok(Lexed::Ended { place: text.len() });
    }
    token_by(text, i, set, text[i])
}

// The next token of a text and a place that nobody has judged: 9, then 15, then the token, its refusal or the end (rule 10).
pub fn token(text: &[u8], start: usize, set: Stops) -> Result<Lexed, Refused>
    ensures { lexed_out result ≡ lexed text.now start (stops_is set) }
{
    if let Err(refusal) = snbt_text::judged_text(text) {
        return Err(Refused { refusal, place: 0 });
    }
    if snbt_text::on_character(text, start) {
        return token_at(text, start, set);
    }
    Err(Refused {
        refusal: Refusal::BadText,
        place: 0,
    })
}
