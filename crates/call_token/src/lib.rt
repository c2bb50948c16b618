// A token under the promise of its C name: it fills eight words that the caller lends (include/tikfazrul.h).
#![tactic(auto)]

ghost use Rattle.std.specs.Prelude.{◌≡◌};
ghost use Rattle.snbt_tokens.specs.Answers.{token_is, stops_is};
ghost use Rattle.snbt_tokens.specs.Quiet.{Quiet};
ghost use Rattle.calls.specs.Words.{token_kind, carried_first, carried_second, stops_of};
ghost use Rattle.calls.specs.Calls.{TokenCalled};

use snbt_tokens::{Lexed, Stops, Token};

// The number of a token in an answer.
fn token_kind(token: Token) -> u64
    ensures { result ≡ token_kind (token_is token) }
{
    match token {
        Token::OpenCurly => 1,
        Token::ClosedCurly => 2,
        Token::OpenSquare => 3,
        Token::ClosedSquare => 4,
        Token::Comma => 5,
        Token::Colon => 6,
        Token::Semicolon => 7,
        Token::Str {
            quoted,
            start: _,
            end: _,
        } => { if quoted { 9 } else { 8 } }
        Token::Byte(_) => 10,
        Token::Short(_) => 11,
        Token::Int(_) => 12,
        Token::Long(_) => 13,
        Token::Float(_) => 14,
        Token::Double(_) => 15,
    }
}

// What a token carries: its content's start, or the 64 bits of its number.
fn carried_first(token: Token) -> u64
    requires { Quiet token }
    ensures { result ≡ carried_first (token_is token) }
{
    match token {
        Token::OpenCurly => 0,
        Token::ClosedCurly => 0,
        Token::OpenSquare => 0,
        Token::ClosedSquare => 0,
        Token::Comma => 0,
        Token::Colon => 0,
        Token::Semicolon => 0,
        Token::Str {
            quoted: _,
            start,
            end: _,
        } => start as u64,
        Token::Byte(z) => raw::bits_of(z),
        Token::Short(z) => raw::bits_of(z),
        Token::Int(z) => raw::bits_of(z),
        Token::Long(z) => raw::bits_of(z),
        Token::Float(x) => f64::to_bits(x),
        Token::Double(x) => f64::to_bits(x),
    }
}

// Its content's end.
fn carried_second(token: Token) -> u64
    ensures { result ≡ carried_second (token_is token) }
{
    match token {
        Token::Str {
            quoted: _,
            start: _,
            end,
        } => end as u64,
        _ => 0,
    }
}

// The stop set of a number.
fn stops_of(n: u32) -> Stops
    ensures { stops_is result ≡ stops_of n }
{
    match n {
        1 => Stops::Key,
        2 => Stops::Value,
        3 => Stops::First,
        4 => Stops::Later,
        _ => Stops::Default,
    }
}

// The next token of a text from a start on (rules 10 to 13).
pub fn token(text: &[u8], start: usize, stops: u32, answer: &mut [u64; 8])
    ensures { TokenCalled text.now start stops answer.new }
{
    *answer = match snbt_lexer::token(text, start, stops_of(stops)) {
        Ok(Lexed::Found { data, next }) => [
            0,
            0,
            token_kind(data.token),
            data.index.0 as u64,
            data.char_width.0 as u64,
            next as u64,
            carried_first(data.token),
            carried_second(data.token),
        ],
        Ok(Lexed::Ended { place }) => [0, 0, 0, 0, 0, place as u64, 0, 0],
        Err(e) => call_words::refusal(e.refusal, e.place),
    };
}
