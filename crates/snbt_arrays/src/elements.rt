// The elements of an array (rule 14): byte, int or long tokens, commas taken anywhere but before the closing brace.
// One turn of the array's loop is `element`; what it writes, it writes at once.
ghost use Rattle.std.specs.Prelude.{◌+◌, ◌≤◌, ◌<◌, ◌^◌, length};
ghost use Rattle.snbt_tokens.specs.Answers.{token_is, data_is, last_is};
ghost use Rattle.snbt_placing.specs.Done.{Wide};
ghost use Rattle.snbt_arrays.specs.Turns.{WholeIs, FittingIs, PutIs, ClosedIs, TurnIs};

use form::refusals::{Refusal, Refused};
use snbt_tokens::{Index, Lexed, Stops, Token, TokenData};

// What one turn finds: a comma, an element that it has written, or the closing brace.
#[derive(Clone, Copy)]
pub enum ElementTurn {
    Comma { index: Index, next: usize },
    Element { next: usize },
    End { next: usize },
}

// A whole number that stands in arrays of `own` bytes as an element of `width` bytes: it is of that width and in its range (refusal 11).
fn fitting(v: i64, own: usize, width: usize) -> Option<i64>
    requires { Wide width }
    ensures { FittingIs own width v result }
{
    if own == width && snbt_placing::in_range(v, width) {
        Some(v)
    } else {
        None
    }
}

// The value of a token as an element of `width` bytes: any other token than byte, int or long is none (refusal 11).
fn element_value(token: Token, width: usize) -> Option<i64>
    requires { Wide width }
    ensures { WholeIs width (token_is token) result }
{
    match token {
        Token::Byte(v) => fitting(v, 1, width),
        Token::Int(v) => fitting(v, 4, width),
        Token::Long(v) => fitting(v, 8, width),
        _ => None,
    }
}

// An element written at `used`: its value (refusal 11), then its room (refusal 13).
fn put_element(
    data: TokenData,
    width: usize,
    next: usize,
    out: &mut [u8],
    used: usize,
) -> Result<ElementTurn, Refused>
    requires { Wide width }
    ensures { PutIs width (data_is «data») next used out.old result out.new }
{
    let place = data.index.0;
    let Some(v) = element_value(data.token, width) else {
        return Err(Refused {
            refusal: Refusal::MixedList,
            place,
        });
    };
    if snbt_placing::has_room(out.len(), used, width) {
        raw::put_signed(out, used, width, v);
        return Ok(ElementTurn::Element { next });
    }
    Err(Refused {
        refusal: Refusal::OutputFull,
        place,
    })
}

// The closing brace at an index: refusal 21 at the comma that stands last, if one does.
fn closed(last: Option<Index>, index: Index) -> Result<ElementTurn, Refused>
    requires { index.0 + 1 < 2 ^ 64 }
    ensures { ClosedIs (last_is last) (index.0 + 1) result }
{
    match last {
        None => Ok(ElementTurn::End { next: index.0 + 1 }),
        Some(comma) => Err(Refused {
            refusal: Refusal::TrailingComma,
            place: comma.0,
        }),
    }
}

// One turn of an array from `place` on, behind the comma that stands last, if one does: a comma, the closing brace (21 behind a comma),
// an element (11, 13), or the text's end (22).
pub fn element(
    text: &[u8],
    width: usize,
    brace: Index,
    last: Option<Index>,
    place: usize,
    out: &mut [u8],
    used: usize,
) -> Result<ElementTurn, Refused>
    requires { (place ≤ length text.now) × Wide width }
    ensures { TurnIs text.now width brace.0 (last_is last) place used out.old result out.new }
{
    let peeked = snbt_lexer::peek_at(text, place);
    let index = peeked.index;
    let b = peeked.byte;
    match b {
        b',' => Ok(ElementTurn::Comma {
            index,
            next: index.0 + 1,
        }),
        b']' => closed(last, index),
        _ => match snbt_lexer::token_at(text, place, Stops::Later)? {
            Lexed::Ended { place: _ } => Err(Refused {
                refusal: Refusal::UnmatchedBrace,
                place: brace.0,
            }),
            Lexed::Found { data, next } => put_element(data, width, next, out, used),
        },
    }
}
