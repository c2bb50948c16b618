// Lists up to their elements (rules 14 and 15): what a `[` opens, what stands behind an element, and a list's head in the output.
#![tactic(auto)]

ghost use Rattle.std.specs.Prelude.{◌≡◌, ◌∷◌, ◌+◌, ◌≤◌, length, Ok};
ghost use Rattle.form.specs.Answer.{got};
ghost use Rattle.form.specs.Numbers.{bytes_of};
ghost use Rattle.form.specs.Spans.{over};
ghost use Rattle.form.specs.Tree.{list, nil};
ghost use Rattle.snbt_tokens.specs.Answers.{data_is};
ghost use Rattle.snbt_placing.specs.Done.{Agrees, Spanned};
ghost use Rattle.snbt_lists.specs.Lists.{ElementIs, LetterIs, ListAdmitted, ListedIs, UnmatchedIs, OpenedIs};

use form::kinds;
use form::refusals::{Refusal, Refused};
use snbt_due::After;
use snbt_placing::Done;
use snbt_tokens::{Index, Lexed, Stops, Token, TokenData};

// What stands behind an element of a list: its end, or a comma and the next one's place.
#[derive(Clone, Copy)]
pub enum NextElement {
    End { next: usize },
    Is { next: usize },
}

// What a `[` opens: an array, the empty list, or a list whose first element is due behind it.
#[derive(Clone, Copy)]
pub enum Opened {
    Array { width: u8, next: usize },
    Empty { next: usize },
    First,
}

// What stands behind an element of a list (rule 14).
pub fn element_behind(text: &[u8], place: usize) -> Result<NextElement, Refused>
    requires { place ≤ length text.now }
    ensures { ElementIs text.now place result }
{
    match snbt_due::following(text, place, b']', Refusal::TextEnds, text.len())? {
        After::Comma { index: _, next } => Ok(NextElement::Is { next }),
        After::Close { index: _, next } => Ok(NextElement::End { next }),
    }
}

// The width of the elements of the array that a token announces: an unquoted B, I or L (rule 15). Any other token announces none.
fn letter_of(text: &[u8], td: TokenData) -> Option<u8>
    requires { Spanned (data_is td) (length text.now) }
    ensures { LetterIs text.now (data_is td) result }
{
    let Token::Str { quoted, start, end } = td.token else {
        return None;
    };
    if quoted || end != start + 1 {
        return None;
    }
    match text[start] {
        b'B' => Some(1),
        b'I' => Some(4),
        b'L' => Some(8),
        _ => None,
    }
}

// Whether a list may be opened: 7 where no container is left, 13 where its head has no room.
fn list_admitted(brace: Index, left: usize, room: usize, at: usize) -> Result<(), Refused>
    requires { at ≤ 16777216 }
    ensures { ListAdmitted left room brace.0 at result }
{
    let place = brace.0;
    if left == 0 {
        return Err(Refused {
            refusal: Refusal::TooDeep,
            place,
        });
    }
    if room < at + 5 {
        return Err(Refused {
            refusal: Refusal::OutputFull,
            place,
        });
    }
    Ok(())
}

// A list whose first token was taken: refusals 7 and 13 at its `[`, empty at a `]`, else that token begins its first element.
fn listed(
    td: TokenData,
    next: usize,
    brace: Index,
    left: usize,
    room: usize,
    at: usize,
) -> Result<Opened, Refused>
    requires { at ≤ 16777216 }
    ensures { ListedIs room left brace.0 (data_is td) next at result }
{
    list_admitted(brace, left, room, at)?;
    match td.token {
        Token::ClosedSquare => Ok(Opened::Empty { next }),
        _ => Ok(Opened::First),
    }
}

// A list whose text ends behind the `[`: refusals 7 and 13 there, else 22.
fn unmatched(brace: Index, left: usize, room: usize, at: usize) -> Result<Opened, Refused>
    requires { at ≤ 16777216 }
    ensures { UnmatchedIs room left brace.0 at result }
{
    list_admitted(brace, left, room, at)?;
    Err(Refused {
        refusal: Refusal::UnmatchedBrace,
        place: brace.0,
    })
}

// What a `[` opens: its next token is taken, after an unquoted B, I or L a second one, and then it is an array or a list.
#[inline(always)]
pub fn opened_at(
    text: &[u8],
    place: usize,
    brace: Index,
    left: usize,
    room: usize,
    at: usize,
) -> Result<Opened, Refused>
    requires { (place ≤ length text.now) × (at ≤ 16777216) }
    ensures { OpenedIs text.now room left brace.0 place at result }
{
    let Lexed::Found { data: td, next } = snbt_lexer::token_at(text, place, Stops::First)? else {
        return unmatched(brace, left, room, at);
    };
    let Some(width) = letter_of(text, td) else {
        return listed(td, next, brace, left, room, at);
    };
    match snbt_lexer::token_at(text, next, Stops::Default)? {
        Lexed::Ended { place: _ } => listed(td, next, brace, left, room, at),
        Lexed::Found { data: d, next: m } => match d.token {
            Token::Semicolon => Ok(Opened::Array { width, next: m }),
            _ => listed(td, next, brace, left, room, at),
        },
    }
}

// A list's head: its elements' kind and their number.
pub fn put_head(out: &mut [u8], at: usize, kind: u8, count: usize)
    requires { at + 5 ≤ length out.old }
    ensures { out.new ≡ over out.old at (kind ∷ bytes_of 4 count) }
{
    out[at] = kind;
    raw::put_number(out, at + 1, 4, count as u64);
}

// The empty list: five zero bytes.
pub fn put_empty(out: &mut [u8], at: usize, next: usize) -> Done
    requires { at + 5 ≤ length out.old }
    ensures agrees { Agrees (got (record { tag = list nil; next = next; used = at + 5 })) out.old at (Ok result) out.new }
    ensures moves { (result.next ≡ next) × (result.used ≡ at + 5) × (result.kind ≡ 9) }
{
    put_head(out, at, kinds::END, 0);
    Done {
        next,
        used: at + 5,
        kind: kinds::LIST,
    }
}
