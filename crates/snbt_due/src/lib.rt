// Tokens that are due in a text that was judged (rules 14 and 15): any token, and a comma or a closing brace, known by its character.
#![tactic(auto)]

ghost use Rattle.std.specs.Prelude.{ℕ, ◌≡◌, ◌⊎◌, ◌≤◌, length};
ghost use Rattle.form.specs.Refusals.{number_of};
ghost use Rattle.snbt_tokens.specs.Answers.{stops_is};
ghost use Rattle.snbt_due.specs.Due.{DueIs, AfterIs, TurnsTo};

use form::refusals::{Refusal, Refused};
use snbt_tokens::{Index, Lexed, Stops, TokenData};

// What numbers a refusal: its name, or the bare number, whatever that is.
pub trait Number {
    ghost value: { Self → ℕ };

    fn of(refusal: Refusal) -> Self
        ensures { value result ≡ number_of refusal };
}

impl Number for Refusal {
    ghost value = { number_of };

    fn of(refusal: Refusal) -> Refusal {
        refusal
    }
}

impl Number for u8 {
    ghost value = { λ n. n };

    fn of(refusal: Refusal) -> u8 {
        refusal.number()
    }
}

// A refusal as it is numbered, and its place.
#[derive(Clone, Copy)]
pub struct Told<N> {
    pub number: N,
    pub place: usize,
}

impl From<Told<Refusal>> for Refused {
    ghost from_gives = { TurnsTo };

    // The refusal that has this name.
    fn from(told: Told<Refusal>) -> Refused {
        Refused {
            refusal: told.number,
            place: told.place,
        }
    }
}

// A token that is due, and the place behind it.
#[derive(Clone, Copy)]
pub struct Due {
    pub td: TokenData,
    pub next: usize,
}

// What follows an element or an entry: a comma, or the closing brace.
#[derive(Clone, Copy)]
pub enum After {
    Comma { index: Index, next: usize },
    Close { index: Index, next: usize },
}

// The token that is due at a place; at the text's end refusal `number` at `end`.
pub fn due_at<N: Number + Copy>(
    text: &[u8],
    place: usize,
    set: Stops,
    number: N,
    end: usize,
) -> Result<Due, Told<N>>
    requires { place ≤ length text.now }
    ensures { DueIs N.value text.now (stops_is set) place (N.value number) end result }
{
    match snbt_lexer::token_at(text, place, set) {
        Ok(Lexed::Found { data: td, next }) => Ok(Due { td, next }),
        Ok(Lexed::Ended { place: _ }) => Err(Told { number, place: end }),
        Err(e) => Err(Told {
            number: N::of(e.refusal),
            place: e.place,
        }),
    }
}

// A comma or the closing brace behind an element or an entry, known by its character: only what is refused (19) is read as a token.
pub fn following<N: Number + Copy>(
    text: &[u8],
    place: usize,
    closing: u8,
    number: N,
    end: usize,
) -> Result<After, Told<N>>
    requires { (place ≤ length text.now) × ((closing ≡ 93) ⊎ (closing ≡ 125)) }
    ensures { AfterIs N.value text.now closing place (N.value number) end result }
{
    let peeked = snbt_lexer::peek_at(text, place);
    let b = peeked.byte;
    let index = peeked.index;
    if b == b',' {
        return Ok(After::Comma {
            index,
            next: index.0 + 1,
        });
    }
    if b == closing {
        return Ok(After::Close {
            index,
            next: index.0 + 1,
        });
    }
    due_at(text, place, Stops::Default, number, end)?;
    Err(Told {
        number: N::of(Refusal::UnexpectedToken),
        place: index.0,
    })
}
