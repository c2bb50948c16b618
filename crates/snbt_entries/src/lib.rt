// Entries of a compound around their values (rule 15): keys, the colon behind them, what follows a value, and the compound's end.
// A key's bytes go through a lent buffer, and its place in the output stands among the keys of the open compounds.
#![tactic(auto)]

ghost use Rattle.std.specs.Prelude.{◌≡◌, [], ◌∷◌, ℕ, ◌+◌, ◌≤◌, length, take};
ghost use Rattle.form.specs.Spans.{over};
ghost use Rattle.form.specs.Layout.{string_bytes};
ghost use Rattle.snbt_tokens.specs.Answers.{data_is, last_is};
ghost use Rattle.snbt_keys.specs.Keys.{Kept, Comes, Added};
ghost use Rattle.snbt_key_text.specs.Keys.{KeyRoom};
ghost use Rattle.snbt_due.specs.Due.{Met};
ghost use Rattle.snbt_entries.specs.Words.{word_data, Worded, WordedIs};
ghost use Rattle.snbt_entries.specs.Entries.{ColonIs, NamedIs, EndedIs, KeyedIs, SettledIs, CloseIs};

use form::kinds;
use form::refusals::{Refusal, Refused};
use snbt_due::After;
use snbt_placing::Done;
use snbt_tokens::{Index, Stops, Token, TokenData};

// A compound that is open: the index of its `{`, and how many of the keys are those of the compounds around it.
#[derive(Clone, Copy)]
pub struct Block {
    pub brace: Index,
    pub base: usize,
}

// What stands where a key is due: the `}`; or a key's length and its index among the keys, with the place behind its `:`.
#[derive(Clone, Copy)]
pub enum Key {
    End {
        index: Index,
        next: usize,
    },
    Is {
        size: usize,
        spot: usize,
        next: usize,
    },
}

// A turn of a compound: an entry and its comma; the last entry or none, and the `}`.
#[derive(Clone, Copy)]
pub enum EntryTurn {
    More {
        comma: Index,
        next: usize,
        used: usize,
    },
    Last {
        index: Index,
        next: usize,
        used: usize,
    },
}

// The place behind the `:` of a key, known by its character; any other token is refusal 19.
fn behind_key(text: &[u8], place: usize, brace: Index) -> Result<usize, Refused>
    requires { place ≤ length text.now }
    ensures { ColonIs text.now brace.0 place result }
{
    let peeked = snbt_lexer::peek_at(text, place);
    let index = peeked.index;
    if peeked.byte == b':' {
        return Ok(index.0 + 1);
    }
    snbt_due::due_at(
        text,
        place,
        Stops::Default,
        Refusal::UnmatchedBrace,
        brace.0,
    )?;
    Err(Refused {
        refusal: Refusal::UnexpectedToken,
        place: index.0,
    })
}

// An entry up to its value: the key (19, 12), whether it is there already (6), the `:`.
fn named(
    text: &[u8],
    td: TokenData,
    next: usize,
    block: Block,
    out: &[u8],
    keys: &[u32],
    top: usize,
    buffer: &mut [u8],
) -> Result<Key, Refused>
    requires { (Met text.now (data_is td) next) × (Kept out.now keys.now block.base top (length out.now)) × (KeyRoom (length text.now) (length buffer.old)) }
    ensures { NamedIs text.now (data_is td) next block.brace.0 out.now keys.now block.base top buffer.new result }
{
    let place = td.index.0;
    let size = snbt_key_text::take_key(text, td, buffer)?;
    let Some(spot) = snbt_keys::spot_of(out, keys, block.base, top, buffer, size) else {
        return Err(Refused {
            refusal: Refusal::NameTwice,
            place,
        });
    };
    let behind = behind_key(text, next, block.brace)?;
    Ok(Key::Is {
        size,
        spot,
        next: behind,
    })
}

// The `}` where a key is due: refusal 21 at the comma that stands last, if one does.
fn ended(last: Option<Index>, index: Index, next: usize) -> Result<Key, Refused>
    ensures { EndedIs (last_is last) index.0 next result }
{
    match last {
        None => Ok(Key::End { index, next }),
        Some(comma) => Err(Refused {
            refusal: Refusal::TrailingComma,
            place: comma.0,
        }),
    }
}

// Where any key is due: the `}` (21 behind a comma), or an entry up to its value.
fn any_key(
    text: &[u8],
    place: usize,
    last: Option<Index>,
    block: Block,
    out: &[u8],
    keys: &[u32],
    top: usize,
    buffer: &mut [u8],
) -> Result<Key, Refused>
    requires { (place ≤ length text.now) × (Kept out.now keys.now block.base top (length out.now)) × (KeyRoom (length text.now) (length buffer.old)) }
    ensures { KeyedIs text.now block.brace.0 (last_is last) place out.now keys.now block.base top buffer.new result }
{
    let brace = block.brace;
    let due = snbt_due::due_at(text, place, Stops::Key, Refusal::UnmatchedBrace, brace.0)?;
    let td = due.td;
    match td.token {
        Token::ClosedCurly => ended(last, td.index, due.next),
        _ => named(text, td, due.next, block, out, keys, top, buffer),
    }
}

// The usual key of a text: a word of ordinary characters, no number, with its colon right behind it, and not longer than 65,535 bytes (12).
fn word_key(text: &[u8], i: usize) -> Option<usize>
    ensures { WordedIs text.now i result }
{
    if text.len() <= i || text[i] < 60 {
        return None;
    }
    let end = snbt_lexer::characters::run_end(text, i);
    if text.len() <= end || text[end] != b':' || form::STRING < end - i {
        return None;
    }
    Some(end)
}

// An entry with such a key from i up to j, up to its value, without a token for the key: whether it is there already (6).
fn worded(
    text: &[u8],
    i: usize,
    j: usize,
    out: &[u8],
    keys: &[u32],
    base: usize,
    top: usize,
    buffer: &mut [u8],
) -> Result<Key, Refused>
    requires { (Worded text.now i j) × (Kept out.now keys.now base top (length out.now)) × (KeyRoom (length text.now) (length buffer.old)) }
    ensures { (brace : ℕ) → NamedIs text.now (word_data i j) j brace out.now keys.now base top buffer.new result }
{
    let size = j - i;
    slices::copy(text, i, size, buffer, 0);
    let Some(spot) = snbt_keys::spot_of(out, keys, base, top, buffer, size) else {
        return Err(Refused {
            refusal: Refusal::NameTwice,
            place: i,
        });
    };
    Ok(Key::Is {
        size,
        spot,
        next: j + 1,
    })
}

// Where a key is due: the usual key by itself, since most are such, any other by its token.
pub fn key_at(
    text: &[u8],
    place: usize,
    last: Option<Index>,
    block: Block,
    out: &[u8],
    keys: &[u32],
    top: usize,
    buffer: &mut [u8],
) -> Result<Key, Refused>
    requires { (place ≤ length text.now) × (Kept out.now keys.now block.base top (length out.now)) × (KeyRoom (length text.now) (length buffer.old)) }
    ensures { KeyedIs text.now block.brace.0 (last_is last) place out.now keys.now block.base top buffer.new result }
{
    let i = snbt_lexer::characters::skip_blank(text, place);
    match word_key(text, i) {
        Some(end) => worded(text, i, end, out, keys, block.base, top, buffer),
        None => any_key(text, place, last, block, out, keys, top, buffer),
    }
}

// A name and its length, where there is room for them: where there is none, the value behind them is refused with 13 or before it.
pub fn put_name(out: &mut [u8], at: usize, buffer: &[u8], size: usize)
    requires { (size ≤ length buffer.now) × (size ≤ 65535) × (at ≤ 16777217) }
    ensures { at + 2 + size ≤ length out.old → out.new ≡ over out.old at (string_bytes (take size buffer.now)) }
{
    if out.len() < at + 2 + size {
        return;
    }
    raw::put_number(out, at, 2, size as u64);
    slices::copy(buffer, 0, size, out, at + 2);
}

// An entry whose value was read: its id, its key among the keys, and what follows it.
pub fn settle(
    text: &[u8],
    place: usize,
    used: usize,
    kind: u8,
    block: Block,
    out: &mut [u8],
    at: usize,
    keys: &mut [u32],
    top: usize,
    spot: usize,
) -> Result<EntryTurn, Refused>
    requires { (place ≤ length text.now) × (at + 1 ≤ length out.old) × (at ≤ 16777216) × (Comes (over out.old at (kind ∷ [])) keys.old block.base top spot (at + 1)) }
    ensures is { SettledIs text.now place used block.brace.0 result }
    ensures wrote { out.new ≡ over out.old at (kind ∷ []) }
    ensures put { Added out.new keys.old block.base top (at + 1) keys.new }
{
    out[at] = kind;
    snbt_keys::add(out, keys, block.base, top, spot, (at + 1) as u32);
    match snbt_due::following(text, place, b'}', Refusal::UnmatchedBrace, block.brace.0)? {
        After::Comma { index, next } => Ok(EntryTurn::More {
            comma: index,
            next,
            used,
        }),
        After::Close { index, next } => Ok(EntryTurn::Last { index, next, used }),
    }
}

// The end byte of a compound, counted at its `}` (13).
pub fn close(out: &mut [u8], index: Index, next: usize, used: usize) -> Result<Done, Refused>
    requires { used ≤ 16777216 }
    ensures { CloseIs out.old index.0 next used result out.new }
{
    if out.len() < used + 1 {
        return Err(Refused {
            refusal: Refusal::OutputFull,
            place: index.0,
        });
    }
    out[used] = kinds::END;
    Ok(Done {
        next,
        used: used + 1,
        kind: kinds::COMPOUND,
    })
}
