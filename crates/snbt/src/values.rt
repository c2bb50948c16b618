// The cycle of rules 14 and 15: values, lists and compounds call each other, and the containers that may still be opened, from 512,
// become one fewer at each opening brace. The names are those of snbt.rs in the crate.
ghost use Rattle.std.specs.Prelude.{◌≡◌, ◌+◌, ◌*◌, ◌≤◌, length, Ok};
ghost use Rattle.snbt_tokens.specs.Answers.{stops_is, last_is};
ghost use Rattle.snbt_keys.specs.Keys.{Kept};
ghost use Rattle.snbt.specs.Turns.{Ready};
ghost use Rattle.snbt.specs.Steps.{ParsedValue, ParsedList, ParsedElements, ParsedCompound, ParsedEntries, ParsedEntry, held_done};

use form::kinds;
use form::refusals::{Refusal, Refused};
use snbt_arrays::parse_prim_list;
use snbt_entries::{Block, EntryTurn, Key};
use snbt_lists::{NextElement, Opened};
use snbt_placing::Done;
use snbt_tokens::{Index, Lexed, Stops, Token};

// The elements of a list behind its first: the next place in the text, the next in the output, and how many there are.
#[derive(Clone, Copy)]
struct Elements {
    next: usize,
    used: usize,
    count: usize,
}

// A value that differs from its list's kind is refusal 11 at its token.
fn alike(done: Done, want: u8, index: Index) -> Result<Done, Refused>
    ensures { result ≡ held_done want index.0 (Ok done) }
{
    if snbt_placing::is_alike(want, done.kind) {
        return Ok(done);
    }
    Err(Refused {
        refusal: Refusal::MixedList,
        place: index.0,
    })
}

// A value from a place on, by its first token, which is made where it is used: it is large, and handing it on would copy it.
#[cycle(parse_compound_tag_parse_elements_parse_entries_parse_entry_parse_list_parse_value)]
fn parse_value(
    text: &[u8],
    place: usize,
    set: Stops,
    want: u8,
    out: &mut [u8],
    at: usize,
    keys: &mut [u32],
    top: usize,
    buffer: &mut [u8],
    left: usize,
) -> Result<Done, Refused>
    requires { (Ready text.now keys.old buffer.old) × (place ≤ length text.now) × (at ≤ 16 * place) × (3 * top ≤ place) }
    ensures { ParsedValue text.now out.old keys.old (stops_is set) want place at top left result out.new keys.new }
{
    match snbt_lexer::token_at(text, place, set)? {
        Lexed::Ended { place: _ } => Err(Refused {
            refusal: Refusal::TextEnds,
            place: text.len(),
        }),
        Lexed::Found { data: td, next } => {
            let index = td.index;
            match td.token {
                Token::OpenCurly => {
                    let done = parse_compound_tag(
                        text, index, next, out, at, keys, top, buffer, left,
                    )?;
                    alike(done, want, index)
                }
                Token::OpenSquare => {
                    let done = parse_list(text, index, next, out, at, keys, top, buffer, left)?;
                    alike(done, want, index)
                }
                _ => snbt_scalars::scalar(text, td, next, want, out, at),
            }
        }
    }
}

// What stands behind a `[`: an array, or a list with its head. Compiled into `parse_value`, with `opened_at`: calls of their own cost a
// list of empty lists a tenth of its time, and lists in lists half as much stack again.
#[inline(always)]
#[cycle(parse_compound_tag_parse_elements_parse_entries_parse_entry_parse_list_parse_value)]
fn parse_list(
    text: &[u8],
    brace: Index,
    next: usize,
    out: &mut [u8],
    at: usize,
    keys: &mut [u32],
    top: usize,
    buffer: &mut [u8],
    left: usize,
) -> Result<Done, Refused>
    requires { (Ready text.now keys.old buffer.old) × (next ≤ length text.now) × (at + 16 ≤ 16 * next) × (3 * top ≤ next) }
    ensures { ParsedList text.now out.old keys.old brace.0 next at top left result out.new keys.new }
{
    match snbt_lists::opened_at(text, next, brace, left, out.len(), at)? {
        Opened::Array { width, next } => parse_prim_list(text, width, brace, next, out, at),
        Opened::Empty { next } => Ok(snbt_lists::put_empty(out, at, next)),
        Opened::First => {
            let set = Stops::First;
            let inner = left - 1;
            let first = parse_value(text, next, set, 0, out, at + 5, keys, top, buffer, inner)?;
            let kind = first.kind;
            let rest = parse_elements(
                text, first.next, kind, out, first.used, keys, top, buffer, inner,
            )?;
            snbt_lists::put_head(out, at, kind, rest.count + 1);
            Ok(Done {
                next: rest.next,
                used: rest.used,
                kind: kinds::LIST,
            })
        }
    }
}

// The elements of a list behind one of a kind that ends at `start` (rule 14).
#[cycle(parse_compound_tag_parse_elements_parse_entries_parse_entry_parse_list_parse_value)]
fn parse_elements(
    text: &[u8],
    start: usize,
    kind: u8,
    out: &mut [u8],
    at: usize,
    keys: &mut [u32],
    top: usize,
    buffer: &mut [u8],
    left: usize,
) -> Result<Elements, Refused>
    requires { (Ready text.now keys.old buffer.old) × (start ≤ length text.now) × (at ≤ length out.old) × (at ≤ 16 * start) × (3 * top ≤ start) }
    ensures { ParsedElements text.now out.old keys.old kind start at top left result out.new keys.new }
{
    let mut place = start;
    let mut used = at;
    let mut count: usize = 0;
    loop {
        match snbt_lists::element_behind(text, place)? {
            NextElement::End { next } => return Ok(Elements { next, used, count }),
            NextElement::Is { next } => {
                let set = Stops::Later;
                let done = parse_value(text, next, set, kind, out, used, keys, top, buffer, left)?;
                place = done.next;
                used = done.used;
                count += 1;
            }
        }
    }
}

// A compound behind its `{`: refusals 7 and 13 there, then its entries.
#[cycle(parse_compound_tag_parse_elements_parse_entries_parse_entry_parse_list_parse_value)]
pub fn parse_compound_tag(
    text: &[u8],
    brace: Index,
    next: usize,
    out: &mut [u8],
    at: usize,
    keys: &mut [u32],
    top: usize,
    buffer: &mut [u8],
    left: usize,
) -> Result<Done, Refused>
    requires { (Ready text.now keys.old buffer.old) × (next ≤ length text.now) × (at ≤ 16 * next) × (3 * top ≤ next) }
    ensures { ParsedCompound text.now out.old keys.old brace.0 next at top left result out.new keys.new }
{
    if left == 0 {
        return Err(Refused {
            refusal: Refusal::TooDeep,
            place: brace.0,
        });
    }
    if out.len() < at {
        return Err(Refused {
            refusal: Refusal::OutputFull,
            place: brace.0,
        });
    }
    let block = Block { brace, base: top };
    parse_entries(text, block, next, out, at, keys, buffer, left - 1)
}

// The entries of a compound from `next` on, with its end byte.
#[cycle(parse_compound_tag_parse_elements_parse_entries_parse_entry_parse_list_parse_value)]
fn parse_entries(
    text: &[u8],
    block: Block,
    next: usize,
    out: &mut [u8],
    at: usize,
    keys: &mut [u32],
    buffer: &mut [u8],
    left: usize,
) -> Result<Done, Refused>
    requires { (Ready text.now keys.old buffer.old) × (next ≤ length text.now) × (at ≤ length out.old) × (at ≤ 16 * next) × (3 * block.base ≤ next) }
    ensures { ParsedEntries text.now out.old keys.old block next at left result out.new keys.new }
{
    let mut place = next;
    let mut used = at;
    let mut top = block.base;
    let mut last = None;
    loop {
        match parse_entry(text, place, last, block, out, used, keys, top, buffer, left)? {
            EntryTurn::Last { index, next, used } => return snbt_entries::close(
                out, index, next, used,
            ),
            EntryTurn::More {
                comma,
                next: n,
                used: u,
            } => {
                place = n;
                used = u;
                top += 1;
                last = Some(comma);
            }
        }
    }
}

// An entry of a compound with what follows it, or its `}`. The name is written before its value is read, since a compound in it uses
// the buffer again.
#[cycle(parse_compound_tag_parse_elements_parse_entries_parse_entry_parse_list_parse_value)]
fn parse_entry(
    text: &[u8],
    place: usize,
    last: Option<Index>,
    block: Block,
    out: &mut [u8],
    at: usize,
    keys: &mut [u32],
    top: usize,
    buffer: &mut [u8],
    left: usize,
) -> Result<EntryTurn, Refused>
    requires { (Ready text.now keys.old buffer.old) × (place ≤ length text.now) × (at ≤ 16 * place) × (3 * top ≤ place) × (Kept out.old keys.old block.base top at) }
    ensures { ParsedEntry text.now out.old keys.old block (last_is last) place at top left result out.new keys.new }
{
    match snbt_entries::key_at(text, place, last, block, out, keys, top, buffer)? {
        Key::End { index, next } => Ok(EntryTurn::Last {
            index,
            next,
            used: at,
        }),
        Key::Is { size, spot, next } => {
            snbt_entries::put_name(out, at + 1, buffer, size);
            let from = at + 3 + size;
            let set = Stops::Value;
            let v = parse_value(text, next, set, 0, out, from, keys, top, buffer, left)?;
            snbt_entries::settle(
                text, v.next, v.used, v.kind, block, out, at, keys, top, spot,
            )
        }
    }
}
