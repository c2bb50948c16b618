// Arrays of a text (rule 14): the count and the elements of a byte, int or long array as the bytes of a document.
#![tactic(auto)]

mod elements;

ghost use Rattle.std.specs.Prelude.{◌≡◌, List, ◌+◌, ◌≤◌, length, ℤ};
ghost use Rattle.form.specs.Tree.{kind_of};
ghost use Rattle.snbt_form.specs.Text.{array_at, array_tag};
ghost use Rattle.snbt_placing.specs.Done.{Agrees, Ahead, Wide};

use crate::elements::ElementTurn;
use form::kinds;
use form::refusals::{Refusal, Refused};
use snbt_placing::Done;
use snbt_tokens::Index;

// The kind of an array by the width of its elements (rule 14).
fn array_kind(width: usize) -> u8
    requires { Wide width }
    ensures { (vs : List ℤ) → result ≡ kind_of (array_tag width vs) }
{
    match width {
        1 => kinds::BYTE_ARRAY,
        4 => kinds::INT_ARRAY,
        _ => kinds::LONG_ARRAY,
    }
}

// The elements of an array from a place on, behind the room for their count, which is written when their end is found (rule 14).
fn put_array(
    text: &[u8],
    width: u8,
    brace: Index,
    start: usize,
    out: &mut [u8],
    at: usize,
) -> Result<Done, Refused>
    requires { (start ≤ length text.now) × Wide width × (at + 4 ≤ length out.old) }
    ensures is { Agrees (array_at text.now (length out.old) width brace.0 start at) out.old at result out.new }
    ensures moves { Ahead start (length text.now) result }
{
    let wide = width as usize;
    let mut place = start;
    let mut used = at + 4;
    let mut last = None;
    let mut count: usize = 0;
    loop {
        match elements::element(text, wide, brace, last, place, out, used)? {
            ElementTurn::Comma { index, next } => {
                last = Some(index);
                place = next;
            }
            ElementTurn::Element { next } => {
                last = None;
                place = next;
                used += wide;
                count += 1;
            }
            ElementTurn::End { next } => {
                raw::put_number(out, at, 4, count as u64);
                let kind = array_kind(wide);
                return Ok(Done { next, used, kind });
            }
        }
    }
}

// An array from a place on, behind its `;` (rule 14): its count is counted at `[` (refusal 13).
pub fn parse_prim_list(
    text: &[u8],
    width: u8,
    brace: Index,
    start: usize,
    out: &mut [u8],
    at: usize,
) -> Result<Done, Refused>
    requires { (start ≤ length text.now) × Wide width }
    ensures is { Agrees (array_at text.now (length out.old) width brace.0 start at) out.old at result out.new }
    ensures moves { Ahead start (length text.now) result }
{
    if snbt_placing::has_room(out.len(), at, 4) {
        return put_array(text, width, brace, start, out, at);
    }
    Err(Refused {
        refusal: Refusal::OutputFull,
        place: brace.0,
    })
}
