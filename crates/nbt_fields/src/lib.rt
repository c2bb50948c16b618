// The fields of a document (rules 3 to 5), each read at a place. Each function has the name of the definition in form/specs/Reading.antt
// that it meets.
#![tactic(auto)]

ghost use Rattle.std.specs.Prelude.{◌≡◌, ℕ, ◌+◌, ◌≤◌, ◌<◌, ◌^◌, length, get_or};
ghost use Rattle.form.specs.Form.{form_no};
ghost use Rattle.form.specs.Table.{width_of};
ghost use Rattle.form.specs.Reading.{number_at, bytes_at, string_at, array_at, leaf_at, list_head_at, entry_at};
ghost use Rattle.nbt_fields.specs.Answers.{num_out, part_out, list_head_out, entry_out, HeadIs};

use form::forms::is_pocket;
use form::kinds;
use form::refusals::{Refusal, Refused};

// A field of the document: its first byte, its bytes, its count and the place behind it.
#[derive(Clone, Copy)]
pub struct Field {
    pub start: usize,
    pub len: usize,
    pub count: usize,
    pub next: usize,
}

// A list's kind and count.
#[derive(Clone, Copy)]
pub struct ListHead {
    pub kind: u8,
    pub count: usize,
}

// An entry's kind and name: the name's first byte and its bytes, behind which the payload begins.
#[derive(Clone, Copy)]
pub struct Entry {
    pub kind: u8,
    pub start: usize,
    pub len: usize,
}

// The number in the n bytes at `at`, in the order of the form (rule 1; 02, [2]).
fn number(doc: &[u8], n: usize, at: usize, form: u32) -> Result<usize, Refused>
    requires { (n ≤ 4) × (at ≤ length doc.now) }
    ensures { num_out result ≡ number_at (form_no form) doc.now n at }
{
    if doc.len() - at < n {
        return Err(Refused {
            refusal: Refusal::DataEnds,
            place: at,
        });
    }
    Ok(raw::number_in(doc, at, n, is_pocket(form)) as usize)
}

// The n bytes at `at`.
fn bytes_at(doc: &[u8], n: usize, count: usize, at: usize) -> Result<Field, Refused>
    requires { at ≤ length doc.now }
    ensures { part_out result ≡ bytes_at doc.now n count at }
{
    if doc.len() - at < n {
        return Err(Refused {
            refusal: Refusal::DataEnds,
            place: at,
        });
    }
    Ok(Field {
        start: at,
        len: n,
        count,
        next: at + n,
    })
}

// A string: its length, its content (1), which can be read to its end (4); where not, the place is that of the character (02, [3]). One sum
// serves the test and the span: with a difference more, entry_at is too large to be compiled into its callers.
pub fn string_at(doc: &[u8], at: usize, form: u32) -> Result<Field, Refused>
    requires { at ≤ length doc.now }
    ensures { part_out result ≡ string_at (form_no form) doc.now at }
{
    let len = number(doc, 2, at, form)?;
    let start = at + 2;
    let end = start + len;
    if doc.len() < end {
        return Err(Refused {
            refusal: Refusal::DataEnds,
            place: start,
        });
    }
    match mutf8::check(&doc[start..end], form) {
        Ok(()) => Ok(Field {
            start,
            len,
            count: 0,
            next: end,
        }),
        Err(e) => Err(Refused {
            refusal: Refusal::BadString,
            place: start + e.at,
        }),
    }
}

// An array: its count (1, 5), then its elements as one field (1).
fn array_at(doc: &[u8], w: usize, at: usize, form: u32) -> Result<Field, Refused>
    requires { (w ≤ 8) × (at ≤ length doc.now) }
    ensures { part_out result ≡ array_at (form_no form) doc.now w at }
{
    let n = number(doc, 4, at, form)?;
    if n < BELOW_ZERO {
        bytes_at(doc, n * w, n, at + 4)
    } else {
        Err(Refused {
            refusal: Refusal::NegativeCount,
            place: at,
        })
    }
}

// A count's four bytes from here on are below 0 as an i32.
const BELOW_ZERO: usize = 2147483648;

// How many bytes kinds 1 to 6 take, and an element of kinds 7, 11 and 12 (rule 4).
pub fn width_of(kind: u8) -> usize
    requires { kind ≤ 12 }
    ensures { (result ≡ width_of kind) × (result ≤ 8) }
{
    table::width_of(usize::from(kind))
}

// A payload of kinds 7, 8, 11 and 12: a string, or an array.
pub fn leaf_at(doc: &[u8], kind: u8, at: usize, form: u32) -> Result<Field, Refused>
    requires { (6 < kind) × (kind ≤ 12) × (at ≤ length doc.now) }
    ensures { part_out result ≡ leaf_at (form_no form) doc.now kind at }
{
    match kind {
        kinds::STRING => string_at(doc, at, form),
        _ => array_at(doc, width_of(kind), at, form),
    }
}

// A list's kind and count: both are whole (1) before they are judged.
pub fn list_head(doc: &[u8], at: usize, form: u32) -> Result<ListHead, Refused>
    requires { at ≤ length doc.now }
    ensures { list_head_out result ≡ list_head_at (form_no form) doc.now at }
{
    if doc.len() <= at {
        return Err(Refused {
            refusal: Refusal::DataEnds,
            place: at,
        });
    }
    let kind = doc[at];
    let count = number(doc, 4, at + 1, form)?;
    judge_head(kind, count, at)
}

// The head of a list at `at` by its kind and count: the kind is one of rule 4, or END of a list with no elements (3), and the count is not
// below 0 (5). An empty list has no kind.
fn judge_head(kind: u8, count: usize, at: usize) -> Result<ListHead, Refused>
    requires { at + 1 < 2 ^ 64 }
    ensures { HeadIs kind count at result }
{
    if kinds::LONG_ARRAY < kind {
        return Err(Refused {
            refusal: Refusal::TagId,
            place: at,
        });
    }
    if count == 0 {
        return Ok(ListHead {
            kind: kinds::END,
            count: 0,
        });
    }
    if kind == kinds::END {
        return Err(Refused {
            refusal: Refusal::TagId,
            place: at,
        });
    }
    if BELOW_ZERO <= count {
        return Err(Refused {
            refusal: Refusal::NegativeCount,
            place: at + 1,
        });
    }
    Ok(ListHead { kind, count })
}

// An entry of some kind: its name (1, 4), then its id (2).
fn named(doc: &[u8], kind: u8, at: usize, form: u32) -> Result<Option<Entry>, Refused>
    requires { (at < length doc.now) × (kind ≡ get_or doc.now at 0) × (kind ≡ 0 → ⊥) }
    ensures { entry_out result ≡ entry_at (form_no form) doc.now at }
{
    let name = string_at(doc, at + 1, form)?;
    if kinds::LONG_ARRAY < kind {
        return Err(Refused {
            refusal: Refusal::TagId,
            place: at,
        });
    }
    Ok(Some(Entry {
        kind,
        start: name.start,
        len: name.len,
    }))
}

// An entry's kind and name, or a compound's end.
pub fn entry_at(doc: &[u8], at: usize, form: u32) -> Result<Option<Entry>, Refused>
    requires { at ≤ length doc.now }
    ensures { entry_out result ≡ entry_at (form_no form) doc.now at }
{
    if doc.len() <= at {
        return Err(Refused {
            refusal: Refusal::DataEnds,
            place: at,
        });
    }
    let kind = doc[at];
    if kind == kinds::END {
        return Ok(None);
    }
    named(doc, kind, at, form)
}
