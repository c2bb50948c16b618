// Rule 8, the first half: a table's records judged, and their bytes counted, as they are written in the form of the document or another
// (02, [2]). Each function cites the definition that it meets, in form/specs/Writing.antt or specs/Pieces.antt; io.rs of the crate judges in
// the same order.
#![tactic(auto)]

ghost use Rattle.std.specs.Prelude.{◌≡◌, false, ◌+◌, ◌≤◌, length};
ghost use Rattle.form.specs.Form.{way_no};
ghost use Rattle.form.specs.Spans.{part};
ghost use Rattle.form.specs.Table.{word as word_of, head_of};
ghost use Rattle.form.specs.Turned.{recoded};
ghost use Rattle.form.specs.Writing.{string_fine, payload_fine};
ghost use Rattle.nbt_siblings.specs.Lists.{Family};
ghost use Rattle.nbt_judging.specs.Pieces.{deep as deepOf, mixed as mixedOf, is_at, first_twice, rest_fine, own_fine, body_size, own_size};
ghost use Rattle.nbt_judging.specs.Steps.{fine_out, Placed, Some, One, JudgedIs, OneJudgedIs};

use form::refusals::{Refusal, Refused};
use form::ways;
use table::kinds;

// A container where none may stand any more (7).
fn deep(kind: usize, left: usize) -> bool
    ensures { result ≡ deepOf kind left }
{
    left == 0 && table::is_container(kind)
}

// An element of another kind than its list's, which is k (11).
fn mixed(list: bool, kind: usize, k: usize) -> bool
    ensures { result ≡ mixedOf list kind k }
{
    list && kind != k
}

// Whether the answer to `first_repeat` is record i.
fn is_at(found: Option<usize>, i: usize) -> bool
    ensures { result ≡ is_at found i }
{
    match found {
        Some(r) => r == i,
        None => false,
    }
}

// A name or a string payload of record n: its length fits a u16 (12), it is well formed (4), and its length fits a u16 as it is written (12).
// It has two callers, so that it stays a call, and a short string goes without one.
fn long_fine(doc: &[u8], start: usize, size: usize, n: usize, way: u32) -> Result<(), Refused>
    requires { start + size ≤ length doc.now }
    ensures { fine_out result ≡ string_fine (way_no way) doc.now start size n }
{
    if form::STRING < size {
        return Err(Refused {
            refusal: Refusal::LongString,
            place: n,
        });
    }
    let end = start + size;
    if !mutf8::is_well_formed(&doc[start..end], ways::source(way)) {
        return Err(Refused {
            refusal: Refusal::BadString,
            place: n,
        });
    }
    if ways::same_rule(way) {
        return Ok(());
    }
    if form::STRING < recode::length(doc, start, size, way) {
        return Err(Refused {
            refusal: Refusal::LongString,
            place: n,
        });
    }
    Ok(())
}

// The same of a short one, whose length fits a u16 whatever form it is written in: well formed or not (4).
fn short_fine(doc: &[u8], start: usize, size: usize, n: usize, way: u32) -> Result<(), Refused>
    requires { (start + size ≤ length doc.now) × (size ≤ 10922) }
    ensures { fine_out result ≡ string_fine (way_no way) doc.now start size n }
{
    let end = start + size;
    if mutf8::is_well_formed(&doc[start..end], ways::source(way)) {
        return Ok(());
    }
    Err(Refused {
        refusal: Refusal::BadString,
        place: n,
    })
}

// The name of a record; an element of a list has an empty one.
fn name_fine(doc: &[u8], table: &[u32], n: usize, way: u32) -> Result<(), Refused>
    requires { Placed doc.now table.now n }
    ensures { fine_out result ≡ string_fine (way_no way) doc.now (word_of table.now n 1) (word_of table.now n 2) n }
{
    let start = table::word(table, n, table::NAME);
    let size = table::word(table, n, table::NAME_LENGTH);
    if form::SHORT_STRING < size {
        return long_fine(doc, start, size, n, way);
    }
    short_fine(doc, start, size, n, way)
}

// The string payload of a record, if it has one.
fn payload_fine(doc: &[u8], table: &[u32], n: usize, way: u32) -> Result<(), Refused>
    requires { Placed doc.now table.now n }
    ensures { fine_out result ≡ payload_fine (way_no way) doc.now (head_of table.now n) n }
{
    match table::word(table, n, table::KIND) {
        kinds::STRING => {
            let start = table::word(table, n, table::START);
            let size = table::word(table, n, table::LENGTH);
            if form::SHORT_STRING < size {
                return long_fine(doc, start, size, n, way);
            }
            short_fine(doc, start, size, n, way)
        }
        _ => Ok(()),
    }
}

// What comes after a record's name: depth (7), kind (11), string payload (12, 4, 12).
fn rest_fine(
    doc: &[u8],
    table: &[u32],
    n: usize,
    left: usize,
    list: bool,
    k: usize,
    way: u32,
) -> Result<(), Refused>
    requires { Placed doc.now table.now n }
    ensures { fine_out result ≡ rest_fine (way_no way) doc.now left list k n (head_of table.now n) }
{
    let kind = table::word(table, n, table::KIND);
    if deep(kind, left) {
        return Err(Refused {
            refusal: Refusal::TooDeep,
            place: n,
        });
    }
    if mixed(list, kind, k) {
        return Err(Refused {
            refusal: Refusal::MixedList,
            place: n,
        });
    }
    payload_fine(doc, table, n, way)
}

// A record by itself, in the order of rule 8: name (12, 4, 12, 6), depth (7), kind (11), string payload (12, 4, 12).
fn own_fine(
    doc: &[u8],
    table: &[u32],
    n: usize,
    left: usize,
    list: bool,
    k: usize,
    twice: bool,
    way: u32,
) -> Result<(), Refused>
    requires { Placed doc.now table.now n }
    ensures { fine_out result ≡ own_fine (way_no way) doc.now left list k twice n (head_of table.now n) }
{
    name_fine(doc, table, n, way)?;
    if twice {
        return Err(Refused {
            refusal: Refusal::NameTwice,
            place: n,
        });
    }
    rest_fine(doc, table, n, left, list, k, way)
}

// How many bytes a name or a string payload takes as it is written, without its length; what is written as it stands is counted without a call.
fn text_size(doc: &[u8], start: usize, size: usize, way: u32) -> usize
    requires { (start + size ≤ length doc.now) × (size ≤ 16777216) }
    ensures { result ≡ length (recoded (way_no way) (part doc.now start size)) }
{
    if ways::same_rule(way) {
        return size;
    }
    recode::length(doc, start, size, way)
}

// How many bytes a record's payload takes, without those of the records in it.
fn body_size(doc: &[u8], table: &[u32], n: usize, way: u32) -> usize
    requires { (Placed doc.now table.now n) × (word_of table.now n 4 ≤ 16777216) }
    ensures { result ≡ body_size (way_no way) doc.now (head_of table.now n) }
{
    let size = table::word(table, n, table::LENGTH);
    match table::word(table, n, table::KIND) {
        kinds::END..=kinds::DOUBLE => size,
        kinds::STRING => {
            let start = table::word(table, n, table::START);
            text_size(doc, start, size, way) + 2
        }
        kinds::LIST => 5,
        kinds::COMPOUND => 1,
        _ => size + 4,
    }
}

// How many bytes a record takes, without those of the records in it: an entry's id and name stand before its payload.
fn own_size(doc: &[u8], table: &[u32], n: usize, list: bool, way: u32) -> usize
    requires { (Placed doc.now table.now n) × (word_of table.now n 4 ≤ 16777216) × (word_of table.now n 2 ≤ 16777216) }
    ensures { result ≡ own_size (way_no way) doc.now list (head_of table.now n) }
{
    let body = body_size(doc, table, n, way);
    if list {
        return body;
    }
    let start = table::word(table, n, table::NAME);
    let size = table::word(table, n, table::NAME_LENGTH);
    body + (text_size(doc, start, size, way) + 3)
}

// The first record from n up to `end` whose name an earlier one has; elements of a list have no names.
fn first_twice(doc: &[u8], table: &mut [u32], n: usize, end: usize, list: bool) -> Option<usize>
    requires { list ≡ false → Family doc.now table.old n end }
    ensures { (result ≡ first_twice doc.now table.old n end list) × (table.new ≡ table.old) }
{
    if list {
        return None;
    }
    nbt_siblings::first_repeat(doc, table, n, end)
}

// The records side by side from n up to `end`, and those in them: their bytes, or the first refusal.
#[cycle(judged_one_judged)]
pub fn judged(
    doc: &[u8],
    table: &mut [u32],
    n: usize,
    end: usize,
    left: usize,
    list: bool,
    k: usize,
    way: u32,
) -> Result<usize, Refused>
    requires { Some doc.now table.old list n end }
    ensures { JudgedIs (way_no way) doc.now table.old left list k n end result table.new }
{
    let repeat = first_twice(doc, table, n, end, list);
    let mut i = n;
    let mut total: usize = 0;
    // A `while`: a record's last word is the number of the next.
    while i < end {
        let next = table::word(table, i, table::END);
        let twice = is_at(repeat, i);
        let size = one_judged(doc, table, i, next, left, list, k, twice, way)?;
        total += size;
        i = next;
    }
    Ok(total)
}

// Record n, which ends at `end`, and those in it; what holds no records, an empty container too, is done with no second walk.
#[cycle(judged_one_judged)]
fn one_judged(
    doc: &[u8],
    table: &mut [u32],
    n: usize,
    end: usize,
    left: usize,
    list: bool,
    k: usize,
    twice: bool,
    way: u32,
) -> Result<usize, Refused>
    requires { One doc.now table.old list n end }
    ensures { OneJudgedIs (way_no way) doc.now table.old left list k twice n end result table.new }
{
    own_fine(doc, table, n, left, list, k, twice, way)?;
    let own = own_size(doc, table, n, list, way);
    if end == n + 1 {
        return Ok(own);
    }
    let elements = table::word(table, n, table::KIND) == kinds::LIST;
    let inner = table::word(table, n, table::LIST_KIND);
    let size = judged(doc, table, n + 1, end, left - 1, elements, inner, way)?;
    Ok(own + size)
}
