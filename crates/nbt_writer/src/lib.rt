// Rule 8 and the conversion of 02, [2]: the document that a table stands for, written in its own form or another where its records are judged
// to keep the rules. Each function has the name of the
// definition that it meets, in form/specs/Writing.antt or nbt_judging/specs/Pieces.antt; io.rs of the crate writes in the same order.
#![tactic(auto)]

ghost use Rattle.std.specs.Prelude.{◌≡◌, ◌+◌, ◌*◌, ◌≤◌, length};
ghost use Rattle.form.specs.Answer.{no};
ghost use Rattle.form.specs.Refusals.{number_of};
ghost use Rattle.form.specs.Form.{form_no, way_from, way_no};
ghost use Rattle.form.specs.Numbers.{bytes_in};
ghost use Rattle.form.specs.Spans.{part, over};
ghost use Rattle.form.specs.Decoding.{verdict_in};
ghost use Rattle.form.specs.Writing.{bad_place, answer_of};
ghost use Rattle.mutf8.specs.Answers.{verdict_of};
ghost use Rattle.form.specs.Table.{word as word_of, head_of};
ghost use Rattle.recode.specs.Steps.{Puts};
ghost use Rattle.nbt_judging.specs.Pieces.{name_bytes, element_width, span_bytes, leaf_bytes, list_bytes};
ghost use Rattle.nbt_judging.specs.Steps.{Placed};
ghost use Rattle.nbt_writer.specs.Steps.{length_bytes, same_bytes, answer_out, unwritten_out, UnfitAs, SomeRoom, OneRoom, PutAllIs, PutOneIs, Formed, WrittenIs, WroteIs, Fits, PutIs};

use form::forms::is_pocket;
use form::refusals::{Refusal, Refused};
use form::ways;
use mutf8::Unreadable;
use table::{Unfit, kinds};

// Why nothing was written: the refusal and its place, and the record in 4 (02, [3]), else 0.
#[derive(Clone, Copy, Debug)]
pub struct Unwritten {
    pub refusal: Refusal,
    pub place: usize,
    pub record: usize,
}

impl From<Unfit> for Unwritten {
    ghost from_gives = { UnfitAs };

    // Words that are no table are refused at 0.
    fn from(unfit: Unfit) -> Unwritten {
        let refused = Refused::from(unfit);
        Unwritten {
            refusal: refused.refusal,
            place: refused.place,
            record: 0,
        }
    }
}

// A length or a count in the order of the form that is written (rule 1; 02, [2]).
fn put_count(out: &mut [u8], at: usize, width: usize, v: usize, way: u32)
    requires { (width ≤ 8) × (at + width ≤ length out.old) }
    ensures { out.new ≡ over out.old at (bytes_in (way_no way).to.order width v) }
{
    raw::put_in(out, at, width, v as u64, is_pocket(ways::target(way)));
}

// A string's length or an array's count (rule 4), and the place after it; nothing before a number alone.
fn put_length(kind: usize, size: usize, count: usize, out: &mut [u8], at: usize, way: u32) -> usize
    requires { at + length (length_bytes (way_no way) kind size count) ≤ length out.old }
    ensures { Puts (length_bytes (way_no way) kind size count) out.old at out.new result }
{
    match kind {
        kinds::END..=kinds::DOUBLE => at,
        kinds::STRING => {
            put_count(out, at, 2, size, way);
            at + 2
        }
        _ => {
            put_count(out, at, 4, count, way);
            at + 4
        }
    }
}

// A name or a payload that is written as it stands, and the place after it.
fn put_same(
    doc: &[u8],
    start: usize,
    size: usize,
    kind: usize,
    count: usize,
    out: &mut [u8],
    at: usize,
    way: u32,
) -> usize
    requires { (start + size ≤ length doc.now) × (at + length (same_bytes (way_no way) doc.now kind count start size) ≤ length out.old) }
    ensures { Puts (same_bytes (way_no way) doc.now kind count start size) out.old at out.new result }
{
    let first = put_length(kind, size, count, out, at, way);
    slices::copy(doc, start, size, out, first);
    first + size
}

// The bytes of a number of a kind, alone or in an array; what has no numbers is taken byte by byte.
fn element_width(kind: usize) -> usize
    ensures { result ≡ element_width kind }
{
    match kind {
        kinds::SHORT => 2,
        kinds::INT => 4,
        kinds::LONG => 8,
        kinds::FLOAT => 4,
        kinds::DOUBLE => 8,
        kinds::INT_ARRAY => 4,
        kinds::LONG_ARRAY => 8,
        _ => 1,
    }
}

// A name or a payload as the other form has it, and the place after it. It has two callers, so that it stays a call, and what is written as it
// stands goes without one.
fn put_turned(
    doc: &[u8],
    start: usize,
    size: usize,
    kind: usize,
    count: usize,
    out: &mut [u8],
    at: usize,
    way: u32,
) -> usize
    requires { (start + size ≤ length doc.now) × (size ≤ 16777216) × (at + length (span_bytes (way_no way) doc.now kind count start size) ≤ length out.old) }
    ensures { Puts (span_bytes (way_no way) doc.now kind count start size) out.old at out.new result }
{
    if kind == kinds::STRING {
        let first = put_length(
            kind,
            recode::length(doc, start, size, way),
            count,
            out,
            at,
            way,
        );
        return recode::put_string(doc, start, size, out, first, way);
    }
    let first = put_length(kind, size, count, out, at, way);
    recode::put_numbers(doc, start, size, element_width(kind), out, first, way)
}

// What stands before a payload, and the place after it: an entry's id and name (rule 3), nothing of an element of a list.
fn put_name(
    doc: &[u8],
    table: &[u32],
    n: usize,
    list: bool,
    out: &mut [u8],
    at: usize,
    way: u32,
) -> usize
    requires { (Placed doc.now table.now n) × (word_of table.now n 2 ≤ 16777216) × (at + length (name_bytes (way_no way) doc.now list (head_of table.now n)) ≤ length out.old) }
    ensures { Puts (name_bytes (way_no way) doc.now list (head_of table.now n)) out.old at out.new result }
{
    if list {
        return at;
    }
    let start = table::word(table, n, table::NAME);
    let size = table::word(table, n, table::NAME_LENGTH);
    raw::put_number(out, at, 1, table::word(table, n, table::KIND) as u64);
    if ways::stays(way) {
        return put_same(doc, start, size, kinds::STRING, 0, out, at + 1, way);
    }
    put_turned(doc, start, size, kinds::STRING, 0, out, at + 1, way)
}

// The payload of what holds no records (rule 4), and the place after it.
fn put_leaf(doc: &[u8], table: &[u32], n: usize, out: &mut [u8], at: usize, way: u32) -> usize
    requires { (Placed doc.now table.now n) × (word_of table.now n 4 ≤ 16777216) × (at + length (leaf_bytes (way_no way) doc.now (head_of table.now n)) ≤ length out.old) }
    ensures { Puts (leaf_bytes (way_no way) doc.now (head_of table.now n)) out.old at out.new result }
{
    let kind = table::word(table, n, table::KIND);
    let start = table::word(table, n, table::START);
    let size = table::word(table, n, table::LENGTH);
    let count = table::word(table, n, table::COUNT);
    if ways::stays(way) {
        return put_same(doc, start, size, kind, count, out, at, way);
    }
    put_turned(doc, start, size, kind, count, out, at, way)
}

// A list's id and count (rule 4), and the place after them; of an empty list five zero bytes.
fn put_list(table: &[u32], n: usize, out: &mut [u8], at: usize, way: u32) -> usize
    requires { (9 * n + 9 ≤ length table.now) × (at + 5 ≤ length out.old) }
    ensures { Puts (list_bytes (way_no way) (head_of table.now n)) out.old at out.new result }
{
    raw::put_number(out, at, 1, table::word(table, n, table::LIST_KIND) as u64);
    put_count(out, at + 1, 4, table::word(table, n, table::COUNT), way);
    at + 5
}

// Record n, which ends at `end`, and those in it, written at `at`; the place after them.
#[cycle(put_all_put_one)]
fn put_one(
    doc: &[u8],
    table: &[u32],
    n: usize,
    end: usize,
    list: bool,
    out: &mut [u8],
    at: usize,
    way: u32,
) -> usize
    requires { OneRoom (way_no way) doc.now table.now list n end out.old at }
    ensures { PutOneIs (way_no way) doc.now table.now list n end out.old at out.new result }
{
    let from = put_name(doc, table, n, list, out, at, way);
    match table::word(table, n, table::KIND) {
        kinds::LIST => {
            let first = put_list(table, n, out, from, way);
            put_all(doc, table, n + 1, end, true, out, first, way)
        }
        kinds::COMPOUND => {
            let last = put_all(doc, table, n + 1, end, false, out, from, way);
            raw::put_number(out, last, 1, 0);
            last + 1
        }
        _ => put_leaf(doc, table, n, out, from, way),
    }
}

// The records side by side from n up to `end`, and those in them, written at `at`; the place after them.
#[cycle(put_all_put_one)]
fn put_all(
    doc: &[u8],
    table: &[u32],
    n: usize,
    end: usize,
    list: bool,
    out: &mut [u8],
    at: usize,
    way: u32,
) -> usize
    requires { SomeRoom (way_no way) doc.now table.now list n end out.old at }
    ensures { PutAllIs (way_no way) doc.now table.now list n end out.old at out.new result }
{
    let mut i = n;
    let mut here = at;
    // A `while`: a record's last word is the number of the next.
    while i < end {
        let next = table::word(table, i, table::END);
        here = put_one(doc, table, i, next, list, out, here, way);
        i = next;
    }
    here
}

// Writes a table whose records are known to keep the rules, where the output is known to have room: the bytes written.
pub fn put(doc: &[u8], table: &[u32], out: &mut [u8], form: u32) -> usize
    requires { Fits (form_no form) doc.now table.now out.old }
    ensures { PutIs (form_no form) doc.now table.now out.old out.new result }
{
    let end = table::word(table, 0, table::END);
    put_all(doc, table, 0, end, false, out, 0, ways::between(form, form))
}

// Whether a span of the document is well formed, or where not.
fn checked(doc: &[u8], start: usize, size: usize, way: u32) -> Result<(), Unreadable>
    requires { start + size ≤ length doc.now }
    ensures { verdict_of result ≡ verdict_in (way_no way).from.strings (part doc.now start size) }
{
    let end = start + size;
    mutf8::check(&doc[start..end], ways::source(way))
}

// Where in the document the first sequence that can't be read begins, of record n's name or else of its payload (02, [3]).
fn bad_place(doc: &[u8], table: &[u32], n: usize, way: u32) -> usize
    requires { Placed doc.now table.now n }
    ensures { result ≡ bad_place (way_no way) doc.now (head_of table.now n) }
{
    let name = table::word(table, n, table::NAME);
    if let Err(e) = checked(doc, name, table::word(table, n, table::NAME_LENGTH), way) {
        return name + e.at;
    }
    let start = table::word(table, n, table::START);
    if let Err(e) = checked(doc, start, table::word(table, n, table::LENGTH), way) {
        return start + e.at;
    }
    0
}

// The refusal of record n: 4 at the character, with the record beside it (02, [3]); any other at the record.
fn refused(doc: &[u8], table: &[u32], refusal: Refusal, n: usize, way: u32) -> Unwritten
    requires { Placed doc.now table.now n }
    ensures { unwritten_out result ≡ answer_of (way_no way) doc.now table.now (no (number_of refusal) n) }
{
    match refusal {
        Refusal::BadString => Unwritten {
            refusal,
            place: bad_place(doc, table, n, way),
            record: n,
        },
        _ => Unwritten {
            refusal,
            place: n,
            record: 0,
        },
    }
}

// A table: its records are judged, then there is room (13), then they are written. The root is taken as records side by side, of which
// there is one, so that each walk has one loop in which small records are done with no call.
fn written(doc: &[u8], table: &mut [u32], out: &mut [u8], way: u32) -> Result<usize, Unwritten>
    requires { Formed doc.now table.old }
    ensures { (WrittenIs (way_no way) doc.now table.old out.old result out.new) × (table.new ≡ table.old) }
{
    let end = table::word(table, 0, table::END);
    match nbt_judging::judged(doc, table, 0, end, form::DEPTH, false, 0, way) {
        Err(e) => Err(refused(doc, table, e.refusal, e.place, way)),
        Ok(bytes) => {
            if out.len() < bytes {
                return Err(Unwritten {
                    refusal: Refusal::OutputFull,
                    place: 0,
                    record: 0,
                });
            }
            put_all(doc, table, 0, end, false, out, 0, way);
            Ok(bytes)
        }
    }
}

// Writes the document that a table stands for, in its own form or another: a limit first (9), then whether the words form a table (10), then
// its records. The table is lent to be changed, since the search for repeated names uses the records' free words; it comes back as it was.
pub fn write(
    doc: &[u8],
    table: &mut [u32],
    out: &mut [u8],
    from: u32,
    to: u32,
) -> Result<usize, Unwritten>
    ensures { WroteIs (way_from (form_no from) (form_no to)) doc.now table.old table.new out.old (answer_out result) out.new }
{
    table::is_table(doc.len(), table)?;
    written(doc, table, out, ways::between(from, to))
}
