// A record's words (rule 6, and 02 [7] for the ninth): the one place that knows how many there are and which is which. Reader, writer
// and query go through these functions. Then rule 7: whether words form a table.
#![tactic(auto)]

pub mod kinds;

ghost use Rattle.std.specs.Prelude.{◌≡◌, true, ℕ, ◌+◌, ◌*◌, ◌≤◌, ◌<◌, ◌^◌, length, replicate};
ghost use Rattle.form.specs.Spans.{over};
ghost use Rattle.form.specs.Table.{word as word_of, width_of, holds, is_array};
ghost use Rattle.form.specs.Tables.{leaf_fits};
ghost use Rattle.form.specs.Rows.{ChildIs, LeafRow, list_kind_at, ContainerRow, RowIs};
ghost use Rattle.table.specs.Records.{record_words, leaf_of, container_of, Small};
ghost use Rattle.table.specs.Check.{VerdictIs, verdict_out, Answers, RefusedAs, Says, HopsAre};

use form::refusals::{Refusal, Refused};

// How many words a record has.
pub const WORDS: usize = 9;

// The place of each word within its record.
pub const KIND: usize = 0;

pub const NAME: usize = 1;

pub const NAME_LENGTH: usize = 2;

pub const START: usize = 3;

pub const LENGTH: usize = 4;

pub const COUNT: usize = 5;

pub const LIST_KIND: usize = 6;

pub const END: usize = 7;

pub const PARENT: usize = 8;

// A record of rule 6.
#[derive(Drop)]
pub struct Record {
    pub kind: u32,
    pub name: u32,
    pub name_len: u32,
    pub start: u32,
    pub len: u32,
    pub count: u32,
    pub list_kind: u32,
    pub end: u32,
    pub parent: u32,
}

// Word k of record n.
pub fn word(table: &[u32], n: usize, k: usize) -> usize
    requires { (9 * n + 9 ≤ length table.now) × (k < 9) }
    ensures { result ≡ word_of table.now n k }
{
    table[WORDS * n + k] as usize
}

// Writes record n.
pub fn put(table: &mut [u32], n: usize, r: Record)
    requires { 9 * n + 9 ≤ length table.old }
    ensures { table.new ≡ over table.old (9 * n) (record_words r) }
{
    let at = WORDS * n;
    table[at] = r.kind;
    table[at + 1] = r.name;
    table[at + 2] = r.name_len;
    table[at + 3] = r.start;
    table[at + 4] = r.len;
    table[at + 5] = r.count;
    table[at + 6] = r.list_kind;
    table[at + 7] = r.end;
    table[at + 8] = r.parent;
}

// All words to 0: what a refused read leaves.
pub fn clear(table: &mut [u32])
    ensures { table.new ≡ replicate (length table.old) 0 }
{
    table.fill(0);
}

// The record of a list or a compound: its payload words are 0.
pub fn container(
    kind: usize,
    name: usize,
    name_len: usize,
    count: usize,
    list_kind: usize,
    end: usize,
    parent: usize,
) -> Record
    requires { (Small kind name name_len) × (count < 2 ^ 32) × (list_kind < 2 ^ 32) × (end < 2 ^ 32) × (parent < 2 ^ 32) }
    ensures { result ≡ container_of kind name name_len count list_kind end parent }
{
    Record {
        kind: kind as u32,
        name: name as u32,
        name_len: name_len as u32,
        start: 0,
        len: 0,
        count: count as u32,
        list_kind: list_kind as u32,
        end: end as u32,
        parent: parent as u32,
    }
}

// The record of what holds no records: its list kind is 0.
pub fn leaf(
    kind: usize,
    name: usize,
    name_len: usize,
    start: usize,
    len: usize,
    count: usize,
    end: usize,
    parent: usize,
) -> Record
    requires { (Small kind name name_len) × (start < 2 ^ 32) × (len < 2 ^ 32) × (count < 2 ^ 32) × (end < 2 ^ 32) × (parent < 2 ^ 32) }
    ensures { result ≡ leaf_of kind name name_len start len count end parent }
{
    Record {
        kind: kind as u32,
        name: name as u32,
        name_len: name_len as u32,
        start: start as u32,
        len: len as u32,
        count: count as u32,
        list_kind: 0,
        end: end as u32,
        parent: parent as u32,
    }
}

// ---- rule 7

// Why words are no table to be used: they or the document are over a limit (refusal 9), or they do not form one (refusal 10).
#[derive(Clone, Copy, Debug)]
pub enum Unfit {
    OverLimit,
    NoTable,
}

impl From<Unfit> for Refused {
    ghost from_gives = { RefusedAs };

    // Each is refused at 0.
    fn from(unfit: Unfit) -> Refused {
        let refusal = match unfit {
            Unfit::OverLimit => Refusal::OverLimit,
            Unfit::NoTable => Refusal::NoTable,
        };
        Refused { refusal, place: 0 }
    }
}

// The kinds that hold records: lists and compounds.
pub fn is_container(kind: usize) -> bool
    ensures { result ≡ holds kind }
{
    if kind == kinds::LIST {
        return true;
    }
    kind == kinds::COMPOUND
}

// The kinds of arrays.
fn is_array(kind: usize) -> bool
    ensures { result ≡ is_array kind }
{
    if kind == kinds::BYTE_ARRAY {
        return true;
    }
    if kind == kinds::INT_ARRAY {
        return true;
    }
    kind == kinds::LONG_ARRAY
}

// The bytes of kinds 1 to 6, and of an element of an array (rule 4).
pub fn width_of(kind: usize) -> usize
    requires { kind ≤ 12 }
    ensures { result ≡ width_of kind }
{
    match kind {
        kinds::BYTE => 1,
        kinds::SHORT => 2,
        kinds::INT => 4,
        kinds::LONG => 8,
        kinds::FLOAT => 4,
        kinds::DOUBLE => 8,
        kinds::BYTE_ARRAY => 1,
        kinds::INT_ARRAY => 4,
        kinds::LONG_ARRAY => 8,
        _ => 0,
    }
}

// Whether a span lies in a document.
pub fn span_fits(start: usize, len: usize, doc_len: usize) -> bool
    ensures { Says result (start + len ≤ doc_len) }
{
    if doc_len < len {
        return false;
    }
    start <= doc_len - len
}

// Rule 4: the payload's length and the count of what holds no records.
pub fn leaf_fits(kind: usize, len: usize, count: usize) -> bool
    requires { count < 2 ^ 32 }
    ensures { result ≡ leaf_fits kind len count }
{
    if kind == kinds::STRING {
        return count == 0;
    }
    if is_array(kind) {
        return len == count * width_of(kind);
    }
    if kind == kinds::END {
        return false;
    }
    if kinds::DOUBLE < kind {
        return false;
    }
    if len != width_of(kind) {
        return false;
    }
    count == 0
}

// Whether record i agrees with rules 4 and 6 as one that holds no records.
fn leaf_agrees(doc_len: usize, table: &[u32], i: usize) -> bool
    requires { 9 * i + 9 ≤ length table.now }
    ensures { Says result (LeafRow doc_len (word_of table.now) i) }
{
    let len = word(table, i, LENGTH);
    if !leaf_fits(word(table, i, KIND), len, word(table, i, COUNT)) {
        return false;
    }
    if !span_fits(word(table, i, START), len, doc_len) {
        return false;
    }
    if word(table, i, LIST_KIND) != 0 {
        return false;
    }
    word(table, i, END) == i + 1
}

// Whether record j may be a child in container `parent`, which ends at `end`: it names it as its parent (02, [7]), and the elements of
// a list have no name.
fn child_agrees(table: &[u32], parent: usize, end: usize, list: bool, j: usize) -> bool
    requires { 9 * j + 9 ≤ length table.now }
    ensures { Says result (ChildIs (word_of table.now) true list parent end j) }
{
    let next = word(table, j, END);
    if next <= j {
        return false;
    }
    if end < next {
        return false;
    }
    if word(table, j, PARENT) != parent {
        return false;
    }
    if !list {
        return true;
    }
    if word(table, j, NAME) != 0 {
        return false;
    }
    word(table, j, NAME_LENGTH) == 0
}

// Hops through the children of `parent` by their end words, from record `from` up to `end`. Where the records before it agree, no record
// is a child of two containers, so all hops together are no more than the records. The children are counted, if they tile that range.
fn hop_through(table: &[u32], parent: usize, from: usize, end: usize, list: bool) -> Option<usize>
    requires { (from ≤ end) × (9 * end ≤ length table.now) }
    ensures { HopsAre (word_of table.now) true list parent end from result }
{
    let mut j = from;
    let mut count = 0;
    // A `while`: the next child is where this one ends.
    while j < end {
        if !child_agrees(table, parent, end, list, j) {
            return None;
        }
        count += 1;
        j = word(table, j, END);
    }
    Some(count)
}

// The list kind that record i of n must have.
fn list_kind_at(table: &[u32], n: usize, i: usize) -> usize
    requires { (i < n) × (length table.now ≡ 9 * n) }
    ensures { result ≡ list_kind_at (word_of table.now) i }
{
    if word(table, i, KIND) != kinds::LIST {
        return 0;
    }
    if word(table, i, COUNT) == 0 {
        return 0;
    }
    if n <= i + 1 {
        return 0;
    }
    word(table, i + 1, KIND)
}

// Whether record i of n, a list or a compound, agrees with rule 6, and its children tile it.
fn container_agrees(table: &[u32], n: usize, i: usize) -> bool
    requires { (i < n) × (length table.now ≡ 9 * n) × (holds (word_of table.now i 0) ≡ true) }
    ensures { Says result (ContainerRow (word_of table.now) true n i) }
{
    if word(table, i, START) != 0 {
        return false;
    }
    if word(table, i, LENGTH) != 0 {
        return false;
    }
    if word(table, i, LIST_KIND) != list_kind_at(table, n, i) {
        return false;
    }
    let end = word(table, i, END);
    if end <= i {
        return false;
    }
    if n < end {
        return false;
    }
    let count = word(table, i, COUNT);
    match hop_through(table, i, i + 1, end, word(table, i, KIND) == kinds::LIST) {
        Some(hops) => hops == count,
        None => false,
    }
}

// Whether record i of n agrees with rules 4 and 6.
fn record_agrees(doc_len: usize, table: &[u32], n: usize, i: usize) -> bool
    requires { (i < n) × (length table.now ≡ 9 * n) }
    ensures { Says result (RowIs doc_len (word_of table.now) true n i) }
{
    if !span_fits(word(table, i, NAME), word(table, i, NAME_LENGTH), doc_len) {
        return false;
    }
    if is_container(word(table, i, KIND)) {
        return container_agrees(table, n, i);
    }
    leaf_agrees(doc_len, table, i)
}

// Whether each of n records agrees with rules 4 and 6; the first that does not ends the search.
fn records_agree(doc_len: usize, table: &[u32], n: usize) -> bool
    requires { length table.now ≡ 9 * n }
    ensures { Says result ((i : ℕ) → i < n → RowIs doc_len (word_of table.now) true n i) }
{
    for i in 0..n {
        if !record_agrees(doc_len, table, n, i) {
            return false;
        }
    }
    true
}

// Rule 7: whether the words form a table over a document of doc_len bytes (refusal 9 comes before 10). Linear in the records, with no
// stack.
pub fn is_table(doc_len: usize, table: &[u32]) -> Result<(), Unfit>
    ensures { (VerdictIs doc_len table.now result) × (Answers doc_len table.now (verdict_out result)) }
{
    let n = table.len() / WORDS;
    if form::DOCUMENT < doc_len {
        return Err(Unfit::OverLimit);
    }
    if WORDS * form::RECORDS < table.len() {
        return Err(Unfit::OverLimit);
    }
    if table.len() != WORDS * n {
        return Err(Unfit::NoTable);
    }
    if n == 0 {
        return Err(Unfit::NoTable);
    }
    if word(table, 0, KIND) != kinds::COMPOUND {
        return Err(Unfit::NoTable);
    }
    if word(table, 0, END) != n {
        return Err(Unfit::NoTable);
    }
    if word(table, 0, PARENT) != 0 {
        return Err(Unfit::NoTable);
    }
    if records_agree(doc_len, table, n) {
        return Ok(());
    }
    Err(Unfit::NoTable)
}
