// Request [8]: rule 7 asked of stored lines, whose words are read where they stand, since no table is lent. The functions are those of `table`
// with a line's digits in the place of a table's words; they cite the same laws. `nine` says which edition the lines are of: records of nine
// words, the last of which names the parent ([7]), or of eight (01).
#![tactic(auto)]

ghost use Rattle.std.specs.Prelude.{◌≡◌, true, ℕ, ◌+◌, ◌≤◌, ◌<◌};
ghost use Rattle.form.specs.Table.{holds};
ghost use Rattle.form.specs.Moved.{words_in};
ghost use Rattle.form.specs.Rows.{ChildIs, LeafRow, list_kind_at, ContainerRow, RowIs, RowsAre};
ghost use Rattle.table.specs.Check.{Says, HopsAre};
ghost use Rattle.table_stored.specs.Words.{edition_of, line_in, line_word, WordAt, LineAt, Lined};

// The words of a record before parents (01), and the bytes of its line.
pub const OLD_WORDS: usize = 8;

pub const OLD_LINE: usize = table_store::WORD_DIGITS * OLD_WORDS + 1;

// How many words a record has.
pub fn words_in(nine: bool) -> usize
    ensures { result ≡ words_in (edition_of nine) }
{
    if nine { table::WORDS } else { OLD_WORDS }
}

// How many bytes a line has.
pub fn line_in(nine: bool) -> usize
    ensures { result ≡ line_in (edition_of nine) }
{
    if nine { table_store::LINE } else { OLD_LINE }
}

// Word k of line n.
pub fn word(lines: &[u8], nine: bool, n: usize, k: usize) -> usize
    requires { WordAt (edition_of nine) lines.now n k }
    ensures { result ≡ line_word (edition_of nine) lines.now n k }
{
    table_store::word_at(lines, line_in(nine) * n + table_store::WORD_DIGITS * k) as usize
}

// Whether record j names `parent` as its parent ([7]); in the edition before, none is asked for.
fn parent_agrees(lines: &[u8], nine: bool, parent: usize, j: usize) -> bool
    requires { LineAt (edition_of nine) lines.now j }
    ensures { Says result (nine ≡ true → line_word (edition_of nine) lines.now j 8 ≡ parent) }
{
    !nine || word(lines, nine, j, table::PARENT) == parent
}

// Whether record i agrees with rules 4 and 6 as one that holds no records.
fn leaf_agrees(doc_len: usize, lines: &[u8], nine: bool, i: usize) -> bool
    requires { LineAt (edition_of nine) lines.now i }
    ensures { Says result (LeafRow doc_len (line_word (edition_of nine) lines.now) i) }
{
    let len = word(lines, nine, i, table::LENGTH);
    if !table::leaf_fits(
        word(lines, nine, i, table::KIND),
        len,
        word(lines, nine, i, table::COUNT),
    ) {
        return false;
    }
    if !table::span_fits(word(lines, nine, i, table::START), len, doc_len) {
        return false;
    }
    if word(lines, nine, i, table::LIST_KIND) != 0 {
        return false;
    }
    word(lines, nine, i, table::END) == i + 1
}

// Whether record j may be a child in container `parent`, which ends at `end`: the elements of a list have no name.
fn child_agrees(lines: &[u8], nine: bool, parent: usize, end: usize, list: bool, j: usize) -> bool
    requires { LineAt (edition_of nine) lines.now j }
    ensures { Says result (ChildIs (line_word (edition_of nine) lines.now) nine list parent end j) }
{
    let next = word(lines, nine, j, table::END);
    if next <= j {
        return false;
    }
    if end < next {
        return false;
    }
    if !parent_agrees(lines, nine, parent, j) {
        return false;
    }
    if !list {
        return true;
    }
    if word(lines, nine, j, table::NAME) != 0 {
        return false;
    }
    word(lines, nine, j, table::NAME_LENGTH) == 0
}

// Hops through the children of `parent` by their end words, from record `from` up to `end`. Where the records before it agree, no record
// is a child of two containers, so all hops together are no more than the records. The children are counted, if they tile that range.
fn hop_through(
    lines: &[u8],
    nine: bool,
    parent: usize,
    from: usize,
    end: usize,
    list: bool,
) -> Option<usize>
    requires { (from ≤ end) × ((j : ℕ) → j < end → LineAt (edition_of nine) lines.now j) }
    ensures { HopsAre (line_word (edition_of nine) lines.now) nine list parent end from result }
{
    let mut j = from;
    let mut count = 0;
    // A `while`: the next child is where this one ends.
    while j < end {
        if !child_agrees(lines, nine, parent, end, list, j) {
            return None;
        }
        count += 1;
        j = word(lines, nine, j, table::END);
    }
    Some(count)
}

// The list kind that record i of n must have.
fn list_kind_at(lines: &[u8], nine: bool, n: usize, i: usize) -> usize
    requires { (i < n) × Lined (edition_of nine) lines.now n }
    ensures { result ≡ list_kind_at (line_word (edition_of nine) lines.now) i }
{
    if word(lines, nine, i, table::KIND) != table::kinds::LIST {
        return 0;
    }
    if word(lines, nine, i, table::COUNT) == 0 {
        return 0;
    }
    if n <= i + 1 {
        return 0;
    }
    word(lines, nine, i + 1, table::KIND)
}

// Whether record i of n, a list or a compound, agrees with rule 6, and its children tile it.
fn container_agrees(lines: &[u8], nine: bool, n: usize, i: usize) -> bool
    requires { (i < n) × Lined (edition_of nine) lines.now n × (holds (line_word (edition_of nine) lines.now i 0) ≡ true) }
    ensures { Says result (ContainerRow (line_word (edition_of nine) lines.now) nine n i) }
{
    if word(lines, nine, i, table::START) != 0 {
        return false;
    }
    if word(lines, nine, i, table::LENGTH) != 0 {
        return false;
    }
    if word(lines, nine, i, table::LIST_KIND) != list_kind_at(lines, nine, n, i) {
        return false;
    }
    let end = word(lines, nine, i, table::END);
    if end <= i {
        return false;
    }
    if n < end {
        return false;
    }
    let count = word(lines, nine, i, table::COUNT);
    match hop_through(
        lines,
        nine,
        i,
        i + 1,
        end,
        word(lines, nine, i, table::KIND) == table::kinds::LIST,
    ) {
        Some(hops) => hops == count,
        None => false,
    }
}

// Whether record i of n agrees with rules 4 and 6.
fn record_agrees(doc_len: usize, lines: &[u8], nine: bool, n: usize, i: usize) -> bool
    requires { (i < n) × Lined (edition_of nine) lines.now n }
    ensures { Says result (RowIs doc_len (line_word (edition_of nine) lines.now) nine n i) }
{
    if !table::span_fits(
        word(lines, nine, i, table::NAME),
        word(lines, nine, i, table::NAME_LENGTH),
        doc_len,
    ) {
        return false;
    }
    if table::is_container(word(lines, nine, i, table::KIND)) {
        return container_agrees(lines, nine, n, i);
    }
    leaf_agrees(doc_len, lines, nine, i)
}

// Whether each of n records agrees with rules 4 and 6; the first that does not ends the search.
fn records_agree(doc_len: usize, lines: &[u8], nine: bool, n: usize) -> bool
    requires { Lined (edition_of nine) lines.now n }
    ensures { Says result ((i : ℕ) → i < n → RowIs doc_len (line_word (edition_of nine) lines.now) nine n i) }
{
    for i in 0..n {
        if !record_agrees(doc_len, lines, nine, n, i) {
            return false;
        }
    }
    true
}

// Rule 7 in the lines' own edition: whether the words of n good lines form a table over a document of doc_len bytes (10). Linear in the lines,
// with no stack.
pub fn is_table(doc_len: usize, lines: &[u8], nine: bool, n: usize) -> bool
    requires { Lined (edition_of nine) lines.now n }
    ensures { Says result (RowsAre doc_len (line_word (edition_of nine) lines.now) nine n) }
{
    if n == 0 {
        return false;
    }
    if word(lines, nine, 0, table::KIND) != table::kinds::COMPOUND {
        return false;
    }
    if word(lines, nine, 0, table::END) != n {
        return false;
    }
    if !parent_agrees(lines, nine, 0, 0) {
        return false;
    }
    records_agree(doc_len, lines, nine, n)
}
