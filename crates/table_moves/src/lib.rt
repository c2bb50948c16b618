// Request [8]: the lines of a table moved from the edition before parents (01: eight words to a record) to that with them ([7]: nine), and back.
// No memory is taken: what is judged and what is put is read from the lines.
#![tactic(auto)]

ghost use Rattle.form.specs.Answer.{no};
ghost use Rattle.form.specs.Refusals.{number_of};
ghost use Rattle.std.specs.Prelude.{◌≡◌, [], ◌∷◌, ◌++◌, ◌+◌, ◌*◌, ◌≤◌, ◌<◌, ◌^◌, length};
ghost use Rattle.form.specs.Spans.{part, over};
ghost use Rattle.form.specs.Stored.{hex_digits};
ghost use Rattle.form.specs.Moved.{eight, nine, other, MoveIs};
ghost use Rattle.table_store.specs.Steps.{answer_out};
ghost use Rattle.table_stored.specs.Words.{edition_of, line_in, line_word};
ghost use Rattle.table_moves.specs.Steps.{bad_at, TakenIs, JudgedIs, Innermost, Climbable, Planted, PutIs};

use form::refusals::{Refusal, Refused};

// The digits that a record has in both editions.
const FRONT: usize = table_store::WORD_DIGITS * table_stored::OLD_WORDS;

// ---- what is asked before a byte is put

// What a bad line gives: 9 where there are more lines than the limit leaves, those behind it counted; else 29 at its number.
fn bad_line(lines: &[u8], number: usize) -> Refused
    ensures { no (number_of result.refusal) result.place ≡ bad_at lines.now number }
{
    if form::RECORDS < table_store::count_lines(lines) {
        return Refused {
            refusal: Refusal::OverLimit,
            place: 0,
        };
    }
    Refused {
        refusal: Refusal::BadLine,
        place: number,
    }
}

// Line by line whether each is good, of the width that is moved (29 at its number, from 1), within the limit (9); how many there are.
fn good_lines(lines: &[u8], nine: bool) -> Result<usize, Refused>
    ensures { TakenIs nine lines.now (answer_out result) }
{
    let words = table_stored::words_in(nine);
    let line = table_stored::line_in(nine);
    let mut at: usize = 0;
    let mut n: usize = 0;
    // A `while`: how many lines there are is known at their end.
    while at < lines.len() {
        if n == form::RECORDS {
            return Err(Refused {
                refusal: Refusal::OverLimit,
                place: 0,
            });
        }
        if !table_store::is_line(lines, at, words) {
            return Err(bad_line(lines, n + 1));
        }
        at += line;
        n += 1;
    }
    Ok(n)
}

// The four refusals in their order, 9, 29, 10 and 13; or how many lines there are to move, into an output of so many bytes.
fn judge(doc_len: usize, lines: &[u8], nine: bool, room: usize) -> Result<usize, Refused>
    ensures { JudgedIs nine doc_len lines.now room (answer_out result) }
{
    if form::DOCUMENT < doc_len {
        return Err(Refused {
            refusal: Refusal::OverLimit,
            place: 0,
        });
    }
    let n = good_lines(lines, nine)?;
    if !table_stored::is_table(doc_len, lines, nine, n) {
        return Err(Refused {
            refusal: Refusal::NoTable,
            place: 0,
        });
    }
    if room < table_stored::line_in(!nine) * n {
        return Err(Refused {
            refusal: Refusal::OutputFull,
            place: 0,
        });
    }
    Ok(n)
}

// ---- lines put

// The parent of record i: the last record before it that has not ended there. The search begins at the record before, and climbs by the parents
// that are put already. A record is climbed past once, where it ends, so that all searches together are linear.
fn parent_of(lines: &[u8], i: usize, out: &[u8]) -> usize
    requires { Climbable lines.now i out.now }
    ensures { Innermost (line_word eight lines.now) i result }
{
    if i == 0 {
        return 0;
    }
    let mut q = i - 1;
    while table_stored::word(lines, false, q, table::END) <= i {
        q = table_stored::word(out, true, q, table::PARENT);
    }
    q
}

// Line i with its parent put in its place.
fn put_up_line(lines: &[u8], i: usize, parent: usize, out: &mut [u8])
    requires { (65 * i + 64 ≤ length lines.now) × (73 * i + 73 ≤ length out.old) × (parent < 2 ^ 32) }
    ensures { out.new ≡ over out.old (73 * i) (part lines.now (65 * i) 64 ++ (hex_digits 8 parent ++ (10 ∷ []))) }
{
    let at = table_store::LINE * i;
    slices::copy(lines, table_stored::OLD_LINE * i, FRONT, out, at);
    table_store::put_word(out, at + FRONT, parent as u32);
    out[at + FRONT + table_store::WORD_DIGITS] = b'\n';
}

// Line i without its parent put in its place.
fn put_down_line(lines: &[u8], i: usize, out: &mut [u8])
    requires { (73 * i + 64 ≤ length lines.now) × (65 * i + 65 ≤ length out.old) }
    ensures { out.new ≡ over out.old (65 * i) (part lines.now (73 * i) 64 ++ (10 ∷ [])) }
{
    let at = table_stored::OLD_LINE * i;
    slices::copy(lines, table_store::LINE * i, FRONT, out, at);
    out[at + FRONT] = b'\n';
}

// The lines of the other edition of n records, put from 0 on.
fn put(lines: &[u8], nine: bool, n: usize, out: &mut [u8])
    requires { Planted (edition_of nine) lines.now n × (line_in (other (edition_of nine)) * n ≤ length out.old) }
    ensures { PutIs (edition_of nine) lines.now n out.old out.new }
{
    for i in 0..n {
        if nine {
            put_down_line(lines, i, out);
        } else {
            let parent = parent_of(lines, i, out);
            put_up_line(lines, i, parent, out);
        }
    }
}

// ---- the moves

// Moves lines to the other edition, over a document of doc_len bytes ([8]; refusals 9, 29, 10, 13). A refusal leaves the output as it was.
fn moved(doc_len: usize, lines: &[u8], nine: bool, out: &mut [u8]) -> Result<usize, Refused>
    ensures { MoveIs (edition_of nine) doc_len lines.now out.old (answer_out result) out.new }
{
    let n = judge(doc_len, lines, nine, out.len())?;
    put(lines, nine, n, out);
    Ok(table_stored::line_in(!nine) * n)
}

// Moves lines of eight words to lines of nine, with the parents worked out, over a document of doc_len bytes ([8]; refusals 9, 29, 10, 13). A
// refusal leaves the output as it was.
pub fn lines_up(doc_len: usize, lines: &[u8], out: &mut [u8]) -> Result<usize, Refused>
    ensures { MoveIs eight doc_len lines.now out.old (answer_out result) out.new }
{
    moved(doc_len, lines, false, out)
}

// Moves lines of nine words to lines of eight, which drops the parents; a wrong one is 10 ([8]; refusals 9, 29, 10, 13). A refusal leaves the
// output as it was.
pub fn lines_down(doc_len: usize, lines: &[u8], out: &mut [u8]) -> Result<usize, Refused>
    ensures { MoveIs nine doc_len lines.now out.old (answer_out result) out.new }
{
    moved(doc_len, lines, true, out)
}
