// Request [6]: a table stored as lines of lowercase hexadecimal, one record a line, and read back. A line has 73 bytes: nine words ([7]) of
// eight digits, and a line feed. After good lines the next begins at a known place, so none is searched for.
#![tactic(auto)]

ghost use Rattle.std.specs.Prelude.{◌≡◌, true, ◌+◌, ◌*◌, ◌≤◌, ◌<◌, length, drop};
ghost use Rattle.form.specs.Spans.{part, over};
ghost use Rattle.form.specs.Stored.{hex_digit, hex_digits, line_of, lines_of, lines_in, digit_of, all_digits, hex_value, words_of, WriteLinesIs, ReadLinesIs};
ghost use Rattle.table_store.specs.Steps.{answer_out, feeds, fed_at, FirstLine, TakenIs};

use form::refusals::{Refusal, Refused};

// The digits of a word, and those of a record.
pub const WORD_DIGITS: usize = 8;

const DIGITS: usize = WORD_DIGITS * table::WORDS;

// The bytes of a line.
pub const LINE: usize = DIGITS + 1;

// ---- writing

// The digit of a number below 16, in lower case: from 10 on 39 bytes further, since a stands that far behind what follows 9. No branch is
// asked for, so that the compiler puts many at once.
fn digit(n: u8) -> u8
    requires { n < 16 }
    ensures { result ≡ hex_digit n }
{
    b'0' + n + 39 * ((n + 6) / 16)
}

// The eight digits of a word put at `at`, the highest first. None waits for another, so that the compiler puts many at once.
pub fn put_word(out: &mut [u8], at: usize, word: u32)
    requires { at + 8 ≤ length out.old }
    ensures { out.new ≡ over out.old at (hex_digits 8 word) }
{
    for i in 0..WORD_DIGITS {
        out[at + i] = digit(((word >> (28 - 4 * i)) % 16) as u8);
    }
}

// The line of record n put in its place.
fn put_line(table: &[u32], n: usize, out: &mut [u8])
    requires { (9 * n + 9 ≤ length table.now) × (73 * n + 73 ≤ length out.old) }
    ensures { out.new ≡ over out.old (73 * n) (line_of (part table.now (9 * n) 9)) }
{
    for k in 0..table::WORDS {
        put_word(out, LINE * n + WORD_DIGITS * k, table[table::WORDS * n + k]);
    }
    out[LINE * n + DIGITS] = b'\n';
}

// The lines of n records put from 0 on.
fn put_lines(table: &[u32], n: usize, out: &mut [u8])
    requires { (9 * n ≤ length table.now) × (73 * n ≤ length out.old) }
    ensures { out.new ≡ over out.old 0 (lines_of 9 n table.now) }
{
    for i in 0..n {
        put_line(table, i, out);
    }
}

// Writes the lines of a table over a document of doc_len bytes ([6]; refusals 9, 10, 13), and answers how many bytes that are. A refusal
// leaves the output as it was.
pub fn write_lines(doc_len: usize, table: &[u32], out: &mut [u8]) -> Result<usize, Refused>
    ensures { WriteLinesIs doc_len table.now out.old (answer_out result) out.new }
{
    table::is_table(doc_len, table)?;
    let n = table.len() / table::WORDS;
    if out.len() < LINE * n {
        return Err(Refused {
            refusal: Refusal::OutputFull,
            place: 0,
        });
    }
    put_lines(table, n, out);
    Ok(LINE * n)
}

// ---- reading back

// How many line feeds there are.
fn count_feeds(lines: &[u8]) -> usize
    ensures { result ≡ feeds lines.now }
{
    let mut n: usize = 0;
    for b in lines {
        if *b == b'\n' {
            n += 1;
        }
    }
    n
}

// How many lines there are: one for each line feed, and one more where the last is unended.
pub fn count_lines(lines: &[u8]) -> usize
    ensures { result ≡ length (lines_in lines.now) }
{
    let n = count_feeds(lines);
    let len = lines.len();
    if len == 0 || lines[len - 1] == b'\n' {
        return n;
    }
    n + 1
}

// The value of a digit in lower case; 16 for any other byte.
fn digit_of(b: u8) -> u8
    ensures { result ≡ digit_of b }
{
    match b {
        b'0'..=b'9' => b - b'0',
        b'a'..=b'f' => b - b'a' + 10,
        _ => 16,
    }
}

// Whether so many digits stand at `at`. The largest value is kept and all are looked at, so that the compiler takes many at once.
fn digits_at(lines: &[u8], at: usize, count: usize) -> bool
    requires { at + count ≤ length lines.now }
    ensures { result ≡ all_digits (part lines.now at count) }
{
    let mut largest: u8 = 0;
    for b in &lines[at..at + count] {
        let value = digit_of(*b);
        if largest < value {
            largest = value;
        }
    }
    largest < 16
}

// Whether a line feed stands at `at`: the end of the data ends no line.
fn fed(lines: &[u8], at: usize) -> bool
    ensures { result ≡ fed_at lines.now at }
{
    at < lines.len() && lines[at] == b'\n'
}

// Whether the line that begins at `at` is good, a line of so many words (29). [8] reads lines of eight too.
pub fn is_line(lines: &[u8], at: usize, words: usize) -> bool
    requires { (at < length lines.now) × (words ≤ 9) }
    ensures { FirstLine words (drop at lines.now) result }
{
    let digits = WORD_DIGITS * words;
    fed(lines, at + digits) && digits_at(lines, at, digits)
}

// The value of a byte that is a digit, with one test.
fn value_of(b: u8) -> u8
    requires { digit_of b < 16 }
    ensures { result ≡ digit_of b }
{
    if b <= b'9' { b - b'0' } else { b - b'a' + 10 }
}

// The word that eight digits at `at` are, as a sum: here too none waits for another.
pub fn word_at(lines: &[u8], at: usize) -> u32
    requires { (at + 8 ≤ length lines.now) × (all_digits (part lines.now at 8) ≡ true) }
    ensures { result ≡ hex_value (part lines.now at 8) }
{
    let mut n: u32 = 0;
    for i in 0..WORD_DIGITS {
        n += (value_of(lines[at + i]) as u32) << (28 - 4 * i);
    }
    n
}

// The words of good line n, from 0, put into record n.
fn take_line(lines: &[u8], n: usize, table: &mut [u32])
    requires { (73 * n + 72 ≤ length lines.now) × (9 * n + 9 ≤ length table.old) × (all_digits (part lines.now (73 * n) 72) ≡ true) }
    ensures { table.new ≡ over table.old (9 * n) (words_of 9 (part lines.now (73 * n) 72)) }
{
    for k in 0..table::WORDS {
        table[table::WORDS * n + k] = word_at(lines, LINE * n + WORD_DIGITS * k);
    }
}

// Line by line: 29, then 8; how many records were taken. What a refusal leaves in the table is cleared by the caller.
fn take_lines(lines: &[u8], table: &mut [u32]) -> Result<usize, Refused>
    ensures { TakenIs lines.now table.old (answer_out result) table.new }
{
    let room = table.len() / table::WORDS;
    let mut n: usize = 0;
    // A `while`: how many lines there are is known at their end.
    while LINE * n < lines.len() {
        if !is_line(lines, LINE * n, table::WORDS) {
            return Err(Refused {
                refusal: Refusal::BadLine,
                place: n + 1,
            });
        }
        if room <= n {
            return Err(Refused {
                refusal: Refusal::TableFull,
                place: n + 1,
            });
        }
        take_line(lines, n, table);
        n += 1;
    }
    Ok(n)
}

// Reads lines back into a table ([6]; 9, then for each line 29 and 8, with its number from 1). A refusal leaves the table all zero. Whether the
// words form a table is not asked. Lines are counted for 9 only where they are not all good: those that are were counted in taking them.
pub fn read_lines(lines: &[u8], table: &mut [u32]) -> Result<usize, Refused>
    ensures { ReadLinesIs lines.now table.old (answer_out result) table.new }
{
    match take_lines(lines, table) {
        Ok(count) => {
            if form::RECORDS < count {
                table::clear(table);
                return Err(Refused {
                    refusal: Refusal::OverLimit,
                    place: 0,
                });
            }
            Ok(count)
        }
        Err(refused) => {
            table::clear(table);
            if form::RECORDS < count_lines(lines) {
                return Err(Refused {
                    refusal: Refusal::OverLimit,
                    place: 0,
                });
            }
            Err(refused)
        }
    }
}
