// Lines from standard input, their fields, and hexadecimal digits as bytes and words: what the listing and the replay programs share. What
// is read and printed is tested by running; all else is promised.
#![tactic(auto)]

ghost use Rattle.std.specs.Prelude.{◌≡◌, true, ◌+◌, ◌*◌, ◌≤◌, ◌<◌, min, length, take, set};
ghost use Rattle.form.specs.Spans.{over};
ghost use Rattle.lines.specs.Buffers.{firsts, Front, with_byte};
ghost use Rattle.lines.specs.Digits.{digit_of, all_digits, byte_of, byte_at, hex_bytes, Unhexed, Counted};
ghost use Rattle.lines.specs.Fields.{too_many, capped, with_digit, decimal_of, field_at};
ghost use Rattle.lines.specs.Words.{word_at, with_words};
ghost use Rattle.lines.specs.Chunks.{unread, InChunk, NextLine, ended_line, last_line};

// What is left of a chunk of input: the bytes from `at` up to `have`.
#[derive(Clone, Copy)]
pub struct Input {
    pub at: usize,
    pub have: usize,
}

// A line without its line feed, at the front of the lent buffer; a line that is too long for it; or the end of the input.
#[derive(Clone, Copy)]
pub enum Line {
    Got { len: usize, input: Input },
    Long { input: Input },
    End,
}

// The input before anything is read.
pub fn start() -> Input
    ensures { result ≡ unread }
{
    Input { at: 0, have: 0 }
}

// The line that ends here.
fn ended(len: usize, long: bool, input: Input) -> Line
    ensures { result ≡ ended_line len long input }
{
    if long {
        Line::Long { input }
    } else {
        Line::Got { len, input }
    }
}

// The last line, which no line feed ends.
fn last(len: usize, long: bool, input: Input) -> Line
    ensures { result ≡ last_line len long input }
{
    if len == 0 && !long {
        return Line::End;
    }
    ended(len, long, input)
}

// What is left, with a new chunk where that is nothing.
fn filled(chunk: &mut [u8], input: Input) -> Input
    ensures { InChunk chunk.new result }
{
    if input.at < input.have && input.have <= chunk.len() {
        return input;
    }
    let have = io::read_full(0, chunk);
    Input { at: 0, have }
}

// The next line. A last line without a line feed counts if it isn't empty. The turns are for the loop to be seen to end: no line uses
// them up.
pub fn next_line(chunk: &mut [u8], input: Input, line: &mut [u8]) -> Line
    ensures { NextLine chunk.new line.old line.new result }
{
    let mut left = input;
    let mut len: usize = 0;
    let mut long = false;
    for _ in 0..u64::MAX {
        left = filled(chunk, left);
        let at = left.at;
        let have = left.have;
        if have <= at {
            return last(len, long, left);
        }
        let b = chunk[at];
        left = Input { at: at + 1, have };
        if b == b'\n' {
            return ended(len, long, left);
        }
        if len < line.len() {
            line[len] = b;
            len += 1;
        } else {
            long = true;
        }
    }
    last(len, long, left)
}

// The value of a hexadecimal digit of either case; 16 for any other byte.
#[tactic(auto, unfolding(crate::specs::Digits::digit_of))]
pub fn digit(b: u8) -> u8
    ensures { result ≡ digit_of b }
{
    match b {
        b'0'..=b'9' => b - b'0',
        b'A'..=b'F' => b - b'A' + 10,
        b'a'..=b'f' => b - b'a' + 10,
        _ => 16,
    }
}

// Whether each of the first n bytes is a digit.
fn all_digits(line: &[u8], n: usize) -> bool
    requires { n ≤ length line.now }
    ensures { result ≡ all_digits (take n line.now) }
{
    line[..n].iter().all(|b| digit(*b) < 16)
}

// The byte that two digits stand for.
fn pair(high: u8, low: u8) -> u8
    requires { (digit_of high < 16) × (digit_of low < 16) }
    ensures { result ≡ byte_of high low }
{
    digit(high) * 16 + digit(low)
}

// The bytes that a line's first digits stand for, put into `out`.
fn put_bytes(line: &[u8], many: usize, out: &mut [u8])
    requires { (2 * many ≤ length line.now) × (many ≤ length out.old) × (all_digits (take (2 * many) line.now) ≡ true) }
    ensures { out.new ≡ over out.old 0 (firsts (byte_at line.now) many) }
{
    for i in 0..many {
        out[i] = pair(line[2 * i], line[2 * i + 1]);
    }
}

// The first n bytes of a line as hexadecimal digits, their bytes put into `out`, and how many those are: none where the digits' number is
// odd, `out` is too short or a byte is no digit, and then nothing is put.
pub fn unhex(line: &[u8], n: usize, out: &mut [u8]) -> Option<usize>
    ensures { Unhexed (hex_bytes line.now n (length out.old)) out.old out.new result }
{
    if line.len() < n || n % 2 == 1 || out.len() < n / 2 || !all_digits(line, n) {
        return None;
    }
    put_bytes(line, n / 2, out);
    Some(n / 2)
}

// A number in decimal, after a blank.
pub fn print_number(n: usize) {
    io::write_all(1, b" ");
    io::print_decimal(1, n as u64);
}

// ---- the fields of a line, with a blank after each but the last

// More than any field of a line stands for.
pub const TOO_MANY: usize = 1000000;

// The bytes of a line from `from` up to the next blank, or to the end, put into `field` as far as it goes; how many that are.
pub fn take_field(line: &[u8], len: usize, from: usize, field: &mut [u8]) -> usize
    ensures { Front (field_at line.now len from (length field.old)) field.old field.new result }
{
    let mut n = 0;
    for i in from..len.min(line.len()) {
        if field.len() <= n {
            return n;
        }
        let b = line[i];
        if b == b' ' {
            return n;
        }
        field[n] = b;
        n += 1;
    }
    n
}

// The first n bytes of a field as hexadecimal digits, their bytes put into `out`; how many bytes that gives, or too many where it gives none.
pub fn bytes_of(field: &[u8], n: usize, out: &mut [u8]) -> usize
    ensures { Counted (hex_bytes field.now n (length out.old)) out.old out.new result }
{
    unhex(field, n, out).unwrap_or(TOO_MANY)
}

// A decimal number with one digit more.
#[tactic(auto, unfolding(crate::specs::Fields::with_digit))]
fn step(v: usize, b: u8) -> usize
    requires { v ≤ too_many }
    ensures { result ≡ with_digit v b }
{
    match b {
        b'0'..=b'9' => (v * 10 + usize::from(b - b'0')).min(TOO_MANY),
        _ => TOO_MANY,
    }
}

// The first n bytes of a field as decimal digits.
pub fn decimal(field: &[u8], n: usize) -> usize
    ensures { result ≡ decimal_of (take n field.now) }
{
    let mut v = 0;
    for b in &field[..n.min(field.len())] {
        v = step(v, *b);
    }
    v
}

// The sum of two numbers, or too many.
pub fn sum(a: usize, b: usize) -> usize
    ensures { result ≡ capped (a + b) }
{
    a.saturating_add(b).min(TOO_MANY)
}

// Word i of those that bytes make, 0 where there are no four bytes for it.
#[tactic(auto, unfolding(crate::specs::Words::word_at))]
pub fn word_of(bytes: &[u8], i: usize) -> u32
    ensures { result ≡ word_at bytes.now i }
{
    if i < bytes.len() / 4 {
        raw::u32_at(bytes, 4 * i)
    } else {
        0
    }
}

// Puts word i, where there is room for it.
pub fn put_word(table: &mut [u32], i: usize, w: u32)
    ensures { table.new ≡ set table.old i w }
{
    if i < table.len() {
        table[i] = w;
    }
}

// The first n words that bytes make, put into `table` as far as it goes.
pub fn fill_words(bytes: &[u8], n: usize, table: &mut [u32])
    ensures { table.new ≡ with_words bytes.now n table.old }
{
    for i in 0..n.min(table.len()) {
        table[i] = word_of(bytes, i);
    }
}

// A line that has no such fields.
pub fn print_bad() {
    io::write_all(1, b"badline\n");
}

// The capital hexadecimal digit of a number below 16.
fn capital(n: u8) -> u8 {
    match n {
        0..=9 => b'0' + n,
        10..=15 => b'A' + (n - 10),
        _ => b'?',
    }
}

// Bytes in hexadecimal.
pub fn print_bytes(bytes: &[u8]) {
    for b in bytes {
        let pair = [capital(*b / 16), capital(*b % 16)];
        io::write_all(1, &pair);
    }
}

// The byte b at each place from `from` up to `to` that there is.
pub fn fill(out: &mut [u8], from: usize, to: usize, b: u8)
    ensures { out.new ≡ with_byte out.old from to b }
{
    let end = to.min(out.len());
    if from < end {
        out[from..end].fill(b);
    }
}

// ---- words that are lent to a call, and what it left of them

// What stands in them before.
pub const UNTOUCHED: u32 = 0xAAAAAAAA;

// The first n words as they are before a call.
pub fn untouched(table: &mut [u32], n: usize)
    ensures { table.new ≡ with_byte table.old 0 n 2863311530 }
{
    let end = n.min(table.len());
    table[..end].fill(UNTOUCHED);
}

// A word in decimal, or a dash for one that is as it was.
fn print_word(w: u32) {
    if w == UNTOUCHED {
        io::write_all(1, b" -");
    } else {
        print_number(w as usize);
    }
}

// Words one after the other.
pub fn print_words(words: &[u32]) {
    for w in words {
        print_word(*w);
    }
}

// Whether each word is 0.
fn all_zero(words: &[u32]) -> bool {
    words.iter().all(|w| *w == 0)
}

// The words of a table, or that each is 0.
pub fn print_table(table: &[u32]) {
    if all_zero(table) {
        io::write_all(1, b" zero");
    } else {
        print_words(table);
    }
}

// Whether a word of the table is not the one that the bytes make.
fn changed(bytes: &[u8], table: &[u32]) -> bool {
    table
        .iter()
        .enumerate()
        .any(|(i, w)| *w != word_of(bytes, i))
}

// That a table's words are no longer those that the bytes make, or nothing.
pub fn print_changed(bytes: &[u8], table: &[u32]) {
    if changed(bytes, table) {
        io::write_all(1, b" changed");
    }
}
