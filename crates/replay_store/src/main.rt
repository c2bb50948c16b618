// Replays recorded answers on tables stored as lines. A line of input is a case, its fields with a blank between them. `r` asks for a
// reading: lines, in hexadecimal digits since they have line feeds; and the table's words, decimal. `w` asks for a writing: the document's
// length, in eight hexadecimal digits since it may be more than a decimal field holds; the table's words, of eight such digits each; and
// the room of the output in bytes, decimal. For each case it prints the answer and then, after a reading, every word of the table, which
// was filled with AAAAAAAA before, or that each is 0; after a writing the whole output, which was filled with AA before. The answers in
// stdout are of a second reading of the paper: tests/replay/store.py made them.
#![tactic(auto)]

use form::refusals::Refused;
use lines::Line;

// The answer to a reading or a writing.
fn print_answer(answer: Result<usize, Refused>) {
    match answer {
        Ok(count) => {
            io::write_all(1, b"done");
            lines::print_number(count);
        }
        Err(refused) => {
            io::write_all(1, b"refused");
            lines::print_number(refused.refusal.number() as usize);
            lines::print_number(refused.place);
        }
    }
    io::write_all(1, b":");
}

// ---- reading

// The answer to lines, and what reading them back left in the table.
fn print_read(text: &[u8], table: &mut [u32]) {
    print_answer(table_store::read_lines(text, table));
    lines::print_table(table);
    io::write_all(1, b"\n");
}

// The answer to the first `size` bytes as lines, with n words of table.
fn read_case(bytes: &[u8], size: usize, table: &mut [u32], n: usize) {
    if size <= bytes.len() && n <= table.len() {
        print_read(&bytes[..size], &mut table[..n]);
    } else {
        lines::print_bad();
    }
}

// The fields of a reading, from `from` on: the lines and the table's words.
fn print_reading(
    line: &[u8],
    len: usize,
    from: usize,
    field: &mut [u8],
    bytes: &mut [u8],
    table: &mut [u32],
) {
    let b = lines::take_field(line, len, from, field);
    let size = lines::bytes_of(field, b, bytes);
    let next = lines::sum(lines::sum(from, b), 1);
    let c = lines::take_field(line, len, next, field);
    let n = lines::decimal(field, c);
    lines::untouched(table, n);
    read_case(bytes, size, table, n);
}

// ---- writing

// The answer to a table over a document of so many bytes, and what writing its lines left in the output.
fn print_written(doc_len: usize, table: &[u32], out: &mut [u8]) {
    print_answer(table_store::write_lines(doc_len, table, out));
    io::write_all(1, b" ");
    lines::print_bytes(out);
    io::write_all(1, b"\n");
}

// The answer to the first n words as a table, with so much room.
fn write_case(doc_len: usize, table: &[u32], n: usize, out: &mut [u8], room: usize) {
    if n <= table.len() && room <= out.len() {
        print_written(doc_len, &table[..n], &mut out[..room]);
    } else {
        lines::print_bad();
    }
}

// The last fields of a writing: the table's words and the room.
fn print_last(
    line: &[u8],
    len: usize,
    from: usize,
    field: &mut [u8],
    bytes: &mut [u8],
    doc_len: usize,
    table: &mut [u32],
    out: &mut [u8],
) {
    let c = lines::take_field(line, len, from, field);
    let n = lines::bytes_of(field, c, bytes) / 4;
    lines::fill_words(bytes, n, table);
    let next = lines::sum(lines::sum(from, c), 1);
    let d = lines::take_field(line, len, next, field);
    let room = lines::decimal(field, d);
    lines::fill(out, 0, room, 0xAA);
    write_case(doc_len, table, n, out, room);
}

// The fields of a writing, from `from` on: the document's length first.
fn print_writing(
    line: &[u8],
    len: usize,
    from: usize,
    field: &mut [u8],
    bytes: &mut [u8],
    table: &mut [u32],
    out: &mut [u8],
) {
    let b = lines::take_field(line, len, from, field);
    if lines::bytes_of(field, b, bytes) == 4 {
        let doc_len = lines::word_of(bytes, 0) as usize;
        let next = lines::sum(lines::sum(from, b), 1);
        print_last(line, len, next, field, bytes, doc_len, table, out);
    } else {
        lines::print_bad();
    }
}

// ---- every line

// Whether the first n bytes of a field are this letter alone.
fn is_letter(field: &[u8], n: usize, letter: u8) -> bool {
    n == 1 && !field.is_empty() && field[0] == letter
}

// The answer to a line: its first field tells a reading from a writing.
fn print_line(
    line: &[u8],
    len: usize,
    field: &mut [u8],
    bytes: &mut [u8],
    table: &mut [u32],
    out: &mut [u8],
) {
    let a = lines::take_field(line, len, 0, field);
    let next = lines::sum(a, 1);
    if is_letter(field, a, b'r') {
        print_reading(line, len, next, field, bytes, table);
    } else if is_letter(field, a, b'w') {
        print_writing(line, len, next, field, bytes, table, out);
    } else {
        lines::print_bad();
    }
}

// Every line in turn, by way of lent buffers. The turns are for the loop to be seen to end: no input uses them up.
fn replay(
    chunk: &mut [u8],
    line: &mut [u8],
    field: &mut [u8],
    bytes: &mut [u8],
    table: &mut [u32],
    out: &mut [u8],
) {
    let mut input = lines::start();
    for _ in 0..u64::MAX {
        match lines::next_line(chunk, input, line) {
            Line::End => return,
            Line::Long { input: rest } => {
                lines::print_bad();
                input = rest;
            }
            Line::Got { len, input: rest } => {
                print_line(line, len, field, bytes, table, out);
                input = rest;
            }
        }
    }
}

fn main() {
    let mut chunk = io::large_buffer();
    let mut line = io::large_buffer();
    let mut field = io::large_buffer();
    let mut bytes = [0u8; 9216];
    let mut table = [0u32; 128 * table::WORDS];
    let mut out = [0u8; 9216];
    replay(
        &mut chunk, &mut line, &mut field, &mut bytes, &mut table, &mut out,
    );
}
