// Replays recorded answers on tables. A line of input has four fields, each after a blank but the first: a document in hexadecimal digits; a
// decimal number of bytes `a` that follow it; the table's words, of eight hexadecimal digits each; and the room of the output in bytes,
// decimal. For each line it prints whether the words form a table; the writer's answer, of a refusal its number, its place and the record
// beside it (02, [3]); the whole output after the write, which was filled with AA before; and whether the table's words changed. The answers
// in stdout are of a second check and a second writer: tests/replay/tables.py made them.
#![tactic(auto)]

ghost use Rattle.std.specs.Prelude.{◌≡◌, length};

use form::forms::JAVA;
use lines::Line;
use nbt_writer::Unwritten;
use table::Unfit;

// Whether the words form a table.
fn print_verdict(verdict: Result<(), Unfit>) {
    match verdict {
        Ok(()) => {
            io::write_all(1, b"table");
        }
        Err(Unfit::NoTable) => {
            io::write_all(1, b"none");
        }
        Err(Unfit::OverLimit) => {
            io::write_all(1, b"over");
        }
    }
}

// The answer to a write.
fn print_answer(answer: Result<usize, Unwritten>) {
    match answer {
        Ok(bytes) => {
            io::write_all(1, b" written");
            lines::print_number(bytes);
        }
        Err(e) => {
            io::write_all(1, b" refused");
            lines::print_number(usize::from(e.refusal.number()));
            lines::print_number(e.place);
            lines::print_number(e.record);
        }
    }
    io::write_all(1, b" ");
}

// The answers to a table, and what the write left.
fn print_answers(doc: &[u8], bytes: &[u8], table: &mut [u32], out: &mut [u8]) {
    print_verdict(table::is_table(doc.len(), table));
    print_answer(nbt_writer::write(doc, table, out, JAVA, JAVA));
    lines::print_bytes(out);
    lines::print_changed(bytes, table);
    io::write_all(1, b"\n");
}

// The answers to the first `size` bytes as a document and the first n words as a table, with so much room.
fn print_case(
    doc: &[u8],
    size: usize,
    bytes: &[u8],
    table: &mut [u32],
    n: usize,
    out: &mut [u8],
    room: usize,
) {
    if size <= doc.len() && n <= table.len() && room <= out.len() {
        print_answers(&doc[..size], bytes, &mut table[..n], &mut out[..room]);
    } else {
        lines::print_bad();
    }
}

// The last field of a line, from `from` on: the room.
fn print_last(
    line: &[u8],
    len: usize,
    from: usize,
    field: &mut [u8],
    doc: &[u8],
    size: usize,
    bytes: &[u8],
    table: &mut [u32],
    n: usize,
    out: &mut [u8],
) {
    let d = lines::take_field(line, len, from, field);
    let room = lines::decimal(field, d);
    lines::fill(out, 0, room, 0xAA);
    print_case(doc, size, bytes, table, n, out, room);
}

// The third field: the table's words.
fn print_third(
    line: &[u8],
    len: usize,
    from: usize,
    field: &mut [u8],
    doc: &[u8],
    size: usize,
    bytes: &mut [u8],
    table: &mut [u32],
    out: &mut [u8],
) {
    let c = lines::take_field(line, len, from, field);
    let n = lines::bytes_of(field, c, bytes) / 4;
    lines::fill_words(bytes, n, table);
    print_last(
        line,
        len,
        lines::sum(lines::sum(from, c), 1),
        field,
        doc,
        size,
        bytes,
        table,
        n,
        out,
    );
}

// The second field: how many bytes follow the document.
fn print_second(
    line: &[u8],
    len: usize,
    from: usize,
    field: &mut [u8],
    doc: &mut [u8],
    size: usize,
    bytes: &mut [u8],
    table: &mut [u32],
    out: &mut [u8],
) {
    let b = lines::take_field(line, len, from, field);
    let end = lines::sum(size, lines::decimal(field, b));
    lines::fill(doc, size, end, b'a');
    print_third(
        line,
        len,
        lines::sum(lines::sum(from, b), 1),
        field,
        doc,
        end,
        bytes,
        table,
        out,
    );
}

// The answers to a line: its first field is the document.
fn print_line(
    line: &[u8],
    len: usize,
    field: &mut [u8],
    bytes: &mut [u8],
    doc: &mut [u8],
    table: &mut [u32],
    out: &mut [u8],
) {
    let a = lines::take_field(line, len, 0, field);
    let size = lines::bytes_of(field, a, doc);
    print_second(
        line,
        len,
        lines::sum(a, 1),
        field,
        doc,
        size,
        bytes,
        table,
        out,
    );
}

// Every line in turn, by way of lent buffers. The turns are for the loop to be seen to end: no input uses them up.
fn replay(
    chunk: &mut [u8],
    line: &mut [u8],
    field: &mut [u8],
    bytes: &mut [u8],
    doc: &mut [u8],
    table: &mut [u32],
    out: &mut [u8],
) {
    let mut input = lines::start();
    for _ in 0..u64::MAX {
        match lines::next_line(chunk, input, line) {
            Line::End => return,
            Line::Long { input: rest } => {
                lines::print_bad();
                input = rest;
            }
            Line::Got { len, input: rest } => {
                print_line(line, len, field, bytes, doc, table, out);
                input = rest;
            }
        }
    }
}

fn main() {
    let mut chunk = io::large_buffer();
    let mut line = io::large_buffer();
    let mut field = io::large_buffer();
    let mut bytes = [0u8; 4 * 1024 * table::WORDS];
    let mut doc = [0u8; 70000];
    let mut table = [0u32; 1024 * table::WORDS];
    let mut out = [0u8; 70000];
    replay(
        &mut chunk, &mut line, &mut field, &mut bytes, &mut doc, &mut table, &mut out,
    );
}
