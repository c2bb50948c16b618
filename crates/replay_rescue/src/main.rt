// Replays recorded answers to rescues. A line of input has four fields, each after a blank but the first: a document in hexadecimal digits;
// and in decimal the table's words, the room of the output in bytes and the room of the list of changes in words. For each line it prints
// the answer, the whole output after the rescue, which was filled with AA before, every word of the list of changes, which was filled with
// AAAAAAAA before, as the table was, and every word of the table, or that each is 0. The answers in stdout are of a second rescue, which
// goes forward with a stack of what is open: tests/replay/rescue.py made them.
#![tactic(auto)]

use lines::Line;
use nbt_rescue::{Saved, Unsaved};

// The answer to a rescue.
fn print_answer(answer: Result<Saved, Unsaved>) {
    match answer {
        Ok(saved) => {
            io::write_all(1, b"saved");
            lines::print_number(saved.bytes);
            lines::print_number(saved.lines);
        }
        Err(e) => {
            io::write_all(1, b"refused");
            lines::print_number(usize::from(e.refusal.number()));
            lines::print_number(e.place);
            lines::print_number(e.count);
        }
    }
    io::write_all(1, b": ");
}

// The answer to a document, and what the rescue left.
fn print_answers(doc: &[u8], table: &mut [u32], out: &mut [u8], changes: &mut [u32]) {
    print_answer(nbt_rescue::rescue(doc, table, out, changes, form::forms::JAVA));
    lines::print_bytes(out);
    io::write_all(1, b";");
    lines::print_words(changes);
    io::write_all(1, b";");
    lines::print_table(table);
    io::write_all(1, b"\n");
}

// The answer to the first `size` bytes as a document, with n words of table, so much room and so many words of changes.
fn print_case(
    doc: &[u8],
    size: usize,
    table: &mut [u32],
    n: usize,
    out: &mut [u8],
    room: usize,
    changes: &mut [u32],
    many: usize,
) {
    if size <= doc.len() && n <= table.len() && room <= out.len() && many <= changes.len() {
        print_answers(
            &doc[..size],
            &mut table[..n],
            &mut out[..room],
            &mut changes[..many],
        );
    } else {
        lines::print_bad();
    }
}

// The last field of a line, from `from` on: the words of changes.
fn print_last(
    line: &[u8],
    len: usize,
    from: usize,
    field: &mut [u8],
    doc: &[u8],
    size: usize,
    table: &mut [u32],
    n: usize,
    out: &mut [u8],
    room: usize,
    changes: &mut [u32],
) {
    let d = lines::take_field(line, len, from, field);
    let many = lines::decimal(field, d);
    lines::untouched(changes, many);
    print_case(doc, size, table, n, out, room, changes, many);
}

// The third field: the room of the output.
fn print_third(
    line: &[u8],
    len: usize,
    from: usize,
    field: &mut [u8],
    doc: &[u8],
    size: usize,
    table: &mut [u32],
    n: usize,
    out: &mut [u8],
    changes: &mut [u32],
) {
    let c = lines::take_field(line, len, from, field);
    let room = lines::decimal(field, c);
    lines::fill(out, 0, room, 0xAA);
    let next = lines::sum(lines::sum(from, c), 1);
    print_last(
        line, len, next, field, doc, size, table, n, out, room, changes,
    );
}

// The second field: the table's words.
fn print_second(
    line: &[u8],
    len: usize,
    from: usize,
    field: &mut [u8],
    doc: &[u8],
    size: usize,
    table: &mut [u32],
    out: &mut [u8],
    changes: &mut [u32],
) {
    let b = lines::take_field(line, len, from, field);
    let n = lines::decimal(field, b);
    lines::untouched(table, n);
    let next = lines::sum(lines::sum(from, b), 1);
    print_third(line, len, next, field, doc, size, table, n, out, changes);
}

// The answer to a line: its first field is the document.
fn print_line(
    line: &[u8],
    len: usize,
    field: &mut [u8],
    doc: &mut [u8],
    table: &mut [u32],
    out: &mut [u8],
    changes: &mut [u32],
) {
    let a = lines::take_field(line, len, 0, field);
    let size = lines::bytes_of(field, a, doc);
    print_second(
        line,
        len,
        lines::sum(a, 1),
        field,
        doc,
        size,
        table,
        out,
        changes,
    );
}

// Every line in turn, by way of lent buffers. The turns are for the loop to be seen to end: no input uses them up.
fn replay(
    chunk: &mut [u8],
    line: &mut [u8],
    field: &mut [u8],
    doc: &mut [u8],
    table: &mut [u32],
    out: &mut [u8],
    changes: &mut [u32],
) {
    let mut input = lines::start();
    for _ in 0..u64::MAX {
        match lines::next_line(chunk, input, line) {
            Line::End => return,
            Line::Long { input: rest } => {
                lines::print_bad();
                input = rest;
            }
            Line::Got { len, input: rest } => {
                print_line(line, len, field, doc, table, out, changes);
                input = rest;
            }
        }
    }
}

fn main() {
    let mut chunk = io::large_buffer();
    let mut line = io::large_buffer();
    let mut field = io::large_buffer();
    let mut doc = [0u8; 4096];
    let mut table = [0u32; 600 * table::WORDS];
    let mut out = [0u8; 4096];
    let mut changes = [0u32; 4800];
    replay(
        &mut chunk,
        &mut line,
        &mut field,
        &mut doc,
        &mut table,
        &mut out,
        &mut changes,
    );
}
