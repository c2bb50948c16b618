// Replays recorded answers in the pocket edition's form (02, [2]). A line of input is a letter for the call and its fields, each after a
// blank: documents, strings and queries in hexadecimal digits, a table's words of eight such digits each, and numbers in decimal.
//   r   a read: the document; how many words of table are lent
//   w   a write: the document; how many bytes `a` follow it; the table; the room of the output in bytes
//   q   a query: the document; the table; the query; the room of the list in words
//   c   a rescue: the document; how many words of table are lent; the room of the output in bytes; the words of the list of changes
//   s   a string's check: the string
// For each line it prints the answer and all that the call left in lent memory: bytes were filled with AA before, words with AAAAAAAA, for
// which a dash stands. The answers in stdout are of a second reading of the paper: tests/replay/pocket.py made them.
#![tactic(auto)]

use form::forms::POCKET;
use form::refusals::{Refusal, Refused};
use lines::Line;
use mutf8::Unreadable;
use nbt_reader::Accepted;
use nbt_rescue::{Saved, Unsaved};
use nbt_writer::Unwritten;
use query::Unanswered;
use table::Unfit;

// What a field stands for, a number or how many bytes or words, and where the next one begins.
#[derive(Clone, Copy)]
struct Field {
    many: usize,
    next: usize,
}

// A number, from `from` on.
fn number_field(line: &[u8], len: usize, from: usize, field: &mut [u8]) -> Field {
    let n = lines::take_field(line, len, from, field);
    Field {
        many: lines::decimal(field, n),
        next: lines::sum(lines::sum(from, n), 1),
    }
}

// Bytes, put into `out`.
fn bytes_field(line: &[u8], len: usize, from: usize, field: &mut [u8], out: &mut [u8]) -> Field {
    let n = lines::take_field(line, len, from, field);
    Field {
        many: lines::bytes_of(field, n, out),
        next: lines::sum(lines::sum(from, n), 1),
    }
}

// Words, put into `table`, and before that as bytes into `bytes`.
fn words_field(
    line: &[u8],
    len: usize,
    from: usize,
    field: &mut [u8],
    bytes: &mut [u8],
    table: &mut [u32],
) -> Field {
    let digits = bytes_field(line, len, from, field, bytes);
    let many = digits.many / 4;
    lines::fill_words(bytes, many, table);
    Field {
        many,
        next: digits.next,
    }
}

// A refusal's number and place.
fn print_refused(refusal: Refusal, place: usize) {
    io::write_all(1, b"refused");
    lines::print_number(refusal.number() as usize);
    lines::print_number(place);
}

// ---- r

// The answer to a read.
fn print_accepted(answer: Result<Accepted, Refused>) {
    match answer {
        Ok(read) => {
            io::write_all(1, b"ok");
            lines::print_number(read.consumed);
            lines::print_number(read.records);
        }
        Err(e) => print_refused(e.refusal, e.place),
    }
    io::write_all(1, b":");
}

// The answer to a document, and what the read left.
fn print_read(doc: &[u8], table: &mut [u32]) {
    print_accepted(nbt_reader::read(doc, table, POCKET));
    lines::print_table(table);
    io::write_all(1, b"\n");
}

// The answer to the first `size` bytes as a document, with n words of table.
fn read_case(doc: &[u8], size: usize, table: &mut [u32], n: usize) {
    if size <= doc.len() && n <= table.len() {
        print_read(&doc[..size], &mut table[..n]);
    } else {
        lines::print_bad();
    }
}

// The fields of a read.
fn read_line(line: &[u8], len: usize, field: &mut [u8], doc: &mut [u8], table: &mut [u32]) {
    let d = bytes_field(line, len, 2, field, doc);
    let n = number_field(line, len, d.next, field);
    lines::untouched(table, n.many);
    read_case(doc, d.many, table, n.many);
}

// ---- w

// Whether the words form a table.
fn print_verdict(verdict: Result<(), Unfit>) {
    match verdict {
        Ok(()) => {
            io::write_all(1, b"table ");
        }
        Err(Unfit::NoTable) => {
            io::write_all(1, b"none ");
        }
        Err(Unfit::OverLimit) => {
            io::write_all(1, b"over ");
        }
    }
}

// The answer to a write, of a refusal with the record beside it (02, [3]).
fn print_written(answer: Result<usize, Unwritten>) {
    match answer {
        Ok(bytes) => {
            io::write_all(1, b"written");
            lines::print_number(bytes);
        }
        Err(e) => {
            print_refused(e.refusal, e.place);
            lines::print_number(e.record);
        }
    }
    io::write_all(1, b" ");
}

// The answers to a table, and what the write left.
fn print_write(doc: &[u8], bytes: &[u8], table: &mut [u32], out: &mut [u8]) {
    print_verdict(table::is_table(doc.len(), table));
    print_written(nbt_writer::write(doc, table, out, POCKET, POCKET));
    lines::print_bytes(out);
    lines::print_changed(bytes, table);
    io::write_all(1, b"\n");
}

// The answers to the first `size` bytes as a document and n words as a table, with so much room.
fn write_case(
    doc: &[u8],
    size: usize,
    bytes: &[u8],
    table: &mut [u32],
    n: usize,
    out: &mut [u8],
    room: usize,
) {
    if size <= doc.len() && n <= table.len() && room <= out.len() {
        print_write(&doc[..size], bytes, &mut table[..n], &mut out[..room]);
    } else {
        lines::print_bad();
    }
}

// The last two fields of a write, from `from` on: the table, and the room.
fn write_rest(
    line: &[u8],
    len: usize,
    from: usize,
    field: &mut [u8],
    bytes: &mut [u8],
    doc: &[u8],
    size: usize,
    table: &mut [u32],
    out: &mut [u8],
) {
    let t = words_field(line, len, from, field, bytes, table);
    let room = number_field(line, len, t.next, field);
    lines::fill(out, 0, room.many, 0xAA);
    write_case(doc, size, bytes, table, t.many, out, room.many);
}

// The fields of a write.
fn write_line(
    line: &[u8],
    len: usize,
    field: &mut [u8],
    bytes: &mut [u8],
    doc: &mut [u8],
    table: &mut [u32],
    out: &mut [u8],
) {
    let d = bytes_field(line, len, 2, field, doc);
    let more = number_field(line, len, d.next, field);
    let size = lines::sum(d.many, more.many);
    lines::fill(doc, d.many, size, b'a');
    write_rest(line, len, more.next, field, bytes, doc, size, table, out);
}

// ---- q

// The answer to a query.
fn print_found(found: Result<usize, Unanswered>) {
    match found {
        Ok(count) => {
            io::write_all(1, b"matches");
            lines::print_number(count);
        }
        Err(e) => {
            print_refused(e.refusal, e.place);
            lines::print_number(e.count);
        }
    }
    io::write_all(1, b":");
}

// The answer to a query, and what it left.
fn print_query(doc: &[u8], table: &[u32], q: &[u8], list: &mut [u32]) {
    print_found(query::query(doc, table, q, list, POCKET));
    lines::print_words(list);
    io::write_all(1, b"\n");
}

// The answer to the first `size` bytes as a document, n words as a table and `many` bytes as a query, with so much room.
fn query_case(
    doc: &[u8],
    size: usize,
    table: &[u32],
    n: usize,
    q: &[u8],
    many: usize,
    list: &mut [u32],
    room: usize,
) {
    if size <= doc.len() && n <= table.len() && many <= q.len() && room <= list.len() {
        print_query(&doc[..size], &table[..n], &q[..many], &mut list[..room]);
    } else {
        lines::print_bad();
    }
}

// The last two fields of a query, from `from` on: the query, and the room.
fn query_rest(
    line: &[u8],
    len: usize,
    from: usize,
    field: &mut [u8],
    q: &mut [u8],
    doc: &[u8],
    size: usize,
    table: &[u32],
    n: usize,
    list: &mut [u32],
) {
    let steps = bytes_field(line, len, from, field, q);
    let room = number_field(line, len, steps.next, field);
    lines::untouched(list, room.many);
    query_case(doc, size, table, n, q, steps.many, list, room.many);
}

// The fields of a query. Its buffer holds the bytes of the table's words first.
fn query_line(
    line: &[u8],
    len: usize,
    field: &mut [u8],
    q: &mut [u8],
    doc: &mut [u8],
    table: &mut [u32],
    list: &mut [u32],
) {
    let d = bytes_field(line, len, 2, field, doc);
    let t = words_field(line, len, d.next, field, q, table);
    query_rest(
        line, len, t.next, field, q, doc, d.many, table, t.many, list,
    );
}

// ---- c

// The answer to a rescue.
fn print_saved(answer: Result<Saved, Unsaved>) {
    match answer {
        Ok(saved) => {
            io::write_all(1, b"saved");
            lines::print_number(saved.bytes);
            lines::print_number(saved.lines);
        }
        Err(e) => {
            print_refused(e.refusal, e.place);
            lines::print_number(e.count);
        }
    }
    io::write_all(1, b": ");
}

// The answer to a document, and what the rescue left.
fn print_rescue(doc: &[u8], table: &mut [u32], out: &mut [u8], changes: &mut [u32]) {
    print_saved(nbt_rescue::rescue(doc, table, out, changes, POCKET));
    lines::print_bytes(out);
    io::write_all(1, b";");
    lines::print_words(changes);
    io::write_all(1, b";");
    lines::print_table(table);
    io::write_all(1, b"\n");
}

// The answer to the first `size` bytes as a document, with n words of table, so much room and so many words of changes.
fn rescue_case(
    doc: &[u8],
    size: usize,
    table: &mut [u32],
    n: usize,
    out: &mut [u8],
    room: usize,
    changes: &mut [u32],
    many: usize,
) {
    if size <= doc.len() && n <= table.len() && room <= out.len() && many <= changes.len() {
        print_rescue(
            &doc[..size],
            &mut table[..n],
            &mut out[..room],
            &mut changes[..many],
        );
    } else {
        lines::print_bad();
    }
}

// The last two fields of a rescue, from `from` on: the room, and the words of changes.
fn rescue_rest(
    line: &[u8],
    len: usize,
    from: usize,
    field: &mut [u8],
    doc: &[u8],
    size: usize,
    table: &mut [u32],
    n: usize,
    out: &mut [u8],
    changes: &mut [u32],
) {
    let room = number_field(line, len, from, field);
    let many = number_field(line, len, room.next, field);
    lines::fill(out, 0, room.many, 0xAA);
    lines::untouched(changes, many.many);
    rescue_case(doc, size, table, n, out, room.many, changes, many.many);
}

// The fields of a rescue.
fn rescue_line(
    line: &[u8],
    len: usize,
    field: &mut [u8],
    doc: &mut [u8],
    table: &mut [u32],
    out: &mut [u8],
    changes: &mut [u32],
) {
    let d = bytes_field(line, len, 2, field, doc);
    let n = number_field(line, len, d.next, field);
    lines::untouched(table, n.many);
    rescue_rest(
        line, len, n.next, field, doc, d.many, table, n.many, out, changes,
    );
}

// ---- s

// `ok`, or the offset at which the first sequence that can't be read begins.
fn print_checked(checked: Result<(), Unreadable>) {
    match checked {
        Ok(()) => {
            io::write_all(1, b"ok\n");
        }
        Err(e) => {
            io::print_decimal(1, e.at as u64);
            io::write_all(1, b"\n");
        }
    }
}

// The answer to the first `size` bytes as a string.
fn string_case(bytes: &[u8], size: usize) {
    match bytes.get(..size) {
        Some(s) => print_checked(mutf8::check(s, POCKET)),
        None => lines::print_bad(),
    }
}

// The field of a string's check.
fn string_line(line: &[u8], len: usize, field: &mut [u8], bytes: &mut [u8]) {
    let s = bytes_field(line, len, 2, field, bytes);
    string_case(bytes, s.many);
}

// ---- lines

// The letter of a line, a blank where it has none.
fn letter_of(line: &[u8], len: usize) -> u8 {
    if len == 0 || line.len() == 0 {
        return b' ';
    }
    line[0]
}

// The answers to a line.
fn print_line(
    line: &[u8],
    len: usize,
    field: &mut [u8],
    bytes: &mut [u8],
    doc: &mut [u8],
    table: &mut [u32],
    out: &mut [u8],
    list: &mut [u32],
) {
    match letter_of(line, len) {
        b'r' => read_line(line, len, field, doc, table),
        b'w' => write_line(line, len, field, bytes, doc, table, out),
        b'q' => query_line(line, len, field, bytes, doc, table, list),
        b'c' => rescue_line(line, len, field, doc, table, out, list),
        b's' => string_line(line, len, field, bytes),
        _ => lines::print_bad(),
    }
}

// Every line in turn, by way of lent buffers. The turns are for the loop to be seen to end: no input uses them up.
fn replay(
    chunk: &mut [u8],
    line: &mut [u8],
    field: &mut [u8],
    bytes: &mut [u8],
    doc: &mut [u8],
    table: &mut [u32],
    out: &mut [u8],
    list: &mut [u32],
) {
    let mut input = lines::start();
    for _ in 0..u64::MAX {
        match lines::next_line(chunk, input, line) {
            Line::End => return,
            Line::Long { input: rest } => {
                lines::print_bad();
                input = rest;
            }
            Line::Got { len, input: rest } => {
                print_line(line, len, field, bytes, doc, table, out, list);
                input = rest;
            }
        }
    }
}

fn main() {
    let mut chunk = io::large_buffer();
    let mut line = io::large_buffer();
    let mut field = io::large_buffer();
    let mut bytes = [0u8; 4 * 1024 * table::WORDS];
    let mut doc = [0u8; 70000];
    let mut table = [0u32; 1024 * table::WORDS];
    let mut out = [0u8; 70000];
    let mut list = [0u32; 4800];
    replay(
        &mut chunk, &mut line, &mut field, &mut bytes, &mut doc, &mut table, &mut out, &mut list,
    );
}
