// Replays recorded answers to queries. A line of input has four fields, each after a blank but the first: a document in hexadecimal digits;
// the table's words, of eight hexadecimal digits each; a query's bytes in hexadecimal digits; and the room of the list in words, decimal. For
// each line it prints the answer and every word of the list, which was filled with AAAAAAAA before. The answers in stdout are of a second
// reading of rule 9, on trees: tests/replay/queries.py made them.
#![tactic(auto)]

use lines::Line;
use query::Unanswered;

// The answer to a query.
fn print_found(found: Result<usize, Unanswered>) {
    match found {
        Ok(count) => {
            io::write_all(1, b"matches");
            lines::print_number(count);
        }
        Err(refused) => {
            io::write_all(1, b"refused");
            lines::print_number(refused.refusal.number() as usize);
            lines::print_number(refused.place);
            lines::print_number(refused.count);
        }
    }
    io::write_all(1, b":");
}

// Words in decimal.
fn print_words(words: &[u32]) {
    for w in words {
        lines::print_number(*w as usize);
    }
}

// The answer to a query, and what it left.
fn print_answers(doc: &[u8], table: &[u32], q: &[u8], list: &mut [u32]) {
    print_found(query::query(doc, table, q, list, form::forms::JAVA));
    print_words(list);
    io::write_all(1, b"\n");
}

// The answers to the first `size` bytes as a document, n words as a table and `many` bytes as a query, with so much room.
fn print_case(
    doc: &[u8],
    size: usize,
    table: &[u32],
    n: usize,
    q: &[u8],
    many: usize,
    list: &mut [u32],
    room: usize,
) {
    if size <= doc.len() && n <= table.len() && many <= q.len() && room <= list.len() {
        print_answers(&doc[..size], &table[..n], &q[..many], &mut list[..room]);
    } else {
        lines::print_bad();
    }
}

// The last field of a line, from `from` on: the room.
fn print_last(
    line: &[u8],
    len: usize,
    from: usize,
    field: &mut [u8],
    doc: &[u8],
    size: usize,
    table: &[u32],
    n: usize,
    q: &[u8],
    many: usize,
    list: &mut [u32],
) {
    let d = lines::take_field(line, len, from, field);
    let room = lines::decimal(field, d);
    lines::untouched(list, room);
    print_case(doc, size, table, n, q, many, list, room);
}

// The third field: the query.
fn print_third(
    line: &[u8],
    len: usize,
    from: usize,
    field: &mut [u8],
    doc: &[u8],
    size: usize,
    table: &[u32],
    n: usize,
    q: &mut [u8],
    list: &mut [u32],
) {
    let c = lines::take_field(line, len, from, field);
    let many = lines::bytes_of(field, c, q);
    let next = lines::sum(lines::sum(from, c), 1);
    print_last(line, len, next, field, doc, size, table, n, q, many, list);
}

// The second field: the table's words. The query's buffer holds their bytes first.
fn print_second(
    line: &[u8],
    len: usize,
    from: usize,
    field: &mut [u8],
    doc: &[u8],
    size: usize,
    table: &mut [u32],
    q: &mut [u8],
    list: &mut [u32],
) {
    let b = lines::take_field(line, len, from, field);
    let n = lines::bytes_of(field, b, q) / 4;
    lines::fill_words(q, n, table);
    let next = lines::sum(lines::sum(from, b), 1);
    print_third(line, len, next, field, doc, size, table, n, q, list);
}

// The answers to a line: its first field is the document.
fn print_line(
    line: &[u8],
    len: usize,
    field: &mut [u8],
    doc: &mut [u8],
    table: &mut [u32],
    q: &mut [u8],
    list: &mut [u32],
) {
    let a = lines::take_field(line, len, 0, field);
    let size = lines::bytes_of(field, a, doc);
    print_second(
        line,
        len,
        lines::sum(a, 1),
        field,
        doc,
        size,
        table,
        q,
        list,
    );
}

// Every line in turn, by way of lent buffers. The turns are for the loop to be seen to end: no input uses them up.
fn replay(
    chunk: &mut [u8],
    line: &mut [u8],
    field: &mut [u8],
    doc: &mut [u8],
    table: &mut [u32],
    q: &mut [u8],
    list: &mut [u32],
) {
    let mut input = lines::start();
    for _ in 0..u64::MAX {
        match lines::next_line(chunk, input, line) {
            Line::End => return,
            Line::Long { input: rest } => {
                lines::print_bad();
                input = rest;
            }
            Line::Got { len, input: rest } => {
                print_line(line, len, field, doc, table, q, list);
                input = rest;
            }
        }
    }
}

fn main() {
    let mut chunk = io::large_buffer();
    let mut line = io::large_buffer();
    let mut field = io::large_buffer();
    let mut doc = [0u8; 4096];
    let mut table = [0u32; 1024 * table::WORDS];
    let mut q = [0u8; 4 * 1024 * table::WORDS];
    let mut list = [0u32; 1024];
    replay(
        &mut chunk, &mut line, &mut field, &mut doc, &mut table, &mut q, &mut list,
    );
}
