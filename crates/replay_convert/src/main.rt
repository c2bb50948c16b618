// Replays recorded answers on the conversion of a table over its document (02, [2]). A line of input has seven fields, each after a blank but
// the first: the form that the document has and the form to be written, of eight hexadecimal digits each; the document's first bytes, in such
// digits; a byte; how often it follows them, decimal; the document's last bytes; the table's words, of eight digits each; and the room of
// the output in bytes, decimal. For each line it prints whether the words form a table; the answer, of a refusal its number, its place and
// the record beside it (02, [3]); the whole output after the call, which was filled with AA before; and whether the table's words changed.
// The answers in stdout are of a second conversion: tests/replay/convert.py made them.
#![tactic(auto)]

use lines::Line;
use nbt_writer::Unwritten;
use table::Unfit;

// What a field stands for, a number or how many bytes or words, and where the next one begins.
#[derive(Clone, Copy)]
struct Field {
    many: usize,
    next: usize,
}

// A number, from `from` on.
fn number_field(line: &[u8], len: usize, from: usize, field: &mut [u8]) -> Field {
    let n = lines::take_field(line, len, from, field);
    Field {
        many: lines::decimal(field, n),
        next: lines::sum(lines::sum(from, n), 1),
    }
}

// Bytes, put into `out`.
fn bytes_field(line: &[u8], len: usize, from: usize, field: &mut [u8], out: &mut [u8]) -> Field {
    let n = lines::take_field(line, len, from, field);
    Field {
        many: lines::bytes_of(field, n, out),
        next: lines::sum(lines::sum(from, n), 1),
    }
}

// Words, put into `table`, and before that as bytes into `bytes`.
fn words_field(
    line: &[u8],
    len: usize,
    from: usize,
    field: &mut [u8],
    bytes: &mut [u8],
    table: &mut [u32],
) -> Field {
    let digits = bytes_field(line, len, from, field, bytes);
    let many = digits.many / 4;
    lines::fill_words(bytes, many, table);
    Field {
        many,
        next: digits.next,
    }
}

// The byte that a field put first.
fn first_of(bytes: &[u8]) -> u8 {
    bytes.first().copied().unwrap_or(b'a')
}

// The first n bytes, put into the document from `at` on; the place behind them, or too many where there is no room.
fn put_last(bytes: &[u8], n: usize, doc: &mut [u8], at: usize) -> usize {
    if bytes.len() < n || doc.len() < at || doc.len() - at < n {
        return lines::TOO_MANY;
    }
    slices::copy(bytes, 0, n, doc, at);
    at + n
}

// Whether the words form a table.
fn print_verdict(verdict: Result<(), Unfit>) {
    match verdict {
        Ok(()) => {
            io::write_all(1, b"table");
        }
        Err(Unfit::NoTable) => {
            io::write_all(1, b"none");
        }
        Err(Unfit::OverLimit) => {
            io::write_all(1, b"over");
        }
    }
}

// The answer to a conversion.
fn print_answer(answer: Result<usize, Unwritten>) {
    match answer {
        Ok(bytes) => {
            io::write_all(1, b" written");
            lines::print_number(bytes);
        }
        Err(e) => {
            io::write_all(1, b" refused");
            lines::print_number(usize::from(e.refusal.number()));
            lines::print_number(e.place);
            lines::print_number(e.record);
        }
    }
    io::write_all(1, b" ");
}

// The answers to a table, and what the conversion left.
fn print_answers(
    doc: &[u8],
    bytes: &[u8],
    table: &mut [u32],
    out: &mut [u8],
    source: u32,
    target: u32,
) {
    print_verdict(table::is_table(doc.len(), table));
    print_answer(nbt_writer::write(doc, table, out, source, target));
    lines::print_bytes(out);
    lines::print_changed(bytes, table);
    io::write_all(1, b"\n");
}

// The answers to the first `size` bytes as a document and the first n words as a table, with so much room.
fn print_case(
    doc: &[u8],
    size: usize,
    bytes: &[u8],
    table: &mut [u32],
    n: usize,
    out: &mut [u8],
    room: usize,
    source: u32,
    target: u32,
) {
    if size <= doc.len() && n <= table.len() && room <= out.len() {
        print_answers(
            &doc[..size],
            bytes,
            &mut table[..n],
            &mut out[..room],
            source,
            target,
        );
    } else {
        lines::print_bad();
    }
}

// The last field: so much room, filled with AA.
fn print_room(
    line: &[u8],
    len: usize,
    from: usize,
    field: &mut [u8],
    bytes: &mut [u8],
    doc: &mut [u8],
    size: usize,
    table: &mut [u32],
    n: usize,
    out: &mut [u8],
    source: u32,
    target: u32,
) {
    let room = number_field(line, len, from, field);
    lines::fill(out, 0, room.many, 0xAA);
    print_case(doc, size, bytes, table, n, out, room.many, source, target);
}

// The table's words; the document has `size` bytes.
fn print_table(
    line: &[u8],
    len: usize,
    from: usize,
    field: &mut [u8],
    bytes: &mut [u8],
    doc: &mut [u8],
    size: usize,
    table: &mut [u32],
    out: &mut [u8],
    source: u32,
    target: u32,
) {
    let t = words_field(line, len, from, field, bytes, table);
    print_room(
        line, len, t.next, field, bytes, doc, size, table, t.many, out, source, target,
    );
}

// The document's last bytes, from `at` on.
fn print_last(
    line: &[u8],
    len: usize,
    from: usize,
    field: &mut [u8],
    bytes: &mut [u8],
    doc: &mut [u8],
    at: usize,
    table: &mut [u32],
    out: &mut [u8],
    source: u32,
    target: u32,
) {
    let last = bytes_field(line, len, from, field, bytes);
    let size = put_last(bytes, last.many, doc, at);
    print_table(
        line, len, last.next, field, bytes, doc, size, table, out, source, target,
    );
}

// How often the byte stands, from `at` on.
fn print_times(
    line: &[u8],
    len: usize,
    from: usize,
    field: &mut [u8],
    bytes: &mut [u8],
    doc: &mut [u8],
    at: usize,
    table: &mut [u32],
    out: &mut [u8],
    source: u32,
    target: u32,
) {
    let times = number_field(line, len, from, field);
    let end = lines::sum(at, times.many);
    lines::fill(doc, at, end, first_of(bytes));
    print_last(
        line, len, times.next, field, bytes, doc, end, table, out, source, target,
    );
}

// The byte that follows the first `at` bytes.
fn print_byte(
    line: &[u8],
    len: usize,
    from: usize,
    field: &mut [u8],
    bytes: &mut [u8],
    doc: &mut [u8],
    at: usize,
    table: &mut [u32],
    out: &mut [u8],
    source: u32,
    target: u32,
) {
    let byte = bytes_field(line, len, from, field, bytes);
    print_times(
        line, len, byte.next, field, bytes, doc, at, table, out, source, target,
    );
}

// The fields behind the forms, from `from` on: the document's first bytes, and then the others, each by a function of its own.
fn print_rest(
    line: &[u8],
    len: usize,
    from: usize,
    field: &mut [u8],
    bytes: &mut [u8],
    doc: &mut [u8],
    table: &mut [u32],
    out: &mut [u8],
    source: u32,
    target: u32,
) {
    let first = bytes_field(line, len, from, field, doc);
    print_byte(
        line, len, first.next, field, bytes, doc, first.many, table, out, source, target,
    );
}

// The answers to a line: its first field is the two forms.
fn print_line(
    line: &[u8],
    len: usize,
    field: &mut [u8],
    bytes: &mut [u8],
    doc: &mut [u8],
    table: &mut [u32],
    out: &mut [u8],
) {
    let forms = bytes_field(line, len, 0, field, bytes);
    if forms.many == 8 {
        let source = lines::word_of(bytes, 0);
        let target = lines::word_of(bytes, 1);
        print_rest(
            line, len, forms.next, field, bytes, doc, table, out, source, target,
        );
    } else {
        lines::print_bad();
    }
}

// Every line in turn, by way of lent buffers. The turns are for the loop to be seen to end: no input uses them up.
fn replay(
    chunk: &mut [u8],
    line: &mut [u8],
    field: &mut [u8],
    bytes: &mut [u8],
    doc: &mut [u8],
    table: &mut [u32],
    out: &mut [u8],
) {
    let mut input = lines::start();
    for _ in 0..u64::MAX {
        match lines::next_line(chunk, input, line) {
            Line::End => return,
            Line::Long { input: rest } => {
                lines::print_bad();
                input = rest;
            }
            Line::Got { len, input: rest } => {
                print_line(line, len, field, bytes, doc, table, out);
                input = rest;
            }
        }
    }
}

fn main() {
    let mut chunk = io::large_buffer();
    let mut line = io::large_buffer();
    let mut field = io::large_buffer();
    let mut bytes = [0u8; 4 * 1024 * table::WORDS];
    let mut doc = [0u8; 70000];
    let mut table = [0u32; 1024 * table::WORDS];
    let mut out = [0u8; 70000];
    replay(
        &mut chunk, &mut line, &mut field, &mut bytes, &mut doc, &mut table, &mut out,
    );
}
