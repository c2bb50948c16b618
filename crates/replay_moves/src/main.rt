// Replays recorded answers on stored lines moved between editions. A line of input is a case, its fields with a blank between them: a
// letter; the document's length, in eight hexadecimal digits since it may be more than a decimal field holds; the lines; and the room of the
// output in bytes, decimal. `u` asks for the move up, from eight words a line to nine, `d` for the move down, and the lines are in
// hexadecimal digits, since they have line feeds and may have any byte. `U` and `D` ask the same, the lines being spelt out: `/` is a line
// feed, `z` eight zeros, `s` seven, any other byte itself. For each case it prints the answer and then the whole output, which was filled
// with AA before: that it was kept; else its bytes, after `U` and `D` with `/` for a line feed, a dash for each byte that was kept and all
// digits as they are. The answers in stdout are of a second reading of the paper: tests/replay/moves.py made them.
#![tactic(auto)]

use form::refusals::Refused;
use lines::Line;

// What stands in the output before.
const FILLED: u8 = 0xAA;

// ---- printing

// The answer to a move.
fn print_answer(answer: Result<usize, Refused>) {
    match answer {
        Ok(count) => {
            io::write_all(1, b"done");
            lines::print_number(count);
        }
        Err(refused) => {
            io::write_all(1, b"refused");
            lines::print_number(refused.refusal.number() as usize);
            lines::print_number(refused.place);
        }
    }
    io::write_all(1, b": ");
}

// Whether no byte of the output differs from what stood there before.
fn is_kept(out: &[u8]) -> bool {
    out.iter().all(|b| *b == FILLED)
}

// How a byte of the output is spelt: a question mark stands for each that neither lines nor what stood there before have.
fn spelt(b: u8) -> u8 {
    match b {
        b'0'..=b'9' => b,
        b'a'..=b'f' => b,
        b'\n' => b'/',
        FILLED => b'-',
        _ => b'?',
    }
}

// The output spelt out.
fn print_spelt(out: &[u8]) {
    for b in out {
        io::write_all(1, &[spelt(*b)]);
    }
}

// The output as it is after a move.
fn print_output(plain: bool, out: &[u8]) {
    if is_kept(out) {
        io::write_all(1, b"kept");
    } else if plain {
        print_spelt(out);
    } else {
        lines::print_bytes(out);
    }
    io::write_all(1, b"\n");
}

// ---- a case

// The answer to lines, up or down.
fn moved(up: bool, doc_len: usize, text: &[u8], out: &mut [u8]) -> Result<usize, Refused> {
    if up {
        table_moves::lines_up(doc_len, text, out)
    } else {
        table_moves::lines_down(doc_len, text, out)
    }
}

// The answer to lines over a document of so many bytes, and what moving them left in the output.
fn print_moved(up: bool, plain: bool, doc_len: usize, text: &[u8], out: &mut [u8]) {
    print_answer(moved(up, doc_len, text, out));
    print_output(plain, out);
}

// The answer to the first `size` bytes as lines, with so much room.
fn move_case(
    up: bool,
    plain: bool,
    doc_len: usize,
    bytes: &[u8],
    size: usize,
    out: &mut [u8],
    room: usize,
) {
    if size <= bytes.len() && room <= out.len() {
        print_moved(up, plain, doc_len, &bytes[..size], &mut out[..room]);
    } else {
        lines::print_bad();
    }
}

// How many bytes a byte of lines spelt out stands for.
fn many(b: u8) -> usize {
    match b {
        b'z' => 8,
        b's' => 7,
        _ => 1,
    }
}

// And which.
fn meant(b: u8) -> u8 {
    match b {
        b'z' | b's' => b'0',
        b'/' => b'\n',
        _ => b,
    }
}

// What a byte of lines spelt out stands for put at `at`, as far as there is room; the place behind it.
fn put_meant(b: u8, at: usize, bytes: &mut [u8]) -> usize {
    let end = lines::sum(at, many(b));
    lines::fill(bytes, at, end, meant(b));
    end
}

// The lines that the first n bytes of a field spell out, put into `bytes` as far as there is room; how many bytes that are.
fn unspell(field: &[u8], n: usize, bytes: &mut [u8]) -> usize {
    let mut at: usize = 0;
    for b in field.iter().take(n) {
        at = put_meant(*b, at, bytes);
    }
    at
}

// The lines that a field stands for, put into `bytes`; how many bytes that are, or too many.
fn text_of(plain: bool, field: &[u8], n: usize, bytes: &mut [u8]) -> usize {
    if plain {
        return unspell(field, n, bytes);
    }
    lines::bytes_of(field, n, bytes)
}

// The last fields of a case: the lines and the room.
fn print_last(
    line: &[u8],
    len: usize,
    from: usize,
    field: &mut [u8],
    bytes: &mut [u8],
    up: bool,
    plain: bool,
    doc_len: usize,
    out: &mut [u8],
) {
    let c = lines::take_field(line, len, from, field);
    let size = text_of(plain, field, c, bytes);
    let next = lines::sum(lines::sum(from, c), 1);
    let d = lines::take_field(line, len, next, field);
    let room = lines::decimal(field, d);
    lines::fill(out, 0, room, FILLED);
    move_case(up, plain, doc_len, bytes, size, out, room);
}

// The fields of a case behind its letter, from `from` on: the document's length first.
fn print_move(
    line: &[u8],
    len: usize,
    from: usize,
    field: &mut [u8],
    bytes: &mut [u8],
    up: bool,
    plain: bool,
    out: &mut [u8],
) {
    let b = lines::take_field(line, len, from, field);
    if lines::bytes_of(field, b, bytes) == 4 {
        let doc_len = lines::word_of(bytes, 0) as usize;
        let next = lines::sum(lines::sum(from, b), 1);
        print_last(line, len, next, field, bytes, up, plain, doc_len, out);
    } else {
        lines::print_bad();
    }
}

// ---- every line

// The letter that the first n bytes of a field are, 0 where they are none.
fn letter(field: &[u8], n: usize) -> u8 {
    if n == 1 && !field.is_empty() {
        field[0]
    } else {
        0
    }
}

// The answer to a line: its letter tells the way and how lines are spelt.
fn print_line(line: &[u8], len: usize, field: &mut [u8], bytes: &mut [u8], out: &mut [u8]) {
    let a = lines::take_field(line, len, 0, field);
    let next = lines::sum(a, 1);
    match letter(field, a) {
        b'u' => print_move(line, len, next, field, bytes, true, false, out),
        b'd' => print_move(line, len, next, field, bytes, false, false, out),
        b'U' => print_move(line, len, next, field, bytes, true, true, out),
        b'D' => print_move(line, len, next, field, bytes, false, true, out),
        _ => lines::print_bad(),
    }
}

// Every line in turn, by way of lent buffers. The turns are for the loop to be seen to end: no input uses them up.
fn replay(chunk: &mut [u8], line: &mut [u8], field: &mut [u8], bytes: &mut [u8], out: &mut [u8]) {
    let mut input = lines::start();
    for _ in 0..u64::MAX {
        match lines::next_line(chunk, input, line) {
            Line::End => return,
            Line::Long { input: rest } => {
                lines::print_bad();
                input = rest;
            }
            Line::Got { len, input: rest } => {
                print_line(line, len, field, bytes, out);
                input = rest;
            }
        }
    }
}

fn main() {
    let mut chunk = io::large_buffer();
    let mut line = io::large_buffer();
    let mut field = io::large_buffer();
    let mut bytes = io::large_buffer();
    let mut out = io::large_buffer();
    replay(&mut chunk, &mut line, &mut field, &mut bytes, &mut out);
}
