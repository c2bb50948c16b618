// Replays recorded texts. A line of input has four fields, each after a blank but the first: the output's length and a number of letters x,
// both in decimal, and what stands before and behind these in the text, in hexadecimal digits. For each line it prints the bytes consumed and
// the whole output, which was filled with AA before; or the refusal, and whether the output is zero. The answers in stdout are
// quartz_nbt's where document 01 and it agree, and worked out from 01 elsewhere: tests/replay/texts.py made them.
#![tactic(auto)]

use form::refusals::Refused;
use lines::Line;

// Whether every byte is zero.
fn is_zero(bytes: &[u8]) -> bool {
    bytes.iter().all(|b| *b == 0)
}

// A refusal, and what it left.
fn print_refusal(refused: Refused, out: &[u8]) {
    io::write_all(1, b"refused");
    lines::print_number(refused.refusal.number() as usize);
    lines::print_number(refused.place);
    if is_zero(out) {
        io::write_all(1, b" zero\n");
    } else {
        io::write_all(1, b" not zero\n");
    }
}

// The answer to a text. The bytes written are seen in the output: what lies behind the document is AA.
fn print_parsed(text: &[u8], out: &mut [u8]) {
    match snbt::parse(text, out) {
        Ok(done) => {
            io::write_all(1, b"ok");
            lines::print_number(done.consumed);
            io::write_all(1, b" ");
            lines::print_bytes(out);
            io::write_all(1, b"\n");
        }
        Err(refused) => print_refusal(refused, out),
    }
}

// The answer to the first n bytes of a buffer, with so much room.
fn print_case(text: &[u8], n: usize, out: &mut [u8], room: usize) {
    if n <= text.len() && room <= out.len() {
        print_parsed(&text[..n], &mut out[..room]);
    } else {
        lines::print_bad();
    }
}

// Puts a byte, where there is room for it.
fn put(text: &mut [u8], at: usize, b: u8) {
    if at < text.len() {
        text[at] = b;
    }
}

// Puts the first n bytes of another buffer from a place on; the place behind them.
fn append(text: &mut [u8], at: usize, more: &[u8], n: usize) -> usize {
    let count = n.min(more.len());
    for (i, b) in more[..count].iter().enumerate() {
        put(text, lines::sum(at, i), *b);
    }
    lines::sum(at, count)
}

// The last field of a line, from `from` on: what stands behind the run, whose end is `end`.
fn print_last(
    line: &[u8],
    len: usize,
    from: usize,
    field: &mut [u8],
    part: &mut [u8],
    text: &mut [u8],
    end: usize,
    out: &mut [u8],
    room: usize,
) {
    let d = lines::take_field(line, len, from, field);
    let behind = lines::bytes_of(field, d, part);
    let n = append(text, end, part, behind);
    lines::fill(out, 0, room, 0xAA);
    print_case(text, n, out, room);
}

// The third field: what stands before the run, of so many letters.
fn print_third(
    line: &[u8],
    len: usize,
    from: usize,
    field: &mut [u8],
    part: &mut [u8],
    text: &mut [u8],
    run: usize,
    out: &mut [u8],
    room: usize,
) {
    let c = lines::take_field(line, len, from, field);
    let before = lines::bytes_of(field, c, text);
    let end = lines::sum(before, run);
    lines::fill(text, before, end, b'x');
    print_last(
        line,
        len,
        lines::sum(lines::sum(from, c), 1),
        field,
        part,
        text,
        end,
        out,
        room,
    );
}

// The answer to a line: its first two fields are the room and the run's length.
fn print_line(
    line: &[u8],
    len: usize,
    field: &mut [u8],
    part: &mut [u8],
    text: &mut [u8],
    out: &mut [u8],
) {
    let a = lines::take_field(line, len, 0, field);
    let room = lines::decimal(field, a);
    let second = lines::sum(a, 1);
    let b = lines::take_field(line, len, second, field);
    let run = lines::decimal(field, b);
    print_third(
        line,
        len,
        lines::sum(lines::sum(second, b), 1),
        field,
        part,
        text,
        run,
        out,
        room,
    );
}

// Every line in turn. The turns are for the loop to be seen to end: no input uses them up.
fn replay(
    chunk: &mut [u8],
    line: &mut [u8],
    field: &mut [u8],
    part: &mut [u8],
    text: &mut [u8],
    out: &mut [u8],
) {
    let mut input = lines::start();
    for _ in 0..u64::MAX {
        match lines::next_line(chunk, input, line) {
            Line::End => return,
            Line::Long { input: rest } => {
                lines::print_bad();
                input = rest;
            }
            Line::Got { len, input: rest } => {
                print_line(line, len, field, part, text, out);
                input = rest;
            }
        }
    }
}

fn main() {
    let mut chunk = io::large_buffer();
    let mut line = [0u8; 16384];
    let mut field = [0u8; 16384];
    let mut part = [0u8; 4096];
    let mut text = [0u8; 70000];
    let mut out = [0u8; 70000];
    replay(
        &mut chunk, &mut line, &mut field, &mut part, &mut text, &mut out,
    );
}
