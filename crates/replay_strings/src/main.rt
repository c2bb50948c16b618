// Replays recorded answers on strings: for each line of hexadecimal digits it prints what modified UTF-8 and UTF-8 make of the bytes, and
// the bytes from UTF-8 to modified UTF-8. The answers in stdout are the JDK's: tests/replay/Strings.java made them.
#![tactic(auto)]

use lines::Line;
use mutf8::Unreadable;

// `ok`, or the offset at which the first sequence that can't be read begins.
fn print_verdict(verdict: Result<(), Unreadable>) {
    match verdict {
        Ok(()) => {
            io::write_all(1, b"ok ");
        }
        Err(e) => {
            io::print_decimal(1, e.at as u64);
            io::write_all(1, b" ");
        }
    }
}

// One scalar value, from UTF-8 to modified UTF-8: the places behind it in the bytes and in the output, or none at the end.
fn moved(s: &[u8], at: usize, out: &mut [u8], to: usize) -> Option<(usize, usize)> {
    if s.len() <= at || out.len() < to {
        return None;
    }
    let c = chars::utf8_at(s, at)?;
    if 0x10FFFF < c.value || s.len() - at < c.size {
        return None;
    }
    let next = chars::put_scalar(c.value, out, to)?;
    Some((at + c.size, next))
}

// The bytes in modified UTF-8, and how many. A scalar value takes at least a byte, so the bytes bound the turns.
fn convert(s: &[u8], out: &mut [u8]) -> usize {
    let mut at = 0;
    let mut to = 0;
    for _ in s {
        let Some(next) = moved(s, at, out, to) else {
            return to;
        };
        (at, to) = next;
    }
    to
}

// The third word: the conversion, or `-` where the bytes are not UTF-8.
fn print_converted(s: &[u8], out: &mut [u8]) {
    if mutf8::check_utf8(s).is_ok() {
        let n = convert(s, out).min(out.len());
        lines::print_bytes(&out[..n]);
        io::write_all(1, b"\n");
    } else {
        io::write_all(1, b"-\n");
    }
}

// The answers to the first n bytes.
fn print_answers(bytes: &[u8], n: usize, out: &mut [u8]) {
    if let Some(s) = bytes.get(..n) {
        print_verdict(mutf8::check(s, form::forms::JAVA));
        print_verdict(mutf8::check_utf8(s));
        print_converted(s, out);
    }
}

// The answers to a line.
fn print_line(line: &[u8], len: usize, bytes: &mut [u8], out: &mut [u8]) {
    match lines::unhex(line, len, bytes) {
        Some(n) => print_answers(bytes, n, out),
        None => lines::print_bad(),
    }
}

// Every line in turn, by way of lent buffers. The turns are for the loop to be seen to end: no input uses them up.
fn replay(chunk: &mut [u8], line: &mut [u8], bytes: &mut [u8], out: &mut [u8]) {
    let mut input = lines::start();
    for _ in 0..u64::MAX {
        match lines::next_line(chunk, input, line) {
            Line::End => return,
            Line::Long { input: rest } => {
                lines::print_bad();
                input = rest;
            }
            Line::Got { len, input: rest } => {
                print_line(line, len, bytes, out);
                input = rest;
            }
        }
    }
}

fn main() {
    let mut chunk = io::large_buffer();
    let mut line = io::buffer();
    let mut bytes = io::buffer();
    let mut out = io::buffer();
    replay(&mut chunk, &mut line, &mut bytes, &mut out);
}
