// Replays recorded numbers: for each token of a line it prints the tag's kind and the 64 bits, of a float the single's 32 bits
// too, or the refusal; for each double's bits the single's. The answers in stdout are Python's: tests/replay/numbers.py made them.
#![tactic(auto)]

ghost use Rattle.snbt_numbers.specs.Answers.{quiet};
ghost use Rattle.std.specs.Prelude.{not, ◌≤◌, T, length};
ghost use Rattle.std.specs.Float.Ieee.{is_nan};

use form::refusals::Refused;
use lines::Line;
use snbt_numbers::Number;

// The kind and the bits of a whole number.
fn print_whole(kind: u64, v: i64) {
    io::print_decimal(1, kind);
    io::write_all(1, b" ");
    io::print_hex(1, raw::bits_of(v), 16);
    io::write_all(1, b"\n");
}

// The bits of a float token, and those of its tag.
fn print_float(x: f64)
    requires { T (not (is_nan x)) }
{
    io::write_all(1, b"5 ");
    io::print_hex(1, f64::to_bits(x), 16);
    io::write_all(1, b" ");
    io::print_hex(1, snbt_floats::single::f32_bits(x) as u64, 8);
    io::write_all(1, b"\n");
}

// The bits of a double token.
fn print_double(x: f64)
    requires { T (not (is_nan x)) }
{
    io::write_all(1, b"6 ");
    io::print_hex(1, f64::to_bits(x), 16);
    io::write_all(1, b"\n");
}

// A refusal's number and place.
fn print_refusal(e: Refused) {
    io::write_all(1, b"refused ");
    io::print_decimal(1, e.refusal.number() as u64);
    io::write_all(1, b" ");
    io::print_decimal(1, e.place as u64);
    io::write_all(1, b"\n");
}

// What a token is.
fn print_number(n: Number)
    requires { quiet n }
{
    match n {
        Number::Byte(v) => print_whole(1, v),
        Number::Short(v) => print_whole(2, v),
        Number::Int(v) => print_whole(3, v),
        Number::Long(v) => print_whole(4, v),
        Number::Float(x) => print_float(x),
        Number::Double(x) => print_double(x),
    }
}

// The 64 bits that the hexadecimal digits from a place up to another stand for.
fn bits_in(line: &[u8], from: usize, to: usize) -> u64
    requires { to ≤ length line.now }
{
    let mut bits: u64 = 0;
    for at in from..to {
        bits = bits % 0x1000_0000_0000_0000 * 16 + (lines::digit(line[at]) % 16) as u64;
    }
    bits
}

// The single of a double's bits.
fn print_single(bits: u64) {
    if 0x7ff0_0000_0000_0000 < bits % 0x8000_0000_0000_0000 {
        io::write_all(1, b"nan\n");
        return;
    }
    io::print_hex(
        1,
        snbt_floats::single::f32_bits(f64::from_bits(bits)) as u64,
        8,
    );
    io::write_all(1, b"\n");
}

// The answer to a line: behind `s` and a blank stand a double's bits, behind `t` and a blank a token.
fn print_line(line: &[u8], len: usize) {
    if len < 2 {
        io::write_all(1, b"badline\n");
        return;
    }
    if line.len() < len {
        io::write_all(1, b"badline\n");
        return;
    }
    if line[0] == b's' {
        print_single(bits_in(line, 2, len));
        return;
    }
    match snbt_numbers::number_at(line, 2, len) {
        Ok(n) => print_number(n),
        Err(e) => print_refusal(e),
    }
}

// Every line in turn. The turns are for the loop to be seen to end: no input uses them up.
fn replay(chunk: &mut [u8], line: &mut [u8]) {
    let mut input = lines::start();
    for _ in 0..u64::MAX {
        match lines::next_line(chunk, input, line) {
            Line::End => return,
            Line::Long { input: rest } => {
                io::write_all(1, b"badline\n");
                input = rest;
            }
            Line::Got { len, input: rest } => {
                print_line(line, len);
                input = rest;
            }
        }
    }
}

// Replays standard input.
fn main() {
    let mut chunk = io::large_buffer();
    let mut line = [0u8; 256];
    replay(&mut chunk, &mut line);
}
