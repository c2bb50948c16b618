// Replays recorded tokens. A line of input has three fields, each after a blank but the first: the number of a stop set (0 default, 1 key,
// 2 value, 3 first element, 4 later element), a start in decimal and a text in hexadecimal digits. For each line it prints the token's number
// (1 to 15, as in include/tikfazrul.h), index, width, next place, and the bits of a number or the content of a string; the end and its place;
// or a refusal. The answers in stdout are quartz_nbt's: tests/replay/tokens.py recorded them.
#![tactic(auto)]

ghost use Rattle.snbt_tokens.specs.Quiet.{Quiet};
ghost use Rattle.std.specs.Prelude.{not, T};
ghost use Rattle.std.specs.Float.Ieee.{is_nan};

use form::refusals::Refused;
use lines::Line;
use snbt_tokens::{Lexed, Stops, Token};

// A token's number, index, width and next place.
fn print_head(number: u64, index: usize, width: usize, next: usize) {
    io::print_decimal(1, number);
    lines::print_number(index);
    lines::print_number(width);
    lines::print_number(next);
}

// The 64 bits of what a number token carries.
fn print_bits(bits: u64) {
    io::write_all(1, b" ");
    io::print_hex(1, bits, 16);
}

// The bits of a double.
fn print_double(x: f64)
    requires { T (not (is_nan x)) }
{
    print_bits(f64::to_bits(x));
}

// The first n bytes of an output.
fn print_front(out: &[u8], n: usize) {
    if n <= out.len() && 0 < n {
        io::write_all(1, b" ");
        lines::print_bytes(&out[..n]);
    }
}

// The content of a string token.
fn print_content(text: &[u8], start: usize, end: usize, quoted: bool, out: &mut [u8]) {
    match snbt_contents::content(text, start, end, quoted, out) {
        Ok(bytes) => print_front(out, bytes),
        Err(e) => print_refusal(e),
    }
}

// A refusal's number and place.
fn print_refusal(e: Refused) {
    io::write_all(1, b"refused");
    lines::print_number(e.refusal.number() as usize);
    lines::print_number(e.place);
}

// A token's number as the header has it.
fn number_of(token: Token) -> u64 {
    match token {
        Token::OpenCurly => 1,
        Token::ClosedCurly => 2,
        Token::OpenSquare => 3,
        Token::ClosedSquare => 4,
        Token::Comma => 5,
        Token::Colon => 6,
        Token::Semicolon => 7,
        Token::Str {
            quoted,
            start: _,
            end: _,
        } => { if quoted { 9 } else { 8 } }
        Token::Byte(_) => 10,
        Token::Short(_) => 11,
        Token::Int(_) => 12,
        Token::Long(_) => 13,
        Token::Float(_) => 14,
        Token::Double(_) => 15,
    }
}

// What a token carries.
fn print_value(text: &[u8], token: Token, out: &mut [u8])
    requires { Quiet token }
{
    match token {
        Token::OpenCurly => {}
        Token::ClosedCurly => {}
        Token::OpenSquare => {}
        Token::ClosedSquare => {}
        Token::Comma => {}
        Token::Colon => {}
        Token::Semicolon => {}
        Token::Str { quoted, start, end } => print_content(text, start, end, quoted, out),
        Token::Byte(v) => print_bits(raw::bits_of(v)),
        Token::Short(v) => print_bits(raw::bits_of(v)),
        Token::Int(v) => print_bits(raw::bits_of(v)),
        Token::Long(v) => print_bits(raw::bits_of(v)),
        Token::Float(x) => print_double(x),
        Token::Double(x) => print_double(x),
    }
}

// A token with its place and width, and the next place.
fn print_token(text: &[u8], token: Token, index: usize, width: usize, next: usize, out: &mut [u8])
    requires { Quiet token }
{
    print_head(number_of(token), index, width, next);
    print_value(text, token, out);
}

// The answer to a text.
fn print_lexed(text: &[u8], start: usize, set: Stops, out: &mut [u8]) {
    match snbt_lexer::token(text, start, set) {
        Ok(Lexed::Found { data, next }) => print_token(
            text,
            data.token,
            data.index.0,
            data.char_width.0,
            next,
            out,
        ),
        Ok(Lexed::Ended { place }) => {
            io::write_all(1, b"end");
            lines::print_number(place);
        }
        Err(e) => print_refusal(e),
    }
}

// The stop set of a number.
fn set_of(n: usize) -> Stops {
    match n {
        1 => Stops::Key,
        2 => Stops::Value,
        3 => Stops::First,
        4 => Stops::Later,
        _ => Stops::Default,
    }
}

// The answer to the first n bytes of a buffer.
fn print_case(text: &[u8], n: usize, start: usize, set: Stops, out: &mut [u8]) {
    if n <= text.len() {
        print_lexed(&text[..n], start, set, out);
        io::write_all(1, b"\n");
    } else {
        lines::print_bad();
    }
}

// The answer to a line.
fn print_line(line: &[u8], len: usize, field: &mut [u8], text: &mut [u8], out: &mut [u8]) {
    let a = lines::take_field(line, len, 0, field);
    let set = lines::decimal(field, a);
    let from = lines::sum(a, 1);
    let b = lines::take_field(line, len, from, field);
    let start = lines::decimal(field, b);
    let c = lines::take_field(line, len, lines::sum(lines::sum(from, b), 1), field);
    let n = lines::bytes_of(field, c, text);
    print_case(text, n, start, set_of(set), out);
}

// Every line in turn. The turns are for the loop to be seen to end: no input uses them up.
fn replay(chunk: &mut [u8], line: &mut [u8], field: &mut [u8], text: &mut [u8], out: &mut [u8]) {
    let mut input = lines::start();
    for _ in 0..u64::MAX {
        match lines::next_line(chunk, input, line) {
            Line::End => return,
            Line::Long { input: rest } => {
                lines::print_bad();
                input = rest;
            }
            Line::Got { len, input: rest } => {
                print_line(line, len, field, text, out);
                input = rest;
            }
        }
    }
}

fn main() {
    let mut chunk = io::large_buffer();
    let mut line = [0u8; 4096];
    let mut field = [0u8; 4096];
    let mut text = [0u8; 2048];
    let mut out = [0u8; 4096];
    replay(&mut chunk, &mut line, &mut field, &mut text, &mut out);
}
