// Replays recorded answers on documents up to the limit of depth and past it: depth 512 passes, 513 is refusal 7. A line of input is a
// document in hexadecimal digits, of at most 8,192 bytes; there is room for 1,100 records. For each line it prints what the listing program
// prints first. The answers in stdout are of a second reader: tests/replay/depths.py made them.
#![tactic(auto)]

use form::refusals::Refused;
use lines::Line;
use nbt_reader::Accepted;

// The answer to a document.
fn print_answer(answer: Result<Accepted, Refused>) {
    match answer {
        Err(e) => {
            io::write_all(1, b" refused");
            lines::print_number(usize::from(e.refusal.number()));
            lines::print_number(e.place);
        }
        Ok(got) => {
            io::write_all(1, b" ok");
            lines::print_number(got.consumed);
            lines::print_number(got.records);
        }
    }
    io::write_all(1, b"\n");
}

// The answer to the first n bytes as a document.
fn print_document(doc: &[u8], n: usize, table: &mut [u32]) {
    if n <= doc.len() {
        print_answer(nbt_reader::read(&doc[..n], table, form::forms::JAVA));
    }
}

// The answer to the document that a line's digits stand for; or that the line is bad.
fn print_line(line: &[u8], len: usize, doc: &mut [u8], table: &mut [u32]) {
    match lines::unhex(line, len, doc) {
        None => {
            io::write_all(1, b" badline\n");
        }
        Some(n) => print_document(doc, n, table),
    }
}

// Which line it is, from 1.
fn print_place(turn: u64) {
    io::write_all(1, b"doc ");
    io::print_decimal(1, turn);
}

// Every line in turn, by way of lent buffers. The turns are for the loop to be seen to end: no input uses them up.
fn replay(chunk: &mut [u8], line: &mut [u8], doc: &mut [u8], table: &mut [u32]) {
    let mut input = lines::start();
    for turn in 1..=u64::MAX {
        match lines::next_line(chunk, input, line) {
            Line::End => return,
            Line::Long { input: rest } => {
                print_place(turn);
                io::write_all(1, b" badline\n");
                input = rest;
            }
            Line::Got { len, input: rest } => {
                print_place(turn);
                print_line(line, len, doc, table);
                input = rest;
            }
        }
    }
}

fn main() {
    let mut chunk = io::large_buffer();
    let mut line = [0u8; 16384];
    let mut doc = [0u8; 8192];
    let mut table = [0u32; 1100 * table::WORDS];
    replay(&mut chunk, &mut line, &mut doc, &mut table);
}
