// The listing program of document 01: reads hexadecimal lines, one document a line, and lists the records of each, or its refusal. A
// document has at most 4,096 bytes and 512 records.
#![tactic(auto)]

use form::refusals::Refused;
use lines::Line;
use nbt_reader::Accepted;

// One record: its number, kind, name length, payload length and count.
fn print_record(table: &[u32], i: usize) {
    if table.len() / table::WORDS <= i {
        return;
    }
    io::print_decimal(1, i as u64);
    lines::print_number(table::word(table, i, table::KIND));
    lines::print_number(table::word(table, i, table::NAME_LENGTH));
    lines::print_number(table::word(table, i, table::LENGTH));
    lines::print_number(table::word(table, i, table::COUNT));
    io::write_all(1, b"\n");
}

// The first n records.
fn print_records(table: &[u32], n: usize) {
    for i in 0..n {
        print_record(table, i);
    }
}

// The answer to a document.
fn print_answer(answer: Result<Accepted, Refused>, table: &[u32]) {
    match answer {
        Err(e) => {
            io::write_all(1, b" refused");
            lines::print_number(usize::from(e.refusal.number()));
            lines::print_number(e.place);
            io::write_all(1, b"\n");
        }
        Ok(got) => {
            io::write_all(1, b" ok");
            lines::print_number(got.consumed);
            lines::print_number(got.records);
            io::write_all(1, b"\n");
            print_records(table, got.records);
        }
    }
}

// The first n bytes as a document.
fn print_document(doc: &[u8], n: usize, table: &mut [u32]) {
    if n <= doc.len() {
        let answer = nbt_reader::read(&doc[..n], table, form::forms::JAVA);
        print_answer(answer, table);
    }
}

// The document that a line's digits stand for, listed; or that the line is bad.
fn print_line(line: &[u8], len: usize, doc: &mut [u8], table: &mut [u32]) {
    match lines::unhex(line, len, doc) {
        None => {
            io::write_all(1, b" badline\n");
        }
        Some(n) => print_document(doc, n, table),
    }
}

// Which line it is, from 1.
fn print_place(turn: u64) {
    io::write_all(1, b"doc ");
    io::print_decimal(1, turn);
}

// Every line in turn, by way of lent buffers. The turns are for the loop to be seen to end: no input uses them up.
fn list_lines(chunk: &mut [u8], line: &mut [u8], doc: &mut [u8], table: &mut [u32]) {
    let mut input = lines::start();
    for turn in 1..=u64::MAX {
        match lines::next_line(chunk, input, line) {
            Line::End => return,
            Line::Long { input: rest } => {
                print_place(turn);
                io::write_all(1, b" badline\n");
                input = rest;
            }
            Line::Got { len, input: rest } => {
                print_place(turn);
                print_line(line, len, doc, table);
                input = rest;
            }
        }
    }
}

fn main() {
    let mut chunk = io::large_buffer();
    let mut line = [0u8; 8192];
    let mut doc = [0u8; 4096];
    let mut table = [0u32; 512 * table::WORDS];
    list_lines(&mut chunk, &mut line, &mut doc, &mut table);
}
