// Strings and numbers as they are written in another form (02, [2]): a string's characters by the other rule, a number's bytes in the other
// order. What both forms have alike, runs of plain bytes too, is copied as it stands.
#![tactic(auto)]

ghost use Rattle.std.specs.Prelude.{◌≡◌, ◌+◌, ◌*◌, ◌≤◌, ◌<◌, length, false};
ghost use Rattle.form.specs.Form.{way_no, same_rule};
ghost use Rattle.form.specs.Spans.{part, over};
ghost use Rattle.form.specs.Turned.{recoded};
ghost use Rattle.recode.specs.Steps.{Puts, number, each_number, numbers};

use form::forms::is_pocket;
use form::ways;

// How many bytes a string takes as it is written by another rule.
fn other_length(s: &[u8], way: u32) -> usize
    requires { (length s.now ≤ 16777216) × (same_rule (way_no way).from.strings (way_no way).to.strings ≡ false) }
    ensures { result ≡ length (recoded (way_no way) s.now) }
{
    let mut i: usize = 0;
    let mut total: usize = 0;
    // A `while`: a turn goes on by a run of plain bytes or by one character.
    while i < s.len() {
        let run = plain::plain_end(0, 0, s, i, s.len());
        if i < run {
            total += run - i;
            i = run;
            continue;
        }
        let Some(front) = mutf8::front_at(s, i, ways::source(way)) else {
            return total;
        };
        total += chars::length_in(front.value, ways::target(way));
        i += front.size;
    }
    total
}

// How many bytes a span takes, as a string that is written.
pub fn length(doc: &[u8], start: usize, size: usize, way: u32) -> usize
    requires { (start + size ≤ length doc.now) × (size ≤ 16777216) }
    ensures { result ≡ length (recoded (way_no way) (part doc.now start size)) }
{
    if ways::same_rule(way) {
        return size;
    }
    let end = start + size;
    other_length(&doc[start..end], way)
}

// Writes a string by another rule, character by character; the place behind it.
fn put_other(s: &[u8], out: &mut [u8], at: usize, way: u32) -> usize
    requires { (at + length (recoded (way_no way) s.now) ≤ length out.old) × (same_rule (way_no way).from.strings (way_no way).to.strings ≡ false) }
    ensures { Puts (recoded (way_no way) s.now) out.old at out.new result }
{
    let mut i: usize = 0;
    let mut here = at;
    // A `while`: a turn goes on by a run of plain bytes or by one character.
    while i < s.len() {
        let run = plain::plain_end(0, 0, s, i, s.len());
        if i < run {
            slices::copy(s, i, run - i, out, here);
            here += run - i;
            i = run;
            continue;
        }
        let Some(front) = mutf8::front_at(s, i, ways::source(way)) else {
            return here;
        };
        here = chars::put_in(front.value, out, here, ways::target(way));
        i += front.size;
    }
    here
}

// Writes a span as a string; the place behind it.
pub fn put_string(
    doc: &[u8],
    start: usize,
    size: usize,
    out: &mut [u8],
    at: usize,
    way: u32,
) -> usize
    requires { (start + size ≤ length doc.now) × (at + length (recoded (way_no way) (part doc.now start size)) ≤ length out.old) }
    ensures { Puts (recoded (way_no way) (part doc.now start size)) out.old at out.new result }
{
    if ways::same_rule(way) {
        slices::copy(doc, start, size, out, at);
        return at + size;
    }
    let end = start + size;
    put_other(&doc[start..end], out, at, way)
}

// One number of `width` bytes, in the other order.
fn put_number(doc: &[u8], start: usize, width: usize, out: &mut [u8], at: usize, way: u32)
    requires { (width ≤ 8) × (start + width ≤ length doc.now) × (at + width ≤ length out.old) }
    ensures { out.new ≡ over out.old at (number (way_no way) width (part doc.now start width)) }
{
    let v = raw::number_in(doc, start, width, is_pocket(ways::source(way)));
    raw::put_in(out, at, width, v, is_pocket(ways::target(way)));
}

// Numbers of `width` bytes each, one after the other, each in the other order; the place behind them.
fn put_turned(
    doc: &[u8],
    start: usize,
    count: usize,
    width: usize,
    out: &mut [u8],
    at: usize,
    way: u32,
) -> usize
    requires { (width ≤ 8) × (start + count * width ≤ length doc.now) × (at + count * width ≤ length out.old) }
    ensures { Puts (each_number (way_no way) width count (part doc.now start (count * width))) out.old at out.new result }
{
    for i in 0..count {
        let k = i * width;
        put_number(doc, start + k, width, out, at + k, way);
    }
    at + count * width
}

// Writes a span as numbers of `width` bytes each; the place behind them.
pub fn put_numbers(
    doc: &[u8],
    start: usize,
    size: usize,
    width: usize,
    out: &mut [u8],
    at: usize,
    way: u32,
) -> usize
    requires { (0 < width) × (width ≤ 8) × (start + size ≤ length doc.now) × (at + length (numbers (way_no way) width (part doc.now start size)) ≤ length out.old) }
    ensures { Puts (numbers (way_no way) width (part doc.now start size)) out.old at out.new result }
{
    if ways::same_order(way) {
        slices::copy(doc, start, size, out, at);
        return at + size;
    }
    put_turned(doc, start, size / width, width, out, at, way)
}
