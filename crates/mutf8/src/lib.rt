// Modified UTF-8 (rule 2) and UTF-8: whether a slice is well formed, and where it is not.
// Text is passed in blocks of 64 bytes without a branch for each byte; what no block takes is read value by value. Plain bytes are all from 1
// to 127 here, so `plain` is given 0, which is none of them.
#![tactic(auto)]

pub mod blocks;

ghost use Rattle.std.specs.Prelude.{◌≡◌, ◌≤◌, ◌<◌, length, drop};
ghost use Rattle.form.specs.Form.{form_no};
ghost use Rattle.form.specs.Strings.{enc_of, utf8_bytes};
ghost use Rattle.form.specs.Decoding.{one_of, utf8_of, well_formed_in, Judged};
ghost use Rattle.chars.specs.Answers.{sequence_of};
ghost use Rattle.mutf8.specs.Answers.{verdict_of};
ghost use Rattle.mutf8.specs.Runs.{Stepped};

use chars::Character;
use form::forms::{POCKET, is_pocket};

// The offset at which the first sequence that can't be read begins.
#[derive(Clone, Copy, Debug)]
pub struct Unreadable {
    pub at: usize,
}

// How far to go value by value: a little where blocks went from i to j, and further each time that they don't.
fn reach_after(reach: usize, i: usize, j: usize) -> usize
    ensures { 0 < result }
{
    if i < j {
        return 16;
    }
    if 256 <= reach {
        return reach;
    }
    reach + 32
}

// A place so far on, or the end where that comes first.
fn ahead(end: usize, at: usize, reach: usize) -> usize
    requires { (at ≤ end) × (0 < reach) }
    ensures { (at ≤ result) × (result ≤ end) × (at < end → at < result) }
{
    if end - at < reach { end } else { at + reach }
}

// What stands at a place in a form: the only function that knows one from the other. In modified UTF-8 the value that was read tells
// how many bytes it takes.
pub fn front_at(s: &[u8], at: usize, form: u32) -> Option<Character>
    ensures { sequence_of result ≡ one_of (form_no form).strings (drop at s.now) }
{
    if is_pocket(form) {
        return chars::utf8_at(s, at);
    }
    let front = chars::scalar_at(s, at)?;
    Some(Character {
        value: front.value,
        size: chars::length_of(front.value),
    })
}

// Goes on value by value, up to `stop` or one that can't be read.
fn steps(s: &[u8], at: usize, stop: usize, form: u32) -> usize
    requires { (at ≤ length s.now) × (stop ≤ length s.now) }
    ensures { Stepped (one_of (form_no form).strings) s.now at stop result }
{
    let mut i = at;
    // A `while`: each value goes on by as many bytes as it takes.
    while i < stop {
        if plain::unplain(0, 0, s[i]) == 0 {
            i = i + 1;
            continue;
        }
        let Some(front) = front_at(s, i, form) else {
            return i;
        };
        i = i + front.size;
    }
    i
}

// Whether the whole of s keeps the string rule of a form, by blocks and by values in turn.
fn judge(s: &[u8], form: u32) -> Result<(), Unreadable>
    ensures { Judged (enc_of (form_no form).strings) (one_of (form_no form).strings) s.now (verdict_of result) }
{
    let mut i = 0;
    let mut reach: usize = 0;
    // A `while`: each turn goes on by as much as it passed.
    while i < s.len() {
        let j = blocks::pass(s, i);
        reach = reach_after(reach, i, j);
        let stop = ahead(s.len(), j, reach);
        let r = steps(s, j, stop, form);
        if r < stop {
            return Err(Unreadable { at: r });
        }
        i = r;
    }
    Ok(())
}

// Whether the whole of s keeps the string rule of a form (rule 2; 02, [2]); where not, refusal 4 at the offset. A short plain string, which
// every rule takes, is passed before the form is looked at.
pub fn check(s: &[u8], form: u32) -> Result<(), Unreadable>
    ensures { Judged (enc_of (form_no form).strings) (one_of (form_no form).strings) s.now (verdict_of result) }
{
    if plain::is_plain(0, s) {
        return Ok(());
    }
    judge(s, form)
}

// Refusal 4's test.
pub fn is_well_formed(s: &[u8], form: u32) -> bool
    ensures { result ≡ well_formed_in (form_no form).strings s.now }
{
    check(s, form).is_ok()
}

// Whether the whole of a text is UTF-8, as the strings of the pocket edition are; where not, refusal 15 at the offset.
pub fn check_utf8(s: &[u8]) -> Result<(), Unreadable>
    ensures { Judged utf8_bytes utf8_of s.now (verdict_of result) }
{
    if plain::is_plain(0, s) {
        return Ok(());
    }
    judge(s, POCKET)
}
