// Rule 11: where an unquoted token ends, its width and the next place. A run of ordinary characters is taken at once, any other byte
// by itself.
ghost use Rattle.std.specs.Prelude.{◌≡◌, not, ◌||◌, ◌+◌, ◌-◌, ◌≤◌, ◌<◌, ◌^◌, eqb, length};
ghost use Rattle.form.specs.Answer.{pick};
ghost use Rattle.snbt_form.specs.Lexing.{within_quotes, stops, grown, after, word_of, word};
ghost use Rattle.snbt_tokens.specs.Answers.{stops_is};
ghost use Rattle.snbt_lexer.specs.Answers.{scan_of, word_is};
ghost use Rattle.snbt_lexer.specs.Runs.{Bounded, extended};

use crate::characters::{is_blank, is_stop, run_end};
use snbt_tokens::{Stops, Width, wider};

// How the token stands after some bytes: the open levels, the open quotes, a backslash right before, its end and its width so far.
#[derive(Clone, Copy)]
pub struct State {
    pub curly: usize,
    pub square: usize,
    pub single: bool,
    pub double: bool,
    pub escape: bool,
    pub end: usize,
    pub width: Width,
}

// Where the token ends, its width in characters, and the next place.
#[derive(Drop)]
pub struct Word {
    pub end: usize,
    pub width: Width,
    pub next: usize,
}

// Whether a quote is open (rule 11).
fn in_quotes(st: State) -> bool
    ensures { result ≡ within_quotes (scan_of st) }
{
    st.single || st.double
}

// Whether a byte ends the token: a stop character at level 0 outside quotes, also behind a backslash (rule 11).
fn ends(st: State, set: Stops, b: u8) -> bool
    ensures { result ≡ stops (stops_is set) (scan_of st) b }
{
    !in_quotes(st) && st.curly == 0 && st.square == 0 && is_stop(set, b)
}

// A quote opens or closes, unless a backslash stands before it or the other sort is open (rule 11).
fn toggled(own: bool, escape: bool, other: bool) -> bool
    ensures { result ≡ pick (escape || other) own (not own) }
{
    if escape || other { own } else { !own }
}

// A level after a byte: one up at the opening brace, one down at the closing one, never below 0; unchanged within quotes (rule 11).
fn level(within: bool, opening: u8, closing: u8, b: u8, n: usize) -> usize
    requires { n + 1 < 2 ^ 64 }
    ensures { result ≡ pick within n (pick (eqb b opening) (n + 1) (pick (eqb b closing) (n - 1) n)) }
{
    if within {
        return n;
    }
    if b == opening {
        n + 1
    } else if b == closing {
        n.saturating_sub(1)
    } else {
        n
    }
}

// The state after a byte at i that is neither backslash nor quote: one that is not blank extends the token (rule 11).
fn grown_by(st: State, b: u8, i: usize) -> State
    requires { Bounded (scan_of st) i × (i + 1 < 2 ^ 64) }
    ensures { scan_of result ≡ grown (scan_of st) b i }
{
    let within = in_quotes(st);
    let mut n = st;
    n.curly = level(within, b'{', b'}', b, st.curly);
    n.square = level(within, b'[', b']', b, st.square);
    n.escape = false;
    if is_blank(b) {
        return n;
    }
    let width = st.width;
    n.end = i + 1;
    n.width = wider(width, snbt_text::begins(b));
    n
}

// The state after a byte at i that does not end the token: backslashes and quotes extend neither token nor width (rule 11).
fn after_byte(st: State, b: u8, i: usize) -> State
    requires { Bounded (scan_of st) i × (i + 1 < 2 ^ 64) }
    ensures { scan_of result ≡ after (scan_of st) b i }
{
    let mut n = st;
    if b == b'\\' {
        n.escape = true;
        return n;
    }
    if b == b'\'' {
        n.single = toggled(st.single, st.escape, st.double);
        n.escape = false;
        return n;
    }
    if b == b'"' {
        n.double = toggled(st.double, st.escape, st.single);
        n.escape = false;
        return n;
    }
    grown_by(st, b, i)
}

// The state after a run of ordinary characters from i up to j.
fn after_run(st: State, i: usize, j: usize) -> State
    requires { Bounded (scan_of st) i × (i ≤ j) × (j < 2 ^ 64) }
    ensures { scan_of result ≡ extended (scan_of st) (j - i) j }
{
    let mut n = st;
    n.escape = false;
    let width = st.width;
    n.end = j;
    n.width = wider(width, j - i);
    n
}

// The token as it stands, and the next place.
fn word_of(st: State, next: usize) -> Word
    ensures { word_is result ≡ word_of (scan_of st) next }
{
    let width = st.width;
    Word {
        end: st.end,
        width,
        next,
    }
}

// The unquoted token at a place, its first character unexamined, run by run and byte by byte (rule 11).
fn word_from(text: &[u8], start: usize, set: Stops) -> Word
    requires { start < length text.now }
    ensures { word_is result ≡ word (stops_is set) text.now start }
{
    let mut i = start + 1;
    let mut st = State {
        curly: 0,
        square: 0,
        single: false,
        double: false,
        escape: false,
        end: i,
        width: Width(1),
    };
    // A `while`: a run is passed at once.
    while i < text.len() {
        let j = run_end(text, i);
        if i < j {
            st = after_run(st, i, j);
            i = j;
        } else {
            let b = text[i];
            if ends(st, set, b) {
                return word_of(st, i);
            }
            st = after_byte(st, b, i);
            i += 1;
        }
    }
    word_of(st, i)
}

// The same; a run of ordinary characters that a stop character ends at once is the whole token, and most tokens are of this sort.
pub fn word_at(text: &[u8], start: usize, set: Stops) -> Word
    requires { start < length text.now }
    ensures { word_is result ≡ word (stops_is set) text.now start }
{
    let end = run_end(text, start + 1);
    if end < text.len() && is_stop(set, text[end]) {
        return Word {
            end,
            width: Width(end - start),
            next: end,
        };
    }
    word_from(text, start, set)
}
