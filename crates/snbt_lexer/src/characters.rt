// What a byte is to the lexer: blank, a stop character, or one that every unquoted token takes;
// and the runs of blanks and of such bytes.
ghost use Rattle.std.specs.Prelude.{◌≡◌};
ghost use Rattle.snbt_form.specs.Lexing.{among, blank, stop_set, skip};
ghost use Rattle.snbt_tokens.specs.Answers.{stops_is};
ghost use Rattle.snbt_lexer.specs.Runs.{ordinary, run_end};

use snbt_tokens::Stops;

// ASCII whitespace; 0x0B is none (rule 10).
#[tactic(auto, unfolding(snbt_form::specs::Lexing::among))]
pub fn is_blank(b: u8) -> bool
    ensures { result ≡ blank b }
{
    matches!(b, 9 | 10 | 12 | 13 | 32)
}

// Whether a byte is in a set of stop characters (rule 11).
#[tactic(auto, unfolding(snbt_form::specs::Lexing::among))]
pub fn is_stop(set: Stops, b: u8) -> bool
    ensures { result ≡ among (stop_set (stops_is set)) b }
{
    match set {
        Stops::Default => matches!(b, b',' | b';' | b'[' | b']' | b'{' | b'}'),
        Stops::Key => b == b':',
        Stops::Value => matches!(b, b',' | b'}'),
        Stops::First => matches!(b, b',' | b';' | b']'),
        Stops::Later => matches!(b, b',' | b']'),
    }
}

// Letters, digits and some signs, `- . _` among them: every unquoted token takes them (rule 11).
fn is_ordinary(b: u8) -> bool
    ensures { result ≡ ordinary b }
{
    matches!(b, 45..=57 | 60..=90 | 94..=122)
}

// The first place from a place on at which no such byte stands.
pub fn run_end(text: &[u8], at: usize) -> usize
    ensures { result ≡ run_end text.now at }
{
    let mut i = at;
    while i < text.len() && is_ordinary(text[i]) {
        i += 1;
    }
    i
}

// The first place from a place on that is not blank (rule 10).
pub fn skip_blank(text: &[u8], at: usize) -> usize
    ensures { result ≡ skip text.now at }
{
    let mut i = at;
    while i < text.len() && is_blank(text[i]) {
        i += 1;
    }
    i
}
