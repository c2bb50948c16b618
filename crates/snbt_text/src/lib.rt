// Where a text is judged: its limit, UTF-8, and places on its characters (refusals 9 and 15).
#![tactic(auto)]

ghost use Rattle.std.specs.Prelude.{◌≡◌, ◌&&◌, leb};
ghost use Rattle.snbt_form.specs.Lexing.{begins, judged_text, on_character};
ghost use Rattle.snbt_text.specs.Answers.{text_out};

use form::refusals::Refusal;

// Whether a text keeps its limit (refusal 9) and is UTF-8 (refusal 15).
pub fn judged_text(text: &[u8]) -> Result<(), Refusal>
    ensures { text_out result ≡ judged_text text.now }
{
    if form::TEXT < text.len() {
        return Err(Refusal::OverLimit);
    }
    match mutf8::check_utf8(text) {
        Ok(()) => Ok(()),
        Err(_) => Err(Refusal::BadText),
    }
}

// 1 for a byte that begins a character, 0 for one within it (rule 10: a width counts characters).
pub fn begins(b: u8) -> usize
    ensures { result ≡ begins b }
{
    match b {
        128..=191 => 0,
        _ => 1,
    }
}

// Whether a place is the text's end or one at which a character begins (refusal 15).
pub fn on_character(text: &[u8], at: usize) -> bool
    ensures { result ≡ on_character text.now at }
{
    match text.get(at) {
        Some(b) => begins(*b) == 1,
        None => at == text.len(),
    }
}

// Whether two places are on characters of the text and in order (refusal 15).
pub fn in_order(text: &[u8], start: usize, end: usize) -> bool
    ensures { result ≡ (on_character text.now start && (on_character text.now end && leb start end)) }
{
    on_character(text, start) && on_character(text, end) && start <= end
}
