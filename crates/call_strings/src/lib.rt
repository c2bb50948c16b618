// The check of strings under the promises of its C names: it fills eight words that the caller lends (include/tikfazrul.h).
#![tactic(auto)]

ghost use Rattle.form.specs.Form.{form_no, utf8};
ghost use Rattle.form.specs.Answer.{bad_string, bad_text};
ghost use Rattle.calls.specs.Calls.{StringCalled};

use form::refusals::Refusal;

// Whether bytes keep the string rule of a form (rule 2; 02, [2]): 4 at the first sequence that can't be read. Each arm writes the answer itself:
// words that are chosen first are copied, which short strings feel.
pub fn check_string(form: u32, bytes: &[u8], answer: &mut [u64; 8])
    ensures { StringCalled (form_no form).strings bad_string bytes.now answer.new }
{
    match mutf8::check(bytes, form) {
        Ok(()) => *answer = call_words::accepted(),
        Err(e) => *answer = call_words::refusal(Refusal::BadString, e.at),
    }
}

// Whether bytes are UTF-8, as a text must be: 15 at the first sequence that can't be read.
pub fn check_utf8(bytes: &[u8], answer: &mut [u64; 8])
    ensures { StringCalled utf8 bad_text bytes.now answer.new }
{
    match mutf8::check_utf8(bytes) {
        Ok(()) => *answer = call_words::accepted(),
        Err(e) => *answer = call_words::refusal(Refusal::BadText, e.at),
    }
}
