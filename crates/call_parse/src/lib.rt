// Parsing a text under the promise of its C name: it fills eight words that the caller lends (include/tikfazrul.h).
#![tactic(auto)]

ghost use Rattle.calls.specs.Calls.{ParseCalled};

// The document that a text means (rules 14 and 15).
pub fn parse(text: &[u8], out: &mut [u8], answer: &mut [u64; 8])
    ensures { ParseCalled text.now out.old out.new answer.new }
{
    *answer = match snbt::parse(text, out) {
        Ok(done) => [0, 0, done.consumed as u64, done.written as u64, 0, 0, 0, 0],
        Err(e) => call_words::refusal(e.refusal, e.place),
    };
}
