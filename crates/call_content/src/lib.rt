// A token's content under the promise of its C name: it fills eight words that the caller lends (include/tikfazrul.h).
#![tactic(auto)]

ghost use Rattle.calls.specs.Calls.{ContentCalled};

// A string token's content, unescaped, in modified UTF-8 (rule 12).
pub fn content(
    text: &[u8],
    start: usize,
    end: usize,
    quoted: u8,
    out: &mut [u8],
    answer: &mut [u64; 8],
)
    ensures { ContentCalled text.now start end quoted out.old out.new answer.new }
{
    *answer = match snbt_contents::content(text, start, end, quoted != 0, out) {
        Ok(bytes) => [0, 0, bytes as u64, 0, 0, 0, 0, 0],
        Err(e) => call_words::refusal(e.refusal, e.place),
    };
}
