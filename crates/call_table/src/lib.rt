// Rule 7's check under the promise of its C name: it fills eight words that the caller lends (include/tikfazrul.h).
#![tactic(auto)]

ghost use Rattle.calls.specs.Calls.{TableCalled};

use form::refusals::Refusal;
use table::Unfit;

// Whether words form a table over a document of doc_len bytes (rule 7).
pub fn is_table(doc_len: usize, table: &[u32], answer: &mut [u64; 8])
    ensures { TableCalled doc_len table.now answer.new }
{
    *answer = match table::is_table(doc_len, table) {
        Ok(()) => [0, 0, 1, 0, 0, 0, 0, 0],
        Err(Unfit::NoTable) => call_words::accepted(),
        Err(Unfit::OverLimit) => call_words::refusal(Refusal::OverLimit, 0),
    };
}
