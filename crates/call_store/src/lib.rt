// Stored lines under the promises of their C names: each fills eight words that the caller lends (include/tikfazrul.h).
#![tactic(auto)]

ghost use Rattle.calls.specs.Calls.{WriteLinesCalled, ReadLinesCalled};

// Writes the lines of a table over a document of doc_len bytes ([6]).
pub fn write_lines(doc_len: usize, table: &[u32], out: &mut [u8], answer: &mut [u64; 8])
    ensures { WriteLinesCalled doc_len table.now out.old out.new answer.new }
{
    *answer = match table_store::write_lines(doc_len, table, out) {
        Ok(bytes) => [0, 0, bytes as u64, 0, 0, 0, 0, 0],
        Err(refused) => call_words::refusal(refused.refusal, refused.place),
    };
}

// Reads lines back into a table ([6]).
pub fn read_lines(lines: &[u8], table: &mut [u32], answer: &mut [u64; 8])
    ensures { ReadLinesCalled lines.now table.old table.new answer.new }
{
    *answer = match table_store::read_lines(lines, table) {
        Ok(records) => [0, 0, records as u64, 0, 0, 0, 0, 0],
        Err(bad) => call_words::refusal(bad.refusal, bad.place),
    };
}
