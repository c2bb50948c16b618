// Reading under the promise of its C name: it fills eight words that the caller lends (include/tikfazrul.h).
#![tactic(auto)]

ghost use Rattle.calls.specs.Calls.{ReadCalled};
ghost use Rattle.form.specs.Form.{form_no};

// Reads a document in the form of a number into a table of records (rules 3 to 6; 02, [2]).
pub fn read(form: u32, doc: &[u8], table: &mut [u32], answer: &mut [u64; 8])
    ensures { ReadCalled (form_no form) doc.now table.old table.new answer.new }
{
    *answer = match nbt_reader::read(doc, table, form) {
        Ok(got) => [0, 0, got.consumed as u64, got.records as u64, 0, 0, 0, 0],
        Err(e) => call_words::refusal(e.refusal, e.place),
    };
}
