// A rescue under the promise of its C name: it fills eight words that the caller lends (include/tikfazrul.h).
#![tactic(auto)]

ghost use Rattle.calls.specs.Calls.{RescueCalled};
ghost use Rattle.form.specs.Form.{form_no};

// Writes a whole document of one that is cut, in the form of a number ([11], [2]).
pub fn rescue(
    form: u32,
    doc: &[u8],
    table: &mut [u32],
    out: &mut [u8],
    changes: &mut [u32],
    answer: &mut [u64; 8],
)
    ensures { RescueCalled (form_no form) doc.now table.old table.new out.old out.new changes.old changes.new answer.new }
{
    *answer = match nbt_rescue::rescue(doc, table, out, changes, form) {
        Ok(saved) => [0, 0, saved.bytes as u64, saved.lines as u64, 0, 0, 0, 0],
        Err(e) => {
            let refusal = e.refusal.number() as u64;
            [refusal, e.place as u64, e.count as u64, 0, 0, 0, 0, 0]
        }
    };
}
