// Writing under the promise of its C names: it fills eight words that the caller lends (include/tikfazrul.h).
#![tactic(auto)]

ghost use Rattle.calls.specs.Calls.{WriteCalled};
ghost use Rattle.form.specs.Form.{form_no, way_from, stays};

// Writes the document that a table stands for in another form than its own, both by their numbers (02, [2]). The table comes back as it was.
pub fn convert(
    from: u32,
    to: u32,
    doc: &[u8],
    table: &mut [u32],
    out: &mut [u8],
    answer: &mut [u64; 8],
)
    ensures { WriteCalled (way_from (form_no from) (form_no to)) doc.now table.old table.new out.old out.new answer.new }
{
    match nbt_writer::write(doc, table, out, from, to) {
        Ok(bytes) => {
            *answer = [0, 0, bytes as u64, 0, 0, 0, 0, 0];
        }
        Err(e) => {
            let number = u64::from(e.refusal.number());
            *answer = [number, e.place as u64, e.record as u64, 0, 0, 0, 0, 0];
        }
    }
}

// Writes it in its own form (rule 8).
pub fn write(form: u32, doc: &[u8], table: &mut [u32], out: &mut [u8], answer: &mut [u64; 8])
    ensures { WriteCalled (stays (form_no form)) doc.now table.old table.new out.old out.new answer.new }
{
    convert(form, form, doc, table, out, answer);
}
