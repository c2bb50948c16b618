// A query under the promise of its C name: it fills eight words that the caller lends (include/tikfazrul.h).
#![tactic(auto)]

ghost use Rattle.calls.specs.Calls.{QueryCalled};
ghost use Rattle.form.specs.Form.{form_no};

// Asks a table which of its tags match a query (rule 9), names in the string rule of a form (02, [2]). Refusal 24 comes with the true count.
pub fn query(
    form: u32,
    doc: &[u8],
    table: &[u32],
    query: &[u8],
    list: &mut [u32],
    answer: &mut [u64; 8],
)
    ensures { QueryCalled (form_no form) doc.now table.now query.now list.old list.new answer.new }
{
    *answer = match query::query(doc, table, query, list, form) {
        Ok(count) => [0, 0, count as u64, 0, 0, 0, 0, 0],
        Err(refused) => {
            let number = refused.refusal.number() as u64;
            let place = refused.place as u64;
            [number, place, refused.count as u64, 0, 0, 0, 0, 0]
        }
    };
}
