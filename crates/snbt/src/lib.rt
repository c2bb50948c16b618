// Rules 14 and 15: a text read into a document. Each function names the definition of snbt_form/specs/Text.antt that it meets.
// The cycle of values stands in values.rt; `scratch` lends it the least memory that a text needs.
#![tactic(auto)]

mod scratch;
mod values;

ghost use Rattle.snbt_form.specs.Text.{parsed, ParseIs};
ghost use Rattle.snbt.specs.Answers.{parsed_out};
ghost use Rattle.snbt.specs.Steps.{RootIs};
ghost use Rattle.std.specs.Prelude.{length};

use form::refusals::Refused;
use snbt_placing::Done;

// A document that was written: the bytes of the text consumed and those of the document.
#[derive(Clone, Copy)]
pub struct Parsed {
    pub consumed: usize,
    pub written: usize,
}

// A document from a text: refusals 9 and 15 first.
fn judged(text: &[u8], out: &mut [u8]) -> Result<Done, Refused>
    ensures { RootIs (parsed text.now (length out.old)) out.old result out.new }
{
    if let Err(refusal) = snbt_text::judged_text(text) {
        return Err(Refused { refusal, place: 0 });
    }
    scratch::stepped(text, out, 512)
}

// The document that a text means, with an empty root name; after a refusal the whole output is zero.
pub fn parse(text: &[u8], out: &mut [u8]) -> Result<Parsed, Refused>
    ensures { ParseIs text.now out.old (parsed_out result) out.new }
{
    match judged(text, out) {
        Ok(done) => Ok(Parsed {
            consumed: done.next,
            written: done.used,
        }),
        Err(refused) => {
            slices::clear(out);
            Err(refused)
        }
    }
}
