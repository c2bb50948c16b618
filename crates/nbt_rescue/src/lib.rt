// Request [11]: of a document that is cut in transfer a whole one is written, with every tag that was completely read before the cut.
#![tactic(auto)]

ghost use Rattle.std.specs.Prelude.{◌≡◌, length};
ghost use Rattle.form.specs.Answer.{no};
ghost use Rattle.form.specs.Form.{form_no};
ghost use Rattle.form.specs.Reading.{reading};
ghost use Rattle.form.specs.Cut.{RescueIs};
ghost use Rattle.nbt_writer.specs.Steps.{answer_out};
ghost use Rattle.nbt_rescue.specs.Answers.{rescue_out, GatheredIn, LaidIs, Roomy, KeptPut, most_of, TightAsked, CutIs};

use form::refusals::Refusal;
use nbt_writer::Unwritten;

// The bytes and the lines written.
#[derive(Clone, Copy)]
pub struct Saved {
    pub bytes: usize,
    pub lines: usize,
}

// A refusal and its place, and the true count of lines in 24.
#[derive(Clone, Copy, Debug)]
pub struct Unsaved {
    pub refusal: Refusal,
    pub place: usize,
    pub count: usize,
}

// Writes the document that the records gathered stand for, where there is room (13).
fn lay(
    doc: &[u8],
    table: &mut [u32],
    records: usize,
    out: &mut [u8],
    form: u32,
) -> Result<usize, Unwritten>
    requires { GatheredIn (form_no form) doc.now table.old records }
    ensures { LaidIs (form_no form) doc.now table.old out.old (answer_out result) out.new }
{
    let words = table::WORDS * records;
    nbt_writer::write(doc, &mut table[..words], out, form, form)
}

// The same where the output has room for the cut document and a byte for each line, so that nothing is judged or counted first.
fn put(doc: &[u8], table: &[u32], records: usize, out: &mut [u8], form: u32) -> usize
    requires { Roomy (form_no form) doc.now table.now records out.old }
    ensures { KeptPut (form_no form) doc.now table.now out.old out.new result }
{
    let words = table::WORDS * records;
    nbt_writer::put(doc, &table[..words], out, form)
}

// How many lines may be put while the document is gathered: those that have room, if the output then has room for certain.
fn most(doc: usize, out: usize, changes: usize) -> usize
    ensures { result ≡ most_of doc out changes }
{
    out.saturating_sub(doc).min(changes / 3)
}

// What is kept, where the output is short: judged and counted first (13), and its lines put last, when nothing can be refused any more.
fn tight(
    doc: &[u8],
    table: &mut [u32],
    records: usize,
    lines: usize,
    out: &mut [u8],
    changes: &mut [u32],
    form: u32,
) -> Result<Saved, Unsaved>
    requires { TightAsked (form_no form) doc.now table.old records lines changes.old }
    ensures { CutIs (form_no form) doc.now table.old out.old changes.old (rescue_out result) out.new changes.new }
{
    match lay(doc, table, records, out, form) {
        Err(e) => Err(Unsaved {
            refusal: e.refusal,
            place: e.place,
            count: 0,
        }),
        Ok(bytes) => {
            nbt_gather::gather(doc, table, changes, changes.len() / 3, form);
            Ok(Saved { bytes, lines })
        }
    }
}

// A document that is refused with 1 at `place`.
fn cut(
    doc: &[u8],
    place: usize,
    table: &mut [u32],
    out: &mut [u8],
    changes: &mut [u32],
    form: u32,
) -> Result<Saved, Unsaved>
    requires { reading (form_no form) doc.now table.old ≡ no 1 place }
    ensures { CutIs (form_no form) doc.now table.old out.old changes.old (rescue_out result) out.new changes.new }
{
    let most = most(doc.len(), out.len(), changes.len());
    let Some(kept) = nbt_gather::gather(doc, table, changes, most, form) else {
        return Err(Unsaved {
            refusal: Refusal::RootCut,
            place,
            count: 0,
        });
    };
    if changes.len() / 3 < kept.lines {
        return Err(Unsaved {
            refusal: Refusal::MoreMatches,
            place: 0,
            count: kept.lines,
        });
    }
    if most < kept.lines {
        return tight(doc, table, kept.records, kept.lines, out, changes, form);
    }
    let bytes = put(doc, table, kept.records, out, form);
    Ok(Saved {
        bytes,
        lines: kept.lines,
    })
}

// Rescues a document: the reader's refusals but 1 as they are; 31 for an accepted one; 32, 24 and 13. The table ends as the read leaves it.
pub fn rescue(
    doc: &[u8],
    table: &mut [u32],
    out: &mut [u8],
    changes: &mut [u32],
    form: u32,
) -> Result<Saved, Unsaved>
    ensures { RescueIs (form_no form) doc.now table.old out.old changes.old (rescue_out result) table.new out.new changes.new }
{
    match nbt_reader::read(doc, table, form) {
        Ok(_) => Err(Unsaved {
            refusal: Refusal::NotCut,
            place: 0,
            count: 0,
        }),
        Err(e) => match e.refusal {
            Refusal::DataEnds => {
                let saved = cut(doc, e.place, table, out, changes, form);
                table::clear(table);
                saved
            }
            _ => Err(Unsaved {
                refusal: e.refusal,
                place: e.place,
                count: 0,
            }),
        },
    }
}
