// Rules 3 to 6: a document read into a table of records, field by field, in the order in which io.rs of the crate reads. Each contract
// cites the definition in form/specs/Reading.antt that the function meets.
#![tactic(auto)]

mod bodies;
mod settling;

ghost use Rattle.std.specs.Prelude.{◌≡◌, length};
ghost use Rattle.form.specs.Form.{form_no};
ghost use Rattle.form.specs.Reading.{ReadIs, document_at, room_of};
ghost use Rattle.nbt_reader.specs.Steps.{read_out, Named, Stepped, RootIs};

use crate::bodies::{Step, read_larger_body};
use form::kinds;
use form::refusals::{Refusal, Refused};

// The bytes consumed and the records written.
#[derive(Clone, Copy)]
pub struct Accepted {
    pub consumed: usize,
    pub records: usize,
}

// How many records a table of n words has room for.
fn room(n: usize) -> usize
    ensures { result ≡ room_of n }
{
    (n / table::WORDS).min(form::RECORDS)
}

// The root's payload at `at`, as record 0: room, then what it holds.
fn root(
    doc: &[u8],
    name: usize,
    name_len: usize,
    at: usize,
    table: &mut [u32],
    form: u32,
) -> Result<Step, Refused>
    requires { Named doc.now table.old (room_of (length table.old)) at 0 0 10 name name_len }
    ensures { RootIs (form_no form) doc.now name name_len at table.old table.new result }
{
    let cap = room(table.len());
    if cap == 0 {
        return Err(Refused {
            refusal: Refusal::TableFull,
            place: at,
        });
    }
    read_larger_body(
        doc,
        kinds::COMPOUND,
        name,
        name_len,
        at,
        form::DEPTH,
        table,
        cap,
        0,
        0,
        form,
    )
}

// A whole document, from record 0 on.
fn document(doc: &[u8], table: &mut [u32], form: u32) -> Result<Step, Refused>
    ensures { Stepped doc.now (room_of (length table.old)) (document_at (form_no form) doc.now (room_of (length table.old))) 0 0 0 table.old table.new result }
{
    if form::DOCUMENT < doc.len() {
        return Err(Refused {
            refusal: Refusal::OverLimit,
            place: 0,
        });
    }
    if doc.len() == 0 {
        return Err(Refused {
            refusal: Refusal::DataEnds,
            place: 0,
        });
    }
    if doc[0] != kinds::COMPOUND {
        return Err(Refused {
            refusal: Refusal::RootId,
            place: 0,
        });
    }
    let name = nbt_fields::string_at(doc, 1, form)?;
    root(doc, name.start, name.len, name.next, table, form)
}

// Reads a document into the table. A refused read leaves the table all zero; an accepted one changes the records' words only.
pub fn read(doc: &[u8], table: &mut [u32], form: u32) -> Result<Accepted, Refused>
    ensures { ReadIs (form_no form) doc.now table.old (read_out result) table.new }
{
    match document(doc, table, form) {
        Err(e) => {
            table::clear(table);
            Err(e)
        }
        Ok(step) => Ok(Accepted {
            consumed: step.at,
            records: step.ix,
        }),
    }
}
