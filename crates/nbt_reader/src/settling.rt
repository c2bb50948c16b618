// A compound's end, and a refusal inside it, once the names of its entries are told apart (refusal 6): an earlier repeat comes first.
ghost use Rattle.std.specs.Prelude.{◌≡◌, ◌+◌, ◌≤◌, length};
ghost use Rattle.form.specs.Refusals.{number_of};
ghost use Rattle.nbt_reader.specs.Steps.{Known, repeat_in, Settled, Finished, EntryIs};

use form::refusals::{Refusal, Refused};

// Records read one after the other, and how many.
#[derive(Clone, Copy)]
pub struct Ran {
    pub at: usize,
    pub ix: usize,
    pub count: usize,
}

// A refusal, unless the names of the records from `first` up to `next` are not told apart.
pub fn settle(doc: &[u8], table: &mut [u32], first: usize, next: usize, refused: Refused) -> Refused
    requires { Known doc.now table.old first next }
    ensures { (Settled (repeat_in doc.now table.old first next) (number_of refused.refusal) refused.place result) × (table.new ≡ table.old) }
{
    match nbt_siblings::repeat_place(doc, table, first, next) {
        Some(p) => Refused {
            refusal: Refusal::NameTwice,
            place: p,
        },
        None => refused,
    }
}

// The end of the entries, unless their names are not told apart.
pub fn finish(
    doc: &[u8],
    table: &mut [u32],
    first: usize,
    next: usize,
    at: usize,
    count: usize,
) -> Result<Ran, Refused>
    requires { Known doc.now table.old first next }
    ensures { (Finished (repeat_in doc.now table.old first next) at next count result) × (table.new ≡ table.old) }
{
    match nbt_siblings::repeat_place(doc, table, first, next) {
        Some(p) => Err(Refused {
            refusal: Refusal::NameTwice,
            place: p,
        }),
        None => Ok(Ran {
            at,
            ix: next,
            count,
        }),
    }
}

// A refusal in the payload of an entry at `here`, unless a name is repeated before it, the entry's own too.
pub fn settle_entry(
    doc: &[u8],
    table: &mut [u32],
    first: usize,
    next: usize,
    start: usize,
    len: usize,
    here: usize,
    refused: Refused,
) -> Refused
    requires { (Known doc.now table.old first next) × (start + len ≤ length doc.now) }
    ensures { (EntryIs doc.now table.old first next start len here (number_of refused.refusal) refused.place result) × (table.new ≡ table.old) }
{
    if nbt_siblings::has_name(doc, table, first, next, start, len) {
        let twice = Refused {
            refusal: Refusal::NameTwice,
            place: here,
        };
        return settle(doc, table, first, next, twice);
    }
    settle(doc, table, first, next, refused)
}
