// Payloads of tags (rules 3 to 5): numbers, strings and arrays as records, and the cycle of lists and compounds, at most 512 deep.
ghost use Rattle.std.specs.Prelude.{suc, ◌+◌, ◌≤◌, ◌<◌, length};
ghost use Rattle.form.specs.Form.{Form, form_no};
ghost use Rattle.form.specs.Table.{none};
ghost use Rattle.form.specs.Reading.{leaf_one, payload_by, inside_at, list_at, elements as elementsOf, entries as entries_of};
ghost use Rattle.nbt_reader.specs.Steps.{Ready, Named, Stepped, Held, Went};

use crate::settling::{Ran, finish, settle, settle_entry};
use form::kinds;
use form::refusals::{Refusal, Refused};
use nbt_fields::Entry;

// The place behind what was read, and the next record.
#[derive(Clone, Copy)]
pub struct Step {
    pub at: usize,
    pub ix: usize,
}

// The same of what a container holds, with its count and its list's kind.
#[derive(Clone, Copy)]
struct Kids {
    at: usize,
    ix: usize,
    count: usize,
    kind: u8,
}

// A payload of kinds 1 to 6, which has its length in every form, read and written as record ix.
fn read_fixed(
    doc: &[u8],
    kind: u8,
    name: usize,
    name_len: usize,
    at: usize,
    table: &mut [u32],
    cap: usize,
    above: usize,
    ix: usize,
) -> Result<Step, Refused>
    requires { (Named doc.now table.old cap at above ix kind name name_len) × (ix < cap) × (kind < 7) }
    ensures { (f : Form) → Stepped doc.now cap (leaf_one f doc.now kind name name_len at) at above ix table.old table.new result }
{
    let width = nbt_fields::width_of(kind);
    if doc.len() - at < width {
        return Err(Refused {
            refusal: Refusal::DataEnds,
            place: at,
        });
    }
    let next = ix + 1;
    let record = table::leaf(usize::from(kind), name, name_len, at, width, 0, next, above);
    table::put(table, ix, record);
    Ok(Step {
        at: at + width,
        ix: next,
    })
}

// A payload of kinds 7, 8, 11 and 12, read and written as record ix.
fn read_leaf(
    doc: &[u8],
    kind: u8,
    name: usize,
    name_len: usize,
    at: usize,
    table: &mut [u32],
    cap: usize,
    above: usize,
    ix: usize,
    form: u32,
) -> Result<Step, Refused>
    requires { (Named doc.now table.old cap at above ix kind name name_len) × (ix < cap) × (6 < kind) }
    ensures { Stepped doc.now cap (leaf_one (form_no form) doc.now kind name name_len at) at above ix table.old table.new result }
{
    let leaf = nbt_fields::leaf_at(doc, kind, at, form)?;
    table::put(
        table,
        ix,
        table::leaf(
            usize::from(kind),
            name,
            name_len,
            leaf.start,
            leaf.len,
            leaf.count,
            ix + 1,
            above,
        ),
    );
    Ok(Step {
        at: leaf.next,
        ix: ix + 1,
    })
}

// A payload at `at`, whose record has the number ix: room, then depth, then what it holds. What is small is read with no call.
#[cycle(read_compound_read_container_read_elements_read_larger_body_read_list_read_tag_body)]
fn read_tag_body(
    doc: &[u8],
    kind: u8,
    name: usize,
    name_len: usize,
    at: usize,
    depth: usize,
    table: &mut [u32],
    cap: usize,
    above: usize,
    ix: usize,
    form: u32,
) -> Result<Step, Refused>
    requires { Named doc.now table.old cap at above ix kind name name_len }
    ensures { Stepped doc.now cap (payload_by (form_no form) doc.now cap (inside_at (form_no form) doc.now cap depth) kind name name_len at ix) at above ix table.old table.new result }
{
    if cap <= ix {
        return Err(Refused {
            refusal: Refusal::TableFull,
            place: at,
        });
    }
    if kind <= kinds::DOUBLE {
        return read_fixed(doc, kind, name, name_len, at, table, cap, above, ix);
    }
    read_larger_body(
        doc, kind, name, name_len, at, depth, table, cap, above, ix, form,
    )
}

// The same of kinds 7 to 12 where there is room: a call for those that are not small.
#[cycle(read_compound_read_container_read_elements_read_larger_body_read_list_read_tag_body)]
pub fn read_larger_body(
    doc: &[u8],
    kind: u8,
    name: usize,
    name_len: usize,
    at: usize,
    depth: usize,
    table: &mut [u32],
    cap: usize,
    above: usize,
    ix: usize,
    form: u32,
) -> Result<Step, Refused>
    requires { (Named doc.now table.old cap at above ix kind name name_len) × (ix < cap) × (6 < kind) }
    ensures { Stepped doc.now cap (payload_by (form_no form) doc.now cap (inside_at (form_no form) doc.now cap depth) kind name name_len at ix) at above ix table.old table.new result }
{
    if kind != kinds::LIST && kind != kinds::COMPOUND {
        return read_leaf(doc, kind, name, name_len, at, table, cap, above, ix, form);
    }
    let kids = read_container(doc, kind, at, depth, table, cap, ix, ix + 1, form)?;
    table::put(
        table,
        ix,
        table::container(
            usize::from(kind),
            name,
            name_len,
            kids.count,
            usize::from(kids.kind),
            kids.ix,
            above,
        ),
    );
    Ok(Step {
        at: kids.at,
        ix: kids.ix,
    })
}

// What is in a container at `at`.
#[cycle(read_compound_read_container_read_elements_read_larger_body_read_list_read_tag_body)]
fn read_container(
    doc: &[u8],
    kind: u8,
    at: usize,
    depth: usize,
    table: &mut [u32],
    cap: usize,
    above: usize,
    ix: usize,
    form: u32,
) -> Result<Kids, Refused>
    requires { Ready doc.now table.old cap at above ix }
    ensures { Held doc.now cap (inside_at (form_no form) doc.now cap depth kind at ix) at above ix table.old table.new result }
{
    if depth == 0 {
        return Err(Refused {
            refusal: Refusal::TooDeep,
            place: at,
        });
    }
    if kind == kinds::LIST {
        return read_list(doc, at, depth - 1, table, cap, above, ix, form);
    }
    let ran = read_compound(doc, at, depth - 1, table, cap, above, ix, form)?;
    Ok(Kids {
        at: ran.at,
        ix: ran.ix,
        count: ran.count,
        kind: kinds::END,
    })
}

// A list's head and elements, each of which may hold depth containers.
#[cycle(read_compound_read_container_read_elements_read_larger_body_read_list_read_tag_body)]
fn read_list(
    doc: &[u8],
    at: usize,
    depth: usize,
    table: &mut [u32],
    cap: usize,
    above: usize,
    ix: usize,
    form: u32,
) -> Result<Kids, Refused>
    requires { Ready doc.now table.old cap at above ix }
    ensures { Held doc.now cap (list_at (form_no form) doc.now (payload_by (form_no form) doc.now cap (inside_at (form_no form) doc.now cap depth)) at ix) at above ix table.old table.new result }
{
    let head = nbt_fields::list_head(doc, at, form)?;
    let ran = read_elements(
        doc,
        head.kind,
        head.count,
        at + 5,
        depth,
        table,
        cap,
        above,
        ix,
        form,
    )?;
    Ok(Kids {
        at: ran.at,
        ix: ran.ix,
        count: head.count,
        kind: head.kind,
    })
}

// As many elements as count says.
#[cycle(read_compound_read_container_read_elements_read_larger_body_read_list_read_tag_body)]
fn read_elements(
    doc: &[u8],
    kind: u8,
    count: usize,
    at: usize,
    depth: usize,
    table: &mut [u32],
    cap: usize,
    above: usize,
    ix: usize,
    form: u32,
) -> Result<Ran, Refused>
    requires { (Ready doc.now table.old cap at above ix) × (kind ≤ 12) }
    ensures { Went doc.now cap (elementsOf (form_no form) doc.now (payload_by (form_no form) doc.now cap (inside_at (form_no form) doc.now cap depth)) count kind at ix) at above ix table.old table.new result }
{
    let mut here = at;
    let mut next = ix;
    for _ in 0..count {
        let step = read_tag_body(doc, kind, 0, 0, here, depth, table, cap, above, next, form)?;
        here = step.at;
        next = step.ix;
    }
    Ok(Ran {
        at: here,
        ix: next,
        count,
    })
}

// The entries up to the end byte.
#[cycle(read_compound_read_container_read_elements_read_larger_body_read_list_read_tag_body)]
fn read_compound(
    doc: &[u8],
    at: usize,
    depth: usize,
    table: &mut [u32],
    cap: usize,
    above: usize,
    ix: usize,
    form: u32,
) -> Result<Ran, Refused>
    requires { Ready doc.now table.old cap at above ix }
    ensures { Went doc.now cap (entries_of (form_no form) doc.now (payload_by (form_no form) doc.now cap (inside_at (form_no form) doc.now cap depth)) (suc (length doc.now)) none at ix) at above ix table.old table.new result }
{
    let mut here = at;
    let mut next = ix;
    let mut count: usize = 0;
    loop {
        let Entry { kind, start, len } = match nbt_fields::entry_at(doc, here, form) {
            Err(e) => return Err(settle(doc, table, ix, next, e)),
            Ok(None) => return finish(doc, table, ix, next, here + 1, count),
            Ok(Some(entry)) => entry,
        };
        let payload = start + len;
        match read_tag_body(
            doc, kind, start, len, payload, depth, table, cap, above, next, form,
        ) {
            Err(e) => {
                return Err(settle_entry(doc, table, ix, next, start, len, here, e));
            }
            Ok(step) => {
                here = step.at;
                next = step.ix;
                count += 1;
            }
        }
    }
}
