// Request [11]: a document that is refused with 1 read again, as far as it goes: what is kept of it as records of a table, and the lines of
// its open containers. The functions are those of `nbt_reader`, and their contracts cite the definitions that they meet, in
// form/specs/Reading.antt where a tag is whole and in form/specs/Cut.antt where it is not. Since the read was refused with 1 and nothing
// else, names, room and depth are not asked again.
#![tactic(auto)]

ghost use Rattle.std.specs.Prelude.{◌≡◌, [], ◌∷◌, ◌+◌, ◌-◌, ◌*◌, ◌≤◌, ◌<◌, ◌^◌, length, eqb};
ghost use Rattle.form.specs.Answer.{pick};
ghost use Rattle.form.specs.Form.{Form, form_no};
ghost use Rattle.form.specs.Spans.{over};
ghost use Rattle.form.specs.Reading.{leaf_one, room_of, reading};
ghost use Rattle.nbt_reader.specs.Steps.{Named};
ghost use Rattle.nbt_gather.specs.Steps.{IsCut, LeafIs, HeldAsked, PayloadAsked, ElementsAsked, EntriesAsked, PayloadIs, ElementsAre, EntriesAre, HeldIs, GatheredIs};

use form::kinds;
use nbt_fields::{Entry, ListHead};

// A payload: whole, with the place behind it and the next record's number; or cut, with the next record's number behind what is kept of it,
// and how many containers are open, itself counted.
#[derive(Clone, Copy)]
enum Piece {
    Whole(usize, usize),
    Cut(usize, usize),
}

// Payloads side by side: whole, with the place behind them, the next record's number, and how many there are; or cut, with the next
// record's number behind what is kept of them, how many those are, and how many containers are open.
#[derive(Clone, Copy)]
enum Side {
    Whole(usize, usize, usize),
    Cut(usize, usize, usize),
}

// What was gathered: how many records and lines.
#[derive(Clone, Copy)]
pub struct Gathered {
    pub records: usize,
    pub lines: usize,
}

// A payload of kinds 1 to 6, which has its length in every form: a record, or nothing.
fn gather_fixed(
    doc: &[u8],
    kind: u8,
    name: usize,
    len: usize,
    at: usize,
    table: &mut [u32],
    up: usize,
    ix: usize,
) -> Piece
    requires { (Named doc.now table.old (room_of (length table.old)) at up ix kind name len) × (ix < room_of (length table.old)) × (kind < 7) }
    ensures { (f : Form) → LeafIs doc.now (room_of (length table.old)) (leaf_one f doc.now kind name len at) at up ix table.old table.new result }
{
    let width = nbt_fields::width_of(kind);
    if doc.len() - at < width {
        return Piece::Cut(ix, 0);
    }
    table::put(
        table,
        ix,
        table::leaf(usize::from(kind), name, len, at, width, 0, ix + 1, up),
    );
    Piece::Whole(at + width, ix + 1)
}

// A payload of kinds 7, 8, 11 and 12: a record, or nothing.
fn gather_leaf(
    doc: &[u8],
    kind: u8,
    name: usize,
    len: usize,
    at: usize,
    table: &mut [u32],
    up: usize,
    ix: usize,
    form: u32,
) -> Piece
    requires { (Named doc.now table.old (room_of (length table.old)) at up ix kind name len) × (ix < room_of (length table.old)) × (6 < kind) }
    ensures { LeafIs doc.now (room_of (length table.old)) (leaf_one (form_no form) doc.now kind name len at) at up ix table.old table.new result }
{
    match nbt_fields::leaf_at(doc, kind, at, form) {
        Err(_) => Piece::Cut(ix, 0),
        Ok(leaf) => {
            table::put(
                table,
                ix,
                table::leaf(
                    usize::from(kind),
                    name,
                    len,
                    leaf.start,
                    leaf.len,
                    leaf.count,
                    ix + 1,
                    up,
                ),
            );
            Piece::Whole(leaf.next, ix + 1)
        }
    }
}

// Puts the line of an open container at its place.
fn put_line(lines: &mut [u32], level: usize, n: usize, promised: usize, kept: usize)
    requires { (3 * level + 3 ≤ length lines.old) × (level ≤ 512) × (n < 2 ^ 32) × (promised < 2 ^ 32) × (kept < 2 ^ 32) }
    ensures { lines.new ≡ over lines.old (3 * level) (n ∷ promised ∷ kept ∷ []) }
{
    let at = 3 * level;
    lines[at] = n as u32;
    lines[at + 1] = promised as u32;
    lines[at + 2] = kept as u32;
}

// The number of children kept, where the last is kept if it is open.
fn with_open(count: usize, open: usize) -> usize
    requires { count < 2 ^ 32 }
    ensures { result ≡ pick (eqb «open» 0) count (count + 1) }
{
    if open == 0 { count } else { count + 1 }
}

// A container, record n in record `up`, closed behind what was gathered in it.
fn held(
    kind: u8,
    name: usize,
    len: usize,
    inner: u8,
    promised: usize,
    side: Side,
    level: usize,
    table: &mut [u32],
    up: usize,
    n: usize,
    lines: &mut [u32],
    most: usize,
) -> Piece
    requires { HeldAsked table.old name len promised level up n side lines.old most }
    ensures { HeldIs kind name len inner promised level up n table.old table.new lines.old lines.new most side result }
{
    let of = usize::from(inner);
    match side {
        Side::Whole(at, ix, count) => {
            let record = table::container(usize::from(kind), name, len, count, of, ix, up);
            table::put(table, n, record);
            Piece::Whole(at, ix)
        }
        Side::Cut(ix, count, open) => {
            let first = if count == 0 { 0 } else { of };
            let record = table::container(usize::from(kind), name, len, count, first, ix, up);
            table::put(table, n, record);
            if level + open < most {
                put_line(lines, level, n, promised, count);
            }
            Piece::Cut(ix, open + 1)
        }
    }
}

// A payload at `at`, record ix in record `up`: what is small with no call.
#[cycle(gather_compound_gather_elements_gather_larger_body_gather_tag_body)]
fn gather_tag_body(
    doc: &[u8],
    kind: u8,
    name: usize,
    len: usize,
    at: usize,
    depth: usize,
    table: &mut [u32],
    up: usize,
    ix: usize,
    lines: &mut [u32],
    most: usize,
    form: u32,
) -> Piece
    requires { PayloadAsked (form_no form) doc.now table.old depth kind name len at up ix lines.old most }
    ensures { PayloadIs (form_no form) doc.now depth kind name len at up ix table.old table.new lines.old lines.new most result }
{
    if kind <= kinds::DOUBLE {
        return gather_fixed(doc, kind, name, len, at, table, up, ix);
    }
    gather_larger_body(
        doc, kind, name, len, at, depth, table, up, ix, lines, most, form,
    )
}

// The same of kinds 7 to 12. A container was not refused with 7, so `depth`, which counts it, is not 0.
#[cycle(gather_compound_gather_elements_gather_larger_body_gather_tag_body)]
fn gather_larger_body(
    doc: &[u8],
    kind: u8,
    name: usize,
    len: usize,
    at: usize,
    depth: usize,
    table: &mut [u32],
    up: usize,
    ix: usize,
    lines: &mut [u32],
    most: usize,
    form: u32,
) -> Piece
    requires { (PayloadAsked (form_no form) doc.now table.old depth kind name len at up ix lines.old most) × (6 < kind) }
    ensures { PayloadIs (form_no form) doc.now depth kind name len at up ix table.old table.new lines.old lines.new most result }
{
    let level = form::DEPTH - depth;
    match kind {
        kinds::LIST => match nbt_fields::list_head(doc, at, form) {
            Err(_) => Piece::Cut(ix, 0),
            Ok(head) => {
                let ListHead { kind: of, count } = head;
                let (from, below) = (at + 5, depth - 1);
                let s = gather_elements(doc, of, count, from, below, table, ix, lines, most, form);
                held(
                    kind, name, len, of, count, s, level, table, up, ix, lines, most,
                )
            }
        },
        kinds::COMPOUND => {
            let s = gather_compound(doc, at, depth - 1, table, ix, lines, most, form);
            held(kind, name, len, 0, 0, s, level, table, up, ix, lines, most)
        }
        _ => gather_leaf(doc, kind, name, len, at, table, up, ix, form),
    }
}

// The elements of the list that is record n: those that are whole, then what is kept of the first that is not, if a byte of it is there.
#[cycle(gather_compound_gather_elements_gather_larger_body_gather_tag_body)]
fn gather_elements(
    doc: &[u8],
    kind: u8,
    count: usize,
    at: usize,
    depth: usize,
    table: &mut [u32],
    n: usize,
    lines: &mut [u32],
    most: usize,
    form: u32,
) -> Side
    requires { ElementsAsked (form_no form) doc.now table.old depth count kind at n lines.old most }
    ensures { ElementsAre (form_no form) doc.now depth count kind at n table.old table.new lines.old lines.new most result }
{
    let mut here = at;
    let mut next = n + 1;
    for done in 0..count {
        if doc.len() <= here {
            return Side::Cut(next, done, 0);
        }
        match gather_tag_body(
            doc, kind, 0, 0, here, depth, table, n, next, lines, most, form,
        ) {
            Piece::Cut(ix, open) => return Side::Cut(ix, with_open(done, open), open),
            Piece::Whole(at, ix) => {
                here = at;
                next = ix;
            }
        }
    }
    Side::Whole(here, next, count)
}

// The entries of the compound that is record n: those that are whole, then what is kept of the first that is not, if its id and name are whole.
#[cycle(gather_compound_gather_elements_gather_larger_body_gather_tag_body)]
fn gather_compound(
    doc: &[u8],
    at: usize,
    depth: usize,
    table: &mut [u32],
    n: usize,
    lines: &mut [u32],
    most: usize,
    form: u32,
) -> Side
    requires { EntriesAsked (form_no form) doc.now table.old depth at n lines.old most }
    ensures { EntriesAre (form_no form) doc.now depth at n table.old table.new lines.old lines.new most result }
{
    let mut here = at;
    let mut next = n + 1;
    let mut count: usize = 0;
    loop {
        let Entry { kind, start, len } = match nbt_fields::entry_at(doc, here, form) {
            Err(_) => return Side::Cut(next, count, 0),
            Ok(None) => return Side::Whole(here + 1, next, count),
            Ok(Some(entry)) => entry,
        };
        let payload = start + len;
        match gather_tag_body(
            doc, kind, start, len, payload, depth, table, n, next, lines, most, form,
        ) {
            Piece::Cut(ix, open) => return Side::Cut(ix, with_open(count, open), open),
            Piece::Whole(at, ix) => {
                here = at;
                next = ix;
                count += 1;
            }
        }
    }
}

// What is kept of a document that is refused with 1: its records in the table and, if they are `most` at the most, its lines in the list; nothing where the
// cut falls in the root's id or name.
pub fn gather(
    doc: &[u8],
    table: &mut [u32],
    lines: &mut [u32],
    most: usize,
    form: u32,
) -> Option<Gathered>
    requires { (IsCut (reading (form_no form) doc.now table.old)) × (3 * most ≤ length lines.old) }
    ensures { GatheredIs (form_no form) doc.now table.old table.new lines.old lines.new most result }
{
    if doc.len() == 0 {
        return None;
    }
    let Ok(name) = nbt_fields::string_at(doc, 1, form) else {
        return None;
    };
    match gather_larger_body(
        doc,
        kinds::COMPOUND,
        name.start,
        name.len,
        name.next,
        form::DEPTH,
        table,
        0,
        0,
        lines,
        most,
        form,
    ) {
        Piece::Whole(_, _) => None,
        Piece::Cut(ix, open) => Some(Gathered {
            records: ix,
            lines: open,
        }),
    }
}
