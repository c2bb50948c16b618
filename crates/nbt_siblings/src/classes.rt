// A few siblings: each name is of one of 128 classes, and is compared with those before it if one of them is of its class.
ghost use Rattle.std.specs.Prelude.{◌≡◌, false, ◌+◌, ◌≤◌, ◌<◌, length};
ghost use Rattle.form.specs.Spans.{part};
ghost use Rattle.nbt_siblings.specs.Names.{siblings};
ghost use Rattle.nbt_siblings.specs.Links.{Mem, Fit};
ghost use Rattle.nbt_siblings.specs.Lists.{Least, Taken, Family};
ghost use Rattle.nbt_siblings.specs.Cells.{class_of, class_at, Fresh};

use crate::names::twin;

// The class of the n bytes at a, of 128: the same for the same bytes.
fn class_span(doc: &[u8], a: usize, n: usize) -> usize
    requires { a + n ≤ length doc.now }
    ensures { (result ≡ class_of (part doc.now a n)) × (result < 128) }
{
    if n == 0 {
        return 0;
    }
    let x = usize::from(doc[a]);
    let y = usize::from(doc[a + n / 2]);
    let z = usize::from(doc[a + n - 1]);
    (n % 8 * 16 + x * 5 + y * 7 + z * 3) % 128
}

// The class of a record's name.
fn class_of(doc: &[u8], table: &[u32], i: usize) -> usize
    requires { Fit doc.now table.now i }
    ensures { (result ≡ class_at doc.now table.now i) × (result < 128) }
{
    class_span(
        doc,
        table::word(table, i, table::NAME),
        table::word(table, i, table::NAME_LENGTH),
    )
}

// Whether one of the records side by side, from record `first` on, has the name of record i and stands before it.
fn taken(doc: &[u8], table: &[u32], first: usize, stop: usize, i: usize) -> bool
    requires { (Family doc.now table.now first stop) × (Mem i (siblings table.now stop stop first)) }
    ensures { Taken doc.now table.now first stop i result }
{
    let mut j = first;
    // A `while`: a record's last word is the number of the next.
    while j < i {
        if twin(doc, table, j, i) {
            return true;
        }
        j = table::word(table, j, table::END);
    }
    false
}

// Whether an earlier one has the name of record i, where it is known whether one of its class was seen: if not, no name is compared.
fn taken_in(doc: &[u8], table: &[u32], first: usize, stop: usize, i: usize, seen: bool) -> bool
    requires { (Family doc.now table.now first stop) × (Mem i (siblings table.now stop stop first)) × (seen ≡ false → Fresh doc.now table.now first stop i) }
    ensures { Taken doc.now table.now first stop i result }
{
    seen && taken(doc, table, first, stop, i)
}

// The first of a few records, each compared with those before it where its class was seen among them.
pub fn few(doc: &[u8], table: &[u32], first: usize, stop: usize) -> usize
    requires { Family doc.now table.now first stop }
    ensures { Least doc.now table.now (λ z. Mem z (siblings table.now stop stop first)) stop result }
{
    let mut seen: [bool; 128] = [false; 128];
    let mut i = first;
    // A `while`: a record's last word is the number of the next.
    while i < stop {
        let c = class_of(doc, table, i);
        if taken_in(doc, table, first, stop, i, seen[c]) {
            return i;
        }
        seen[c] = true;
        i = table::word(table, i, table::END);
    }
    stop
}
