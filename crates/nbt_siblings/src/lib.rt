// The first of the records side by side whose name an earlier one has (refusal 6). A few are told apart by classes (`classes`). Of more, names that
// rise from each record to the next do not repeat (`sorting`); else each record goes to a cell that its name gives (`cells`, `marks`); and where
// cells do not do, the records are sorted as a list (`sorting`). Cells and lists live in the records' free words, which are 0 before and after
// (`links`). How two names are compared stands in `names`.
#![tactic(auto)]

mod cells;
mod classes;
mod links;
mod marks;
mod names;
mod sorting;

ghost use Rattle.std.specs.Prelude.{◌≡◌, ℕ, suc, ◌+◌, ◌-◌, ◌*◌, ◌≤◌, ◌<◌, length};
ghost use Rattle.form.specs.Spans.{part};
ghost use Rattle.nbt_siblings.specs.Holding.{among as amongOf, Holds};
ghost use Rattle.nbt_siblings.specs.Names.{end_of, siblings, first_repeat};
ghost use Rattle.nbt_siblings.specs.Links.{Mem};
ghost use Rattle.nbt_siblings.specs.Lists.{Least, Family, found_of};
ghost use Rattle.nbt_siblings.specs.Forests.{place_out, refusal_of};

use crate::cells::{Sought, scattered};
use crate::classes::few;
use crate::names::same_name;
use crate::sorting::{rising, sorted};

// How many records stand side by side from `first` up to `stop`.
fn count(table: &[u32], first: usize, stop: usize) -> usize
    requires { ((z : ℕ) → Mem z (siblings table.now stop stop first) → (9 * z + 9 ≤ length table.now) × (z < end_of table.now z)) × (stop < 4294967296) }
    ensures { result ≡ length (siblings table.now stop stop first) }
{
    let mut n: usize = 0;
    let mut i = first;
    // A `while`: a record's last word is the number of the next.
    while i < stop {
        i = table::word(table, i, table::END);
        n += 1;
    }
    n
}

// The answer that a number is: `stop` is none.
fn below(low: usize, stop: usize) -> Option<usize>
    ensures { result ≡ found_of low stop }
{
    if low < stop { Some(low) } else { None }
}

// The least of many records that has an earlier twin, or `stop`.
fn many(doc: &[u8], table: &mut [u32], first: usize, stop: usize, n: usize) -> usize
    requires { (Family doc.now table.old first stop) × (n ≡ length (siblings table.old stop stop first)) × (0 < n) }
    ensures { (table.new ≡ table.old) × (Least doc.now table.old (λ z. Mem z (siblings table.old stop stop first)) stop result) }
{
    if rising(doc, table, first, stop) {
        return stop;
    }
    match scattered(doc, table, first, stop, n) {
        Sought::At(low) => low,
        Sought::Nothing => stop,
        Sought::Unknown => sorted(doc, table, first, stop, n),
    }
}

// The number of the first of the records side by side, from record `first` up to `stop`, whose name an earlier one has.
pub fn first_repeat(doc: &[u8], table: &mut [u32], first: usize, stop: usize) -> Option<usize>
    requires { Family doc.now table.old first stop }
    ensures value { result ≡ first_repeat doc.now table.old first stop }
    ensures table_unchanged { table.new ≡ table.old }
{
    let n = count(table, first, stop);
    if n < 2 {
        return None;
    }
    if n < 32 {
        return below(few(doc, table, first, stop), stop);
    }
    below(many(doc, table, first, stop, n), stop)
}

// The place of the entry of the first record whose name an earlier one has: its id byte stands three bytes before the name.
pub fn repeat_place(doc: &[u8], table: &mut [u32], first: usize, stop: usize) -> Option<usize>
    requires { Family doc.now table.old first stop }
    ensures result_value { place_out result ≡ refusal_of table.old (first_repeat doc.now table.old first stop) }
    ensures table_unchanged { table.new ≡ table.old }
{
    let k = first_repeat(doc, table, first, stop)?;
    Some(table::word(table, k, table::NAME).saturating_sub(3))
}

// Whether one of the records side by side, from record `from` up to `to`, has the name that stands in a span.
pub fn has_name(doc: &[u8], table: &[u32], from: usize, to: usize, start: usize, len: usize) -> bool
    requires { (Holds (length doc.now) table.now from to) × (9 * to ≤ length table.now) × (start + len ≤ length doc.now) }
    ensures { result ≡ amongOf doc.now table.now (suc to) from to (part doc.now start len) }
{
    let mut i = from;
    // A `while`: a record's last word is the number of the next.
    while i < to {
        let name = table::word(table, i, table::NAME);
        let name_len = table::word(table, i, table::NAME_LENGTH);
        if same_name(doc, name, name_len, start, len) {
            return true;
        }
        i = table::word(table, i, table::END);
    }
    false
}
