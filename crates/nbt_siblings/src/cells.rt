// Records put in cells by the marks of their names, half of the marks at a time: a record's twin stands in one of the next cells. The cells are the
// links of the records in a stretch of the table, which are 0 before and after.
ghost use Rattle.std.specs.Prelude.{◌≡◌, ◌*◌, ◌≤◌, ◌<◌, length};
ghost use Rattle.nbt_siblings.specs.Links.{Agree, Fit};
ghost use Rattle.nbt_siblings.specs.Lists.{Family};
ghost use Rattle.nbt_siblings.specs.Cells.{home_of, Blank, Blanked, Wiped, Cells, Probed, PlacedBy, Halved, lesser_of, Joined, Ready};

use crate::links::{cell, relink};
use crate::marks::mark;
use crate::names::twin;

// A cell for a record: the first that is free, or one that holds a record of the same name, or neither within reach.
#[derive(Clone, Copy)]
enum Spot {
    Free(usize),
    Twin,
    Full,
}

// What became of a record: it stands in its cell, so many cells after its first, or another of its class has its name, or there was no cell.
#[derive(Clone, Copy)]
enum Placed {
    On(usize),
    Twin,
    Full,
}

// The least record that has an earlier twin, or none, or it was not found out.
#[derive(Clone, Copy)]
pub enum Sought {
    At(usize),
    Nothing,
    Unknown,
}

// Whether the links of the records from `from` up to `to` are 0.
fn blank(table: &[u32], from: usize, to: usize) -> bool
    requires { 9 * to ≤ length table.now }
    ensures { Blanked table.now from to result }
{
    for k in from..to {
        if cell(table, k) != 0 {
            return false;
        }
    }
    true
}

// Sets the links of the records from `from` up to `to` to 0.
fn wipe(table: &mut [u32], from: usize, to: usize)
    requires { (from ≤ to) × (9 * to ≤ length table.old) }
    ensures { Wiped table.old table.new from to }
{
    for k in from..to {
        relink(table, k, 0);
    }
}

// A cell for record i, from `from` up to `to`.
fn probe(doc: &[u8], table: &[u32], i: usize, from: usize, to: usize) -> Spot
    requires { (Fit doc.now table.now i) × (Cells doc.now table.now from to) }
    ensures { Probed doc.now table.now i from to result }
{
    for k in from..to {
        let other = cell(table, k);
        if other == 0 {
            return Spot::Free(k);
        }
        if twin(doc, table, other, i) {
            return Spot::Twin;
        }
    }
    Spot::Full
}

// The first cell for a mark, of those from `first` up to `last`.
fn home(first: usize, last: usize, mark: usize) -> usize
    requires { (first < last) × (last < 4294967296) }
    ensures { (result ≡ home_of first last mark) × (result < last) }
{
    let cells = last - first;
    first + mark / 2 % (cells - cells / 8)
}

// How far a cell is sought from one on: 128 cells, or those that are there.
fn edge(from: usize, last: usize) -> usize
    requires { from < last }
    ensures { (from ≤ result) × (result ≤ last) }
{
    if last - from < 128 { last } else { from + 128 }
}

// Puts record i in a cell, if it is of the class.
fn place(doc: &[u8], table: &mut [u32], i: usize, first: usize, last: usize, class: usize) -> Placed
    requires { (Fit doc.now table.old i) × (Cells doc.now table.old first last) × (first < last) × (last < 4294967296) }
    ensures { PlacedBy doc.now table.old table.new i first last class result }
{
    let m = mark(doc, table, i);
    if m % 2 != class {
        return Placed::On(0);
    }
    let from = home(first, last, m);
    match probe(doc, table, i, from, edge(from, last)) {
        Spot::Free(k) => {
            relink(table, k, i);
            Placed::On(k - from)
        },
        Spot::Twin => Placed::Twin,
        Spot::Full => Placed::Full,
    }
}

// Puts the records of a class in cells, one after the other, until one meets its twin, or for want of a cell, or after too many comparisons.
fn enter(
    doc: &[u8],
    table: &mut [u32],
    first: usize,
    stop: usize,
    last: usize,
    class: usize,
) -> Sought
    requires { (Ready doc.now table.old first stop last) × (Blank table.old first last) }
    ensures { (Agree table.old table.new (λ z. (first ≤ z) × (z < last))) × (Halved doc.now table.old first stop class result) }
{
    let mut spare = 4 * (last - first);
    let mut i = first;
    // A `while`: a record's last word is the number of the next.
    while i < stop {
        match place(doc, table, i, first, last, class) {
            Placed::On(used) => {
                if spare < used {
                    return Sought::Unknown;
                }
                spare -= used;
            },
            Placed::Twin => return Sought::At(i),
            Placed::Full => return Sought::Unknown,
        }
        i = table::word(table, i, table::END);
    }
    Sought::Nothing
}

// The least record of a class that has an earlier twin; the table is as before.
fn half(
    doc: &[u8],
    table: &mut [u32],
    first: usize,
    stop: usize,
    last: usize,
    class: usize,
) -> Sought
    requires { (Ready doc.now table.old first stop last) × (Blank table.old first last) }
    ensures { (table.new ≡ table.old) × (Halved doc.now table.old first stop class result) }
{
    let r = enter(doc, table, first, stop, last, class);
    wipe(table, first, last);
    r
}

// The lesser of two answers.
fn lesser(a: Sought, b: Sought) -> Sought
    ensures { result ≡ lesser_of a b }
{
    match a {
        Sought::Unknown => Sought::Unknown,
        Sought::Nothing => b,
        Sought::At(x) => match b {
            Sought::Unknown => Sought::Unknown,
            Sought::Nothing => Sought::At(x),
            Sought::At(y) => if x < y { Sought::At(x) } else { Sought::At(y) },
        },
    }
}

// The least record that has an earlier twin, if it is found by cells; the table is as before.
fn hashed(doc: &[u8], table: &mut [u32], first: usize, stop: usize, last: usize) -> Sought
    requires { (Ready doc.now table.old first stop last) × (Blank table.old first last) }
    ensures { (table.new ≡ table.old) × (Joined doc.now table.old first stop result) }
{
    let even = half(doc, table, first, stop, last, 0);
    let odd = half(doc, table, first, stop, last, 1);
    lesser(even, odd)
}

// The record where the cells end: two cells for each of n records, or those that are there.
fn cells_end(first: usize, stop: usize, n: usize) -> usize
    requires { first ≤ stop }
    ensures { (first ≤ result) × (result ≤ stop) }
{
    if (stop - first) / 2 <= n {
        stop
    } else {
        first + 2 * n
    }
}

// The least record that has an earlier twin, if there are cells enough, they are free, and it is found by them; the table is as before.
pub fn scattered(doc: &[u8], table: &mut [u32], first: usize, stop: usize, n: usize) -> Sought
    requires { Family doc.now table.old first stop }
    ensures { (table.new ≡ table.old) × (Joined doc.now table.old first stop result) }
{
    if first == 0 || stop < first {
        return Sought::Unknown;
    }
    let last = cells_end(first, stop, n);
    if last - first < 32 || table.len() / table::WORDS < last {
        return Sought::Unknown;
    }
    if blank(table, first, last) {
        hashed(doc, table, first, stop, last)
    } else {
        Sought::Unknown
    }
}
