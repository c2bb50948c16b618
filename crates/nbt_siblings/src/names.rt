// Names compared and ordered: the shorter first, then by bytes, eight of them at a time.
ghost use Rattle.std.specs.Prelude.{◌≡◌, ◌+◌, ◌≤◌, ◌<◌, length};
ghost use Rattle.form.specs.Numbers.{big_endian};
ghost use Rattle.form.specs.Spans.{part, same};
ghost use Rattle.nbt_siblings.specs.Names.{name_of};
ghost use Rattle.nbt_siblings.specs.Links.{four_of, eight_of, num, Fit};
ghost use Rattle.nbt_siblings.specs.Lists.{Alike};
ghost use Rattle.nbt_siblings.specs.Orders.{Ordered};

use std::cmp::Ordering;

// Four bytes as a number, the first the highest.
pub fn four(doc: &[u8], at: usize) -> usize
    requires { at + 4 ≤ length doc.now }
    ensures { (result ≡ four_of doc.now at) × (result < 4294967296) }
{
    let a = usize::from(doc[at]);
    let b = usize::from(doc[at + 1]);
    let c = usize::from(doc[at + 2]);
    let d = usize::from(doc[at + 3]);
    ((a * 256 + b) * 256 + c) * 256 + d
}

// Eight bytes as a number, the first the highest.
fn eight(doc: &[u8], at: usize) -> usize
    requires { at + 8 ≤ length doc.now }
    ensures { result ≡ eight_of doc.now at }
{
    four(doc, at) * 4294967296 + four(doc, at + 4)
}

// The order of the n bytes at a and at b, one by one.
fn order_rest(doc: &[u8], a: usize, b: usize, n: usize) -> Ordering
    requires { (a + n ≤ length doc.now) × (b + n ≤ length doc.now) }
    ensures { Ordered (big_endian (part doc.now a n)) (big_endian (part doc.now b n)) result }
{
    for i in 0..n {
        let x = doc[a + i];
        let y = doc[b + i];
        if x < y {
            return Ordering::Less;
        }
        if y < x {
            return Ordering::Greater;
        }
    }
    Ordering::Equal
}

// The order of the n bytes at a and at b, eight by eight.
fn order_bytes(doc: &[u8], a: usize, b: usize, n: usize) -> Ordering
    requires { (a + n ≤ length doc.now) × (b + n ≤ length doc.now) }
    ensures { Ordered (big_endian (part doc.now a n)) (big_endian (part doc.now b n)) result }
{
    let mut i: usize = 0;
    // A `while`: eight bytes at a time, and what is left after it.
    while 7 < n - i {
        let x = eight(doc, a + i);
        let y = eight(doc, b + i);
        if x < y {
            return Ordering::Less;
        }
        if y < x {
            return Ordering::Greater;
        }
        i += 8;
    }
    order_rest(doc, a + i, b + i, n - i)
}

// The order of two spans: the shorter first, then by bytes.
fn spans(doc: &[u8], a: usize, n: usize, b: usize, m: usize) -> Ordering
    requires { (a + n ≤ length doc.now) × (b + m ≤ length doc.now) }
    ensures { Ordered (num (part doc.now a n)) (num (part doc.now b m)) result }
{
    if n < m {
        return Ordering::Less;
    }
    if m < n {
        return Ordering::Greater;
    }
    order_bytes(doc, a, b, n)
}

// The order of two records' names.
pub fn names(doc: &[u8], table: &[u32], i: usize, j: usize) -> Ordering
    requires { (Fit doc.now table.now i) × (Fit doc.now table.now j) }
    ensures { Ordered (num (name_of doc.now table.now i)) (num (name_of doc.now table.now j)) result }
{
    spans(
        doc,
        table::word(table, i, table::NAME),
        table::word(table, i, table::NAME_LENGTH),
        table::word(table, j, table::NAME),
        table::word(table, j, table::NAME_LENGTH),
    )
}

// Whether two records have the same name.
pub fn twin(doc: &[u8], table: &[u32], i: usize, j: usize) -> bool
    requires { (Fit doc.now table.now i) × (Fit doc.now table.now j) }
    ensures { Alike (num (name_of doc.now table.now i)) (num (name_of doc.now table.now j)) result }
{
    matches!(names(doc, table, i, j), Ordering::Equal)
}

// Whether two spans hold the same bytes.
pub fn same_name(doc: &[u8], a: usize, n: usize, b: usize, m: usize) -> bool
    requires { (a + n ≤ length doc.now) × (b + m ≤ length doc.now) }
    ensures { result ≡ same (part doc.now a n) (part doc.now b m) }
{
    matches!(spans(doc, a, n, b, m), Ordering::Equal)
}
