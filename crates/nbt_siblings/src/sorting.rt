// Records as lists through their links: sorted by name by a merge sort, and gone through once for repeats. Where the names rise already there
// is none.
ghost use Rattle.std.specs.Prelude.{◌≡◌, not, ◌+◌, ◌<◌, ◌⊎◌, length};
ghost use Rattle.nbt_siblings.specs.Names.{name_of, siblings};
ghost use Rattle.nbt_siblings.specs.Links.{num, rank, link, Mem, walk, Fit};
ghost use Rattle.nbt_siblings.specs.Lists.{Told, Lowered, Picked, Two, Lists, Row, Sorts, Chained, Unlinked, Least, Family, Climbs, Rises};

use crate::links::relink;
use crate::names::{names, twin};
use std::cmp::Ordering;

// A list of records, by the first, and the record after the last of those that were sorted.
#[derive(Clone, Copy)]
struct Run {
    head: usize,
    next: usize,
}

// Whether record i comes before record j, by name and then by number.
fn sooner(doc: &[u8], table: &[u32], i: usize, j: usize) -> bool
    requires { (Fit doc.now table.now i) × (Fit doc.now table.now j) }
    ensures { Told (rank doc.now table.now i) (rank doc.now table.now j) result }
{
    match names(doc, table, i, j) {
        Ordering::Less => true,
        Ordering::Greater => false,
        Ordering::Equal => i < j,
    }
}

// Whether the next record comes from the first of two lists, of p and q records, which are sorted up or down.
fn pick(doc: &[u8], table: &[u32], x: usize, p: usize, y: usize, q: usize, up: bool) -> bool
    requires { (0 < p + q) × (0 < p → Fit doc.now table.now x) × (0 < q → Fit doc.now table.now y) }
    ensures { Picked up p q (rank doc.now table.now x) (rank doc.now table.now y) result }
{
    if q == 0 {
        return true;
    }
    if p == 0 {
        return false;
    }
    if up {
        sooner(doc, table, x, y)
    } else {
        sooner(doc, table, y, x)
    }
}

// Two lists, of na and nb records, sorted up or down, made one, sorted the other way.
fn merge(doc: &[u8], table: &mut [u32], a: usize, na: usize, b: usize, nb: usize, up: bool) -> usize
    requires { Two doc.now table.old a na b nb up }
    ensures { Lists doc.now table.old table.new (λ z. Mem z (walk (link table.old) a na) ⊎ Mem z (walk (link table.old) b nb)) result (na + nb) (not up) }
{
    let mut x = a;
    let mut y = b;
    let mut p = na;
    let mut q = nb;
    let mut acc: usize = 0;
    // A `while`: two lists, each with its own end.
    while 0 < p + q {
        if pick(doc, table, x, p, y, q, up) {
            let next = relink(table, x, acc);
            acc = x;
            x = next;
            p -= 1;
        } else {
            let next = relink(table, y, acc);
            acc = y;
            y = next;
            q -= 1;
        }
    }
    acc
}

// The n records side by side from record `at` on, as a list, sorted up or down.
fn sort(doc: &[u8], table: &mut [u32], at: usize, n: usize, up: bool) -> Run
    requires { Row doc.now table.old at n }
    ensures { Sorts doc.now table.old table.new at n up result.head result.next }
{
    if n == 1 {
        return Run {
            head: at,
            next: table::word(table, at, table::END),
        };
    }
    let half = n / 2;
    let left = sort(doc, table, at, half, !up);
    let mid = left.next;
    let right = sort(doc, table, mid, n - half, !up);
    let head = merge(doc, table, left.head, half, right.head, n - half, !up);
    Run {
        head,
        next: right.next,
    }
}

// The lesser of `low` and y, where record y has the name of record x; else `low`.
fn lower(doc: &[u8], table: &[u32], x: usize, y: usize, low: usize) -> usize
    requires { (Fit doc.now table.now x) × (Fit doc.now table.now y) }
    ensures { Lowered (num (name_of doc.now table.now x)) (num (name_of doc.now table.now y)) y low result }
{
    if y < low && twin(doc, table, x, y) {
        y
    } else {
        low
    }
}

// Undoes the links of a list of n records, sorted up, and answers the least record whose name the one before it has, or `none`.
fn unlink(doc: &[u8], table: &mut [u32], head: usize, n: usize, none: usize) -> usize
    requires { Chained doc.now table.old head n none }
    ensures { Unlinked doc.now table.old table.new head n none result }
{
    let mut x = head;
    let mut low = none;
    for _ in 1..n {
        let y = relink(table, x, 0);
        low = lower(doc, table, x, y, low);
        x = y;
    }
    relink(table, x, 0);
    low
}

// The least of n records that has an earlier twin, or `stop`, by sorting.
pub fn sorted(doc: &[u8], table: &mut [u32], first: usize, stop: usize, n: usize) -> usize
    requires { (Family doc.now table.old first stop) × (n ≡ length (siblings table.old stop stop first)) × (0 < n) }
    ensures { (table.new ≡ table.old) × (Least doc.now table.old (λ z. Mem z (siblings table.old stop stop first)) stop result) }
{
    let run = sort(doc, table, first, n, true);
    unlink(doc, table, run.head, n, stop)
}

// Whether the name of record i comes before that of the next, if there is a next one.
fn climbs(doc: &[u8], table: &[u32], i: usize, next: usize, stop: usize) -> bool
    requires { (Fit doc.now table.now i) × (next < stop → Fit doc.now table.now next) }
    ensures { Climbs (num (name_of doc.now table.now i)) (num (name_of doc.now table.now next)) next stop result }
{
    stop <= next || matches!(names(doc, table, i, next), Ordering::Less)
}

// Whether the names rise from each record to the next, so that no two are the same.
pub fn rising(doc: &[u8], table: &[u32], first: usize, stop: usize) -> bool
    requires { Family doc.now table.now first stop }
    ensures { Rises doc.now table.now first stop result }
{
    let mut i = first;
    // A `while`: a record's last word is the number of the next.
    while i < stop {
        let next = table::word(table, i, table::END);
        if !climbs(doc, table, i, next, stop) {
            return false;
        }
        i = next;
    }
    true
}
