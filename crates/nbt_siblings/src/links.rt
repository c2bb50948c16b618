// A record's link: its word that is 0 in a table, and holds the number of another record while repeats are sought.
ghost use Rattle.std.specs.Prelude.{◌≡◌, ◌+◌, ◌*◌, ◌≤◌, ◌<◌, length};
ghost use Rattle.nbt_siblings.specs.Links.{slot_of, link, linked};

use table::kinds;

// The word of a record that is 0 in a table: a container's payload start, another's list kind.
fn slot(table: &[u32], i: usize) -> usize
    requires { 9 * i + 9 ≤ length table.now }
    ensures { result ≡ slot_of table.now i }
{
    match table::word(table, i, table::KIND) {
        kinds::LIST | kinds::COMPOUND => table::WORDS * i + table::START,
        _ => table::WORDS * i + table::LIST_KIND,
    }
}

// What a record is linked to.
pub fn cell(table: &[u32], i: usize) -> usize
    requires { 9 * i + 9 ≤ length table.now }
    ensures { result ≡ link table.now i }
{
    table[slot(table, i)] as usize
}

// Links record i to another, and answers what it was linked to.
pub fn relink(table: &mut [u32], i: usize, to: usize) -> usize
    requires { (9 * i + 9 ≤ length table.old) × (to < 4294967296) }
    ensures { (result ≡ link table.old i) × (table.new ≡ linked table.old i to) }
{
    let s = slot(table, i);
    let old = table[s] as usize;
    table[s] = to as u32;
    old
}
