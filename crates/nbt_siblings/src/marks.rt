// The mark of a name: a number made of its first, middle and last bytes, and of its length where there are few. It gives the cell of a record.
ghost use Rattle.std.specs.Prelude.{◌≡◌, ◌+◌, ◌≤◌, ◌<◌, length, get_or};
ghost use Rattle.form.specs.Spans.{part};
ghost use Rattle.nbt_siblings.specs.Links.{four_of, Fit};
ghost use Rattle.nbt_siblings.specs.Cells.{blend, turn, stir_of, both_of, mark_of, mark_at};

use crate::names::four;

// Four numbers made one.
fn mix(a: usize, b: usize, c: usize, d: usize) -> usize
    requires { (a < 4294967296) × (b < 4294967296) × (c < 4294967296) × (d < 4294967296) }
    ensures { result ≡ blend a b c d }
{
    a * 2654435761 / 4 + b * 2246822519 / 4 + c * 3266489917 / 4 + d * 3668265263 / 4
}

// The two halves of a number added and multiplied.
fn fold(k: usize, x: usize) -> usize
    requires { k < 4294967296 }
    ensures { result ≡ turn k x }
{
    (x / 4294967296 + x % 4294967296) % 4294967296 * k
}

// Four numbers stirred into one, so that names that differ a little have numbers far apart.
fn stir(a: usize, b: usize, c: usize, d: usize) -> usize
    requires { (a < 4294967296) × (b < 4294967296) × (c < 4294967296) × (d < 4294967296) }
    ensures { result ≡ stir_of a b c d }
{
    fold(3266489917, fold(2654435761, mix(a, b, c, d))) / 1048576
}

// A byte of the n at a, or 0 after the last.
fn byte_or(doc: &[u8], a: usize, n: usize, k: usize) -> usize
    requires { a + n ≤ length doc.now }
    ensures { (result ≡ get_or (part doc.now a n) k 0) × (result < 4294967296) }
{
    if k < n { usize::from(doc[a + k]) } else { 0 }
}

// Four bytes at each of two places made one number.
fn both(doc: &[u8], x: usize, y: usize) -> usize
    requires { (x + 4 ≤ length doc.now) × (y + 4 ≤ length doc.now) }
    ensures { (result ≡ both_of (four_of doc.now x) (four_of doc.now y)) × (result < 4294967296) }
{
    (four(doc, x) + four(doc, y)) % 4294967296
}

// The mark of sixteen bytes or more: names that differ only in the middle have marks of their own.
fn mark_long(doc: &[u8], a: usize, n: usize) -> usize
    requires { (a + n ≤ length doc.now) × (16 ≤ n) }
    ensures { result ≡ mark_of (part doc.now a n) }
{
    let m = a + n / 2;
    stir(
        both(doc, a, m - 4),
        both(doc, a + 4, m),
        four(doc, a + n - 8),
        four(doc, a + n - 4),
    )
}

// The mark of the n bytes at a: the same for the same bytes.
fn mark_span(doc: &[u8], a: usize, n: usize) -> usize
    requires { a + n ≤ length doc.now }
    ensures { result ≡ mark_of (part doc.now a n) }
{
    match n {
        0..=3 => stir(
            n,
            byte_or(doc, a, n, 0),
            byte_or(doc, a, n, 1),
            byte_or(doc, a, n, 2),
        ),
        4..=7 => stir(n, 0, four(doc, a), four(doc, a + n - 4)),
        8..=15 => stir(
            four(doc, a),
            four(doc, a + 4),
            four(doc, a + n - 8),
            four(doc, a + n - 4),
        ),
        _ => mark_long(doc, a, n),
    }
}

// The mark of a record's name.
pub fn mark(doc: &[u8], table: &[u32], i: usize) -> usize
    requires { Fit doc.now table.now i }
    ensures { result ≡ mark_at doc.now table.now i }
{
    mark_span(
        doc,
        table::word(table, i, table::NAME),
        table::word(table, i, table::NAME_LENGTH),
    )
}
