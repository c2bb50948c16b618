// The keys of the compound that is open, for refusal 6 of the text parser (rule 15): their places in the output, in two runs, each sorted
// by the bytes of the names. A key is looked up by halving; a new one is put into the second run, of fewer than 512 keys, at its index.
#![tactic(auto)]

ghost use Rattle.std.specs.Prelude.{◌≡◌, ◌∷◌, ◌++◌, false, ◌+◌, ◌-◌, ◌≤◌, ◌<◌, length, take, drop};
ghost use Rattle.form.specs.Spans.{part};
ghost use Rattle.snbt_form.specs.Text.{known};
ghost use Rattle.snbt_keys.specs.Keys.{size_at, name_at, names_in, OrderIs, Rising, FreeIn, SpotIn, joint_of, Runs, Kept, SpotIs, put_in, Comes, Added, Lifted, Merging};

use std::cmp::Ordering;

// The order of the name at a place and a key, its first `size` bytes.
fn order_name(out: &[u8], place: usize, key: &[u8], size: usize) -> Ordering
    requires { (place + (2 + size_at out.now place) ≤ length out.now) × (size ≤ length key.now) }
    ensures { OrderIs (name_at out.now place) (take size key.now) result }
{
    let from = place + 2;
    let to = from + raw::u16_at(out, place) as usize;
    let name = &out[from..to];
    let key = &key[..size];
    name.cmp(&key)
}

// Where a key, the first `size` bytes, belongs among those of a run; none where it is there already.
fn halve(
    out: &[u8],
    keys: &[u32],
    base: usize,
    top: usize,
    key: &[u8],
    size: usize,
) -> Option<usize>
    requires { (Rising out.now keys.now base top (length out.now)) × (size ≤ length key.now) }
    ensures { SpotIn out.now keys.now base top (take size key.now) result }
{
    let mut low = base;
    let mut high = top;
    while low < high {
        let mid = low + (high - low) / 2;
        match order_name(out, keys[mid] as usize, key, size) {
            Ordering::Less => {
                low = mid + 1;
            }
            Ordering::Greater => {
                high = mid;
            }
            Ordering::Equal => {
                return None;
            }
        }
    }
    Some(low)
}

// Where the second run of the keys from base up to top begins.
fn joint(base: usize, top: usize) -> usize
    requires { base ≤ top }
    ensures { result ≡ joint_of base top }
{
    base + (top - base) / 512 * 512
}

// Where a key, the first `size` bytes, belongs among those of the open compound; none where it is there already (refusal 6).
pub fn spot_of(
    out: &[u8],
    keys: &[u32],
    base: usize,
    top: usize,
    key: &[u8],
    size: usize,
) -> Option<usize>
    requires { (Kept out.now keys.now base top (length out.now)) × (size ≤ length key.now) }
    ensures { SpotIs out.now keys.now base top (take size key.now) result }
{
    let mid = joint(base, top);
    halve(out, keys, base, mid, key, size)?;
    halve(out, keys, mid, top, key, size)
}

// Puts a place in at an index: those from the index on move up by one.
fn put_in(keys: &mut [u32], top: usize, index: usize, place: u32)
    requires { (index ≤ top) × (top < length keys.old) }
    ensures { keys.new ≡ take index keys.old ++ (place ∷ (part keys.old index (top - index) ++ drop (top + 1) keys.old)) }
{
    // `copy_within` would ask the linker for memmove.
    for i in (index..top).rev() {
        keys[i + 1] = keys[i];
    }
    keys[index] = place;
}

// Moves the places from an index up to another up by n.
fn lift(keys: &mut [u32], from: usize, to: usize, n: usize)
    requires { (from ≤ to) × (to + n ≤ length keys.old) }
    ensures { Lifted keys.old from to n keys.new }
{
    // `copy_within` would ask the linker for memmove.
    for i in (from..to).rev() {
        keys[i + n] = keys[i];
    }
}

// Where the name at a place belongs among those of a run, which has it not: so the run's end for want of an index is never answered.
fn index_of(out: &[u8], keys: &[u32], base: usize, top: usize, place: usize) -> usize
    requires { (Rising out.now keys.now base top (length out.now)) × (place + (2 + size_at out.now place) ≤ length out.now) × (known (name_at out.now place) (names_in out.now keys.now base (top - base)) ≡ false) }
    ensures { FreeIn out.now keys.now base top (name_at out.now place) result }
{
    let size = raw::u16_at(out, place) as usize;
    halve(out, keys, base, top, &out[place + 2..], size).unwrap_or(top)
}

// Merges the second run, 512 keys from `mid` on, into the first, but for its first n: from the last on, what lies above a key in the first
// run moves up by as many as are still to come. Answers up to where the first run is as it was. The places wait in the frames of the
// calls: an array of them would be put into the frame of every compound that is open.
fn merge(out: &[u8], keys: &mut [u32], base: usize, mid: usize, n: usize) -> usize
    requires { (Runs out.now keys.old base mid (mid + 512) (length out.now)) × (n ≤ 512) }
    ensures { Merging out.now keys.old base mid n result keys.new }
{
    if n == 512 {
        return mid;
    }
    let place = keys[mid + n];
    let high = merge(out, keys, base, mid, n + 1);
    let index = index_of(out, keys, base, high, place as usize);
    lift(keys, index, high, n + 1);
    keys[index + n] = place;
    index
}

// Puts the place of a new key in among those of the open compound, at its index: at most 512 places move, and where the second run is
// full it is merged into the first.
pub fn add(out: &[u8], keys: &mut [u32], base: usize, top: usize, index: usize, place: u32)
    requires { Comes out.now keys.old base top index place }
    ensures is { Added out.now keys.old base top place keys.new }
    ensures put { (top - joint_of base top ≡ 511 → ⊥) → keys.new ≡ put_in keys.old top index place }
{
    put_in(keys, top, index, place);
    let mid = joint(base, top);
    if top - mid == 511 {
        merge(out, keys, base, mid, 0);
    }
}
