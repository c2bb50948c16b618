// What is asked of a value before it is written (rule 15): its range, then its kind, then its room; and what is told of a value.
// A place may lie past the output's end: there is no room there, and nothing overflows.
#![tactic(auto)]

ghost use Rattle.std.specs.Prelude.{◌≡◌, ◌||◌, ◌+◌, ◌≤◌, ◌<◌, leb, eqb};
ghost use Rattle.snbt_form.specs.Text.{in_range};
ghost use Rattle.snbt_placing.specs.Done.{AdmittedIs};

use form::refusals::Refusal;

// A value that was written: the next place in the text, the next in the output, and the kind.
#[derive(Clone, Copy)]
pub struct Done {
    pub next: usize,
    pub used: usize,
    pub kind: u8,
}

// An integer is in the range of `width` bytes (rule 15).
pub fn in_range(v: i64, width: usize) -> bool
    requires { (0 < width) × (width ≤ 8) }
    ensures { result ≡ in_range width v }
{
    let half = 1u64 << (8 * width - 1);
    raw::magnitude(v) < half
}

// There is room for `size` bytes from `at` on, which may lie past the output's end (refusal 13).
pub fn has_room(room: usize, at: usize, size: usize) -> bool
    ensures { result ≡ leb (at + size) room }
{
    size <= room && at <= room - size
}

// A kind is the one that its list has; 0 is any (refusal 11).
pub fn is_alike(want: u8, kind: u8) -> bool
    ensures { result ≡ (eqb want 0 || eqb kind want) }
{
    want == 0 || kind == want
}

// Whether a value of a kind and a size may stand at `at`: its kind (refusal 11), then its room (refusal 13).
pub fn admits(want: u8, kind: u8, room: usize, at: usize, size: usize) -> Result<(), Refusal>
    ensures { AdmittedIs want kind room at size result }
{
    if !is_alike(want, kind) {
        return Err(Refusal::MixedList);
    }
    if !has_room(room, at, size) {
        return Err(Refusal::OutputFull);
    }
    Ok(())
}
