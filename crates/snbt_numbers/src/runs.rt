// Digits read up to the first byte that is none, so that one pass finds both a number and where it ends (rule 13). Eighteen
// digits fit a u64, so nothing stops growing here.
ghost use Rattle.std.specs.Prelude.{◌+◌, ◌-◌, ◌^◌, ◌≤◌, ◌<◌, length};
ghost use Rattle.snbt_numbers.specs.Rows.{RunAt};

// The number of a row of digits, and the place behind the last of them.
#[derive(Drop)]
pub struct Row {
    pub value: u64,
    pub end: usize,
}

// The digits from at on, behind those of first, up to to or to a byte that is no digit (rule 13).
pub fn run_from(text: &[u8], first: u64, at: usize, to: usize) -> Row
    requires { (at ≤ to) × (to ≤ length text.now) × (to ≤ at + 18) × (first < 10 ^ (18 - (to - at))) }
    ensures { RunAt text.now first at to result }
{
    let mut n = first;
    for i in at..to {
        let b = text[i];
        if b < 48 || 57 < b {
            return Row { value: n, end: i };
        }
        n = n * 10 + (b - 48) as u64;
    }
    Row { value: n, end: to }
}
