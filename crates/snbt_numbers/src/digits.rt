// A row of decimal digits as a number, which stops growing at nineteen nines, since rule 13 answers alike for all that lies
// beyond them; and the sign in front of the digits.
ghost use Rattle.std.specs.Prelude.{◌≡◌, Bool, ◌+◌, ◌-◌, ◌*◌, ◌≤◌, ◌<◌, min, length};
ghost use Rattle.std.proofs.Math.Seq.{slice};
ghost use Rattle.form.specs.Answer.{pick};
ghost use Rattle.snbt_form.specs.Numbers.{negative};
ghost use Rattle.snbt_numbers.specs.Rows.{digits_of};

// The number with one digit more behind it (rule 13), up to nineteen nines.
fn next(n: u64, b: u8) -> u64
    requires { (48 ≤ b) × (b ≤ 57) }
    ensures { result ≡ min (n * 10 + (b - 48)) 9999999999999999999 }
{
    if 999999999999999999 < n {
        return 9999999999999999999;
    }
    n * 10 + (b - 48) as u64
}

// The bytes from at up to to as digits behind those of first (rule 13). None: a byte of them is no digit.
pub fn digits_from(text: &[u8], first: u64, at: usize, to: usize) -> Option<u64>
    requires { (first ≤ 9999999999999999999) × (at ≤ to) × (to ≤ length text.now) }
    ensures { result ≡ digits_of first (slice at to text.now) }
{
    let mut n = first;
    for i in at..to {
        let b = text[i];
        if b < 48 || 57 < b {
            return None;
        }
        n = next(n, b);
    }
    Some(n)
}

// Whether a minus stands first (rule 13).
pub fn minus_at(text: &[u8], at: usize, to: usize) -> bool
    requires { (at ≤ to) × (to ≤ length text.now) }
    ensures { result ≡ negative (slice at to text.now) }
{
    at < to && text[at] == b'-'
}

// Where the digits start: behind the minus, if there is one (rule 13).
pub fn behind_minus(minus: bool, at: usize) -> usize
    requires { at + 1 < 18446744073709551616 }
    ensures { result ≡ pick minus (at + 1) at }
{
    if minus { at + 1 } else { at }
}
