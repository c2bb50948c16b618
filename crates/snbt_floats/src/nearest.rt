// The double that is nearest to a whole number, a tie to the even one, at every magnitude of 64 bits (rule 13: a whole
// number with f or d).
ghost use Rattle.std.specs.Prelude.{◌≡◌, false, ◌<◌, ◌^◌};
ghost use Rattle.std.specs.Float.{binary64};
ghost use Rattle.std.specs.Float.Ieee.{to_bits, round, of_int};
ghost use Rattle.std.specs.Float.Ieee.Nearest.{closest};
ghost use Rattle.snbt_form.specs.Values.{signed};
ghost use Rattle.snbt_floats.specs.Ties.{CaseIs, EvenOf};

// Where the dropped bits of a number lie by the half, which is half of what its lowest kept bit is worth (request [9]). No `Ordering`: the
// three cases are read by the request's names.
#[derive(Clone, Copy)]
enum Case {
    BelowHalf,
    AboveHalf,
    OnHalf,
}

// Which of the three cases it is (request [9]).
fn case_of(dropped: u64, half: u64) -> Case
    ensures { CaseIs dropped half result }
{
    if dropped < half {
        Case::BelowHalf
    } else if half < dropped {
        Case::AboveHalf
    } else {
        Case::OnHalf
    }
}

// Of two neighbours, a number and the next, the even one (request [9]).
fn even_of(kept: u64) -> u64
    requires { kept < 2 ^ 63 }
    ensures { EvenOf kept result }
{
    if kept % 2 == 0 { kept } else { kept + 1 }
}

// The whole number nearest to n / 2^d, a tie to the even one (rule 13): the d bits that are dropped lie below the half, above it, or on it,
// where the even neighbour is chosen (request [9]). It serves two roundings, a whole number's to double, with d = 11, and a double's to
// single, with d from 29 to 53 (`single_magnitude`).
pub fn rounded_shift(n: u64, d: u32) -> u64
    requires { (0 < d) × (d < 64) }
    ensures { result ≡ closest n (2 ^ d) }
{
    let kept = n >> d;
    let dropped = n % (1u64 << d);
    let half = 1u64 << (d - 1);
    match case_of(dropped, half) {
        Case::BelowHalf => kept,
        Case::AboveHalf => kept + 1,
        Case::OnHalf => even_of(kept),
    }
}

// The bits of the double nearest to m (rule 13). The leading zeros of m place its significand: moved up by them, the upper 53
// bits are kept and the lower 11 dropped. A carry out of the kept bits runs into the exponent by itself.
pub fn magnitude_bits(m: u64) -> u64
    ensures { result ≡ to_bits binary64 (round binary64 false m 1) }
{
    if m == 0 {
        return 0;
    }
    let zeros = u64::leading_zeros(m);
    let placed = m << zeros;
    let exponent = (1085 - zeros) as u64;
    exponent * 0x10_0000_0000_0000 + rounded_shift(placed, 11)
}

// The bits of the double nearest to a whole number, by its sign and its magnitude (rule 13): minus zero is zero.
pub fn nearest_bits(negative: bool, magnitude: u64) -> u64
    ensures { result ≡ to_bits binary64 (of_int binary64 (signed negative magnitude)) }
{
    let bits = magnitude_bits(magnitude);
    if negative {
        if magnitude == 0 {
            return 0;
        }
        return bits + 0x8000_0000_0000_0000;
    }
    bits
}

// The double nearest to a whole number, by its sign and its magnitude (rule 13).
pub fn nearest_double(negative: bool, magnitude: u64) -> f64
    ensures { result ≡ of_int binary64 (signed negative magnitude) }
{
    f64::from_bits(nearest_bits(negative, magnitude))
}
