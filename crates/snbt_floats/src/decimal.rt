// The double that is nearest to w x 10^p, a tie to the even one, for a w of at most 2^53 and a p from -22 to 22 (rule 13):
// one exact cast and one rounded multiplication or division by an exactly held power of ten.
ghost use Rattle.std.specs.Prelude.{◌≡◌, false, ℕ, ◌≤◌, ◌<◌, ◌^◌, ◌*◌};
ghost use Rattle.std.specs.Float.{binary64};
ghost use Rattle.std.specs.Float.Ieee.{round};
ghost use Rattle.std.specs.Float.Ieee.Exact.{HasValue};
ghost use Rattle.snbt_form.specs.Values.{signed, nearest_to, scaled};
ghost use Rattle.snbt_floats.specs.Scaled.{scaled_out};

// The powers of ten that a double holds exactly.
const TENS: [f64; 23] = [
    1.0,
    10.0,
    100.0,
    1000.0,
    10000.0,
    100000.0,
    1000000.0,
    10000000.0,
    100000000.0,
    1000000000.0,
    10000000000.0,
    100000000000.0,
    1000000000000.0,
    10000000000000.0,
    100000000000000.0,
    1000000000000000.0,
    10000000000000000.0,
    100000000000000000.0,
    1000000000000000000.0,
    10000000000000000000.0,
    100000000000000000000.0,
    1000000000000000000000.0,
    10000000000000000000000.0,
];

// 10^p, held exactly (rule 13).
fn ten(p: usize) -> f64
    requires { p ≤ 22 }
    ensures { HasValue result false (10 ^ p) 1 }
{
    TENS[p]
}

// The double nearest to w x 10^p (rule 13): an exact cast, an exact power of ten, and one rounding.
pub fn scaled_up(w: u64, p: usize) -> f64
    requires { (w ≤ 2 ^ 53) × (p ≤ 22) }
    ensures { result ≡ round binary64 false (w * 10 ^ p) 1 }
{
    (w as f64) * ten(p)
}

// The double nearest to w / 10^p (rule 13): an exact cast, an exact power of ten, and one rounding.
pub fn scaled_down(w: u64, p: usize) -> f64
    requires { (w ≤ 2 ^ 53) × (p ≤ 22) }
    ensures { result ≡ round binary64 false w (10 ^ p) }
{
    (w as f64) / ten(p)
}

// The double nearest to a decimal (rule 13): its sign, its digits w and its power of ten, which is minus p where down is true.
pub fn decimal(negative: bool, w: u64, down: bool, p: usize) -> f64
    requires { (w ≤ 2 ^ 53) × (p ≤ 22) }
    ensures { result ≡ nearest_to negative w (signed down p) }
{
    let r = if down {
        scaled_down(w, p)
    } else {
        scaled_up(w, p)
    };
    if negative { -r } else { r }
}

// Rule 13 for any digits and any power: a signed zero or the nearest double. None: the digits or the power lie beyond what one rounding
// can do.
pub fn scaled_or_beyond(negative: bool, w: u64, down: bool, p: u64) -> Option<f64>
    ensures { (place : ℕ) → scaled_out result place ≡ scaled negative w (signed down p) place }
{
    if w == 0 {
        if negative {
            return Some(-0.0);
        }
        return Some(0.0);
    }
    if 9007199254740992 < w || 22 < p {
        return None;
    }
    Some(decimal(negative, w, down, p as usize))
}
