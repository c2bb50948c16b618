// The 32 bits of the single that is nearest to a double, a tie to the even one (rule 13: as a tag, f rounds the double to
// f32). A cast that rounds cannot be had, so this works on the double's bits.
ghost use Rattle.std.specs.Prelude.{◌≡◌, Bool, not, cond, ◌+◌, ◌≤◌, ◌<◌, ◌^◌, T};
ghost use Rattle.std.specs.Float.{binary32, binary64};
ghost use Rattle.std.specs.Float.Ieee.{to_bits, of_bits, is_nan};
ghost use Rattle.snbt_form.specs.Values.{to_single};

// The single's bits by the double's, both without their sign (rule 13). It rounds as whole numbers are rounded to doubles, by the three
// cases of `rounded_shift` (request [9]). The contract holds for either sign.
pub fn single_magnitude(b: u64) -> u32
    requires { b ≤ 0x7ff0_0000_0000_0000 }
    ensures { (s : Bool) → cond s (2 ^ 31) 0 + result ≡ to_bits binary32 (to_single (of_bits binary64 (cond s (2 ^ 63) 0 + b))) }
{
    let field = b / 0x10_0000_0000_0000;
    let digits = b % 0x10_0000_0000_0000;
    // 2^128 and above
    if 1151 <= field {
        return 0x7f80_0000;
    }
    // below half of the smallest single
    if field < 873 {
        return 0;
    }
    let significand = 0x10_0000_0000_0000 + digits;
    if field < 897 {
        let places = (926 - field) as u32;
        return crate::nearest::rounded_shift(significand, places) as u32;
    }
    ((field - 897) * 0x80_0000 + crate::nearest::rounded_shift(significand, 29)) as u32
}

// The bits of the single nearest to a double (rule 13): overflow to infinity, subnormal singles and signed zeros are in it.
pub fn f32_bits(x: f64) -> u32
    requires { T (not (is_nan x)) }
    ensures { result ≡ to_bits binary32 (to_single x) }
{
    let b = f64::to_bits(x);
    let r = single_magnitude(b % 0x8000_0000_0000_0000);
    if b < 0x8000_0000_0000_0000 {
        return r;
    }
    r + 0x8000_0000
}
