// An f64's bit pattern to the nearest f32's, over whole numbers.
ghost use Rattle.std.specs.Prelude.{◌≡◌, Bool, cond, ◌+◌, ◌*◌, ◌%◌, ◌^◌, ◌<◌, ◌≤◌};
ghost use Rattle.std.specs.Float.{binary32, binary64};
ghost use Rattle.std.specs.Float.Ieee.{to_bits, of_bits, of_fields};
ghost use Rattle.std.specs.Float.Ieee.Nearest.{closest};
ghost use Rattle.floats.specs.Floats.{narrowed};

// m / u to the nearest whole number, a tie to the even one, with no branch.
fn nearest_div(m: u64, u: u64) -> u64
    requires { (m < 2 ^ 60) × (0 < u) × (u % 2 ≡ 0) }
    ensures { result ≡ closest m u }
{
    (m + (u / 2 - 1) + m / u % 2) / u
}

// The pattern of a magnitude, from the exponent's field and the digits of an f64 that is no NaN.
fn magnitude(e: u64, t: u64) -> u64
    requires { (t < 2 ^ 52) × (e * 2 ^ 52 + t ≤ 2047 * 2 ^ 52) }
    ensures { (result ≤ 0x7f80_0000) × ((s : Bool) → to_bits binary32 (narrowed binary32 (of_fields binary64 s e t)) ≡ cond s 0x8000_0000 0 + result) }
{
    if e < 872 {
        return 0;
    }
    let m = 4503599627370496 + t;
    if e < 897 {
        return nearest_div(m, 1u64 << (926 - e));
    }
    if e < 1151 {
        return (e - 897) * 8388608 + nearest_div(m, 536870912);
    }
    0x7f80_0000
}

pub fn narrow_bits(b: u64) -> u32
    ensures { result ≡ to_bits binary32 (narrowed binary32 (of_bits binary64 b)) }
{
    let a = b % 0x8000_0000_0000_0000;
    if 0x7ff0_0000_0000_0000 < a {
        return 0x7fc0_0000;
    }
    let r = magnitude(a / 4503599627370496, b % 4503599627370496);
    if b < 0x8000_0000_0000_0000 {
        return r as u32;
    }
    (r + 0x8000_0000) as u32
}

// The f32 itself. A NaN is no pattern that a float is made from, so it is made by a division.
pub fn narrow(b: u64) -> f32
    ensures { result ≡ narrowed binary32 (of_bits binary64 b) }
{
    let r = narrow_bits(b);
    if r == 0x7fc0_0000 {
        return 0.0 / 0.0;
    }
    f32::from_bits(r)
}
