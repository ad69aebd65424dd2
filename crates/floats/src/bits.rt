// A float's bits as they go out, and the float of a pattern that came in: one home for the stream and for STL. All NaNs are one value, whose bits are 7FC00000.
ghost use Rattle.std.specs.Prelude.{◌≡◌};
ghost use Rattle.std.specs.Float.{binary32};
ghost use Rattle.std.specs.Float.Ieee.{to_bits, of_bits};

// A float's bits, and one pattern for every NaN.
pub fn float_word(x: f32) -> u32
    ensures { result ≡ to_bits binary32 x }
{
    if x != x {
        return 0x7fc0_0000;
    }
    f32::to_bits(x)
}

// The float of a pattern. A NaN's pattern is none that a float is made from, so the NaN is made by a division.
pub fn float_of(w: u32) -> f32
    ensures { result ≡ of_bits binary32 w }
{
    if 0x7f80_0000 < w % 0x8000_0000 {
        return 0.0 / 0.0;
    }
    f32::from_bits(w)
}
