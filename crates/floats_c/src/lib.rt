// Narrowing and the square root for C, over bit patterns, so that they can be run against the machine's own.
#![tactic(auto)]

ghost use Rattle.std.specs.Prelude.{◌≡◌};
ghost use Rattle.std.specs.Float.{binary32, binary64};
ghost use Rattle.std.specs.Float.Ieee.{to_bits, of_bits};
ghost use Rattle.floats.specs.Floats.{narrowed, root};

#[unsafe(no_mangle)]
pub extern "C" fn ribbon_narrow_bits(b: u64) -> u32
    ensures { result ≡ to_bits binary32 (narrowed binary32 (of_bits binary64 b)) }
{
    floats::narrow::narrow_bits(b)
}

#[unsafe(no_mangle)]
pub extern "C" fn ribbon_root_bits(b: u32) -> u32
    ensures { result ≡ to_bits binary32 (root binary32 (of_bits binary32 b)) }
{
    floats::root::root_bits(b)
}
