// Thousandths to the bits of an f64.
#![tactic(auto)]

ghost use Rattle.std.specs.Prelude.{◌≡◌};
ghost use Rattle.coordinates.specs.Coordinate.{bits};

pub fn coordinate_bits(minus: bool, size: u32) -> u64
    ensures { result ≡ bits minus size }
{
    if size == 0 {
        return 0;
    }
    let q = (size as f64) / 1000.0;
    if minus {
        return f64::to_bits(-q);
    }
    f64::to_bits(q)
}
