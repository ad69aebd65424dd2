// Float leaves: bits, narrowing and the square root, over whole numbers, and the absolute value and the greater of two.
#![tactic(auto)]

pub mod bits;
pub mod narrow;
pub mod root;

ghost use Rattle.std.specs.Prelude.{◌≡◌};
ghost use Rattle.floats.specs.Floats.{absolute, greater};

pub fn magnitude_of(x: f32) -> f32
    ensures { result ≡ absolute x }
{
    if x < 0.0 {
        return -x;
    }
    if x == 0.0 {
        return 0.0;
    }
    x
}

pub fn greater_of(x: f32, y: f32) -> f32
    ensures { result ≡ greater x y }
{
    if x != x {
        return y;
    }
    if x < y {
        return y;
    }
    x
}
