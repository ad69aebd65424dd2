// The normal of a tube's end cap.
#![tactic(auto)]

ghost use Rattle.std.specs.Prelude.{◌≡◌, ◌*◌, ◌≤◌, length};
ghost use Rattle.caps.specs.Caps.{end_normal_by};

use curve::Frame;
use vectors::{Vec3, get_vec};

// Where the last two spline points coincide their chord has no direction, and a normal of zero would shade black: `last` is the last sample's frame.
pub fn end_normal(points: &[f32], n: usize, last: Frame) -> Vec3
    requires { (2 ≤ n) × (length points.now ≡ 3 * n) }
    ensures { result ≡ end_normal_by points.now n last }
{
    let tangent = last.tangent;
    let chord = get_vec(points, n - 1) - get_vec(points, n - 2);
    match chord.direction() {
        Some(v) => v,
        None => tangent,
    }
}
