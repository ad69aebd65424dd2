// The Rust's smooth_positions, without its clones.
ghost use Rattle.std.specs.Prelude.{◌≡◌, ◌*◌, ◌≤◌, length};
ghost use Rattle.smooth.specs.Pass.{vectors, Smoothable, position_pass, smooth_positions};

use shape::guides::smooth_position;
use vectors::{get_vec, put_vec};

// From residue 1 to the last but one, so that both ends stay. `prev` is the one vector kept: what residue i - 1 was before this pass.
fn position_pass(list: &mut [f32], n: usize)
    requires { (2 ≤ n) × (length list.old ≡ 3 * n) }
    ensures { list.new ≡ position_pass n list.old }
{
    let mut prev = get_vec(list, 0);
    for i in 1..n - 1 {
        let here = get_vec(list, i);
        let next = get_vec(list, i + 1);
        let smoothed = smooth_position(prev, here, next);
        put_vec(list, 3 * i, smoothed);
        prev = here;
    }
}

pub fn smooth_positions(list: &mut [f32], passes: usize)
    requires { Smoothable list.old }
    ensures { list.new ≡ smooth_positions passes (vectors list.old) list.old }
{
    let n = list.len() / 3;
    for k in 0..passes {
        position_pass(list, n);
    }
}
