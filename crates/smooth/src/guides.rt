// The Rust's smooth_guides, without its clones.
ghost use Rattle.std.specs.Prelude.{◌≡◌, ◌*◌, ◌≤◌, length};
ghost use Rattle.smooth.specs.Pass.{vectors, Smoothable, guide_pass, smooth_guides};

use crate::after;
use shape::guides::smooth_guide;
use vectors::{get_vec, put_vec};

// `prev` is the one vector kept: what residue i - 1 was before this pass; at residue 0, what residue 0 was.
fn guide_pass(list: &mut [f32], n: usize)
    requires { (1 ≤ n) × (length list.old ≡ 3 * n) }
    ensures { list.new ≡ guide_pass n list.old }
{
    let mut prev = get_vec(list, 0);
    for i in 0..n {
        let here = get_vec(list, i);
        let next = get_vec(list, after(n, i));
        let smoothed = smooth_guide(prev, here, next);
        put_vec(list, 3 * i, smoothed);
        prev = here;
    }
}

pub fn smooth_guides(list: &mut [f32], passes: usize)
    requires { Smoothable list.old }
    ensures { list.new ≡ smooth_guides passes (vectors list.old) list.old }
{
    let n = list.len() / 3;
    for k in 0..passes {
        guide_pass(list, n);
    }
}
