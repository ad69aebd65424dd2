// The box of a tube's vertices, taken further while they are written.
#![tactic(auto)]

ghost use Rattle.std.specs.Prelude.{◌≡◌, cond, ◌++◌, ◌+◌, ◌≤◌, length};
ghost use Rattle.std.specs.Float.Ieee.{lt};
ghost use Rattle.lists.specs.Put.{put};
ghost use Rattle.vectors.specs.Vec.{floats, eight};
ghost use Rattle.boxes.specs.Box.{more};
ghost use Rattle.boxes.specs.Bounds.{corner_by, grown_by, single};

use vectors::{Vec3, put_vec};

// The two corners of a box so far.
#[derive(Drop)]
pub struct Bounds {
    pub low: Vec3,
    pub high: Vec3,
}

// The earlier of equals stays, so both tests are strict: 0.0 and -0.0 are equal and differ.
fn lower(a: f32, b: f32) -> f32
    ensures { result ≡ cond (lt b a) b a }
{
    if b < a {
        return b;
    }
    a
}

fn upper(a: f32, b: f32) -> f32
    ensures { result ≡ cond (lt a b) b a }
{
    if a < b {
        return b;
    }
    a
}

fn low_corner(a: Vec3, b: Vec3) -> Vec3
    ensures { result ≡ corner_by lt a (floats b) }
{
    Vec3 {
        x: lower(a.x, b.x),
        y: lower(a.y, b.y),
        z: lower(a.z, b.z),
    }
}

fn high_corner(a: Vec3, b: Vec3) -> Vec3
    ensures { result ≡ corner_by more a (floats b) }
{
    Vec3 {
        x: upper(a.x, b.x),
        y: upper(a.y, b.y),
        z: upper(a.z, b.z),
    }
}

// The box of one vertex.
pub fn begun(p: Vec3) -> Bounds
    ensures { result ≡ single p }
{
    Bounds { low: p, high: p }
}

// A box and one vertex more.
pub fn grown(b: Bounds, p: Vec3) -> Bounds
    ensures { result ≡ grown_by b (floats p) }
{
    Bounds {
        low: low_corner(b.low, p),
        high: high_corner(b.high, p),
    }
}

// A box and the eight vertices of a ring more.
pub fn over_eight(b: Bounds, ps: [Vec3; 8]) -> Bounds
    ensures { result ≡ grown_by b (eight ps) }
{
    let mut bounds = b;
    for k in 0usize..8 {
        bounds = grown(bounds, ps[k]);
    }
    bounds
}

// The six floats of a box.
pub fn put_bounds(boxes: &mut [f32], at: usize, b: Bounds)
    requires { at + 6 ≤ length boxes.old }
    ensures { boxes.new ≡ put boxes.old at (floats b.low ++ floats b.high) }
{
    put_vec(boxes, at, b.low);
    put_vec(boxes, at + 3, b.high);
}
