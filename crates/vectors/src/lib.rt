// Vectors of three f32 by value, and flat lists of them.
#![tactic(auto)]

ghost use Rattle.std.specs.Prelude.{◌≡◌, ◌+◌, ◌*◌, ◌≤◌, length};
ghost use Rattle.vectors.specs.Vec.{vadd, vsub, vscale, vdot, vcross, vlength, direction_by, direction_of, normalised_by, normalised, floats, vec_at};
ghost use Rattle.lists.specs.Put.{put};

use std::ops::{Add, Sub};

#[derive(Clone, Copy)]
pub struct Vec3 {
    pub x: f32,
    pub y: f32,
    pub z: f32,
}

impl Vec3 {
    pub const ZERO: Vec3 = Vec3 {
        x: 0.0,
        y: 0.0,
        z: 0.0,
    };

    pub const Y_AXIS: Vec3 = Vec3 {
        x: 0.0,
        y: 1.0,
        z: 0.0,
    };

    pub const Z_AXIS: Vec3 = Vec3 {
        x: 0.0,
        y: 0.0,
        z: 1.0,
    };

    pub fn scale(self, k: f32) -> Vec3
        ensures { result ≡ vscale self k }
    {
        Vec3 {
            x: self.x * k,
            y: self.y * k,
            z: self.z * k,
        }
    }

    pub fn dot(self, b: Vec3) -> f32
        ensures { result ≡ vdot self b }
    {
        self.x * b.x + self.y * b.y + self.z * b.z
    }

    pub fn cross(self, b: Vec3) -> Vec3
        ensures { result ≡ vcross self b }
    {
        Vec3 {
            x: self.y * b.z - self.z * b.y,
            y: self.z * b.x - self.x * b.z,
            z: self.x * b.y - self.y * b.x,
        }
    }

    pub fn length(self) -> f32
        ensures { result ≡ vlength self }
    {
        floats::root::square_root(self.dot(self))
    }

    // Where the vector points: none where its length is 0.
    pub fn direction(self) -> Option<Vec3>
        ensures { result ≡ direction_of self }
    {
        self.direction_by(self.length())
    }

    // The same, where the length is at hand. Nothing else normalises: whoever needs a direction sees that there may be none.
    pub fn direction_by(self, l: f32) -> Option<Vec3>
        ensures { result ≡ direction_by self l }
    {
        if l == 0.0 {
            return None;
        }
        Some(self.scale(1.0 / l))
    }

    // The direction, and the zero vector where there is none: the Rust's answer, which all but an end cap take.
    pub fn normalised(self) -> Vec3
        ensures { result ≡ normalised self }
    {
        self.normalised_by(self.length())
    }

    // The same, where the length is at hand.
    pub fn normalised_by(self, l: f32) -> Vec3
        ensures { result ≡ normalised_by self l }
    {
        self.direction_by(l).unwrap_or(Vec3::ZERO)
    }
}

impl Add for Vec3 {
    type Output = Vec3;

    ghost add_gives = { λ a b r. r ≡ vadd a b };

    fn add(self, b: Vec3) -> Vec3 {
        Vec3 {
            x: self.x + b.x,
            y: self.y + b.y,
            z: self.z + b.z,
        }
    }
}

impl Sub for Vec3 {
    type Output = Vec3;

    ghost sub_gives = { λ a b r. r ≡ vsub a b };

    fn sub(self, b: Vec3) -> Vec3 {
        Vec3 {
            x: self.x - b.x,
            y: self.y - b.y,
            z: self.z - b.z,
        }
    }
}

// Vector i of a flat list.
pub fn get_vec(s: &[f32], i: usize) -> Vec3
    requires { 3 * i + 3 ≤ length s.now }
    ensures { result ≡ vec_at s.now i }
{
    let at = 3 * i;
    Vec3 {
        x: s[at],
        y: s[at + 1],
        z: s[at + 2],
    }
}

// Three floats from place `at` on.
pub fn put_vec(out: &mut [f32], at: usize, v: Vec3)
    requires { at + 3 ≤ length out.old }
    ensures { out.new ≡ put out.old at (floats v) }
{
    out[at] = v.x;
    out[at + 1] = v.y;
    out[at + 2] = v.z;
}
