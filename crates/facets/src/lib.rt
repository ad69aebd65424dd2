// The facets of a binary STL file (02 §4), written from a mesh and listed from a file. What the bytes are stands in specs/Facets.
#![tactic(auto)]

ghost use Rattle.std.specs.Prelude.{◌≡◌, [], ◌∷◌, ◌+◌, ◌*◌, ◌/◌, ◌≤◌, ◌<◌, length, replicate};
ghost use Rattle.lists.specs.Put.{put};
ghost use Rattle.facets.specs.Facets.{facet_normal, facet_bytes, corner_at, facet_at, facets_of, stl_head, Drawn, facet_place, one_normal, one_corners, listed_normals, listed_corners};

use vectors::{Vec3, get_vec};

// A triangle list, of a whole mesh or of a part of it, and the positions of the vertices that it names.
#[derive(Clone, Copy)]
pub struct Drawing<'a> {
    pub positions: &'a [f32],
    pub triangles: &'a [u32],
    ghost drawn: { Drawn positions.now triangles.now },
}

fn facet_normal(a: Vec3, b: Vec3, c: Vec3) -> Vec3
    ensures { result ≡ facet_normal a b c }
{
    (b - a).cross(c - a).normalised()
}

// The two bytes that every facet ends with.
fn put_zeros(out: &mut [u8], at: usize)
    requires { at + 2 ≤ length out.old }
    ensures { out.new ≡ put out.old at (0 ∷ 0 ∷ []) }
{
    out[at] = 0;
    out[at + 1] = 0;
}

// The 50 bytes of one triangle.
fn put_facet(out: &mut [u8], at: usize, a: Vec3, b: Vec3, c: Vec3)
    requires { at + 50 ≤ length out.old }
    ensures { out.new ≡ put out.old at (facet_bytes a b c) }
{
    little::put_vec(out, at, facet_normal(a, b, c));
    little::put_vec(out, at + 12, a);
    little::put_vec(out, at + 24, b);
    little::put_vec(out, at + 36, c);
    put_zeros(out, at + 48);
}

impl Drawing<'_> {
    // Where corner j of the list stands.
    fn corner(&self, j: usize) -> Vec3
        requires { j < length self.now.triangles.now }
        ensures { result ≡ corner_at self.now.positions.now self.now.triangles.now j }
    {
        get_vec(self.positions, self.triangles[j] as usize)
    }
}

// The facets of a drawing, from place `at` on.
pub fn put_facets(out: &mut [u8], at: usize, d: &Drawing)
    requires { at + 50 * (length d.now.triangles.now / 3) ≤ length out.old }
    ensures { out.new ≡ put out.old at
        (facets_of d.now.positions.now d.now.triangles.now (length d.now.triangles.now / 3)) }
{
    let n = d.triangles.len() / 3;
    for i in 0..n {
        let a = d.corner(3 * i);
        let b = d.corner(3 * i + 1);
        let c = d.corner(3 * i + 2);
        put_facet(out, at + 50 * i, a, b, c);
    }
}

// 80 zeros and the count.
pub fn put_head(out: &mut [u8], t: u32)
    requires { 84 ≤ length out.old }
    ensures { out.new ≡ put out.old 0 (stl_head t) }
{
    put_blank(out);
    little::put_le32(out, 80, t);
}

fn put_blank(out: &mut [u8])
    requires { 80 ≤ length out.old }
    ensures { out.new ≡ put out.old 0 (replicate 80 0) }
{
    out[..80].fill(0);
}

// The nine floats of a facet's corners.
fn list_corners(file: &[u8], i: usize, corners: &mut [f32])
    requires { (facet_place i + 50 ≤ length file.now) × (9 * i + 9 ≤ length corners.old) }
    ensures { corners.new ≡ put corners.old (9 * i) (one_corners file.now i) }
{
    let at = 84 + 50 * i;
    vectors::put_vec(corners, 9 * i, little::vec_at(file, at + 12));
    vectors::put_vec(corners, 9 * i + 3, little::vec_at(file, at + 24));
    vectors::put_vec(corners, 9 * i + 6, little::vec_at(file, at + 36));
}

// The three of its normal.
fn list_normal(file: &[u8], i: usize, normals: &mut [f32])
    requires { (facet_place i + 50 ≤ length file.now) × (3 * i + 3 ≤ length normals.old) }
    ensures { normals.new ≡ put normals.old (3 * i) (one_normal file.now i) }
{
    vectors::put_vec(normals, 3 * i, little::vec_at(file, 84 + 50 * i));
}

// The corners and the normals of the first t facets of a file, at the front of two lists.
pub fn list_facets(file: &[u8], t: usize, corners: &mut [f32], normals: &mut [f32])
    requires { (84 + 50 * t ≤ length file.now) × (9 * t ≤ length corners.old) × (3 * t ≤ length normals.old) }
    ensures { (corners.new ≡ put corners.old 0 (listed_corners file.now t))
        × (normals.new ≡ put normals.old 0 (listed_normals file.now t)) }
{
    for i in 0..t {
        list_corners(file, i, corners);
        list_normal(file, i, normals);
    }
}
