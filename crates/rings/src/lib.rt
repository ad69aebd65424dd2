// Writers of a ring, of a lone vertex, and of a ring with its cap's centre, to the three buffers at once. Each takes the tube's box further by the vertices
// that it writes, since to read all positions a second time would cost a build much of its speed.
#![tactic(auto)]

ghost use Rattle.std.specs.Prelude.{◌≡◌, [], ◌∷◌, ◌++◌, ◌+◌, ◌*◌, ◌≤◌, length, replicate};
ghost use Rattle.lists.specs.Put.{put};
ghost use Rattle.vectors.specs.Vec.{floats, eight};
ghost use Rattle.shape.specs.Ring.{ring_over};
ghost use Rattle.rings.specs.Post.{VertexRoom, Wrote};

use boxes::{Bounds, grown, over_eight};
use shape::section::{normal_on, point_on};
use shape::{Ring, Spoke};
use vectors::{Vec3, put_vec};

fn put_eight(out: &mut [f32], at: usize, ps: [Vec3; 8])
    requires { at + 24 ≤ length out.old }
    ensures { out.new ≡ put out.old at (eight ps) }
{
    for k in 0usize..8 {
        let p = ps[k];
        put_vec(out, at + 3 * k, p);
    }
}

fn put_tags(out: &mut [u32], at: usize, tag: u32)
    requires { at + 8 ≤ length out.old }
    ensures { out.new ≡ put out.old at (replicate 8 tag) }
{
    out[at..at + 8].fill(tag);
}

fn put_ring(
    positions: &mut [f32],
    normals: &mut [f32],
    tags: &mut [u32],
    v: usize,
    r: Ring,
    tag: u32,
    b: Bounds,
) -> Bounds
    requires { VertexRoom positions.old normals.old tags.old (v + 8) }
    ensures { Wrote b positions.old normals.old tags.old v
        (eight r.positions) (eight r.normals) (replicate 8 tag)
        result positions.new normals.new tags.new }
{
    let p = r.positions;
    let q = r.normals;
    put_eight(positions, 3 * v, p);
    put_eight(normals, 3 * v, q);
    put_tags(tags, v, tag);
    over_eight(b, p)
}

// The ring on these spokes, side by side: each vertex goes to the buffers where it is computed, and no ring stands in between.
pub fn put_sides(
    positions: &mut [f32],
    normals: &mut [f32],
    tags: &mut [u32],
    v: usize,
    center: Vec3,
    guide: Vec3,
    binormal: Vec3,
    spokes: [Spoke; 8],
    tag: u32,
    b: Bounds,
) -> Bounds
    requires { VertexRoom positions.old normals.old tags.old (v + 8) }
    ensures { Wrote b positions.old normals.old tags.old v
        (eight (ring_over center guide binormal spokes).positions) (eight (ring_over center guide binormal spokes).normals) (replicate 8 tag)
        result positions.new normals.new tags.new }
{
    let mut bounds = b;
    for k in 0usize..8 {
        let s = spokes[k];
        let p = point_on(center, guide, binormal, s);
        put_vec(positions, 3 * (v + k), p);
        bounds = grown(bounds, p);
        put_vec(normals, 3 * (v + k), normal_on(guide, binormal, s));
        tags[v + k] = tag;
    }
    bounds
}

fn put_vertex(
    positions: &mut [f32],
    normals: &mut [f32],
    tags: &mut [u32],
    v: usize,
    p: Vec3,
    q: Vec3,
    tag: u32,
    b: Bounds,
) -> Bounds
    requires { VertexRoom positions.old normals.old tags.old (v + 1) }
    ensures { Wrote b positions.old normals.old tags.old v (floats p) (floats q) (tag ∷ [])
        result positions.new normals.new tags.new }
{
    put_vec(positions, 3 * v, p);
    put_vec(normals, 3 * v, q);
    tags[v] = tag;
    grown(b, p)
}

// A ring with its cap's centre p, whose normal is q.
pub fn put_capped(
    positions: &mut [f32],
    normals: &mut [f32],
    tags: &mut [u32],
    v: usize,
    r: Ring,
    tag: u32,
    p: Vec3,
    q: Vec3,
    last: u32,
    b: Bounds,
) -> Bounds
    requires { VertexRoom positions.old normals.old tags.old (v + 9) }
    ensures { Wrote b positions.old normals.old tags.old v
        (eight r.positions ++ floats p) (eight r.normals ++ floats q) (replicate 8 tag ++ (last ∷ []))
        result positions.new normals.new tags.new }
{
    let centre = v + 8;
    let ring = put_ring(positions, normals, tags, v, r, tag, b);
    put_vertex(positions, normals, tags, centre, p, q, last, ring)
}
