// The vertices of one tube: a capped ring, the rings between, and a capped ring.
ghost use Rattle.std.specs.Prelude.{◌≡◌, [], ◌∷◌, ◌++◌, ℕ, ◌+◌, ◌*◌, ◌-◌, ◌/◌, ◌%◌, ◌<◌, ◌≤◌, length, take, drop};
ghost use Rattle.vectors.specs.Vec.{floats};
ghost use Rattle.lists.specs.Put.{upto};
ghost use Rattle.curve.specs.Residues.{oxygen_at, guides_of, points_of};
ghost use Rattle.curve.specs.Samples.{frame_at, tag_at};
ghost use Rattle.edges.specs.Tube.{vertex_count};
ghost use Rattle.caps.specs.Caps.{end_normal};
ghost use Rattle.rings.specs.Post.{VertexRoom, Wrote, Began};
ghost use Rattle.skin.specs.Tube.{ring_positions, ring_normals, ring_tags, start_normal, skin_positions, skin_normals, positions_of, normals_of, tags_of};
ghost use Rattle.skin.specs.Post.{Course, Residues};

use boxes::{Bounds, begun};
use caps::end_normal;
use curve::residues::lay_course;
use curve::samples::{frame, frame_at, param_at, ring, span, spokes_at, tag_at};
use rings::{put_capped, put_sides};
use shape::guides::between;
use shape::section::{half_sizes, spokes};
use shape::{Kind, Spoke};
use vectors::get_vec;

// A tube of n residues, the first of which is `first`: its spline points and guides, and what a ring of its kind takes from its half-sizes alone.
#[derive(Clone, Copy)]
pub struct Tube<'a> {
    pub points: &'a [f32],
    pub guides: &'a [f32],
    pub n: usize,
    pub kind: Kind,
    pub first: u32,
    pub spokes: [Spoke; 8],
    ghost course: { Course points.now guides.now n first kind spokes },
}

// The first ring and the start's centre. The box begins with the first vertex.
fn start_cap(
    tube: &Tube,
    positions: &mut [f32],
    normals: &mut [f32],
    tags: &mut [u32],
    v: usize,
) -> Bounds
    requires { VertexRoom positions.old normals.old tags.old (v + 9) }
    ensures { Began positions.old normals.old tags.old v
        (ring_positions tube.now.kind tube.now.points.now tube.now.guides.now tube.now.n 0
        ++ floats (frame_at tube.now.points.now tube.now.guides.now tube.now.n 0).position)
        (ring_normals tube.now.kind tube.now.points.now tube.now.guides.now tube.now.n 0
        ++ floats (start_normal tube.now.points.now tube.now.guides.now tube.now.n))
        (ring_tags tube.now.first tube.now.n 0 ++ (tag_at tube.now.first tube.now.n 0 ∷ []))
        result positions.new normals.new tags.new }
{
    let f = frame_at(tube.points, tube.guides, tube.n, 0);
    let r = ring(f, tube.kind, tube.n, 0, tube.spokes);
    let tag = tag_at(tube.first, tube.n, 0);
    let p = f.position;
    let back = f.tangent.scale(-1.0);
    let ps = r.positions;
    let b = begun(ps[0]);
    put_capped(positions, normals, tags, v, r, tag, p, back, tag, b)
}

// The rings of `count` samples, all of one span, from sample `from` on. A span's control points and guides are read once, and what they give
// alone need not be computed at each sample.
fn span_rings(
    tube: &Tube,
    positions: &mut [f32],
    normals: &mut [f32],
    tags: &mut [u32],
    v: usize,
    from: usize,
    count: usize,
    corners: Bounds,
) -> Bounds
    requires room { VertexRoom positions.old normals.old tags.old (v + 8 * count) }
    requires count_bound { (from % 8 + count ≤ 8) × (from / 8 + 1 < tube.now.n) }
    ensures { Wrote corners positions.old normals.old tags.old v
        (upto (λ (j : ℕ). ring_positions tube.now.kind tube.now.points.now tube.now.guides.now tube.now.n (from + j)) count)
        (upto (λ (j : ℕ). ring_normals tube.now.kind tube.now.points.now tube.now.guides.now tube.now.n (from + j)) count)
        (upto (λ (j : ℕ). ring_tags tube.now.first tube.now.n (from + j)) count)
        result positions.new normals.new tags.new }
{
    let i = from / 8;
    let q = span(tube.points, tube.n, i);
    let a = get_vec(tube.guides, i);
    let b = get_vec(tube.guides, i + 1);
    let mut at = v;
    let mut bounds = corners;
    for j in 0..count {
        let s = from + j;
        let t = param_at(tube.n, s);
        let f = frame(q, t, between(a, b, t));
        let own = spokes_at(tube.kind, tube.n, s, tube.spokes);
        bounds = put_sides(
            positions,
            normals,
            tags,
            at,
            f.position,
            f.guide,
            f.binormal,
            own,
            tag_at(tube.first, tube.n, s),
            bounds,
        );
        at += 8;
    }
    bounds
}

// The rings between the first and the last, span by span.
fn later_rings(
    tube: &Tube,
    positions: &mut [f32],
    normals: &mut [f32],
    tags: &mut [u32],
    v: usize,
    corners: Bounds,
) -> Bounds
    requires { VertexRoom positions.old normals.old tags.old (v + 8 * (8 * (tube.now.n - 1) - 1)) }
    ensures { Wrote corners positions.old normals.old tags.old v
        (upto (λ (s : ℕ). ring_positions tube.now.kind tube.now.points.now tube.now.guides.now tube.now.n (s + 1)) (8 * (tube.now.n - 1) - 1))
        (upto (λ (s : ℕ). ring_normals tube.now.kind tube.now.points.now tube.now.guides.now tube.now.n (s + 1)) (8 * (tube.now.n - 1) - 1))
        (upto (λ (s : ℕ). ring_tags tube.now.first tube.now.n (s + 1)) (8 * (tube.now.n - 1) - 1))
        result positions.new normals.new tags.new }
{
    let total = 8 * (tube.n - 1) - 1;
    let mut s = 0usize;
    let mut at = v;
    let mut bounds = corners;
    // by 7 and then by 8: a `for` would count spans, and each turn would have to find its samples again
    while s < total {
        let from = s + 1;
        let count = 8 - from % 8;
        bounds = span_rings(tube, positions, normals, tags, at, from, count, bounds);
        s += count;
        at += 8 * count;
    }
    bounds
}

// The last ring and the end's centre.
fn end_cap(
    tube: &Tube,
    positions: &mut [f32],
    normals: &mut [f32],
    tags: &mut [u32],
    v: usize,
    corners: Bounds,
) -> Bounds
    requires { VertexRoom positions.old normals.old tags.old (v + 9) }
    ensures { Wrote corners positions.old normals.old tags.old v
        (ring_positions tube.now.kind tube.now.points.now tube.now.guides.now tube.now.n (8 * (tube.now.n - 1))
        ++ floats (frame_at tube.now.points.now tube.now.guides.now tube.now.n (8 * (tube.now.n - 1))).position)
        (ring_normals tube.now.kind tube.now.points.now tube.now.guides.now tube.now.n (8 * (tube.now.n - 1))
        ++ floats (end_normal tube.now.points.now tube.now.guides.now tube.now.n))
        (ring_tags tube.now.first tube.now.n (8 * (tube.now.n - 1)) ++ ((tube.now.first + (tube.now.n - 1)) ∷ []))
        result positions.new normals.new tags.new }
{
    let s = 8 * (tube.n - 1);
    let f = frame_at(tube.points, tube.guides, tube.n, s);
    let r = ring(f, tube.kind, tube.n, s, tube.spokes);
    let tag = tag_at(tube.first, tube.n, s);
    let p = f.position;
    let normal = end_normal(tube.points, tube.n, f);
    let last = tube.first + (tube.n - 1) as u32;
    put_capped(
        positions, normals, tags, v, r, tag, p, normal, last, corners,
    )
}

// All vertices over spline points and guides. What a ring takes from its half-sizes alone is computed once.
fn skin(
    tube: &Tube,
    positions: &mut [f32],
    normals: &mut [f32],
    tags: &mut [u32],
    v: usize,
) -> Bounds
    requires { VertexRoom positions.old normals.old tags.old (v + vertex_count tube.now.n) }
    ensures { Began positions.old normals.old tags.old v
        (skin_positions tube.now.kind tube.now.points.now tube.now.guides.now tube.now.n)
        (skin_normals tube.now.kind tube.now.points.now tube.now.guides.now tube.now.n)
        (tags_of tube.now.first tube.now.n)
        result positions.new normals.new tags.new }
{
    let later = v + 9;
    let end = later + 8 * (8 * (tube.n - 1) - 1);
    let start = start_cap(tube, positions, normals, tags, v);
    let rings = later_rings(tube, positions, normals, tags, later, start);
    end_cap(tube, positions, normals, tags, end, rings)
}

// One tube, from vertex v on, and the corners of its box. `course` holds 6n floats: on entry n C-alphas and then n oxygens, with a flag for each that is not 0 where there
// is one; on exit n spline points and then n guides.
pub fn tube_vertices(
    flags: &[u32],
    course: &mut [f32],
    positions: &mut [f32],
    normals: &mut [f32],
    tags: &mut [u32],
    n: usize,
    kind: Kind,
    v: usize,
    first: u32,
) -> Bounds
    requires { Residues flags.now course.old n first × VertexRoom positions.old normals.old tags.old (v + vertex_count n) }
    ensures { Began positions.old normals.old tags.old v
        (positions_of kind (take (3 * n) course.old) (oxygen_at flags.now (drop (3 * n) course.old)) n)
        (normals_of kind (take (3 * n) course.old) (oxygen_at flags.now (drop (3 * n) course.old)) n)
        (tags_of first n)
        result positions.new normals.new tags.new
        × (course.new ≡ points_of kind (take (3 * n) course.old) n
        ++ guides_of kind (take (3 * n) course.old) (oxygen_at flags.now (drop (3 * n) course.old)) n) }
{
    let m = 3 * n;
    let spokes = spokes(half_sizes(kind));
    lay_course(flags, course, n, kind);
    let view = &course[..];
    let tube = Tube {
        points: &view[..m],
        guides: &view[m..],
        n,
        kind,
        first,
        spokes,
    };
    skin(&tube, positions, normals, tags, v)
}
