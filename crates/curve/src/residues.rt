// Guides and spline points of a tube's n residues, in one lent slice of 6n floats: on entry n C-alphas and then n oxygens, on exit n
// spline points and then n guides.
ghost use Rattle.std.specs.Prelude.{◌≡◌, ◌++◌, ◌+◌, ◌*◌, ◌-◌, ◌<◌, ◌≤◌, length, take, drop};
ghost use Rattle.smooth.specs.Pass.{vectors, Smoothable};
ghost use Rattle.curve.specs.Residues.{oxygen_at, tangent_at, raw_at, signed, sum_of, same, settled, guides_of, points_of};

use shape::guides::{agreeing, raw_guide, tangent_of};
use shape::{Kind, Oxygen};
use smooth::after;
use smooth::guides::smooth_guides;
use smooth::positions::smooth_positions;
use vectors::{Vec3, get_vec, put_vec};

fn oxygen_at(flags: &[u32], at: &[f32], i: usize) -> Oxygen
    requires { (i < length flags.now) × (3 * i + 3 ≤ length at.now) }
    ensures { result ≡ oxygen_at flags.now at.now i }
{
    if flags[i] == 0 {
        return Oxygen::Missing;
    }
    let v = get_vec(at, i);
    Oxygen::At(v.x, v.y, v.z)
}

fn tangent_at(ca: &[f32], n: usize, i: usize) -> Vec3
    requires { (i < n) × (3 * n ≤ length ca.now) }
    ensures { result ≡ tangent_at ca.now n i }
{
    tangent_of(get_vec(ca, i.saturating_sub(1)), get_vec(ca, after(n, i)))
}

fn raw_of(ca: &[f32], flags: &[u32], at: &[f32], n: usize, i: usize) -> Vec3
    requires { (i < n) × (3 * n ≤ length ca.now) × (n ≤ length flags.now) × (3 * n ≤ length at.now) }
    ensures { result ≡ raw_at ca.now (oxygen_at flags.now at.now) n i }
{
    raw_guide(
        get_vec(ca, i),
        oxygen_at(flags, at, i),
        tangent_at(ca, n, i),
    )
}

// The guide of residue i before any turn, from a course whose oxygen i is still there.
fn raw_at(flags: &[u32], course: &[f32], n: usize, i: usize) -> Vec3
    requires { (i < n) × (n ≤ length flags.now) × (length course.now ≡ 6 * n) }
    ensures { result ≡ raw_at (take (3 * n) course.now) (oxygen_at flags.now (drop (3 * n) course.now)) n i }
{
    let m = 3 * n;
    raw_of(&course[..m], flags, &course[m..], n, i)
}

// The guides, each turned to agree with the one before, over the oxygens.
fn signed_guides(flags: &[u32], course: &mut [f32], n: usize)
    requires { (1 ≤ n) × (n ≤ length flags.now) × (length course.old ≡ 6 * n) }
    ensures { course.new ≡ take (3 * n) course.old
        ++ signed (take (3 * n) course.old) (oxygen_at flags.now (drop (3 * n) course.old)) n }
{
    let mut prev = raw_at(flags, course, n, 0);
    for i in 0..n - 1 {
        put_vec(course, 3 * n + 3 * i, prev);
        prev = agreeing(prev, raw_at(flags, course, n, i + 1));
    }
    put_vec(course, 3 * n + 3 * (n - 1), prev);
}

fn sum(g: &[f32], n: usize) -> Vec3
    requires { 3 * n ≤ length g.now }
    ensures { result ≡ sum_of g.now n }
{
    let mut v = Vec3::ZERO;
    for i in 0..n {
        v = v + get_vec(g, i);
    }
    v
}

fn fill(g: &mut [f32], n: usize, v: Vec3)
    requires { length g.old ≡ 3 * n }
    ensures { g.new ≡ same v n }
{
    for i in 0..n {
        put_vec(g, 3 * i, v);
    }
}

fn average_guides(g: &mut [f32])
    requires { Smoothable g.old }
    ensures { g.new ≡ settled Kind.Sheet (vectors g.old) g.old }
{
    let n = g.len() / 3;
    let v = sum(g, n).normalised();
    fill(g, n, v);
}

fn settle(g: &mut [f32], kind: Kind)
    requires { Smoothable g.old }
    ensures { g.new ≡ settled kind (vectors g.old) g.old }
{
    match kind {
        Kind::Coil => smooth_guides(g, 1),
        Kind::Helix => smooth_guides(g, 3),
        Kind::Sheet => average_guides(g),
    }
}

fn straighten(points: &mut [f32], kind: Kind)
    requires { Smoothable points.old }
    ensures { points.new ≡ points_of kind points.old (vectors points.old) }
{
    match kind {
        Kind::Coil => {}
        Kind::Helix => {}
        Kind::Sheet => {
            smooth_positions(points, 3);
        }
    }
}

// The tube's guides, over its oxygens.
fn lay_guides(flags: &[u32], course: &mut [f32], n: usize, kind: Kind)
    requires { (2 ≤ n) × (n ≤ length flags.now) × (length course.old ≡ 6 * n) }
    ensures { course.new ≡ take (3 * n) course.old
        ++ guides_of kind (take (3 * n) course.old) (oxygen_at flags.now (drop (3 * n) course.old)) n }
{
    let m = 3 * n;
    signed_guides(flags, course, n);
    settle(&mut course[m..], kind);
}

// Both lists of a tube, over what they are made from. Guides come first, since they need the C-alphas as they were.
pub fn lay_course(flags: &[u32], course: &mut [f32], n: usize, kind: Kind)
    requires { (2 ≤ n) × (n ≤ length flags.now) × (length course.old ≡ 6 * n) }
    ensures { course.new ≡ points_of kind (take (3 * n) course.old) n
        ++ guides_of kind (take (3 * n) course.old) (oxygen_at flags.now (drop (3 * n) course.old)) n }
{
    let m = 3 * n;
    lay_guides(flags, course, n, kind);
    straighten(&mut course[..m], kind);
}
