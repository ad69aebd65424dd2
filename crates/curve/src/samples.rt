// The samples of a tube: control points, parameter, frame, ring, tag.
ghost use Rattle.std.specs.Prelude.{◌≡◌, ◌+◌, ◌*◌, ◌-◌, ◌^◌, ◌<◌, ◌≤◌, length};
ghost use Rattle.shape.specs.Ring.{half_sizes, profile_of, spokes_of};
ghost use Rattle.curve.specs.Samples.{before_of, after_of, span_of, span_at, param_at, frame_of, frame_at, ring_from, tag_at};

use crate::Frame;
use shape::guides::{between, directed, upright};
use shape::section::{cross_section, in_arrow, profile, ring_over};
use shape::spline::{catmull_rom, catmull_rom_tangent};
use shape::{Kind, Ring, Spoke};
use vectors::{Vec3, get_vec};

fn before(p: &[f32], i: usize, p1: Vec3, p2: Vec3) -> Vec3
    requires { 3 * i + 3 ≤ length p.now }
    ensures { result ≡ before_of p.now i p1 p2 }
{
    if i == 0 {
        return p1 + (p1 - p2);
    }
    get_vec(p, i - 1)
}

fn after(p: &[f32], n: usize, i: usize, p1: Vec3, p2: Vec3) -> Vec3
    requires { (3 * n ≤ length p.now) × (i + 2 ≤ n) }
    ensures { result ≡ after_of p.now n i p1 p2 }
{
    if i + 2 == n {
        return p2 + (p2 - p1);
    }
    get_vec(p, i + 2)
}

// The four control points of span i, extended linearly at both ends.
pub fn span(p: &[f32], n: usize, i: usize) -> [Vec3; 4]
    requires { (3 * n ≤ length p.now) × (i + 2 ≤ n) }
    ensures { result ≡ span_of p.now n i }
{
    let p1 = get_vec(p, i);
    let p2 = get_vec(p, i + 1);
    let p0 = before(p, i, p1, p2);
    let p3 = after(p, n, i, p1, p2);
    [p0, p1, p2, p3]
}

pub fn span_at(n: usize, s: usize) -> usize
    requires { (2 ≤ n) × (s ≤ 8 * (n - 1)) }
    ensures { (result ≡ span_at n s) × (result + 2 ≤ n) }
{
    if s / 8 + 1 < n {
        return s / 8;
    }
    n - 2
}

pub fn param_at(n: usize, s: usize) -> f32
    requires { (2 ≤ n) × (s ≤ 8 * (n - 1)) }
    ensures { result ≡ param_at n s }
{
    if s / 8 + 1 < n {
        return ((s % 8) as u16) as f32 / 8.0;
    }
    1.0
}

// The frame at t between the control points q, where g is the guide there before it is made upright.
pub fn frame(q: [Vec3; 4], t: f32, g: Vec3) -> Frame
    ensures { result ≡ frame_of q t g }
{
    let position = catmull_rom(q, t).scale(0.5);
    let direction = directed(catmull_rom_tangent(q, t));
    let guide = upright(g, direction, 1e-8);
    let binormal = direction.cross(guide).normalised();
    Frame {
        position,
        tangent: direction,
        guide,
        binormal,
    }
}

pub fn frame_at(p: &[f32], g: &[f32], n: usize, s: usize) -> Frame
    requires { (3 * n ≤ length p.now) × (3 * n ≤ length g.now) × (2 ≤ n) × (s ≤ 8 * (n - 1)) }
    ensures { result ≡ frame_at p.now g.now n s }
{
    let i = span_at(n, s);
    let t = param_at(n, s);
    frame(
        span(p, n, i),
        t,
        between(get_vec(g, i), get_vec(g, i + 1), t),
    )
}

// The ring around the frame of sample s. Only in an arrow do the spokes differ from those that a tube has everywhere else.
pub fn ring(f: Frame, kind: Kind, n: usize, s: usize, spokes: [Spoke; 8]) -> Ring
    requires { (2 ≤ n) × (n ≤ 16384) × (s ≤ 8 * (n - 1)) × (spokes ≡ spokes_of (half_sizes kind)) }
    ensures { result ≡ ring_from f kind n s }
{
    let i = span_at(n, s);
    let c = f.position;
    let g = f.guide;
    let b = f.binormal;
    if in_arrow(kind, n, i) {
        return cross_section(c, g, b, profile(kind, n, i, param_at(n, s)));
    }
    ring_over(c, g, b, spokes)
}

// The spokes of sample s: those of its kind, but in a sheet's arrow its own.
pub fn spokes_at(kind: Kind, n: usize, s: usize, spokes: [Spoke; 8]) -> [Spoke; 8]
    requires { (2 ≤ n) × (n ≤ 16384) × (s ≤ 8 * (n - 1)) × (spokes ≡ spokes_of (half_sizes kind)) }
    ensures { result ≡ spokes_of (profile_of kind n (span_at n s) (param_at n s)) }
{
    let i = span_at(n, s);
    if in_arrow(kind, n, i) {
        return shape::section::spokes(profile(kind, n, i, param_at(n, s)));
    }
    spokes
}

pub fn tag_at(first: u32, n: usize, s: usize) -> u32
    requires { (2 ≤ n) × (s ≤ 8 * (n - 1)) × (first + n < 2 ^ 32) }
    ensures { result ≡ tag_at first n s }
{
    let i = span_at(n, s) as u32;
    if param_at(n, s) >= 0.5 {
        return first + i + 1;
    }
    first + i
}
