// Directions: tangents, guides, and their smoothing.
ghost use Rattle.std.specs.Prelude.{◌≡◌};
ghost use Rattle.shape.specs.Guide.{helper, fallback_perp, across, upright, compute_guide, raw_guide, or_up, tangent_of, directed, agreeing, weighted, smooth_guide, smooth_position, between};

use crate::Oxygen;
use vectors::Vec3;

// The axis that is crossed with v.
fn helper(v: Vec3) -> Vec3
    ensures { result ≡ helper v }
{
    if floats::magnitude_of(v.z) < 0.9 {
        return Vec3::Z_AXIS;
    }
    Vec3::Y_AXIS
}

pub fn fallback_perp(v: Vec3) -> Vec3
    ensures { result ≡ fallback_perp v }
{
    v.cross(helper(v)).normalised()
}

fn across(v: Vec3, tangent: Vec3) -> Vec3
    ensures { result ≡ across v tangent }
{
    v - tangent.scale(v.dot(tangent))
}

// The part of v across the tangent, as a unit vector, or the fallback where that is shorter than a limit.
pub fn upright(v: Vec3, tangent: Vec3, limit: f32) -> Vec3
    ensures { result ≡ upright v tangent limit }
{
    let perp = across(v, tangent);
    let l = perp.length();
    if l < limit {
        return fallback_perp(tangent);
    }
    perp.normalised_by(l)
}

// The Cα→O direction, made perpendicular to the tangent.
fn compute_guide(ca: Vec3, o: Vec3, tangent: Vec3) -> Vec3
    ensures { result ≡ compute_guide ca o tangent }
{
    upright((o - ca).normalised(), tangent, 1e-6)
}

pub fn raw_guide(ca: Vec3, o: Oxygen, tangent: Vec3) -> Vec3
    ensures { result ≡ raw_guide ca o tangent }
{
    match o {
        Oxygen::At(x, y, z) => compute_guide(ca, Vec3 { x, y, z }, tangent),
        Oxygen::Missing => fallback_perp(tangent),
    }
}

// A direction too short to be one becomes the y axis.
fn or_up(v: Vec3) -> Vec3
    ensures { result ≡ or_up v }
{
    if v.length() < 1e-8 {
        return Vec3::Y_AXIS;
    }
    v
}

// A residue's tangent, from its neighbours' positions.
pub fn tangent_of(before: Vec3, after: Vec3) -> Vec3
    ensures { result ≡ tangent_of before after }
{
    or_up((after - before).normalised())
}

// A sample's tangent, from the spline's derivative.
pub fn directed(v: Vec3) -> Vec3
    ensures { result ≡ directed v }
{
    let l = v.length();
    if l < 1e-8 {
        return Vec3::Y_AXIS;
    }
    v.normalised_by(l)
}

pub fn agreeing(before: Vec3, g: Vec3) -> Vec3
    ensures { result ≡ agreeing before g }
{
    if g.dot(before) < 0.0 {
        return g.scale(-1.0);
    }
    g
}

fn weighted(a: Vec3, b: Vec3, c: Vec3) -> Vec3
    ensures { result ≡ weighted a b c }
{
    a + b.scale(2.0) + c
}

pub fn smooth_guide(a: Vec3, b: Vec3, c: Vec3) -> Vec3
    ensures { result ≡ smooth_guide a b c }
{
    let sum = weighted(a, b, c);
    let l = sum.length();
    if l < 1e-8 {
        return b;
    }
    sum.scale(1.0 / l)
}

pub fn smooth_position(a: Vec3, b: Vec3, c: Vec3) -> Vec3
    ensures { result ≡ smooth_position a b c }
{
    weighted(a, b, c).scale(0.25)
}

pub fn between(a: Vec3, b: Vec3, t: f32) -> Vec3
    ensures { result ≡ between a b t }
{
    a + (b - a).scale(t)
}
