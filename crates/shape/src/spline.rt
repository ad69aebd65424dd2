// The spline between the second and the third of four points.
ghost use Rattle.std.specs.Prelude.{◌≡◌};
ghost use Rattle.shape.specs.Spline.{bend, twist, catmull_rom, catmull_rom_tangent, of4};

use vectors::Vec3;

// The weights of t² and t³, which the curve and its derivative share.
fn bend(p: [Vec3; 4]) -> Vec3
    ensures { result ≡ of4 bend p }
{
    p[0].scale(2.0) - p[1].scale(5.0) + p[2].scale(4.0) - p[3]
}

fn twist(p: [Vec3; 4]) -> Vec3
    ensures { result ≡ of4 twist p }
{
    p[0].scale(-1.0) + p[1].scale(3.0) - p[2].scale(3.0) + p[3]
}

// Twice the spline at t: whoever calls it halves.
pub fn catmull_rom(p: [Vec3; 4], t: f32) -> Vec3
    ensures { result ≡ of4 catmull_rom p t }
{
    let p0 = p[0];
    let p1 = p[1];
    let p2 = p[2];
    let t2 = t * t;
    let b = bend(p).scale(t2);
    let c = twist(p).scale(t2 * t);
    p1.scale(2.0) + (p2 - p0).scale(t) + b + c
}

// The derivative of that doubled curve at t.
pub fn catmull_rom_tangent(p: [Vec3; 4], t: f32) -> Vec3
    ensures { result ≡ of4 catmull_rom_tangent p t }
{
    let p0 = p[0];
    let p2 = p[2];
    let t2 = t * t;
    let b = bend(p).scale(2.0 * t);
    let c = twist(p).scale(3.0 * t2);
    p2 - p0 + b + c
}
