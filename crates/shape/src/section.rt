// Half-sizes, the eight angles, and the cross-section.
ghost use Rattle.std.specs.Prelude.{◌≡◌, false, ◌+◌, ◌<◌, ◌≤◌};
ghost use Rattle.shape.specs.Ring.{cos_at, sin_at, arrow, in_arrow, half_sizes, profile_of, steep, spoke, spoke_at, spokes_of, point_on, normal_on, ring_over, cross_section};

use crate::{Kind, Profile, Ring, Spoke};
use vectors::Vec3;

// Bits of the cosine and the sine of TAU * k / 8, as the oracle's build machine gives them.
const COS: [u32; 8] = [
    0x3f80_0000,
    0x3f35_04f3,
    0xb33b_bd2e,
    0xbf35_04f3,
    0xbf80_0000,
    0xbf35_04f1,
    0x324c_de2e,
    0x3f35_04f7,
];

const SIN: [u32; 8] = [
    0x0000_0000,
    0x3f35_04f3,
    0x3f80_0000,
    0x3f35_04f3,
    0xb3bb_bd2e,
    0xbf35_04f5,
    0xbf80_0000,
    0xbf35_04ef,
];

pub fn cosine(k: usize) -> f32
    requires { k < 8 }
    ensures { result ≡ cos_at k }
{
    f32::from_bits(COS[k])
}

pub fn sine(k: usize) -> f32
    requires { k < 8 }
    ensures { result ≡ sin_at k }
{
    f32::from_bits(SIN[k])
}

// The half-sizes that a tube has away from an arrow.
pub fn half_sizes(kind: Kind) -> Profile
    ensures { result ≡ half_sizes kind }
{
    match kind {
        Kind::Coil => Profile {
            half_width: 0.25,
            half_height: 0.25,
        },
        Kind::Helix => Profile {
            half_width: 0.2,
            half_height: 1.0,
        },
        Kind::Sheet => Profile {
            half_width: 0.15,
            half_height: 1.0,
        },
    }
}

pub fn in_arrow(kind: Kind, n: usize, i: usize) -> bool
    requires { (i + 2 ≤ n) × (n ≤ 16384) }
    ensures { result ≡ in_arrow kind n i }
{
    match kind {
        Kind::Coil => false,
        Kind::Helix => false,
        Kind::Sheet => i + 2 == n,
    }
}

// A sheet's guide half-size at t of span i.
fn arrow(n: usize, i: usize, t: f32) -> f32
    requires { (i + 2 ≤ n) × (n ≤ 16384) }
    ensures { result ≡ arrow n i t }
{
    let u = i as u16 as f32 + t - (n - 2) as u16 as f32;
    floats::greater_of(1.5 * (1.0 - u), 0.01)
}

pub fn profile(kind: Kind, n: usize, i: usize, t: f32) -> Profile
    requires { (i + 2 ≤ n) × (n ≤ 16384) }
    ensures { result ≡ profile_of kind n i t }
{
    let p = half_sizes(kind);
    if in_arrow(kind, n, i) {
        return Profile {
            half_width: p.half_width,
            half_height: arrow(n, i, t),
        };
    }
    p
}

// The length of the gradient, kept away from zero.
fn steep(nx: f32, ny: f32) -> f32
    ensures { result ≡ steep nx ny }
{
    floats::greater_of(floats::root::square_root(nx * nx + ny * ny), 1e-8)
}

fn leaning(width: f32, height: f32, nx: f32, ny: f32) -> Spoke
    ensures { result ≡ spoke width height nx ny }
{
    let l = steep(nx, ny);
    Spoke {
        width,
        height,
        nx: nx / l,
        ny: ny / l,
    }
}

fn spoke(p: Profile, k: usize) -> Spoke
    requires { k < 8 }
    ensures { result ≡ spoke_at p k }
{
    let c = cosine(k);
    let s = sine(k);
    leaning(
        p.half_width * c,
        p.half_height * s,
        c / p.half_width,
        s / p.half_height,
    )
}

pub fn spokes(p: Profile) -> [Spoke; 8]
    ensures { result ≡ spokes_of p }
{
    let mut out = [spoke(p, 0); 8];
    for k in 0usize..8 {
        out[k] = spoke(p, k);
    }
    out
}

pub fn point_on(center: Vec3, guide: Vec3, binormal: Vec3, s: Spoke) -> Vec3
    ensures { result ≡ point_on center guide binormal s }
{
    center + binormal.scale(s.width) + guide.scale(s.height)
}

pub fn normal_on(guide: Vec3, binormal: Vec3, s: Spoke) -> Vec3
    ensures { result ≡ normal_on guide binormal s }
{
    (binormal.scale(s.nx) + guide.scale(s.ny)).normalised()
}

// A ring on spokes that are at hand.
pub fn ring_over(center: Vec3, guide: Vec3, binormal: Vec3, spokes: [Spoke; 8]) -> Ring
    ensures { result ≡ ring_over center guide binormal spokes }
{
    let mut positions = [Vec3::ZERO; 8];
    let mut normals = [Vec3::ZERO; 8];
    for k in 0usize..8 {
        let s = spokes[k];
        positions[k] = point_on(center, guide, binormal, s);
        normals[k] = normal_on(guide, binormal, s);
    }
    Ring { positions, normals }
}

pub fn cross_section(center: Vec3, guide: Vec3, binormal: Vec3, p: Profile) -> Ring
    ensures { result ≡ cross_section center guide binormal p }
{
    ring_over(center, guide, binormal, spokes(p))
}
