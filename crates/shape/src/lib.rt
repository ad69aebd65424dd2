// The geometry of one sample of a tube, on values: spline, directions, half-sizes, cross-section.
#![tactic(auto)]

pub mod guides;
pub mod section;
pub mod spline;

use vectors::Vec3;

#[derive(Clone, Copy)]
pub enum Kind {
    Coil,
    Helix,
    Sheet,
}

// An Option of a vector in shape, but 01 names this form: 'Enum with case At of three f32 and case Missing'.
#[derive(Drop)]
pub enum Oxygen {
    At(f32, f32, f32),
    Missing,
}

// Half-sizes along the binormal and the guide.
#[derive(Clone, Copy)]
pub struct Profile {
    pub half_width: f32,
    pub half_height: f32,
}

// What one angle of a ring takes from a profile alone, so that a tube computes it once.
#[derive(Clone, Copy)]
pub struct Spoke {
    pub width: f32,
    pub height: f32,
    pub nx: f32,
    pub ny: f32,
}

#[derive(Drop)]
pub struct Ring {
    pub positions: [Vec3; 8],
    pub normals: [Vec3; 8],
}
