// The course of a tube: guides and spline points of its residues, and the frame at each sample.
#![tactic(auto)]

pub mod residues;
pub mod samples;

use vectors::Vec3;

#[derive(Clone, Copy)]
pub struct Frame {
    pub position: Vec3,
    pub tangent: Vec3,
    pub guide: Vec3,
    pub binormal: Vec3,
}
