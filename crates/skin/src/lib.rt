// The vertices of one tube, written to lent buffers.
#![tactic(auto)]

pub mod tube;
