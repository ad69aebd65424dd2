// What the plan call answers where it does not refuse. The crate has no code but this type: specs/Calls says what the calls promise, and
// proofs/Demands what follows from that.
#![tactic(auto)]

use buffers::Counts;
use walk::Five;

// The counts of a job's mesh, and the five words of the tube that was asked for.
#[derive(Clone, Copy)]
pub struct Plan {
    pub counts: Counts,
    pub words: Five,
}
