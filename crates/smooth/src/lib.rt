// Smoothing a lent list of vectors in place (02 §3). A pass is over the old list: of what it has overwritten it needs the previous neighbour
// alone, and keeps that.
#![tactic(auto)]

pub mod guides;
pub mod positions;

ghost use Rattle.std.specs.Prelude.{◌≡◌, ◌<◌};
ghost use Rattle.smooth.specs.Pass.{after};

// The residue after i of n; the last is its own.
pub fn after(n: usize, i: usize) -> usize
    requires { i < n }
    ensures { (result ≡ after n i) × (result < n) }
{
    if i + 1 < n {
        return i + 1;
    }
    i
}
