// Lent scratch words: zeros in them. What tables there hold is said by Filled, and what stays by Kept.
#![tactic(auto)]

ghost use Rattle.std.specs.Prelude.{◌+◌, ◌≤◌, length};
ghost use Rattle.scratch.specs.Scratch.{Filled};

// Zeros in n places from `from` on.
pub fn clear(t: &mut [u32], from: usize, n: usize)
    requires { from + n ≤ length t.old }
    ensures { Filled (λ r. 0) from n t.old t.new }
{
    t[from..from + n].fill(0);
}
