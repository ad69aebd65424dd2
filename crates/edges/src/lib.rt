// What a closed triangle list is, and that every tube is one, is mathematics: specs/ and proofs/. The crate's functions are a tube's counts.
#![tactic(auto)]

ghost use Rattle.std.specs.Prelude.{◌≡◌, ◌≤◌};
ghost use Rattle.edges.specs.Tube.{vertex_count, triangle_count};

// The vertices of a tube of n residues: 64n - 54, and none where there is no tube.
pub fn vertex_count(n: usize) -> usize
    requires { n ≤ 65536 }
    ensures { result ≡ vertex_count n }
{
    if n < 2 {
        return 0;
    }
    64 * n - 54
}

// Its triangles: 128n - 112.
pub fn triangle_count(n: usize) -> usize
    requires { n ≤ 65536 }
    ensures { result ≡ triangle_count n }
{
    if n < 2 {
        return 0;
    }
    128 * n - 112
}
