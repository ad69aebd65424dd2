// Writes the triangles of a tube into a lent buffer, in the Rust's order: start cap inward, bands, end cap.
#![tactic(auto)]

ghost use Rattle.std.specs.Prelude.{◌≡◌, [], ◌∷◌, ◌+◌, ◌-◌, ◌*◌, ◌<◌, ◌≤◌, length};
ghost use Rattle.lists.specs.Put.{put};
ghost use Rattle.edges.specs.Tube.{vertex_count, triangle_count, cap_side, cap, band, tube};

// The three corners of a triangle, from place at on.
fn put_corners(out: &mut [u32], at: usize, a: u32, b: u32, c: u32)
    requires { at + 3 ≤ length out.old }
    ensures { out.new ≡ put out.old at (a ∷ b ∷ c ∷ []) }
{
    out[at] = a;
    out[at + 1] = b;
    out[at + 2] = c;
}

// A cap's triangle at one side: this side's vertex i0 and the next side's i1, the other way round where the cap is inward.
fn cap_side(triangles: &mut [u32], at: usize, center: u32, base: u32, k: u32, inward: bool)
    requires at_in_bounds { at + 3 ≤ length triangles.old }
    requires k_bound { (k < 8) × (base + 8 < 4294967296) }
    ensures { triangles.new ≡ put triangles.old at (cap_side 8 inward center base k) }
{
    let i0 = base + k;
    let i1 = base + (k + 1) % 8;
    if inward {
        put_corners(triangles, at, center, i1, i0);
        return;
    }
    put_corners(triangles, at, center, i0, i1);
}

// The cap on the ring that begins at base.
fn emit_cap(triangles: &mut [u32], at: usize, center: u32, base: u32, inward: bool)
    requires at_in_bounds { at + 24 ≤ length triangles.old }
    requires base_bound { base + 8 < 4294967296 }
    ensures { triangles.new ≡ put triangles.old at (cap 8 inward center base) }
{
    for k in 0u32..8 {
        let place = at + k as usize * 3;
        cap_side(triangles, place, center, base, k, inward);
    }
}

// The triangles that one more ring brings: the band between the rings that begin at a and b. (The Rust's function of this name appends the
// ring's vertices too; here those are written apart.)
fn append_ring_and_stitch(triangles: &mut [u32], at: usize, a: u32, b: u32)
    requires at_in_bounds { at + 48 ≤ length triangles.old }
    requires a_bound { (a + 8 < 4294967296) × (b + 8 < 4294967296) }
    ensures { triangles.new ≡ put triangles.old at (band 8 a b) }
{
    for k in 0u32..8 {
        let place = at + k as usize * 6;
        let k1 = (k + 1) % 8;
        let a0 = a + k;
        let a1 = a + k1;
        let b0 = b + k;
        let b1 = b + k1;
        put_corners(triangles, place, a0, b1, b0);
        put_corners(triangles, place + 3, a0, a1, b1);
    }
}

// The triangles of a tube of n residues, whose vertices are numbered from first on. There are 128n - 112 of them, written from place at on, over
// 64n - 54 vertices, within 01's limit of 1,048,576.
pub fn tube_triangles(triangles: &mut [u32], at: usize, first: u32, n: u32)
    requires n_in_bounds { at + 3 * triangle_count n ≤ length triangles.old }
    requires le_n { (2 ≤ n) × (first + vertex_count n ≤ 1048576) }
    ensures { triangles.new ≡ put triangles.old at (tube 8 8 first n) }
{
    let bands = 8 * (n - 1);
    emit_cap(triangles, at, first + 8, first, true);
    let mut place = at + 24;
    let mut a = first;
    let mut b = first + 9;
    for j in 0..bands {
        append_ring_and_stitch(triangles, place, a, b);
        place += 48;
        a = b;
        b += 8;
    }
    emit_cap(triangles, place, b, a, false);
}
