// Whether mesh buffers that a caller hands over are a mesh's (02 §4; §12 asks the same). What that means stands in specs/Consistent; nothing is demanded of
// the caller, so no count of theirs is multiplied before it is known to be small.
#![tactic(auto)]

ghost use Rattle.std.specs.Prelude.{◌≡◌, ◌+◌, ◌-◌, ◌*◌, ◌%◌, ◌≤◌, ◌<◌, cond, ◌&&◌, leb, ltb, length};
ghost use Rattle.buffers.specs.Outs.{sizes};
ghost use Rattle.consistency.specs.Consistent.{record_fits, corners_in, tubes_fit, consistent_in};

use buffers::Counts;

// Whether the record of tube i is right, where so many vertices and triangles stand before it.
fn record_fits(tubes: &[u32], vertex: usize, triangle: usize, i: usize) -> bool
    requires { 5 * i + 5 ≤ length tubes.now }
    ensures { result ≡ record_fits tubes.now vertex triangle i }
{
    let at = 5 * i;
    if 2 < tubes[at] {
        return false;
    }
    if tubes[at + 2] < 2 {
        return false;
    }
    if 16384 < tubes[at + 2] {
        return false;
    }
    if tubes[at + 3] as usize != vertex {
        return false;
    }
    tubes[at + 4] as usize == triangle
}

// How far a corner is behind the vertex low. One below it comes round, as words do, to more than any tube is long.
fn distance(c: u32, low: u32) -> u32
    ensures { result ≡ (c + 4294967296 - low) % 4294967296 }
{
    c.wrapping_sub(low)
}

// 1 where a corner is none of so many vertices from low on, else 0.
fn outside(c: u32, low: u32, span: u32) -> u32
    requires { low + span ≤ 4294967296 }
    ensures { (result ≡ cond (leb low c && ltb c (low + span)) 0 1) × (result ≤ 1) }
{
    if distance(c, low) < span {
        return 0;
    }
    1
}

// Whether every corner is one of so many vertices from low on. Those that are not are counted: a loop with no way out is done four corners at a time.
fn corners_in(corners: &[u32], low: u32, span: u32) -> bool
    requires { (low + span ≤ 4294967296) × (length corners.now < 4294967296) }
    ensures { result ≡ corners_in low (low + span) corners.now }
{
    let mut lost = 0u32;
    for i in 0..corners.len() {
        lost += outside(corners[i], low, span);
    }
    lost == 0
}

// The tubes one after the other: each begins where those before it end, and the last ends with V and T.
fn tubes_fit(c: Counts, triangles: &[u32], tubes: &[u32]) -> bool
    requires { (5 * c.tubes ≤ length tubes.now) × (3 * c.triangles ≤ length triangles.now) × (c.vertices < 4294967296) }
    ensures { result ≡ tubes_fit 8 8 tubes.now triangles.now c }
{
    let k = c.tubes;
    let all = c.vertices;
    let most = c.triangles;
    let mut vertex = 0;
    let mut triangle = 0;
    for i in 0..k {
        if !record_fits(tubes, vertex, triangle, i) {
            return false;
        }
        let n = tubes[5 * i + 2] as usize;
        let end = triangle + edges::triangle_count(n);
        if most < end {
            return false;
        }
        let span = edges::vertex_count(n);
        let past = vertex + span;
        if all < past {
            return false;
        }
        let own = &triangles[3 * triangle..3 * end];
        if !corners_in(own, vertex as u32, span as u32) {
            return false;
        }
        vertex = past;
        triangle = end;
    }
    if vertex != c.vertices {
        return false;
    }
    triangle == most
}

// Whether buffers of these lengths, of which two are looked at, are consistent for K, V and T.
pub fn is_consistent(
    c: Counts,
    positions: usize,
    normals: usize,
    tags: usize,
    triangles: &[u32],
    tubes: &[u32],
    boxes: usize,
) -> bool
    ensures { result ≡ consistent_in 8 8 (sizes positions normals tags (length triangles.now) (length tubes.now) boxes)
        tubes.now triangles.now c }
{
    if buffers::is_tight(
        c,
        positions,
        normals,
        tags,
        triangles.len(),
        tubes.len(),
        boxes,
    ) {
        return false;
    }
    if 1048576 < c.vertices {
        return false;
    }
    tubes_fit(c, triangles, tubes)
}
