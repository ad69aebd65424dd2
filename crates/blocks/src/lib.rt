// A binary STL file in blocks, for a program that writes it to a descriptor: the head, and then a thousand facets at a time. What the blocks are stands in
// specs/Blocks, that they make the file in proofs/Demands.
#![tactic(auto)]

ghost use Rattle.std.specs.Prelude.{◌≡◌, ◌+◌, ◌*◌, ◌/◌, ◌≤◌, ◌<◌, length};
ghost use Rattle.lists.specs.Put.{put};
ghost use Rattle.blocks.specs.Blocks.{facets_in, block_at};

use facets::Drawing;

// How many facets block i of a file of t facets has.
fn facets_in(t: usize, i: usize) -> usize
    requires { 1000 * i < t }
    ensures { (result ≡ facets_in t i) × (result ≤ 1000) × (1000 * i + result ≤ t) }
{
    let left = t - 1000 * i;
    if 1000 < left {
        return 1000;
    }
    left
}

// Block i of a mesh's file at the front of lent bytes, and how long it is.
pub fn put_block(block: &mut [u8], d: &Drawing, i: usize) -> usize
    requires { (1000 * i < length d.now.triangles.now / 3) × (50000 ≤ length block.old) }
    ensures { (block.new ≡ put block.old 0 (block_at d.now.positions.now d.now.triangles.now i))
        × (result ≡ length (block_at d.now.positions.now d.now.triangles.now i)) × (result ≤ 50000) }
{
    let n = facets_in(d.triangles.len() / 3, i);
    let from = 3000 * i;
    let to = from + 3 * n;
    let part = Drawing {
        positions: d.positions,
        triangles: &d.triangles[from..to],
    };
    facets::put_facets(block, 0, &part);
    50 * n
}
