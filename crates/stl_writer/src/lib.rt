// Writes a mesh as a binary STL file into lent bytes (02 §4). Nothing is demanded of whoever calls it; what it promises, `WritesStl`, stands in specs/Call.
#![tactic(auto)]

ghost use Rattle.buffers.specs.Outs.{outs};
ghost use Rattle.stl_writer.specs.Call.{WritesStl};

use buffers::Counts;
use facets::Drawing;
use job::Refusal;

// Of six mesh buffers and the counts K, V and T that came with them.
pub fn write_stl(
    positions: &[f32],
    normals: &[f32],
    tags: &[u32],
    triangles: &[u32],
    tubes: &[u32],
    boxes: &[f32],
    c: Counts,
    out: &mut [u8],
) -> Result<usize, Refusal>
    ensures { WritesStl 8 8 (outs positions.now normals.now tags.now triangles.now tubes.now boxes.now) c out.old result out.new }
{
    if !consistency::is_consistent(
        c,
        positions.len(),
        normals.len(),
        tags.len(),
        triangles,
        tubes,
        boxes.len(),
    ) {
        return Err(Refusal::Inconsistent);
    }
    let t = c.triangles;
    let size = 84 + 50 * t;
    if out.len() < size {
        return Err(Refusal::NoStlRoom(size));
    }
    facets::put_head(out, t as u32);
    let mesh = Drawing {
        positions,
        triangles: &triangles[..3 * t],
    };
    facets::put_facets(out, 84, &mesh);
    Ok(size)
}
