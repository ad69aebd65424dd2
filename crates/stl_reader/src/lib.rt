// Reads a binary STL file (02 §4): lists the corners and the normals of its facets in two lent buffers. Nothing is demanded of whoever calls it; what it
// promises, `ReadsStl`, stands in specs/Call.
#![tactic(auto)]

ghost use Rattle.stl_reader.specs.Call.{lists, ReadsStl};

use job::Refusal;

pub fn read_stl(file: &[u8], corners: &mut [f32], normals: &mut [f32]) -> Result<usize, Refusal>
    ensures { ReadsStl file.now (lists corners.old normals.old) result
        (lists corners.new normals.new) }
{
    if file.len() < 84 {
        return Err(Refusal::NotStl);
    }
    let t = little::le32_at(file, 80);
    if file.len() != 84 + 50 * t {
        return Err(Refusal::NotStl);
    }
    if corners.len() < 9 * t {
        return Err(Refusal::NoStlRoom(t));
    }
    if normals.len() < 3 * t {
        return Err(Refusal::NoStlRoom(t));
    }
    facets::list_facets(file, t, corners, normals);
    Ok(t)
}
