// The six output buffers of a mesh, and whether they have room for it. What they are stands in specs/Outs.
#![tactic(auto)]

ghost use Rattle.std.specs.Prelude.{◌≡◌};
ghost use Rattle.buffers.specs.Outs.{sizes, tight};

// K, V and T.
#[derive(Clone, Copy)]
pub struct Counts {
    pub tubes: usize,
    pub vertices: usize,
    pub triangles: usize,
}

// Whether some buffer of these lengths is too short for a mesh of these counts. They may be any numbers, a caller's own too, so the lengths are divided and
// no count is multiplied.
pub fn is_tight(
    c: Counts,
    positions: usize,
    normals: usize,
    tags: usize,
    triangles: usize,
    records: usize,
    boxes: usize,
) -> bool
    ensures { result ≡ tight c (sizes positions normals tags triangles records boxes) }
{
    if positions / 3 < c.vertices {
        return true;
    }
    if normals / 3 < c.vertices {
        return true;
    }
    if tags < c.vertices {
        return true;
    }
    if triangles / 3 < c.triangles {
        return true;
    }
    if records / 5 < c.tubes {
        return true;
    }
    boxes / 6 < c.tubes
}
