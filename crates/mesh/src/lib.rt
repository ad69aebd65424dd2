// One tube into the lent buffers: positions, normals, tags, triangles, its five words and its box.
#![tactic(auto)]

ghost use Rattle.std.specs.Prelude.{◌≡◌, ◌++◌, [], ◌∷◌, ◌+◌, ◌*◌, ◌-◌, ◌≤◌, ◌<◌, length};
ghost use Rattle.lists.specs.Put.{put};
ghost use Rattle.protein.specs.Layout.{Whole};
ghost use Rattle.protein.specs.Places.{place_of};
ghost use Rattle.buffers.specs.Outs.{Room, lends, held, holds};
ghost use Rattle.mesh.specs.Outs.{written_by, Atoms};
ghost use Rattle.mesh.specs.Mesh.{kind_of, spot_of, spots};
ghost use Rattle.edges.specs.Tube.{vertex_count, triangle_count};

use protein::Head;
use shape::Kind;
use vectors::{Vec3, put_vec};

// A tube's kind by its number in the job.
fn kind_of(kind: usize) -> Kind
    ensures { result ≡ kind_of kind }
{
    if kind == 0 {
        return Kind::Coil;
    }
    if kind == 1 {
        return Kind::Helix;
    }
    Kind::Sheet
}

// The position of atom a, counted from 1. A missing oxygen has zeros in the scratch: they are never read as a position.
fn spot(b: &[u8], h: Head, a: usize) -> Vec3
    requires { Whole b.now h × (a ≤ h.atoms) }
    ensures { result ≡ spot_of (place_of b.now h) a }
{
    if a == 0 {
        return Vec3::ZERO;
    }
    protein::place(b, h, a)
}

// The positions of a list of atoms, three floats each, from place at on.
fn load(b: &[u8], h: Head, atoms: &[u32], course: &mut [f32], at: usize)
    requires { Whole b.now h × Atoms h.atoms atoms.now × (at + 3 * length atoms.now ≤ length course.old) }
    ensures { course.new ≡ put course.old at (spots (place_of b.now h) atoms.now) }
{
    let n = atoms.len();
    for i in 0..n {
        put_vec(course, at + 3 * i, spot(b, h, atoms[i] as usize));
    }
}

// The C-alphas of a tube, and then its oxygens: what its course starts from.
fn load_course(b: &[u8], h: Head, alphas: &[u32], oxygens: &[u32], course: &mut [f32])
    requires whole { Whole b.now h × Atoms h.atoms alphas.now × Atoms h.atoms oxygens.now }
    requires alphas_len_bound { (length alphas.now ≤ 16384) × (length oxygens.now ≡ length alphas.now) × (length course.old ≡ 6 * length alphas.now) }
    ensures { course.new ≡ spots (place_of b.now h) alphas.now ++ spots (place_of b.now h)
        oxygens.now }
{
    load(b, h, alphas, course, 0);
    load(b, h, oxygens, course, 3 * alphas.len());
}

// The five words of a tube.
fn put_five(tubes: &mut [u32], at: usize, kind: u32, first: u32, n: u32, v: u32, t: u32)
    requires { at + 5 ≤ length tubes.old }
    ensures { tubes.new ≡ put tubes.old at (kind ∷ first ∷ n ∷ v ∷ t ∷ []) }
{
    tubes[at] = kind;
    tubes[at + 1] = first;
    tubes[at + 2] = n;
    tubes[at + 3] = v;
    tubes[at + 4] = t;
}

// One tube, whose C-alphas and oxygens the two parts of the tables name, where k tubes, v vertices and t triangles stand before it.
pub fn write_tube(
    b: &[u8],
    h: Head,
    kind: usize,
    first: u32,
    alphas: &[u32],
    oxygens: &[u32],
    k: usize,
    v: usize,
    t: usize,
    course: &mut [f32],
    positions: &mut [f32],
    normals: &mut [f32],
    tags: &mut [u32],
    triangles: &mut [u32],
    tubes: &mut [u32],
    boxes: &mut [f32],
)
    requires whole { Whole b.now h × Atoms h.atoms alphas.now × Atoms h.atoms oxygens.now × (kind < 256) × (first < 65536) }
    requires in_bounds { (2 ≤ length alphas.now) × (length alphas.now ≤ 16384) × (length oxygens.now ≡ length alphas.now)
        × (length course.old ≡ 6 * length alphas.now) }
    requires alphas_bound { (v + vertex_count (length alphas.now) ≤ 1048576) × (t ≤ 2 * v)
        × Room (k + 1) (v + vertex_count (length alphas.now)) (t + triangle_count (length alphas.now))
        (lends positions normals tags triangles tubes boxes) }
    ensures { holds positions normals tags triangles tubes boxes
        ≡ written_by (place_of b.now h) kind first alphas.now oxygens.now k v t
        (held positions normals tags triangles tubes boxes) }
{
    let n = alphas.len();
    let v32 = v as u32;
    let t32 = t as u32;
    let n32 = n as u32;
    load_course(b, h, alphas, oxygens, course);
    let bounds = skin::tube::tube_vertices(
        oxygens,
        course,
        positions,
        normals,
        tags,
        n,
        kind_of(kind),
        v,
        first,
    );
    boxes::put_bounds(boxes, 6 * k, bounds);
    stitch::tube_triangles(triangles, 3 * t, v32, n32);
    put_five(tubes, 5 * k, kind as u32, first, n32, v32, t32);
}
