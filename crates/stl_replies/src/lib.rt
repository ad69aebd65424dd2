// The answers to requests to write and to list binary STL, sent to a sink. The calls are those that C links; what is lent to them holds the patterns of the
// protocol, and a mesh what the request's bytes say.
#![tactic(auto)]

ghost use Rattle.std.specs.Prelude.{◌≡◌, ◌≤◌, length};
ghost use Rattle.stl_replies.specs.Mesh.{MeshBytes};
ghost use Rattle.stream.specs.Buffers.{lengths};
ghost use Rattle.stream.specs.Requests.{Within, stl_lent, stl_own};

use numbers::u32_at;
use numbers::words::get_all;
use stream::buffers::Buffers;
use stream::patterns::fill;
use stream::requests::Lengths;
use stream::sink::Sink;

// The mesh buffers of a request; K, V and T stand in its first twelve bytes.
fn load_mesh(b: &[u8], own: &mut Buffers, lent: Lengths, n: usize)
    requires { Within (stl_lent lent) (stl_own (lengths own.old) n) × MeshBytes lent (length b.now) }
    ensures { lengths own.new ≡ lengths own.old }
{
    let a1 = 12 + lent.positions * 4;
    let a2 = a1 + lent.normals * 4;
    let a3 = a2 + lent.tags * 4;
    let a4 = a3 + lent.triangles * 4;
    let a5 = a4 + lent.tubes * 4;
    get_all(b, 12, &mut own.positions[..lent.positions]);
    get_all(b, a1, &mut own.normals[..lent.normals]);
    get_all(b, a2, &mut own.tags[..lent.tags]);
    get_all(b, a3, &mut own.triangles[..lent.triangles]);
    get_all(b, a4, &mut own.tubes[..lent.tubes]);
    get_all(b, a5, &mut own.boxes[..lent.boxes]);
}

// The file of a mesh, in exactly the places that are lent; K, V and T stand in the first twelve bytes of its request.
fn write(b: &[u8], own: &Buffers, lent: Lengths, stl: &mut [u8], s: &mut Sink)
    requires { Within (stl_lent lent) (stl_own (lengths own.now) (length stl.old)) × (12 ≤ length b.now) }
{
    let mut answer = [0u32; 4];
    fill(stl);
    ribbon_c::ribbon_write_stl(
        &own.positions[..lent.positions],
        &own.normals[..lent.normals],
        &own.tags[..lent.tags],
        &own.triangles[..lent.triangles],
        &own.tubes[..lent.tubes],
        &own.boxes[..lent.boxes],
        u32_at(b, 0),
        u32_at(b, 4),
        u32_at(b, 8),
        stl,
        &mut answer,
    );
    s.send(&answer);
    s.send(stl);
}

// A request to write. It has the length of its lent bytes in the place of scratch words.
pub fn answer_write(lent: Lengths, b: &[u8], own: &mut Buffers, stl: &mut [u8], s: &mut Sink)
    requires { Within (stl_lent lent) (stl_own (lengths own.old) (length stl.old)) × MeshBytes lent (length b.now) }
{
    load_mesh(b, own, lent, stl.len());
    write(b, own, lent, &mut stl[..lent.words], s);
}

// A request to list the facets of a file. The lent lists are filled with the pattern first.
pub fn answer_list(file: &[u8], corners: &mut [f32], normals: &mut [f32], s: &mut Sink) {
    let mut answer = [0u32; 4];
    fill(corners);
    fill(normals);
    ribbon_c::ribbon_read_stl(file, corners, normals, &mut answer);
    s.send(&answer);
    s.send(corners);
    s.send(normals);
}
