// The answer to one request to the ribbon builder, sent to a sink. Each call gets buffers that hold the patterns of the protocol; the calls are those that C links.
#![tactic(auto)]

ghost use Rattle.std.specs.Prelude.{◌≡◌, ◌+◌, ◌*◌, length};
ghost use Rattle.replies.specs.Sized.{Sized};
ghost use Rattle.stream.specs.Buffers.{lengths};
ghost use Rattle.stream.specs.Requests.{Within};

use numbers::words::get_all;
use stream::buffers::Buffers;
use stream::patterns::fill;
use stream::requests::{Lengths, Request};
use stream::sink::Sink;

fn build(b: &[u8], own: &mut Buffers, lent: Lengths, s: &mut Sink)
    requires { Within lent (lengths own.old) }
{
    let mut answer = [0u32; 4];
    own.fill(lent);
    ribbon_c::ribbon_build(
        b,
        &mut own.positions[..lent.positions],
        &mut own.normals[..lent.normals],
        &mut own.tags[..lent.tags],
        &mut own.triangles[..lent.triangles],
        &mut own.tubes[..lent.tubes],
        &mut own.boxes[..lent.boxes],
        &mut own.words[..lent.words],
        &mut own.floats[..lent.floats],
        &mut answer,
    );
    s.send(&answer);
    own.send(lent, s);
}

fn plan(b: &[u8], k: usize, own: &mut Buffers, lent: Lengths, s: &mut Sink)
    requires { Within lent (lengths own.old) }
{
    let mut answer = [0u32; 9];
    own.fill_scratch(lent);
    ribbon_c::ribbon_plan(
        b,
        k,
        &mut own.words[..lent.words],
        &mut own.floats[..lent.floats],
        &mut answer,
    );
    s.send(&answer);
    own.send_scratch(lent, s);
}

fn tube(b: &[u8], k: usize, tubes: &mut [u32], triangles: &mut [u32], s: &mut Sink)
    requires { length b.now ≡ 4 * (length tubes.old + length triangles.old) }
{
    get_all(b, 0, tubes);
    get_all(b, tubes.len() * 4, triangles);
    let mut start = 0usize;
    let n = ribbon_c::ribbon_tube(tubes, triangles, k, &mut start);
    let end = start + n;
    let count = [(n % 4294967296) as u32];
    s.send(&count);
    s.send(&triangles[start..end]);
}

// One request, of calls 1 to 3, whose bytes are at hand.
pub fn answer(r: Request, b: &[u8], own: &mut Buffers, s: &mut Sink)
    requires { Within r.lent (lengths own.old) × Sized r (length b.now) }
{
    let lent = r.lent;
    if r.call == 1 {
        build(b, own, lent, s);
    } else if r.call == 2 {
        plan(b, r.k, own, lent, s);
    } else {
        tube(
            b,
            r.k,
            &mut own.tubes[..lent.tubes],
            &mut own.triangles[..lent.triangles],
            s,
        );
    }
}

// The lent job bytes as they are before every reading, and the call.
pub fn answer_read(file: &[u8], lent: &mut [u8], s: &mut Sink) {
    let mut answer = [0u32; 4];
    fill(lent);
    ribbon_c::ribbon_read_pdb(file, lent, &mut answer);
    s.send(&answer);
    s.send(lent);
}
