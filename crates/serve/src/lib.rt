// Reads requests to the ribbon builder and has them answered: what `ribbon_batch` and `replay` share.
#![tactic(auto)]

ghost use Rattle.std.specs.Prelude.{◌≡◌, ◌+◌, ◌<◌, length, IfOk};
ghost use Rattle.serve.specs.Heads.{Answerable};
ghost use Rattle.stream.specs.Buffers.{lengths};
ghost use Rattle.stream.specs.Requests.{Within, Serves, ServesMesh, SmallLengths, stl_own};

use files::{Source, Unfilled};
use std::io::Error;
use stream::buffers::Buffers;
use stream::requests::{
    Lengths, Request, is_mesh_served, is_party, is_served, request_of, stl_own,
};
use stream::sink::Sink;

// Why no more requests are answered: the input ended behind a request; it ended within one; a read failed; or an answer did not go out whole or is not as recorded.
#[derive(Clone, Copy)]
pub enum End {
    Whole,
    Cut,
    Unread(Error),
    Unsent(Error),
}

// The end of an input that gave no head, or not all of it.
fn end_at_head(why: Unfilled) -> End {
    match why {
        Unfilled::Nothing => End::Whole,
        Unfilled::Cut => End::Cut,
        Unfilled::Failed(why) => End::Unread(why),
    }
}

// The end of an input that gave a head, and not all bytes of its request.
impl From<Unfilled> for End {
    fn from(why: Unfilled) -> End {
        match why {
            Unfilled::Failed(why) => End::Unread(why),
            _ => End::Cut,
        }
    }
}

fn read_head(from: &Source) -> Result<Request, End>
    ensures { IfOk result SmallLengths }
{
    let mut head = [0u8; 41];
    files::fill(from, &mut head).map_err(end_at_head)?;
    Ok(request_of(&head))
}

// Reads n bytes and forgets them.
fn pass_over(from: &Source, n: usize, bytes: &mut [u8]) -> Result<(), Unfilled>
    requires { 0 < length bytes.old }
{
    let mut left = n;
    // no range: by as many bytes as there is room for
    while bytes.len() < left {
        files::fill(from, bytes)?;
        left -= bytes.len();
    }
    files::fill(from, &mut bytes[..left])
}

// The answer to a request that the program does not serve is the one word FFFFFFFF.
fn refuse(from: &Source, n: usize, bytes: &mut [u8], s: &mut Sink) -> Result<(), End>
    requires { 0 < length bytes.old }
{
    pass_over(from, n, bytes)?;
    s.send(&[0xffff_ffffu32]);
    Ok(())
}

// A request to read a file of n bytes into m lent ones.
fn serve_read(
    from: &Source,
    n: usize,
    m: usize,
    lent: &mut [u8],
    bytes: &mut [u8],
    s: &mut Sink,
) -> Result<(), End>
    requires { 0 < length bytes.old }
{
    if bytes.len() < n || lent.len() < m {
        return refuse(from, n, bytes, s);
    }
    files::fill(from, &mut bytes[..n])?;
    replies::answer_read(&bytes[..n], &mut lent[..m], s);
    Ok(())
}

// A request to list the facets of a file. It has the lengths of its lent lists in the places of positions and normals.
fn serve_list(
    from: &Source,
    r: Request,
    own: &mut Buffers,
    bytes: &mut [u8],
    s: &mut Sink,
) -> Result<(), End>
    requires { 0 < length bytes.old }
{
    let n = r.bytes;
    let lent = r.lent;
    if bytes.len() < n || own.positions.len() < lent.positions || own.normals.len() < lent.normals {
        return refuse(from, n, bytes, s);
    }
    files::fill(from, &mut bytes[..n])?;
    stl_replies::answer_list(
        &bytes[..n],
        &mut own.positions[..lent.positions],
        &mut own.normals[..lent.normals],
        s,
    );
    Ok(())
}

// A request to write STL.
fn serve_write(
    from: &Source,
    r: Request,
    own: &mut Buffers,
    lent: &mut [u8],
    bytes: &mut [u8],
    s: &mut Sink,
) -> Result<(), End>
    requires { (0 < length bytes.old) × SmallLengths r }
{
    let n = r.bytes;
    if !is_mesh_served(r, stl_own(own.lengths(), lent.len()), bytes.len()) {
        return refuse(from, n, bytes, s);
    }
    files::fill(from, &mut bytes[..n])?;
    stl_replies::answer_write(r.lent, &bytes[..n], own, lent, s);
    Ok(())
}

// One request, of calls 1 to 3, 7 and 8, whose bytes are at hand.
fn reply(r: Request, b: &[u8], own: &mut Buffers, s: &mut Sink)
    requires { Within r.lent (lengths own.old) × Answerable r (length b.now) }
{
    if is_party(r) {
        party_replies::answer(r, b, own, s);
    } else {
        replies::answer(r, b, own, s);
    }
}

// A request of these calls.
fn serve_call(
    from: &Source,
    r: Request,
    own: &mut Buffers,
    bytes: &mut [u8],
    s: &mut Sink,
) -> Result<(), End>
    requires { (0 < length bytes.old) × SmallLengths r }
{
    let n = r.bytes;
    if !is_served(r, own.lengths(), bytes.len()) {
        return refuse(from, n, bytes, s);
    }
    files::fill(from, &mut bytes[..n])?;
    reply(r, &bytes[..n], own, s);
    Ok(())
}

// The next request of an input, answered to the sink. A request is lent parts of the program's own buffers; lent are the bytes that calls 4 and 5 are lent. Call 4
// has the length of its lent job bytes in the place of positions. Calls 4 to 6 are told apart from the others before their lengths are held against the buffers:
// what they do not look at may be any number.
fn serve(
    from: &Source,
    own: &mut Buffers,
    lent: &mut [u8],
    bytes: &mut [u8],
    s: &mut Sink,
) -> Result<(), End>
    requires { 0 < length bytes.old }
{
    let r = read_head(from)?;
    match r.call {
        4 => serve_read(from, r.bytes, r.lent.positions, lent, bytes, s)?,
        5 => serve_write(from, r, own, lent, bytes, s)?,
        6 => serve_list(from, r, own, bytes, s)?,
        _ => serve_call(from, r, own, bytes, s)?,
    }
    s.finish().map_err(End::Unsent)
}

// How many requests were answered, and why no more were.
#[derive(Clone, Copy)]
pub struct Run {
    pub answered: u64,
    pub end: End,
}

// Room of so many values. It comes from a function of its own, since a proof that sees so long an array's zeros counts them one by one.
fn room<T: Copy, const N: usize>(zero: T) -> [T; N] {
    [zero; N]
}

// Every request of an input, answered to a sink. The positions have room for 9 floats of each of 20,969 facets, the most of an STL file that fits in the bytes. No
// loop here is endless: this one ends after 2^48 requests.
pub fn serve_all(from: &Source, s: &mut Sink) -> Run {
    let mut positions: [f32; 188721] = room(0.0);
    let mut normals: [f32; 102000] = room(0.0);
    let mut tags: [u32; 34000] = room(0);
    let mut triangles: [u32; 203988] = room(0);
    let mut tubes: [u32; 5120] = room(0);
    let mut boxes: [f32; 6144] = room(0.0);
    let mut words: [u32; 4096] = room(0);
    let mut floats: [f32; 16384] = room(0.0);
    let mut lent: [u8; 1048576] = room(0);
    let mut bytes: [u8; 1048576] = room(0);
    let mut own = Buffers {
        positions: &mut positions,
        normals: &mut normals,
        tags: &mut tags,
        triangles: &mut triangles,
        tubes: &mut tubes,
        boxes: &mut boxes,
        words: &mut words,
        floats: &mut floats,
    };
    for answered in 0..281474976710656u64 {
        if let Err(end) = serve(from, &mut own, &mut lent, &mut bytes, s) {
            return Run { answered, end };
        }
    }
    Run {
        answered: 281474976710656,
        end: End::Whole,
    }
}
