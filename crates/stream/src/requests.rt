// The head of a request.
ghost use Rattle.std.specs.Prelude.{◌≡◌, true, ◌≤◌, ◌<◌, length};
ghost use Rattle.stream.specs.Requests.{request_of, SmallLengths, Within, party, known, Serves, mesh_places, stl_lent, stl_own, ServesMesh};

// How many places are lent of each buffer.
#[derive(Clone, Copy)]
pub struct Lengths {
    pub positions: usize,
    pub normals: usize,
    pub tags: usize,
    pub triangles: usize,
    pub tubes: usize,
    pub boxes: usize,
    pub words: usize,
    pub floats: usize,
}

#[derive(Clone, Copy)]
pub struct Request {
    pub call: u8,
    pub lent: Lengths,
    pub k: usize,
    pub bytes: usize,
}

pub fn request_of(head: &[u8]) -> Request
    requires { 41 ≤ length head.now }
    ensures { (result ≡ request_of head.now) × SmallLengths result }
{
    let lent = Lengths {
        positions: numbers::u32_at(head, 1),
        normals: numbers::u32_at(head, 5),
        tags: numbers::u32_at(head, 9),
        triangles: numbers::u32_at(head, 13),
        tubes: numbers::u32_at(head, 17),
        boxes: numbers::u32_at(head, 21),
        words: numbers::u32_at(head, 25),
        floats: numbers::u32_at(head, 29),
    };
    Request {
        call: head[0],
        lent,
        k: numbers::u32_at(head, 33),
        bytes: numbers::u32_at(head, 37),
    }
}

// Whether no length of a request is above that of the program's own array.
fn is_within(lent: Lengths, own: Lengths) -> bool
    ensures { (result ≡ true → Within lent own) × (Within lent own → result ≡ true) }
{
    if own.positions < lent.positions {
        return false;
    }
    if own.normals < lent.normals {
        return false;
    }
    if own.tags < lent.tags {
        return false;
    }
    if own.triangles < lent.triangles {
        return false;
    }
    if own.tubes < lent.tubes {
        return false;
    }
    if own.boxes < lent.boxes {
        return false;
    }
    if own.words < lent.words {
        return false;
    }
    if own.floats < lent.floats {
        return false;
    }
    true
}

// Whether a request is of one of two parties.
pub fn is_party(r: Request) -> bool
    ensures { result ≡ party r }
{
    if r.call == 7 {
        return true;
    }
    r.call == 8
}

// Whether a request is one of calls 1 to 3, 7 and 8 that is answered. What the bytes of a party's say is looked at once they are read.
fn is_known(r: Request) -> bool
    requires { SmallLengths r }
    ensures { result ≡ known r }
{
    if r.call == 1 {
        return true;
    }
    if r.call == 2 {
        return true;
    }
    if is_party(r) {
        return true;
    }
    if r.call == 3 {
        let lent = r.lent;
        return r.bytes == 4 * (lent.tubes + lent.triangles);
    }
    false
}

// Whether a program answers a request by one of calls 1 to 3, 7 and 8: it knows it, and has room for the lent buffers and the bytes.
pub fn is_served(r: Request, own: Lengths, room: usize) -> bool
    requires { SmallLengths r }
    ensures { (result ≡ true → Serves r own room) × (Serves r own room → result ≡ true) }
{
    let lent = r.lent;
    if !is_within(lent, own) {
        return false;
    }
    if room < r.bytes {
        return false;
    }
    if !is_known(r) {
        return false;
    }
    true
}

// How many places the six mesh buffers have.
fn mesh_places(r: Request) -> usize
    requires { SmallLengths r }
    ensures { (result ≡ mesh_places r.lent) × (result < 25769803776) }
{
    let l = r.lent;
    l.positions + l.normals + l.tags + l.triangles + l.tubes + l.boxes
}

// The lengths that a request to write STL is lent: no scratch floats, whatever stands in their place.
fn stl_lent(l: Lengths) -> Lengths
    ensures { result ≡ stl_lent l }
{
    Lengths { floats: 0, ..l }
}

// The lengths of a program's own buffers for such a request, with n bytes in the place of scratch words.
pub fn stl_own(l: Lengths, n: usize) -> Lengths
    ensures { result ≡ stl_own l n }
{
    Lengths {
        words: n,
        floats: 0,
        ..l
    }
}

// Whether a program answers a request to write STL by the call: it has room for the mesh buffers, the lent bytes and the request's own, which are K, V, T and
// the contents of the mesh buffers.
pub fn is_mesh_served(r: Request, own: Lengths, room: usize) -> bool
    requires { SmallLengths r }
    ensures { (result ≡ true → ServesMesh r own room) × (ServesMesh r own room → result ≡ true) }
{
    let lent = r.lent;
    if !is_within(stl_lent(lent), own) {
        return false;
    }
    if room < r.bytes {
        return false;
    }
    if r.bytes != 12 + 4 * mesh_places(r) {
        return false;
    }
    true
}
