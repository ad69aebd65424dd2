// The shares that two parties have of the six output buffers (02 §5), and whether they are bad. What that means stands in specs/Shares; nothing is demanded
// of the caller, so a start and a length are never added.
#![tactic(auto)]

ghost use Rattle.std.specs.Prelude.{◌≡◌};
ghost use Rattle.buffers.specs.Outs.{sizes};
ghost use Rattle.shares.specs.Shares.{leaves, meets, bad_share, bad_shares};

// A part of a buffer: where it starts, and how many places it has.
#[derive(Clone, Copy)]
pub struct Share {
    pub start: usize,
    pub len: usize,
}

// A party's share of every output buffer.
#[derive(Clone, Copy)]
pub struct Shares {
    pub positions: Share,
    pub normals: Share,
    pub tags: Share,
    pub triangles: Share,
    pub tubes: Share,
    pub boxes: Share,
}

// Whether a share leaves a buffer of n places.
fn is_leaving(n: usize, s: Share) -> bool
    ensures { result ≡ leaves n s }
{
    if n < s.start {
        return true;
    }
    n - s.start < s.len
}

// Whether two shares of one buffer overlap.
fn is_meeting(a: Share, b: Share) -> bool
    ensures { result ≡ meets a b }
{
    if a.len == 0 {
        return false;
    }
    if b.len == 0 {
        return false;
    }
    if a.start < b.start {
        return b.start - a.start < a.len;
    }
    a.start - b.start < b.len
}

// Whether two shares of one buffer of n places, mine and the other's, overlap or leave it.
pub fn is_bad_share(n: usize, mine: Share, other: Share) -> bool
    ensures { result ≡ bad_share n mine other }
{
    if is_leaving(n, mine) {
        return true;
    }
    if is_leaving(n, other) {
        return true;
    }
    is_meeting(mine, other)
}

// Whether the shares of two parties overlap or leave a buffer, where the buffers have these lengths.
pub fn is_bad_shares(
    mine: Shares,
    other: Shares,
    positions: usize,
    normals: usize,
    tags: usize,
    triangles: usize,
    tubes: usize,
    boxes: usize,
) -> bool
    ensures { result ≡ bad_shares (sizes positions normals tags triangles tubes boxes) mine other }
{
    if is_bad_share(positions, mine.positions, other.positions) {
        return true;
    }
    if is_bad_share(normals, mine.normals, other.normals) {
        return true;
    }
    if is_bad_share(tags, mine.tags, other.tags) {
        return true;
    }
    if is_bad_share(triangles, mine.triangles, other.triangles) {
        return true;
    }
    if is_bad_share(tubes, mine.tubes, other.tubes) {
        return true;
    }
    is_bad_share(boxes, mine.boxes, other.boxes)
}
