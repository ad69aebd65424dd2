// The tube call of 01. Nothing is demanded of whoever calls it; what it promises, `Tubed`, stands in specs/Part.
#![tactic(auto)]

ghost use Rattle.tube_call.specs.Part.{Tubed, PartFor};

// A part's first place in its buffer, 0 where it is empty, and how many places it has.
#[derive(Drop)]
pub struct Located {
    pub start: usize,
    pub size: usize,
}

// The part of the caller's own triangle buffer for tube k.
pub fn tube<'a>(records: &[u32], triangles: &'a [u32], k: usize) -> &'a [u32]
    ensures { Tubed records.now triangles.now k result.now }
{
    let have = records.len() / 5;
    if have <= k {
        return &triangles[0..0];
    }
    let n = records[5 * k + 2] as usize;
    let t = records[5 * k + 4] as usize;
    if n < 2 {
        return &triangles[0..0];
    }
    if 16384 < n {
        return &triangles[0..0];
    }
    let from = 3 * t;
    let end = from + 3 * edges::triangle_count(n);
    if triangles.len() < end {
        return &triangles[0..0];
    }
    &triangles[from..end]
}

// Where the part of tube k stands in the triangle buffer.
pub fn locate(records: &[u32], triangles: &[u32], k: usize) -> Located
    ensures { PartFor records.now triangles.now k result.start result.size }
{
    let size = tube(records, triangles, k).len();
    if size == 0 {
        return Located { start: 0, size: 0 };
    }
    let start = 3 * (records[5 * k + 4] as usize);
    Located { start, size }
}
