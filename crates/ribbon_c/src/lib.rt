// The calls for C and Rust: a slice is a pointer and a length, and an answer is words in a lent array. What they promise stands in specs/Words.
#![tactic(auto)]

ghost use Rattle.std.specs.Prelude.{◌≡◌, ◌+◌, ◌≤◌, length};
ghost use Rattle.job.specs.Refusals.{refusal_numbers, size_numbers};
ghost use Rattle.buffers.specs.Outs.{outs, held, holds};
ghost use Rattle.room.specs.Room.{buffers, scratch};
ghost use Rattle.promises.specs.Calls.{built_numbers, planned_numbers};
ghost use Rattle.stl_reader.specs.Call.{lists};
ghost use Rattle.tube_call.specs.Part.{PartFor};
ghost use Rattle.ribbon_c.specs.Words.{word_of, words_of, BuildsWords, PlansWords, ReadsWords, WritesStlWords, ReadsStlWords};
ghost use Rattle.ribbon_c.specs.Words.{share_at, shares_at, BuildsShareWords, PlansRecordsWords};

use buffers::Counts;
use job::Refusal;
use promises::Plan;
use shares::{Share, Shares};

fn word(n: usize) -> u32
    ensures { result ≡ word_of n }
{
    (n % 4294967296) as u32
}

fn refusal_words(r: Refusal) -> [u32; 4]
    ensures { result ≡ words_of (refusal_numbers r) }
{
    let n = job::refusal_numbers(r);
    [word(n[0]), word(n[1]), word(n[2]), word(n[3])]
}

fn built_words(a: Result<Counts, Refusal>) -> [u32; 4]
    ensures { result ≡ words_of (built_numbers a) }
{
    match a {
        Ok(c) => [0, word(c.tubes), word(c.vertices), word(c.triangles)],
        Err(r) => refusal_words(r),
    }
}

fn planned_words(a: Result<Plan, Refusal>) -> [u32; 9]
    ensures { result ≡ words_of (planned_numbers a) }
{
    match a {
        Ok(p) => [
            0,
            word(p.counts.tubes),
            word(p.counts.vertices),
            word(p.counts.triangles),
            word(p.words.kind),
            word(p.words.first),
            word(p.words.length),
            word(p.words.vertex),
            word(p.words.triangle),
        ],
        Err(r) => {
            let w = refusal_words(r);
            [w[0], w[1], w[2], w[3], 0, 0, 0, 0, 0]
        }
    }
}

// Of an answer that is one number: the size of what was written, or how many facets were listed.
fn size_words(a: Result<usize, Refusal>) -> [u32; 4]
    ensures { result ≡ words_of (size_numbers a) }
{
    match a {
        Ok(n) => [0, word(n), 0, 0],
        Err(r) => refusal_words(r),
    }
}

// The number (0: a mesh) and K, V, T, or a refusal's number and what it carries, go to answer.
#[unsafe(no_mangle)]
pub extern "C" fn ribbon_build(
    job: &[u8],
    positions: &mut [f32],
    normals: &mut [f32],
    tags: &mut [u32],
    triangles: &mut [u32],
    tubes: &mut [u32],
    boxes: &mut [f32],
    words: &mut [u32],
    floats: &mut [f32],
    answer: &mut [u32; 4],
)
    ensures { BuildsWords job.now
        (buffers (held positions normals tags triangles tubes boxes) words.old floats.old) answer.new
        (buffers (holds positions normals tags triangles tubes boxes) words.new floats.new) }
{
    let a = ribbon::build(
        job, positions, normals, tags, triangles, tubes, boxes, words, floats,
    );
    *answer = built_words(a);
}

// The same four words (0: a plan), and tube k's five.
#[unsafe(no_mangle)]
pub extern "C" fn ribbon_plan(
    job: &[u8],
    k: usize,
    words: &mut [u32],
    floats: &mut [f32],
    answer: &mut [u32; 9],
)
    ensures { PlansWords job.now k (scratch words.old floats.old) answer.new
        (scratch words.new floats.new) }
{
    let a = ribbon::plan(job, k, words, floats);
    *answer = planned_words(a);
}

// The place in triangles where tube k's part begins goes to start; the answer is the part's length, 0 where it is empty.
#[unsafe(no_mangle)]
pub extern "C" fn ribbon_tube(
    tubes: &[u32],
    triangles: &[u32],
    k: usize,
    start: &mut usize,
) -> usize
    ensures { PartFor tubes.now triangles.now k start.new result }
{
    let part = tube_call::locate(tubes, triangles, k);
    *start = part.start;
    part.size
}

// The number (0: a job) and the job's size, or a refusal's number and what it carries, go to answer.
#[unsafe(no_mangle)]
pub extern "C" fn ribbon_read_pdb(file: &[u8], job: &mut [u8], answer: &mut [u32; 4])
    ensures { ReadsWords file.now job.old answer.new job.new }
{
    let a = pdb_reader::read_pdb(file, job);
    *answer = size_words(a);
}

// The number (0: a file) and the file's size, or a refusal's number and what it carries, go to answer. The mesh buffers are only read.
#[unsafe(no_mangle)]
pub extern "C" fn ribbon_write_stl(
    positions: &[f32],
    normals: &[f32],
    tags: &[u32],
    triangles: &[u32],
    tubes: &[u32],
    boxes: &[f32],
    k: usize,
    v: usize,
    t: usize,
    stl: &mut [u8],
    answer: &mut [u32; 4],
)
    ensures { WritesStlWords (outs positions.now normals.now tags.now triangles.now tubes.now boxes.now)
        (record { tubes = k; vertices = v; triangles = t }) stl.old answer.new stl.new }
{
    let c = Counts {
        tubes: k,
        vertices: v,
        triangles: t,
    };
    let a = stl_writer::write_stl(positions, normals, tags, triangles, tubes, boxes, c, stl);
    *answer = size_words(a);
}

// The number (0: a list) and T, or a refusal's number and what it carries, go to answer.
#[unsafe(no_mangle)]
pub extern "C" fn ribbon_read_stl(
    file: &[u8],
    corners: &mut [f32],
    normals: &mut [f32],
    answer: &mut [u32; 4],
)
    ensures { ReadsStlWords file.now (lists corners.old normals.old) answer.new
        (lists corners.new normals.new) }
{
    let a = stl_reader::read_stl(file, corners, normals);
    *answer = size_words(a);
}

fn share_at(n: &[usize], at: usize) -> Share
    requires { at + 2 ≤ length n.now }
    ensures { result ≡ share_at n.now at }
{
    Share {
        start: n[at],
        len: n[at + 1],
    }
}

// A party's shares: two numbers, start and length, of each buffer.
fn shares_of(n: &[usize], at: usize) -> Shares
    requires { at + 12 ≤ length n.now }
    ensures { result ≡ shares_at n.now at }
{
    Shares {
        positions: share_at(n, at),
        normals: share_at(n, at + 2),
        tags: share_at(n, at + 4),
        triangles: share_at(n, at + 6),
        tubes: share_at(n, at + 8),
        boxes: share_at(n, at + 10),
    }
}

// As ribbon_build, of a shared job with the caller's records, in the caller's shares of the whole buffers. The twelve numbers of its shares come first, then
// those of the other's.
#[unsafe(no_mangle)]
pub extern "C" fn ribbon_build_share(
    job: &[u8],
    records: &[u8],
    shares: &[usize; 24],
    positions: &mut [f32],
    normals: &mut [f32],
    tags: &mut [u32],
    triangles: &mut [u32],
    tubes: &mut [u32],
    boxes: &mut [f32],
    words: &mut [u32],
    floats: &mut [f32],
    answer: &mut [u32; 4],
)
    ensures { BuildsShareWords job.now records.now shares.now
        (buffers (held positions normals tags triangles tubes boxes) words.old floats.old) answer.new
        (buffers (holds positions normals tags triangles tubes boxes) words.new floats.new) }
{
    let mine = shares_of(shares, 0);
    let other = shares_of(shares, 12);
    let a = parties::build_share(
        job, records, mine, other, positions, normals, tags, triangles, tubes, boxes, words, floats,
    );
    *answer = built_words(a);
}

// As ribbon_plan, of a shared job with the caller's records.
#[unsafe(no_mangle)]
pub extern "C" fn ribbon_plan_records(
    job: &[u8],
    records: &[u8],
    tube: usize,
    words: &mut [u32],
    floats: &mut [f32],
    answer: &mut [u32; 9],
)
    ensures { PlansRecordsWords job.now records.now tube (scratch words.old floats.old) answer.new
        (scratch words.new floats.new) }
{
    let a = parties::plan_records(job, records, tube, words, floats);
    *answer = planned_words(a);
}
