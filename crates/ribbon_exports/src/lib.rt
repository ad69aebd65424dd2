// What the static library for C exports: a call for each of ribbon_c's, with its clauses. A slice is a pointer and a length (include/ribbon.h).
#![tactic(auto)]

ghost use Rattle.buffers.specs.Outs.{outs, held, holds};
ghost use Rattle.room.specs.Room.{buffers, scratch};
ghost use Rattle.stl_reader.specs.Call.{lists};
ghost use Rattle.tube_call.specs.Part.{PartFor};
ghost use Rattle.ribbon_c.specs.Words.{BuildsWords, PlansWords, ReadsWords, WritesStlWords, ReadsStlWords};
ghost use Rattle.ribbon_c.specs.Words.{BuildsShareWords, PlansRecordsWords};

// The number (0: a mesh) and K, V, T, or a refusal's number and what it carries, go to answer.
#[unsafe(no_mangle)]
pub extern "C" fn ribbon_build(
    job: &[u8],
    positions: &mut [f32],
    normals: &mut [f32],
    tags: &mut [u32],
    triangles: &mut [u32],
    tubes: &mut [u32],
    boxes: &mut [f32],
    words: &mut [u32],
    floats: &mut [f32],
    answer: &mut [u32; 4],
)
    ensures { BuildsWords job.now
        (buffers (held positions normals tags triangles tubes boxes) words.old floats.old) answer.new
        (buffers (holds positions normals tags triangles tubes boxes) words.new floats.new) }
{
    ribbon_c::ribbon_build(
        job, positions, normals, tags, triangles, tubes, boxes, words, floats, answer,
    )
}

// The same four words (0: a plan), and tube k's five.
#[unsafe(no_mangle)]
pub extern "C" fn ribbon_plan(
    job: &[u8],
    k: usize,
    words: &mut [u32],
    floats: &mut [f32],
    answer: &mut [u32; 9],
)
    ensures { PlansWords job.now k (scratch words.old floats.old) answer.new
        (scratch words.new floats.new) }
{
    ribbon_c::ribbon_plan(job, k, words, floats, answer)
}

// The place in triangles where tube k's part begins goes to start; the answer is the part's length, 0 where it is empty.
#[unsafe(no_mangle)]
pub extern "C" fn ribbon_tube(
    tubes: &[u32],
    triangles: &[u32],
    k: usize,
    start: &mut usize,
) -> usize
    ensures { PartFor tubes.now triangles.now k start.new result }
{
    ribbon_c::ribbon_tube(tubes, triangles, k, start)
}

// The number (0: a job) and the job's size, or a refusal's number and what it carries, go to answer.
#[unsafe(no_mangle)]
pub extern "C" fn ribbon_read_pdb(file: &[u8], job: &mut [u8], answer: &mut [u32; 4])
    ensures { ReadsWords file.now job.old answer.new job.new }
{
    ribbon_c::ribbon_read_pdb(file, job, answer)
}

// The number (0: a file) and the file's size, or a refusal's number and what it carries, go to answer. The mesh buffers are only read.
#[unsafe(no_mangle)]
pub extern "C" fn ribbon_write_stl(
    positions: &[f32],
    normals: &[f32],
    tags: &[u32],
    triangles: &[u32],
    tubes: &[u32],
    boxes: &[f32],
    k: usize,
    v: usize,
    t: usize,
    stl: &mut [u8],
    answer: &mut [u32; 4],
)
    ensures { WritesStlWords (outs positions.now normals.now tags.now triangles.now tubes.now boxes.now)
        (record { tubes = k; vertices = v; triangles = t }) stl.old answer.new stl.new }
{
    ribbon_c::ribbon_write_stl(
        positions, normals, tags, triangles, tubes, boxes, k, v, t, stl, answer,
    )
}

// The number (0: a list) and T, or a refusal's number and what it carries, go to answer.
#[unsafe(no_mangle)]
pub extern "C" fn ribbon_read_stl(
    file: &[u8],
    corners: &mut [f32],
    normals: &mut [f32],
    answer: &mut [u32; 4],
)
    ensures { ReadsStlWords file.now (lists corners.old normals.old) answer.new
        (lists corners.new normals.new) }
{
    ribbon_c::ribbon_read_stl(file, corners, normals, answer)
}

// As ribbon_build, of a shared job with the caller's records, in the caller's shares of the whole buffers. The twelve numbers of its shares come first, then
// those of the other's.
#[unsafe(no_mangle)]
pub extern "C" fn ribbon_build_share(
    job: &[u8],
    records: &[u8],
    shares: &[usize; 24],
    positions: &mut [f32],
    normals: &mut [f32],
    tags: &mut [u32],
    triangles: &mut [u32],
    tubes: &mut [u32],
    boxes: &mut [f32],
    words: &mut [u32],
    floats: &mut [f32],
    answer: &mut [u32; 4],
)
    ensures { BuildsShareWords job.now records.now shares.now
        (buffers (held positions normals tags triangles tubes boxes) words.old floats.old) answer.new
        (buffers (holds positions normals tags triangles tubes boxes) words.new floats.new) }
{
    ribbon_c::ribbon_build_share(
        job, records, shares, positions, normals, tags, triangles, tubes, boxes, words, floats,
        answer,
    )
}

// As ribbon_plan, of a shared job with the caller's records.
#[unsafe(no_mangle)]
pub extern "C" fn ribbon_plan_records(
    job: &[u8],
    records: &[u8],
    tube: usize,
    words: &mut [u32],
    floats: &mut [f32],
    answer: &mut [u32; 9],
)
    ensures { PlansRecordsWords job.now records.now tube (scratch words.old floats.old) answer.new
        (scratch words.new floats.new) }
{
    ribbon_c::ribbon_plan_records(job, records, tube, words, floats, answer)
}
