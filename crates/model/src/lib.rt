// From the bytes of a PDB file to a binary STL file on standard output, in lent room: read_pdb, build, the scaling, and the file block by block. It adds no rule to
// those. Nothing is written before the last refusal is past, so a refused file leaves no part of a model. What was made, or why nothing was, is told on standard
// error.
#![tactic(auto)]

ghost use Rattle.std.specs.Prelude.{◌≡◌, ◌+◌, ◌*◌, ◌/◌, ◌≤◌, ◌<◌, length};
ghost use Rattle.protein.specs.Layout.{Whole};
ghost use Rattle.facets.specs.Facets.{Drawn};
ghost use Rattle.model.specs.Ready.{Ready};

use buffers::Counts;
use facets::Drawing;
use job::Refusal;
use protein::Head;
use std::io::{Error, Stdout};
use words::Else;

// Why no model was made. Short: the lent room is too short, which was not said, since the caller has more. The others were said: the file is refused, or the model
// could not be written.
#[derive(Clone, Copy)]
pub enum Unmade {
    Refused,
    Failed,
    Short,
}

// What is asked for: where the file goes, the scale in thousandths of a millimetre for an angstrom and as the factor that it is, and whether the caller has more
// room.
#[derive(Clone, Copy)]
pub struct Wish {
    pub to: Stdout,
    pub thousandths: u32,
    pub factor: f32,
    pub more: bool,
}

// Whether more room, where there is more, could help.
fn is_short(r: Refusal, more: bool) -> bool {
    match r {
        Refusal::NoScratch => more,
        Refusal::NoRoom(_, _, _) => more,
        Refusal::NoJobRoom(_) => more,
        _ => false,
    }
}

// Why a file has no job.
fn refuse(file: &[u8], r: Refusal, more: bool) -> Result<(), Unmade> {
    if is_short(r, more) {
        return Err(Unmade::Short);
    }
    pdb_notes::tell_refused(file, r);
    Err(Unmade::Refused)
}

// The facets of a mesh, block after block.
fn send_facets(to: Stdout, d: &Drawing, block: &mut [u8]) -> Result<(), Error>
    requires { 50000 ≤ length block.old }
{
    let t = d.triangles.len() / 3;
    for i in 0..t.div_ceil(1000) {
        let n = blocks::put_block(block, d, i);
        files::write(to, &block[..n])?;
    }
    Ok(())
}

// Writes the whole file.
fn send_file(to: Stdout, d: &Drawing, block: &mut [u8]) -> Result<(), Error>
    requires { (length d.now.triangles.now ≤ 6291456) × (50000 ≤ length block.old) }
{
    facets::put_head(block, (d.triangles.len() / 3) as u32);
    files::write(to, &block[..84])?;
    send_facets(to, d, block)
}

// What was read of a file.
fn tell_file(file: &[u8], job: &[u8], h: Head)
    requires { Whole job.now h }
{
    report::tell_read(job, h);
    pdb_notes::tell_notes(file, job);
}

// Why a job that was read has no mesh.
fn refuse_job(file: &[u8], job: &[u8], r: Refusal, more: bool) -> Result<(), Unmade> {
    if is_short(r, more) {
        return Err(Unmade::Short);
    }
    let a = job::check_job(job);
    if let Ok(h) = a {
        tell_file(file, job, h);
    }
    pdb_notes::tell_refused(file, r);
    Err(Unmade::Refused)
}

// What a person is told before anything is written.
fn tell_model(file: &[u8], job: &[u8], h: Head, c: Counts, tubes: &[u32], boxes: &[f32], w: Wish)
    requires { Whole job.now h }
{
    tell_file(file, job, h);
    if c.tubes == 0 {
        words::explain_else(Else::NoTube);
        return;
    }
    report::tell_built(c);
    breaks::tell(file, job, h, tubes);
    let s = report::sides_of(boxes);
    report::tell_size(s, w.factor, w.thousandths);
    report::tell_print(s, w.thousandths);
}

fn tell(file: &[u8], job: &[u8], c: Counts, tubes: &[u32], boxes: &[f32], w: Wish) {
    let a = job::check_job(job);
    match a {
        Err(_) => {}
        Ok(h) => tell_model(file, job, h, c, tubes, boxes, w),
    }
}

// The model of a mesh: its positions scaled in place, and the file written.
fn send_model(
    positions: &mut [f32],
    triangles: &[u32],
    block: &mut [u8],
    w: Wish,
) -> Result<(), Unmade>
    requires { Drawn positions.old triangles.now × (length triangles.now ≤ 6291456) × (50000 ≤ length block.old) }
{
    scaling::scale_positions(positions, w.factor);
    let d = Drawing {
        positions,
        triangles,
    };
    if let Err(why) = send_file(w.to, &d, block) {
        files::fail(b"ribbon: the model cannot be written", why);
        return Err(Unmade::Failed);
    }
    report::tell_written(84 + 50 * (triangles.len() / 3));
    Ok(())
}

// The model of a mesh that was built, and what is told of it.
fn finish(
    file: &[u8],
    job: &[u8],
    positions: &mut [f32],
    triangles: &[u32],
    tubes: &[u32],
    boxes: &[f32],
    c: Counts,
    block: &mut [u8],
    w: Wish,
) -> Result<(), Unmade>
    requires { Ready positions.old triangles.now tubes.now boxes.now c × (50000 ≤ length block.old) }
{
    let k = c.tubes;
    let v = 3 * c.vertices;
    let t = 3 * c.triangles;
    tell(file, job, c, &tubes[..5 * k], &boxes[..6 * k], w);
    if k == 0 {
        return Err(Unmade::Refused);
    }
    send_model(&mut positions[..v], &triangles[..t], block, w)
}

// The mesh of a job, and its model.
fn build_model(
    file: &[u8],
    job: &[u8],
    positions: &mut [f32],
    normals: &mut [f32],
    tags: &mut [u32],
    triangles: &mut [u32],
    tubes: &mut [u32],
    boxes: &mut [f32],
    words: &mut [u32],
    floats: &mut [f32],
    block: &mut [u8; 50000],
    w: Wish,
) -> Result<(), Unmade> {
    let a = ribbon::build(
        job, positions, normals, tags, triangles, tubes, boxes, words, floats,
    );
    match a {
        Err(r) => refuse_job(file, job, r, w.more),
        Ok(c) => finish(file, job, positions, triangles, tubes, boxes, c, block, w),
    }
}

// The model of a PDB file, in lent room.
pub fn make(
    file: &[u8],
    job: &mut [u8],
    positions: &mut [f32],
    normals: &mut [f32],
    tags: &mut [u32],
    triangles: &mut [u32],
    tubes: &mut [u32],
    boxes: &mut [f32],
    words: &mut [u32],
    floats: &mut [f32],
    block: &mut [u8; 50000],
    w: Wish,
) -> Result<(), Unmade> {
    let a = pdb_reader::read_pdb(file, job);
    match a {
        Err(r) => refuse(file, r, w.more),
        Ok(n) => build_model(
            file,
            &job[..n],
            positions,
            normals,
            tags,
            triangles,
            tubes,
            boxes,
            words,
            floats,
            block,
            w,
        ),
    }
}
