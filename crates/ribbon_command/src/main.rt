// The program behind `ribbon`: reads a PDB file, the one that is named or standard input, and writes its model, a binary STL file, to standard output. Its words
// are ROOM, which is large where the system gives it a long stack and small where not, the scale in millimetres for an angstrom, and the file.
#![tactic(auto)]

ghost use Rattle.std.specs.Prelude.{◌+◌, ◌≤◌, ◌≡◌, length, IfOk};
ghost use Rattle.buffers.specs.Outs.{outs};
ghost use Rattle.room.specs.Room.{buffers};
ghost use Rattle.model_theorems.specs.Large.{LargeRoom, large_job};

use files::{Source, Undone, say};
use model::{Unmade, Wish};
use std::io::Stdout;
use words::Else;

// Room of so many values. It comes from a function of its own, since a proof that sees so long an array's zeros counts them one by one.
fn room<T: Copy, const N: usize>(zero: T) -> [T; N] {
    [zero; N]
}

// Why a program that makes a model has not.
fn undone(why: Unmade) -> Undone {
    match why {
        Unmade::Failed => Undone::Failed,
        _ => Undone::Told,
    }
}

// Room in two sizes. A file and a mesh that fit the small one stay below the 8 MiB that a system gives a program's stack; the large one has room for every mesh
// that the limits allow.
fn in_small_room(file: &[u8], w: Wish) -> Result<(), Unmade> {
    let mut job: [u8; 1000000] = room(0);
    let mut positions: [f32; 196608] = room(0.0);
    let mut normals: [f32; 196608] = room(0.0);
    let mut tags: [u32; 65536] = room(0);
    // a mesh has at most two triangles for each vertex, and the shortest tube has 74 vertices: 885 tubes in 65,536 of them
    let mut triangles: [u32; 393216] = room(0);
    let mut tubes: [u32; 4425] = room(0);
    let mut boxes: [f32; 5310] = room(0.0);
    let mut words: [u32; 8192] = room(0);
    let mut floats: [f32; 32768] = room(0.0);
    let mut block: [u8; 50000] = room(0);
    model::make(
        file,
        &mut job,
        &mut positions,
        &mut normals,
        &mut tags,
        &mut triangles,
        &mut tubes,
        &mut boxes,
        &mut words,
        &mut floats,
        &mut block,
        w,
    )
}

// Nothing is done here: that the large room is no shorter than the one of which model_theorems says that it has room for every job and every file's job is asked.
fn holds_every_job(
    job: &[u8],
    positions: &[f32],
    normals: &[f32],
    tags: &[u32],
    triangles: &[u32],
    tubes: &[u32],
    boxes: &[f32],
    words: &[u32],
    floats: &[f32],
)
    requires { (large_job ≤ length job.now)
        × LargeRoom (buffers (outs positions.now normals.now tags.now triangles.now tubes.now boxes.now) words.now floats.now) }
{}

#[inline(never)]
fn in_large_room(file: &[u8], w: Wish) -> Result<(), Undone> {
    // 13 + C + 9S + 33A for the greatest C, S and A
    let mut job: [u8; 2752738] = room(0);
    let mut positions: [f32; 3145728] = room(0.0);
    let mut normals: [f32; 3145728] = room(0.0);
    let mut tags: [u32; 1048576] = room(0);
    let mut triangles: [u32; 6291456] = room(0);
    // 14,169 tubes in 1,048,576 vertices
    let mut tubes: [u32; 70845] = room(0);
    let mut boxes: [f32; 85014] = room(0.0);
    let mut words: [u32; 131072] = room(0);
    let mut floats: [f32; 524288] = room(0.0);
    let mut block: [u8; 50000] = room(0);
    holds_every_job(
        &job, &positions, &normals, &tags, &triangles, &tubes, &boxes, &words, &floats,
    );
    let made = model::make(
        file,
        &mut job,
        &mut positions,
        &mut normals,
        &mut tags,
        &mut triangles,
        &mut tubes,
        &mut boxes,
        &mut words,
        &mut floats,
        &mut block,
        w,
    );
    made.map_err(undone)
}

// Reads a file on, behind the n bytes of it that stand in the room, and answers how many there are then; or says that a read failed, or that the file changed
// meanwhile. A full room says that the file may be longer.
fn read_on(from: &Source, room: &mut [u8], n: usize) -> Result<usize, Undone>
    requires { n ≤ length room.old }
    ensures { IfOk result (λ all. all ≤ length room.new) }
{
    let what: &[u8] = if from.is_standard() {
        b"ribbon: standard input cannot be read"
    } else {
        b"ribbon: the file cannot be read"
    };
    let all = match files::read_all(from, &mut room[n..]) {
        Ok(got) => n + got,
        Err(why) => {
            files::fail(what, why);
            return Err(Undone::Failed);
        }
    };
    if all < room.len() && !files::is_settled(from, all) {
        words::explain_else(Else::Changed);
        return Err(Undone::Failed);
    }
    Ok(all)
}

#[inline(never)]
fn in_longest_file(from: &Source, head: &[u8], w: Wish) -> Result<(), Undone>
    requires { length head.now ≤ 16777217 }
{
    let mut file: [u8; 134217729] = room(0);
    say(
        b"note: the file is longer than 16777216 bytes; all of it is read before anything is built\n",
    );
    file[..head.len()].copy_from_slice(head);
    let n = read_on(from, &mut file, head.len())?;
    if n < 134217729 {
        return in_large_room(&file[..n], w);
    }
    words::explain_else(Else::LongModel);
    Err(Undone::Told)
}

#[inline(never)]
fn in_long_file(from: &Source, head: &[u8], w: Wish) -> Result<(), Undone>
    requires { length head.now ≤ 1500001 }
{
    let mut file: [u8; 16777217] = room(0);
    file[..head.len()].copy_from_slice(head);
    let n = read_on(from, &mut file, head.len())?;
    if n < 16777217 {
        return in_large_room(&file[..n], w);
    }
    in_longest_file(from, &file[..n], w)
}

// A file that is longer than the small room. What has the longer arrays stays apart from its caller, which would else need the long stack even where the small room
// serves: every page of a stack is touched when its function begins.
fn in_more_room(from: &Source, head: &[u8], w: Wish, large: bool) -> Result<(), Undone>
    requires { length head.now ≤ 1500001 }
{
    if !large {
        words::explain_else(Else::NoStack);
        return Err(Undone::Told);
    }
    in_long_file(from, head, w)
}

fn wish(to: Stdout, m: u32, factor: f32, more: bool) -> Wish {
    Wish {
        to,
        thousandths: m,
        factor,
        more,
    }
}

// In the small room, and, where that is too short and there is a large one, in that.
fn start(from: &Source, to: Stdout, m: u32, factor: f32, large: bool) -> Result<(), Undone> {
    let mut file: [u8; 1500001] = room(0);
    let n = read_on(from, &mut file, 0)?;
    if n == 1500001 {
        return in_more_room(from, &file[..n], wish(to, m, factor, false), large);
    }
    match in_small_room(&file[..n], wish(to, m, factor, large)) {
        Err(Unmade::Short) => in_large_room(&file[..n], wish(to, m, factor, false)),
        made => made.map_err(undone),
    }
}

// Whether an argument is the word.
fn is_word(rt: &HostRuntime, i: usize, word: &[u8]) -> bool {
    let mut text = io::buffer();
    match files::argument(rt, i, &mut text) {
        Some(n) => text[..n] == word[..],
        None => false,
    }
}

fn run(rt: &HostRuntime, m: u32, large: bool) -> Result<(), Undone>
    requires { m ≤ 1000000 }
{
    let Ok(from) = files::open_argument(rt, 3) else {
        return Err(Undone::Failed);
    };
    start(&from, rt.stdout(), m, scaling::factor_of(m), large)
}

// The words are the room, the scale and the file.
fn run_words(rt: &HostRuntime) -> Result<(), Undone> {
    let mut text = io::buffer();
    let n = files::argument(rt, 2, &mut text).unwrap_or(0);
    match scaling::factor_in(&text[..n]) {
        Some(m) => run(rt, m, is_word(rt, 1, b"large")),
        None => {
            say(
                b"ribbon: this is no scale: one to four digits and, if wanted, a point with one to three digits behind it, from 0.001 to 1000\n",
            );
            Err(Undone::Failed)
        }
    }
}

fn main(rt: HostRuntime) {
    files::end(run_words(&rt));
}
