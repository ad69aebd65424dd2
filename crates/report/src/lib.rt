// What `ribbon` tells a person on standard error: what was read, what was built, how large it is, and at which scale a printer can make it. No byte of the model
// depends on it.
#![tactic(auto)]

ghost use Rattle.std.specs.Prelude.{◌+◌, ◌*◌, ◌<◌, ◌≤◌, length};
ghost use Rattle.protein.specs.Layout.{Whole};

use buffers::Counts;
use files::{STDERR_FILENO, say};
use protein::Head;

// The sides of a model, in angstrom.
#[derive(Clone, Copy)]
pub struct Sides {
    pub x: f32,
    pub y: f32,
    pub z: f32,
}

// A name and a number behind it.
pub fn say_number(name: &[u8], n: usize) {
    say(name);
    io::print_decimal(STDERR_FILENO, n as u64);
}

// How many of the segment records are of a kind: 1 a helix, 2 a strand of a sheet.
fn count_kind(records: &[u8], kind: usize) -> usize
    ensures { result ≤ length records.now }
{
    let segments = records.len() / 9;
    let mut n = 0;
    for i in 0..segments {
        n += usize::from(protein::kind(records, i) == kind);
    }
    n
}

// What the file has, as its job counts it.
pub fn tell_read(job: &[u8], h: Head)
    requires { Whole job.now h }
{
    say_number(b"read: chains ", h.chains as usize);
    say_number(b" residues ", h.residues as usize);
    say_number(b" atoms ", h.atoms as usize);
    let records = protein::records(job, h);
    say_number(b" helices ", count_kind(records, 1));
    say_number(b" strands ", count_kind(records, 2));
    say(b"\n");
}

// 'closed' is a theorem of every mesh that build hands out (`mesh_closed` of the promises), and not tested here.
pub fn tell_built(c: Counts) {
    say_number(b"built: tubes ", c.tubes);
    say_number(b" vertices ", c.vertices);
    say_number(b" triangles ", c.triangles);
    say(b", closed: proved\n");
}

// f32's own `max` passes over a NaN; here a NaN in front stays.
fn greater(a: f32, b: f32) -> f32 {
    if a < b { b } else { a }
}

// How long a model is on an axis, by the boxes of its tubes, which hold every vertex.
fn side(boxes: &[f32], axis: usize) -> f32
    requires { axis < 3 }
{
    let n = boxes.len() / 6;
    if n == 0 {
        return 0.0;
    }
    let mut low = boxes[axis];
    let mut high = boxes[3 + axis];
    for k in 1..n {
        let front = boxes[6 * k + axis];
        let back = boxes[6 * k + 3 + axis];
        if front < low {
            low = front;
        }
        if high < back {
            high = back;
        }
    }
    high - low
}

// The sides of the model in angstrom: boxes are of the mesh as it was built.
pub fn sides_of(boxes: &[f32]) -> Sides {
    Sides {
        x: side(boxes, 0),
        y: side(boxes, 1),
        z: side(boxes, 2),
    }
}

// A length in tenths, the nearest; 0 where it is no number or past all bounds.
fn tenths(x: f32) -> usize {
    let y = x * 10.0 + 0.5;
    if y > -1.0 {
        if y < 18446744073709551616.0 {
            return std::num::truncating_f32_to_u64(y) as usize;
        }
    }
    0
}

// Tenths with their point.
fn say_tenths(name: &[u8], n: usize) {
    say_number(name, n / 10);
    say_number(b".", n % 10);
}

// Three sides at so many millimetres to the angstrom.
fn say_sides(s: Sides, k: f32) {
    say_tenths(b"", tenths(s.x * k));
    say_tenths(b" x ", tenths(s.y * k));
    say_tenths(b" x ", tenths(s.z * k));
    say(b" mm");
}

// A digit and those behind it, as far as they are not all 0.
fn say_digits(n: usize, unit: usize)
    requires { 0 < unit }
{
    if n == 0 {
        return;
    }
    say_number(b"", n / unit);
}

// Thousandths as a decimal number: 2500 is 2.5.
fn say_thousandths(m: usize) {
    say_number(b"", m / 1000);
    if m % 1000 != 0 {
        say(b".");
        say_digits(m % 1000, 100);
        say_digits(m % 100, 10);
        say_digits(m % 10, 1);
    }
}

// How large the model is at a scale, which is so many thousandths of a millimetre for an angstrom.
pub fn tell_size(s: Sides, k: f32, m: u32) {
    say(b"size: ");
    say_sides(s, k);
    say(b" at ");
    say_thousandths(m as usize);
    say(b" mm to the angstrom\n");
}

pub fn tell_written(bytes: usize) {
    say_number(b"written: ", bytes);
    say(b" bytes\n");
}

// The scale to print at, of 4, 3 and 2 the largest by which no side is over 200 mm, which many printers take; else 2, below which slicers lose coils.
fn fitting(s: Sides) -> u8 {
    let longest = greater(s.x, greater(s.y, s.z));
    if longest <= 50.0 {
        return 4;
    }
    if longest <= 66.0 {
        return 3;
    }
    2
}

// How thick a coil, and a strand, is at m thousandths of a millimetre to the angstrom: 0.5 and 0.3 angstrom (01, 'Shape of a tube').
fn say_thickness(m: u32) {
    say_tenths(b"coils are ", (m as usize + 100) / 200);
    say_tenths(b" mm thick and strands ", (3 * (m as usize) + 500) / 1000);
}

fn say_better(s: Sides) {
    let f = fitting(s);
    say(b", too thin for a nozzle of 0.4 mm: ");
    say_number(b"--scale ", f as usize);
    say_tenths(b" makes coils ", 5 * (f as usize));
    say(b" mm thick, ");
    say_sides(s, f as f32);
    say(b" in all\n");
}

// Whether a printer can make it, and which scale serves where not: what was seen of slicers is in docs/STL.md.
pub fn tell_print(s: Sides, m: u32) {
    say(b"print: ");
    say_thickness(m);
    if m < 2000 {
        say_better(s);
        return;
    }
    say(b", thick enough for a nozzle of 0.4 mm\n");
}
