// What the bytes of a job say, once checks 1 to 4 have passed: each field by its name, and where atoms stand.
#![tactic(auto)]

ghost use Rattle.std.specs.Prelude.{◌≡◌, ◌≤◌, ◌<◌};
ghost use Rattle.protein.specs.Layout.{Whole, records_of, atom_at};
ghost use Rattle.protein.specs.Job.{job_of, segments_of, shown_code};
ghost use Rattle.protein.specs.Places.{place_of, far};

use vectors::Vec3;

// The counts of a job: chains C, residues R, segments S, atoms A.
#[derive(Clone, Copy)]
pub struct Head {
    pub chains: u16,
    pub residues: u16,
    pub segments: u16,
    pub atoms: u16,
}

// The segment records of a job: a part of its bytes.
pub fn records<'a>(b: &'a [u8], h: Head) -> &'a [u8]
    requires { Whole b.now h }
    ensures { result.now ≡ records_of b.now h }
{
    let from = 13 + (h.chains as usize);
    let end = from + 9 * (h.segments as usize);
    &b[from..end]
}

// Where an atom's record stands.
pub fn atom_at(h: Head, a: usize) -> usize
    requires { a ≤ 65536 }
    ensures { result ≡ atom_at h a }
{
    13 + (h.chains as usize) + 9 * (h.segments as usize) + 33 * a
}

// Whether a chain's code stands for a visible chain, or for none.
pub fn is_shown(b: &[u8], h: Head, code: usize) -> bool
    requires { Whole b.now h × (code ≤ h.chains) }
    ensures { result ≡ shown_code (job_of b.now h) code }
{
    if code == 0 {
        return true;
    }
    numbers::byte_at(b, 12 + code) == 1
}

// A segment's kind, and the serials that it starts and ends with, from the records q.
pub fn kind(q: &[u8], i: usize) -> usize
    requires { i < (segments_of q.now).count }
    ensures { (result ≡ (segments_of q.now).kind i) × (result < 256) }
{
    numbers::byte_at(q, 9 * i)
}

pub fn start(q: &[u8], i: usize) -> usize
    requires { i < (segments_of q.now).count }
    ensures { (result ≡ (segments_of q.now).start i) × (result < 4294967296) }
{
    numbers::u32_at(q, 9 * i + 1)
}

pub fn stop(q: &[u8], i: usize) -> usize
    requires { i < (segments_of q.now).count }
    ensures { (result ≡ (segments_of q.now).stop i) × (result < 4294967296) }
{
    numbers::u32_at(q, 9 * i + 5)
}

// An atom's serial, its role, and its residue and chain, where 65535 is none.
pub fn serial(b: &[u8], h: Head, a: usize) -> usize
    requires { Whole b.now h × a < h.atoms }
    ensures { result ≡ (job_of b.now h).serial a }
{
    numbers::u32_at(b, atom_at(h, a))
}

pub fn role(b: &[u8], h: Head, a: usize) -> usize
    requires { Whole b.now h × a < h.atoms }
    ensures { result ≡ (job_of b.now h).role a }
{
    numbers::byte_at(b, atom_at(h, a) + 4)
}

pub fn residue(b: &[u8], h: Head, a: usize) -> usize
    requires { Whole b.now h × a < h.atoms }
    ensures { result ≡ (job_of b.now h).residue a }
{
    numbers::u16_at(b, atom_at(h, a) + 5)
}

pub fn chain(b: &[u8], h: Head, a: usize) -> usize
    requires { Whole b.now h × a < h.atoms }
    ensures { (result ≡ (job_of b.now h).chain a) × (result < 65536) }
{
    numbers::u16_at(b, atom_at(h, a) + 7)
}

// The position of atom a, counted from 1, narrowed.
pub fn place(b: &[u8], h: Head, a: usize) -> Vec3
    requires { Whole b.now h × (0 < a) × (a ≤ h.atoms) }
    ensures { result ≡ place_of b.now h a }
{
    let at = atom_at(h, a - 1);
    let x = floats::narrow::narrow(numbers::u64_at(b, at + 9));
    let y = floats::narrow::narrow(numbers::u64_at(b, at + 17));
    let z = floats::narrow::narrow(numbers::u64_at(b, at + 25));
    Vec3 { x, y, z }
}

// Whether the step from p to q is longer than 5.0: the constant MAX_COIL_STEP_ANG.
pub fn is_long(p: Vec3, q: Vec3) -> bool
    ensures { result ≡ far p q }
{
    5.0 < (q - p).length()
}
