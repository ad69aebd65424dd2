// Checks 1 to 8 of a job's bytes, and the refusals of every call (01, 'Refusal numbers').
#![tactic(auto)]

ghost use Rattle.std.specs.Prelude.{◌≡◌, ℕ, true, false, not, ◌+◌, ◌≤◌, ◌<◌, length, MatchOption};
ghost use Rattle.lists.specs.Search.{first};
ghost use Rattle.numbers.specs.Bytes.{u64_at};
ghost use Rattle.job.specs.Coordinate.{within};
ghost use Rattle.job.specs.Refusals.{refusal_numbers};
ghost use Rattle.protein.specs.Layout.{Whole};
ghost use Rattle.protein.specs.Job.{segments_of};
ghost use Rattle.job.specs.Check.{found, sizes, contents, check, unshared, check_shared, stray, bad_visibility, bad_kind, bad_atom, bad_coordinate};

use numbers::{u16_at, u32_at};
use protein::Head;

// The refusals of every call in the order of their numbers, with what each carries: 01's 1 to 11, then those of 02 §1, the reader
// of PDB files, 12 to 16, of 02 §4, binary STL, 17 to 19, and of 02 §5, shares, 20. `number_of` and `carried` of specs/Refusals set
// out the tables.
#[derive(Clone, Copy)]
pub enum Refusal {
    BadLength,
    BadVersion(u8),
    BadCounts,
    BadSize,
    BadVisibility(usize),
    BadKind(usize),
    BadAtom(usize),
    BadCoordinate(usize),
    NoScratch,
    TooManyVertices,
    NoRoom(usize, usize, usize),
    ShortLine(usize),
    BadNumber(usize),
    AbsentResidue(usize),
    PastLimits,
    NoJobRoom(usize),
    Inconsistent,
    NoStlRoom(usize),
    NotStl,
    BadShares,
}

// A refusal's number, and the three values that it carries at most, 0 for those that it has not.
pub fn refusal_numbers(r: Refusal) -> [usize; 4]
    ensures { result ≡ refusal_numbers r }
{
    match r {
        Refusal::BadLength => [1, 0, 0, 0],
        Refusal::BadVersion(v) => [2, v as usize, 0, 0],
        Refusal::BadCounts => [3, 0, 0, 0],
        Refusal::BadSize => [4, 0, 0, 0],
        Refusal::BadVisibility(i) => [5, i, 0, 0],
        Refusal::BadKind(i) => [6, i, 0, 0],
        Refusal::BadAtom(i) => [7, i, 0, 0],
        Refusal::BadCoordinate(i) => [8, i, 0, 0],
        Refusal::NoScratch => [9, 0, 0, 0],
        Refusal::TooManyVertices => [10, 0, 0, 0],
        Refusal::NoRoom(k, v, t) => [11, k, v, t],
        Refusal::ShortLine(n) => [12, n, 0, 0],
        Refusal::BadNumber(n) => [13, n, 0, 0],
        Refusal::AbsentResidue(n) => [14, n, 0, 0],
        Refusal::PastLimits => [15, 0, 0, 0],
        Refusal::NoJobRoom(n) => [16, n, 0, 0],
        Refusal::Inconsistent => [17, 0, 0, 0],
        Refusal::NoStlRoom(n) => [18, n, 0, 0],
        Refusal::NotStl => [19, 0, 0, 0],
        Refusal::BadShares => [20, 0, 0, 0],
    }
}

// Checks 1 to 4.
pub fn check_sizes(b: &[u8]) -> Result<Head, Refusal>
    ensures { result ≡ sizes b.now }
{
    if b.len() < 13 {
        return Err(Refusal::BadLength);
    }
    if u32_at(b, 0) != b.len() - 4 {
        return Err(Refusal::BadLength);
    }
    let v = b[4];
    if v != 1 {
        return Err(Refusal::BadVersion(v));
    }
    let chains = u16_at(b, 5);
    let residues = u16_at(b, 7);
    let segments = u16_at(b, 9);
    let atoms = u16_at(b, 11);
    if 255 < chains {
        return Err(Refusal::BadCounts);
    }
    if 16384 < residues {
        return Err(Refusal::BadCounts);
    }
    if b.len() != 13 + chains + 9 * segments + 33 * atoms {
        return Err(Refusal::BadSize);
    }
    Ok(Head {
        chains: chains as u16,
        residues: residues as u16,
        segments: segments as u16,
        atoms: atoms as u16,
    })
}

// The first number below n at fault, where there is one.
fn find_fault<F: Fn(usize) -> bool>(n: usize, is_fault: F) -> Option<usize>
    requires { (i : ℕ) → i < n → F.pre is_fault i }
    ensures { MatchOption result ((k : ℕ) → k < n → F.post is_fault k false)
        (λ i. (i < n) × F.post is_fault i true × ((k : ℕ) → k < i → F.post is_fault k false)) }
{
    for i in 0..n {
        if is_fault(i) {
            return Some(i);
        }
    }
    None
}

pub fn find_visibility(b: &[u8], h: Head) -> Option<usize>
    requires { Whole b.now h }
    ensures { result ≡ found (first (bad_visibility b.now h) h.chains) }
{
    find_fault(h.chains as usize, |c| 1 < b[13 + c])
}

pub fn find_kind(q: &[u8]) -> Option<usize>
    ensures { result ≡ found (first (bad_kind q.now) (segments_of q.now).count) }
{
    find_fault(q.len() / 9, |i| 2 < protein::kind(q, i))
}

pub fn is_stray(limit: usize, v: usize) -> bool
    ensures { result ≡ stray limit v }
{
    if v == 65535 {
        return false;
    }
    limit <= v
}

pub fn is_bad_atom(b: &[u8], h: Head, a: usize) -> bool
    requires { Whole b.now h × a < h.atoms }
    ensures { result ≡ bad_atom b.now h a }
{
    if 2 < protein::role(b, h, a) {
        return true;
    }
    if is_stray(h.residues as usize, protein::residue(b, h, a)) {
        return true;
    }
    is_stray(h.chains as usize, protein::chain(b, h, a))
}

pub fn find_atom(b: &[u8], h: Head) -> Option<usize>
    requires { Whole b.now h }
    ensures { result ≡ found (first (bad_atom b.now h) h.atoms) }
{
    find_fault(h.atoms as usize, |a| is_bad_atom(b, h, a))
}

// Check 8 of the coordinate at a place, on its bits. The low half of the limit's bits is 0, so the high half nearly always decides.
pub fn is_outside(b: &[u8], at: usize) -> bool
    requires { at + 8 ≤ length b.now }
    ensures { result ≡ not (within (u64_at b.now at)) }
{
    let high = u32_at(b, at) % 0x8000_0000;
    let low = u32_at(b, at + 4);
    if high < 0x40D0_0000 {
        return false;
    }
    if 0x40D0_0000 < high {
        return true;
    }
    0 < low
}

pub fn is_bad_coordinate(b: &[u8], h: Head, a: usize) -> bool
    requires { Whole b.now h × a < h.atoms }
    ensures { result ≡ bad_coordinate b.now h a }
{
    let at = protein::atom_at(h, a);
    if is_outside(b, at + 9) {
        return true;
    }
    if is_outside(b, at + 17) {
        return true;
    }
    is_outside(b, at + 25)
}

pub fn find_coordinate(b: &[u8], h: Head) -> Option<usize>
    requires { Whole b.now h }
    ensures { result ≡ found (first (bad_coordinate b.now h) h.atoms) }
{
    find_fault(h.atoms as usize, |a| is_bad_coordinate(b, h, a))
}

// Checks 5 to 8, with the segment records `q`.
pub fn check_contents(b: &[u8], h: Head, q: &[u8]) -> Result<Head, Refusal>
    requires { Whole b.now h }
    ensures { result ≡ contents b.now h q.now }
{
    if let Some(c) = find_visibility(b, h) {
        return Err(Refusal::BadVisibility(c));
    }
    if let Some(i) = find_kind(q) {
        return Err(Refusal::BadKind(i));
    }
    if let Some(a) = find_atom(b, h) {
        return Err(Refusal::BadAtom(a));
    }
    if let Some(a) = find_coordinate(b, h) {
        return Err(Refusal::BadCoordinate(a));
    }
    Ok(h)
}

pub fn check_job(b: &[u8]) -> Result<Head, Refusal>
    ensures { result ≡ check b.now }
{
    let h = check_sizes(b)?;
    check_contents(b, h, protein::records(b, h))
}

// Check 4 of 02 §5: whether a job has segments of its own, or `n` bytes are not whole records, or are too many of them.
pub fn is_unshared(h: Head, n: usize) -> bool
    ensures { result ≡ unshared h n }
{
    if h.segments != 0 {
        return true;
    }
    if n % 9 != 0 {
        return true;
    }
    65535 < n / 9
}

// Checks 1 to 8 of a shared job with one party's records `q`.
pub fn check_shared(b: &[u8], q: &[u8]) -> Result<Head, Refusal>
    ensures { result ≡ check_shared b.now q.now }
{
    let h = check_sizes(b)?;
    if is_unshared(h, q.len()) {
        return Err(Refusal::BadSize);
    }
    check_contents(b, h, q)
}
