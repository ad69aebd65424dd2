// Residue tables in lent scratch: for each residue an atom, counted from 1, or 0.
#![tactic(auto)]

ghost use Rattle.std.specs.Prelude.{◌≡◌, true, ℕ, ◌+◌, ◌-◌, ◌≤◌, ◌<◌, length, get_or, eqb};
ghost use Rattle.lists.specs.Search.{last};
ghost use Rattle.protein.specs.Layout.{Whole};
ghost use Rattle.tables.specs.Wants.{wants, gives, found, chain_of};
ghost use Rattle.stretch.specs.Stretch.{Reaches, Met, ranged};
ghost use Rattle.tables.specs.Table.{keeps, Noted, Filling, Narrowed};
ghost use Rattle.protein.specs.Job.{job_of};
ghost use Rattle.scratch.specs.Scratch.{Filled};

use protein::Head;
use stretch::{Part, Range};

// Which atoms a table asks for.
#[derive(Clone, Copy)]
pub enum Want {
    Chain,
    Alpha,
    SegmentAlpha(Range),
    SegmentOxygen(Range),
}

// Which of the atoms asked for: the first of a residue, or the last.
#[derive(Clone, Copy)]
pub enum Which {
    First,
    Last,
}

fn has_role(b: &[u8], h: Head, a: usize, role: usize) -> bool
    requires { Whole b.now h × a < h.atoms }
    ensures { result ≡ eqb ((job_of b.now h).role a) role }
{
    protein::role(b, h, a) == role
}

// Whether a table asks for atom a. For a segment's two tables `note_inside` asks less, since it knows that the atom is in the range.
fn is_wanted(b: &[u8], h: Head, w: Want, a: usize) -> bool
    requires { Whole b.now h × a < h.atoms }
    ensures { result ≡ wants (job_of b.now h) w a }
{
    match w {
        Want::Chain => protein::chain(b, h, a) != 65535,
        Want::Alpha => has_role(b, h, a, 1),
        Want::SegmentAlpha(g) => {
            if has_role(b, h, a, 1) {
                return stretch::is_inside(g, protein::serial(b, h, a));
            }
            false
        }
        Want::SegmentOxygen(g) => {
            if has_role(b, h, a, 2) {
                return stretch::is_inside(g, protein::serial(b, h, a));
            }
            false
        }
    }
}

// Whether an entry stays though a later atom is asked for.
fn is_kept(which: Which, v: u32) -> bool
    ensures { result ≡ keeps which v }
{
    match which {
        Which::First => v != 0,
        Which::Last => false,
    }
}

// Atom a is noted for its residue, if it is asked for and its residue is of the part: one more than a, in the table at base, unless the entry stays.
fn note(
    b: &[u8],
    h: Head,
    which: Which,
    w: Want,
    a: usize,
    residues: Part,
    t: &mut [u32],
    base: usize,
)
    requires whole { Whole b.now h × (a < h.atoms) × (base + h.residues ≤ length t.old) × (residues.to ≤ h.residues) }
    requires by_index { (r : ℕ) → r < residues.to - residues.from
        → get_or t.old (base + residues.from + r) 0 ≡ found which (gives (job_of b.now h) w (residues.from + r)) a }
    ensures { Filled (λ r. found which (gives (job_of b.now h) w (residues.from + r)) (a + 1))
        (base + residues.from) (residues.to - residues.from) t.old t.new }
{
    if !is_wanted(b, h, w, a) {
        return;
    }
    let r = protein::residue(b, h, a);
    if r < residues.from {
        return;
    }
    if residues.to <= r {
        return;
    }
    if is_kept(which, t[base + r]) {
        return;
    }
    t[base + r] = (a + 1) as u32;
}

// For each residue one more than the first or the last atom asked for, or 0, in the table at base, where those places are 0 before.
pub fn fill(b: &[u8], h: Head, which: Which, w: Want, t: &mut [u32], base: usize)
    requires whole { Whole b.now h × (base + h.residues ≤ length t.old) }
    requires by_index { (r : ℕ) → r < h.residues → get_or t.old (base + r) 0 ≡ 0 }
    ensures { Filled (λ r. found which (gives (job_of b.now h) w r) h.atoms) base h.residues t.old t.new }
{
    let residues = Part {
        from: 0,
        to: h.residues as usize,
    };
    let n = h.atoms as usize;
    for a in 0..n {
        note(b, h, which, w, a, residues, t, base);
    }
}

// Atom a, which is in the range, is noted for its residue: a C-alpha, and if the tables are to be full an oxygen. Answers the part of the residues whose
// C-alphas were seen, with its own.
fn note_inside(
    b: &[u8],
    h: Head,
    g: Range,
    full: bool,
    a: usize,
    residues: Part,
    seen: Part,
    t: &mut [u32],
    alphas: usize,
    oxygens: usize,
) -> Part
    requires whole { Whole b.now h × (a < h.atoms) × (alphas + h.residues ≤ oxygens) × (oxygens + h.residues ≤ length t.old)
        × (residues.to ≤ h.residues) }
    requires a_value { (ranged (job_of b.now h) g a ≡ true) × Met (job_of b.now h) (ranged (job_of b.now h) g) h.atoms residues }
    requires filling { Filling (job_of b.now h) g full residues alphas oxygens t.old t.old seen a }
    ensures { Filling (job_of b.now h) g full residues alphas oxygens t.old t.new result (a + 1) }
{
    let role = protein::role(b, h, a);
    if role == 0 {
        return seen;
    }
    let all = h.residues as usize;
    let r = protein::residue(b, h, a);
    if all <= r {
        return seen;
    }
    if role == 1 {
        t[alphas + r] = (a + 1) as u32;
        return stretch::widened(seen, all, r);
    }
    if !full {
        return seen;
    }
    if role != 2 {
        return seen;
    }
    t[oxygens + r] = (a + 1) as u32;
    seen
}

// A segment's tables from one reading of a part of the atoms, in which all in the range stand: for each residue of a part one more than its last C-alpha in the
// range, or 0, in the table at `alphas`, and if they are to be full its last oxygen in the one at `oxygens`, where those places are 0 before. Answers a part of
// the residues in which those of the C-alphas in the range stand.
pub fn fill_segment(
    b: &[u8],
    h: Head,
    g: Range,
    full: bool,
    atoms: Part,
    residues: Part,
    t: &mut [u32],
    alphas: usize,
    oxygens: usize,
) -> Part
    requires whole { Whole b.now h × (alphas + h.residues ≤ oxygens) × (oxygens + h.residues ≤ length t.old)
        × (residues.from ≤ residues.to) × (residues.to ≤ h.residues) × (g.stop < 4294967296) }
    requires reaches { Reaches (job_of b.now h) g atoms × Met (job_of b.now h) (ranged (job_of b.now h) g) h.atoms residues
        × Noted (job_of b.now h) g full 0 residues alphas oxygens t.old t.old }
    ensures { Noted (job_of b.now h) g full h.atoms residues alphas oxygens t.old t.new
        × Narrowed (job_of b.now h) g residues result }
{
    let n = atoms.to;
    let mut seen = Part {
        from: residues.to,
        to: residues.from,
    };
    // no range: from an atom in the range it goes on to the next one
    let mut a = stretch::first_inside(b, h, g, atoms.from, n);
    while a < n {
        seen = note_inside(b, h, g, full, a, residues, seen, t, alphas, oxygens);
        a = stretch::first_inside(b, h, g, a + 1, n);
    }
    if seen.to < seen.from {
        return Part { from: 0, to: 0 };
    }
    seen
}

// Turns the atoms of the first table, which `fill` wrote for `Want::Chain`, into codes of chains: 0, or one more than the chain.
pub fn to_chains(b: &[u8], h: Head, t: &mut [u32])
    requires whole { Whole b.now h × (h.residues ≤ length t.old) }
    requires by_index { (r : ℕ) → r < h.residues → get_or t.old r 0 ≡ last (gives (job_of b.now h) Want.Chain r) h.atoms }
    ensures { Filled (chain_of (job_of b.now h)) 0 h.residues t.old t.new }
{
    let n = h.residues as usize;
    for i in 0..n {
        let a = t[i] as usize;
        if a != 0 {
            t[i] = (protein::chain(b, h, a - 1) + 1) as u32;
        }
    }
}
