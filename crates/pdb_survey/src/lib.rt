// One walk over a PDB file: the faults that lines have by themselves, the counts, and tables of its residues and chains.
#![tactic(auto)]

ghost use Rattle.std.specs.Prelude.{◌≡◌, List, [], ◌∷◌, ◌++◌, ℕ, ◌+◌, ◌<◌, ◌≤◌, false};
ghost use Rattle.appearance.specs.Index.{Index};
ghost use Rattle.pdb_file.specs.Reading.{atoms_in};
ghost use Rattle.pdb_survey.specs.Lines.{own_fault, segments_counted};
ghost use Rattle.pdb_survey.specs.Tables.{Marks, Noted, Surveyed};

use appearance::Lookup;
use pdb_file::Fault;
use pdb_records::{AtomLine, Record};

// How many atoms, residues and chains. `more`: a residue came that the tables have no place for, and nothing is counted from its first atom on.
#[derive(Clone, Copy)]
pub struct FileCounts {
    pub atoms: usize,
    pub residues: usize,
    pub chains: usize,
    pub more: bool,
}

// The counts, the first line that is at fault by itself, and how many segments stand before it.
#[derive(Drop)]
pub struct Overview {
    pub counts: FileCounts,
    pub fault: Option<Fault>,
    pub ahead: usize,
}

// The number of chains with this letter's.
fn mark(marks: &mut [usize; 256], letter: u8, c: usize) -> usize
    requires { c < 18446744073709551615 }
    ensures { ((l : List ℕ) → Marks marks.old c l → Marks marks.new result (l ++ (letter ∷ []))) × (result ≤ c + 1) }
{
    let i = letter as usize;
    if marks[i] == 0 {
        marks[i] = c + 1;
        return c + 1;
    }
    c
}

// The counts with this atom. Its serial is the last of its residue so far, and the first of a new one.
fn take_in(
    keys: &mut [u64; 16384],
    links: &mut [usize; 32768],
    ends: &mut [u64; 32768],
    marks: &mut [usize; 256],
    c: FileCounts,
    a: AtomLine,
) -> FileCounts
    requires { (Index keys.old links.old c.residues) × (c.chains ≤ c.atoms) × (c.atoms < 18446744073709551615) }
    ensures { ((l : List AtomLine) → Noted keys.old links.old ends.old marks.old c l
        → Noted keys.new links.new ends.new marks.new result (l ++ (a ∷ []))) × (result.chains ≤ result.atoms)
        × (result.atoms ≤ c.atoms + 1) }
{
    if c.more {
        return c;
    }
    let n = c.residues;
    let atoms = c.atoms + 1;
    let index = Lookup {
        keys: &*keys,
        links: &*links,
        n,
    };
    let found = index.find(a.name);
    let chains = mark(marks, a.chain, c.chains);
    if let Some(i) = found {
        ends[16384 + i] = a.serial;
        return FileCounts {
            atoms,
            residues: n,
            chains,
            more: false,
        };
    }
    if n == 16384 {
        return FileCounts { more: true, ..c };
    }
    appearance::enter(keys, links, n, a.name);
    ends[n] = a.serial;
    ends[16384 + n] = a.serial;
    FileCounts {
        atoms,
        residues: n + 1,
        chains,
        more: false,
    }
}

// The counts with the atom of this line, if it gives one.
fn note(
    keys: &mut [u64; 16384],
    links: &mut [usize; 32768],
    ends: &mut [u64; 32768],
    marks: &mut [usize; 256],
    c: FileCounts,
    r: Record,
) -> FileCounts
    requires { (Index keys.old links.old c.residues) × (c.chains ≤ c.atoms) × (c.atoms < 18446744073709551615) }
    ensures { ((l : List AtomLine) → Noted keys.old links.old ends.old marks.old c l
        → Noted keys.new links.new ends.new marks.new result (l ++ atoms_in r)) × (result.chains ≤ result.atoms)
        × (result.atoms ≤ c.atoms + 1) }
{
    match r {
        Record::AnAtom(a) => take_in(keys, links, ends, marks, c, a),
        _ => c,
    }
}

fn own_fault(line: usize, r: Record) -> Option<Fault>
    ensures { result ≡ own_fault line r }
{
    match r {
        Record::Short => Some(Fault::LineShort(line)),
        Record::BadNumber => Some(Fault::LineWrong(line)),
        _ => None,
    }
}

// 1 for a segment while no line is at fault.
pub fn count_segment(f: Option<Fault>, r: Record) -> usize
    ensures { (result ≡ segments_counted f r) × (result ≤ 1) }
{
    match (f, r) {
        (None, Record::ASegment(_)) => 1,
        _ => 0,
    }
}

// The whole file is read, also where it has more residues than the tables: its faults are wanted then too.
pub fn survey(
    s: &[u8],
    keys: &mut [u64; 16384],
    links: &mut [usize; 32768],
    ends: &mut [u64; 32768],
    marks: &mut [usize; 256],
) -> Overview
    requires { Noted keys.old links.old ends.old marks.old (record { atoms = 0; residues = 0; chains = 0; more = false }) [] }
    ensures { Surveyed s.now keys.new links.new ends.new marks.new result }
{
    let mut line = 1;
    let mut fault = None;
    let mut ahead = 0;
    let mut counts = FileCounts {
        atoms: 0,
        residues: 0,
        chains: 0,
        more: false,
    };
    for r in pdb_file::records(s) {
        fault = fault.or(own_fault(line, r));
        ahead += count_segment(fault, r);
        counts = note(keys, links, ends, marks, counts, r);
        line += 1;
    }
    Overview {
        counts,
        fault,
        ahead,
    }
}
