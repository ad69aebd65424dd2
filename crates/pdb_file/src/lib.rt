// A walk over the records of a PDB file.
#![tactic(auto)]

pub mod walk;

ghost use Rattle.std.specs.Prelude.{◌≡◌, is_some};
ghost use Rattle.pdb_file.specs.Reading.{stops, saw, atoms_of};
ghost use Rattle.pdb_file.specs.Faults.{found_in, first_atom};
ghost use Rattle.pdb_file.specs.Steps.{Stepped, bytes_left, Begins};

use pdb_records::{Kind, Record};
pub use walk::Walk;

#[derive(Clone, Copy)]
pub enum Fault {
    LineShort(usize),
    LineWrong(usize),
    NoResidue(usize),
}

// Whether reading ends before a line of this kind; `seen`: a MODEL line was read.
pub fn stops_at(seen: bool, k: Kind) -> bool
    ensures { result ≡ stops seen k }
{
    match k {
        Kind::Model => seen,
        Kind::Endmdl => true,
        _ => false,
    }
}

pub fn saw_model(seen: bool, k: Kind) -> bool
    ensures { result ≡ saw seen k }
{
    match k {
        Kind::Model => true,
        _ => seen,
    }
}

impl<'a> Iterator for Walk<'a> {
    type Item = Record;

    ghost next_gives = { Stepped };

    ghost remaining = { bytes_left };

    fn next(&mut self) -> Option<Record> {
        let s = self.text;
        let at = self.at;
        if s.len() <= at {
            return None;
        }
        let l = pdb_lines::line_at(s, at);
        let line = &s[at..l.to];
        let k = pdb_records::kind_of(line);
        if stops_at(self.seen, k) {
            return None;
        }
        self.at = l.next;
        self.seen = saw_model(self.seen, k);
        Some(pdb_records::record_of(k, line))
    }
}

// All records of a file.
pub fn records<'a>(s: &'a [u8]) -> Walk<'a>
    ensures { Begins s.now result }
{
    Walk {
        text: s,
        at: 0,
        seen: false,
    }
}

fn found_in(name: u64, r: Record) -> Option<u64>
    ensures { result ≡ found_in name r }
{
    match r {
        Record::AnAtom(a) if a.name == name => Some(a.serial),
        _ => None,
    }
}

// The serial of a residue's first atom.
fn first_atom(s: &[u8], name: u64) -> Option<u64>
    ensures { result ≡ first_atom name (atoms_of s.now) }
{
    for r in records(s) {
        if let Some(x) = found_in(name, r) {
            return Some(x);
        }
    }
    None
}

// Whether an atom of the file is of this residue: the whole file is read up to it.
pub fn is_present(s: &[u8], name: u64) -> bool
    ensures { result ≡ is_some (first_atom name (atoms_of s.now)) }
{
    first_atom(s, name).is_some()
}
