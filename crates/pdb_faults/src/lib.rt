// The first line at fault, found with the tables of a survey.
#![tactic(auto)]

ghost use Rattle.std.specs.Prelude.{◌≡◌, false, is_some};
ghost use Rattle.appearance.specs.Index.{Keyed};
ghost use Rattle.pdb_file.specs.Reading.{records, atoms_of, names};
ghost use Rattle.pdb_file.specs.Faults.{first_atom, fault_of, fault_in};
ghost use Rattle.pdb_survey.specs.Lines.{own_faults, ahead};
ghost use Rattle.pdb_survey.specs.Tables.{Known};
ghost use Rattle.pdb_wanted.specs.Wanted.{Wanted};

use appearance::Lookup;
use pdb_file::Fault;
use pdb_records::Record;

// What a file's segments are judged by: an index of residues, and for each a bit that is 1 where the file has it. `more`: the file has residues that are
// not in the index.
#[derive(Clone, Copy)]
struct Residues<'a> {
    text: &'a [u8],
    keys: &'a [u64; 16384],
    links: &'a [usize; 32768],
    n: usize,
    bits: &'a [u8; 16384],
    more: bool,
    ghost wanted: { Wanted keys.now links.now bits.now n (names (atoms_of text.now)) },
    ghost all: { more ≡ false → Keyed keys.now n (names (atoms_of text.now)) },
}

impl<'a> Residues<'a> {
    // Whether the file has an atom of this residue. One that is not in the index is absent, unless there are more: then the file is searched.
    fn has(&self, name: u64) -> bool
        ensures { result ≡ is_some (first_atom name (atoms_of self.now.text.now)) }
    {
        let index = Lookup {
            keys: self.keys,
            links: self.links,
            n: self.n,
        };
        match index.find(name) {
            Some(i) => self.bits[i] == 1,
            None => self.more && pdb_file::is_present(self.text, name),
        }
    }

    fn fault_of(&self, line: usize, r: Record) -> Option<Fault>
        ensures { result ≡ fault_of (atoms_of self.now.text.now) line r }
    {
        match r {
            Record::Short => Some(Fault::LineShort(line)),
            Record::BadNumber => Some(Fault::LineWrong(line)),
            Record::ASegment(g) => {
                if self.has(g.start) && self.has(g.end) {
                    return None;
                }
                Some(Fault::NoResidue(line))
            }
            _ => None,
        }
    }
}

// The first line at fault. A survey told the first that is so by itself, and how many segments stand before it: no later line matters. Where there
// are more residues than the survey's tables hold, these are of no more use, and other indexes take their place.
pub fn find_fault(
    s: &[u8],
    keys: &mut [u64; 16384],
    links: &mut [usize; 32768],
    count: usize,
    more: bool,
    own: Option<Fault>,
    segments: usize,
) -> Option<Fault>
    requires { (Known keys.old links.old count more (names (atoms_of s.now))) × (own ≡ own_faults 1 (records s.now))
        × (segments ≡ ahead (records s.now)) }
    ensures { (result ≡ fault_in s.now) × (more ≡ false → (keys.new ≡ keys.old) × (links.new ≡ links.old)) }
{
    let mut bits = [1u8; 16384];
    let mut n = count;
    let mut line = 1;
    let mut left = segments;
    let mut walk = pdb_file::records(s);
    while 0 < left {
        let here = walk;
        let Some(r) = walk.next() else {
            return own;
        };
        n = pdb_wanted::refresh(here, keys, links, &mut bits, n, more, r);
        let residues = Residues {
            text: s,
            keys: &*keys,
            links: &*links,
            n,
            bits: &bits,
            more,
        };
        let f = residues.fault_of(line, r);
        if f.is_some() {
            return f;
        }
        left -= pdb_survey::count_segment(None, r);
        line += 1;
    }
    own
}
