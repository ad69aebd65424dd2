// The records of the job: what a line gives, by the tables of a survey, and the walk that writes them.
ghost use Rattle.std.specs.Prelude.{◌≡◌, [], ◌∷◌, ◌+◌, ◌*◌, ◌<◌, ◌≤◌, length, get_or, IfSome, MatchOption};
ghost use Rattle.appearance.specs.Index.{is_key};
ghost use Rattle.lists.specs.Search.{last};
ghost use Rattle.lists.specs.Put.{put};
ghost use Rattle.pdb_file.specs.Reading.{records, atoms_in, segments_in, atoms_of, segments_of, letters};
ghost use Rattle.pdb_survey.specs.Tables.{Residues, Marks};
ghost use Rattle.pdb_job.specs.Structure.{to_atom, to_segment, chains_of};
ghost use Rattle.pdb_job.specs.Parts.{Held, segments_from, atoms_from};

use appearance::Lookup;
use job_writer::{JobAtom, JobSegment};
use pdb_records::{AtomLine, Record, SegmentLine};

// What the table `ends` has from place `base` on for a residue that was found; 0 for none.
fn serial_at(ends: &[u64; 32768], base: usize, found: Option<usize>) -> u64
    requires { (base ≤ 16384) × IfSome found (λ i. i < 16384) }
    ensures { MatchOption found (result ≡ 0) (λ i. result ≡ get_or ends.now (base + i) 0) }
{
    match found {
        Some(i) => ends[base + i],
        None => 0,
    }
}

// Where the next segment and the next atom of the job go.
#[derive(Drop)]
pub struct Places {
    pub segment: usize,
    pub atom: usize,
}

// A file, and the tables of its residues and its chains: what the records of its job are written from.
#[derive(Clone, Copy)]
pub struct FileTables<'a> {
    pub text: &'a [u8],
    pub index: Lookup<'a>,
    pub ends: &'a [u64; 32768],
    pub marks: &'a [usize; 256],
    ghost residues: { Residues index.keys.now index.links.now ends.now index.n (atoms_of text.now) },
    ghost chains: { Marks marks.now (chains_of (atoms_of text.now)) (letters (atoms_of text.now)) },
}

impl<'a> FileTables<'a> {
    // A segment of the job runs from the first atom of its first residue to the last of its last.
    fn to_segment(&self, g: SegmentLine) -> JobSegment
        ensures { result ≡ to_segment (atoms_of self.now.text.now) g }
    {
        let a = self.index.find(g.start);
        let start = serial_at(self.ends, 0, a);
        let b = self.index.find(g.end);
        let end = serial_at(self.ends, 16384, b);
        JobSegment {
            kind: g.kind,
            start,
            end,
        }
    }

    // An atom of the job, with its residue and its chain by number.
    fn to_atom(&self, x: AtomLine) -> JobAtom
        requires { (0 < last (is_key self.now.index.keys.now x.name) self.now.index.n) × (0 < get_or self.now.marks.now x.chain 0) }
        ensures { result ≡ to_atom (atoms_of self.now.text.now) x }
    {
        let residue = self.index.find(x.name).unwrap();
        let c = self.marks[x.chain as usize];
        JobAtom {
            serial: x.serial,
            role: x.role,
            residue: residue as u64,
            chain: (c - 1) as u64,
            x: x.x,
            y: x.y,
            z: x.z,
        }
    }

    // What a line gives the job, at its place, and the places after it.
    fn write_record(&self, out: &mut [u8], at: Places, r: Record) -> Places
        requires { (Held self.now.index.keys.now self.now.marks.now self.now.index.n r) × (at.segment + 9 * length (segments_in r) ≤ length out.old)
            × (at.atom + 33 * length (atoms_in r) ≤ length out.old) }
        ensures { (out.new ≡ put (put out.old at.segment (segments_from (atoms_of self.now.text.now) (r ∷ []))) at.atom
            (atoms_from (atoms_of self.now.text.now) (r ∷ []))) × (result.segment ≡ at.segment + 9 * length (segments_in r))
            × (result.atom ≡ at.atom + 33 * length (atoms_in r)) }
    {
        match r {
            Record::ASegment(g) => {
                let j = self.to_segment(g);
                job_writer::put_segment(out, at.segment, j);
                Places {
                    segment: at.segment + 9,
                    ..at
                }
            }
            Record::AnAtom(a) => {
                let j = self.to_atom(a);
                job_writer::put_atom(out, at.atom, j);
                Places {
                    atom: at.atom + 33,
                    ..at
                }
            }
            _ => at,
        }
    }

    // The job's segments from `first` on and its atoms from `second` on, in one walk over the file.
    pub fn write_records(&self, out: &mut [u8], first: usize, second: usize)
        requires { (first + 9 * length (segments_of self.now.text.now) ≤ second) × (second + 33 * length (atoms_of self.now.text.now) ≤ length out.old) }
        ensures { out.new ≡ put (put out.old first (segments_from (atoms_of self.now.text.now) (records self.now.text.now))) second
            (atoms_from (atoms_of self.now.text.now) (records self.now.text.now)) }
    {
        let mut places = Places {
            segment: first,
            atom: second,
        };
        for r in pdb_file::records(self.text) {
            places = self.write_record(out, places, r);
        }
    }
}
