// The public call `read_pdb`: from the bytes of a PDB file to a version 1 job in a lent buffer, or one refusal. What it promises,
// `Reads`, stands in specs/Call.
#![tactic(auto)]

ghost use Rattle.std.specs.Prelude.{◌≡◌, length};
ghost use Rattle.pdb_file.specs.Reading.{atoms_of};
ghost use Rattle.pdb_survey.specs.Tables.{Noted};
ghost use Rattle.pdb_job.specs.Structure.{Structure, structure_of};
ghost use Rattle.pdb_reader.specs.Call.{past_limits, refusal_of, read_checks, read_by, Reads};
ghost use Rattle.pdb_job.specs.Counted.{Counted};

use appearance::Lookup;
use job::Refusal;
use pdb_file::Fault;
use pdb_job::FileTables;
use pdb_survey::FileCounts;

fn is_past_limits(c: FileCounts, segments: usize) -> bool
    ensures { (x : Structure) → Counted x c segments → result ≡ past_limits x }
{
    // Tests in a row: as one `||` it was tried, and the proof did not close.
    if c.more {
        return true;
    }
    if 255 < c.chains {
        return true;
    }
    if 65535 < segments {
        return true;
    }
    65535 < c.atoms
}

// Checks 15 and 16 of a file with no fault, and its job.
fn read_right<'a>(
    s: &'a [u8],
    keys: &'a [u64; 16384],
    links: &'a [usize; 32768],
    ends: &'a [u64; 32768],
    marks: &'a [usize; 256],
    c: FileCounts,
    segments: usize,
    out: &mut [u8],
) -> Result<usize, Refusal>
    requires { (Noted keys.now links.now ends.now marks.now c (atoms_of s.now)) × (Counted (structure_of s.now) c segments) }
    ensures { (result ≡ read_checks (structure_of s.now) (length out.old))
        × (out.new ≡ read_by result s.now out.old) }
{
    if is_past_limits(c, segments) {
        return Err(Refusal::PastLimits);
    }
    let size = 13 + c.chains + 9 * segments + 33 * c.atoms;
    if out.len() < size {
        return Err(Refusal::NoJobRoom(size));
    }
    let index = Lookup {
        keys,
        links,
        n: c.residues,
    };
    let tables = FileTables {
        text: s,
        index,
        ends,
        marks,
    };
    pdb_job::write_job(&tables, c, segments, out);
    Ok(size)
}

fn refusal_of(f: Fault) -> Refusal
    ensures { result ≡ refusal_of f }
{
    match f {
        Fault::LineShort(n) => Refusal::ShortLine(n),
        Fault::LineWrong(n) => Refusal::BadNumber(n),
        Fault::NoResidue(n) => Refusal::AbsentResidue(n),
    }
}

// Reads a PDB file: a version 1 job at the front of `out`, whose size it answers, or a refusal, which leaves `out` as it was. The tables are the reader's own.
pub fn read_pdb(s: &[u8], out: &mut [u8]) -> Result<usize, Refusal>
    ensures { Reads s.now out.old result out.new }
{
    let mut keys = [0u64; 16384];
    let mut links = [0usize; 32768];
    let mut ends = [0u64; 32768];
    let mut marks = [0usize; 256];
    let v = pdb_survey::survey(s, &mut keys, &mut links, &mut ends, &mut marks);
    let c = v.counts;
    let own = v.fault;
    let segments = v.ahead;
    let fault = pdb_faults::find_fault(s, &mut keys, &mut links, c.residues, c.more, own, segments);
    if let Some(f) = fault {
        return Err(refusal_of(f));
    }
    if c.more {
        return Err(Refusal::PastLimits);
    }
    read_right(s, &keys, &links, &ends, &marks, c, segments, out)
}
