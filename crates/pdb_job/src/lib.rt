// The job that a PDB file stands for: what it is (specs/Structure), and its bytes, written by the tables of a survey.
#![tactic(auto)]

pub mod records;

ghost use Rattle.std.specs.Prelude.{◌≡◌, ◌≤◌, length};
ghost use Rattle.lists.specs.Put.{put};
ghost use Rattle.pdb_job.specs.Structure.{structure_size, structure_of, pdb_job};
ghost use Rattle.pdb_job.specs.Counted.{Counted, Limited};

use pdb_survey::FileCounts;
pub use records::FileTables;

// The job of a file whose counts fit its head, in a buffer with room for it.
pub fn write_job<'a>(t: &FileTables<'a>, c: FileCounts, segments: usize, out: &mut [u8])
    requires { (Counted (structure_of t.now.text.now) c segments) × (Limited (structure_of t.now.text.now))
        × (structure_size (structure_of t.now.text.now) ≤ length out.old) }
    ensures { out.new ≡ put out.old 0 (pdb_job t.now.text.now) }
{
    let chains = c.chains;
    job_writer::put_head(
        out,
        1,
        33,
        chains as u64,
        c.residues as u64,
        segments as u64,
        c.atoms as u64,
    );
    job_writer::put_visible(out, 13, chains);
    let first = 13 + chains;
    t.write_records(out, first, first + 9 * segments);
}
