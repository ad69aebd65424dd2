// The words that a person reads: of each refusal two lines, what is wrong, with its line, chain, segment or atom, and what to do about it, in one place for all
// programs. They go to standard error, behind the line with the refusal's number and what it carries.
#![tactic(auto)]

use files::{STDERR_FILENO, say};
use job::Refusal;

// What is at fault by its number, and the words behind it.
fn say_of(what: &[u8], n: usize, words: &[u8]) {
    say(what);
    io::print_decimal(STDERR_FILENO, n as u64);
    say(words);
}

// The refusals of a job's bytes, 1 to 8.
fn explain_job(r: Refusal) {
    match r {
        Refusal::BadLength => say(
            b"the job is not whole: it has under 13 bytes, or its first four bytes do not say how many follow\nwhat to do: make it again with ribbon-job; if nothing came at all, see what the program before this one said\n",
        ),
        Refusal::BadVersion(v) => say_of(
            b"the job's version, its fifth byte, is not 1 but ",
            v as usize,
            b"\nwhat to do: write a job of version 1 (docs/JOB.md), or make one with ribbon-job\n",
        ),
        Refusal::BadCounts => say(
            b"the job has more than 255 chains or more than 16384 residues\nwhat to do: build its chains in several jobs\n",
        ),
        Refusal::BadSize => say(
            b"the job's size is not that of its counts: 13 bytes, 1 for a chain, 9 for a segment, 33 for an atom\nwhat to do: compare what wrote the job with docs/JOB.md\n",
        ),
        Refusal::BadVisibility(n) => say_of(
            b"chain ",
            n,
            b", counted from 0, is neither hidden, 0, nor visible, 1\nwhat to do: set its byte to 0 or 1 (docs/JOB.md)\n",
        ),
        Refusal::BadKind(n) => say_of(
            b"segment ",
            n,
            b", counted from 0, has a kind above 2\nwhat to do: write 0 for a coil, 1 for a helix, 2 for a sheet (docs/JOB.md)\n",
        ),
        Refusal::BadAtom(n) => say_of(
            b"atom ",
            n,
            b", counted from 0, has a role above 2, or a residue or a chain that the job does not have\nwhat to do: compare it with the job's counts (docs/JOB.md); 65535 stands for none\n",
        ),
        Refusal::BadCoordinate(n) => say_of(
            b"atom ",
            n,
            b", counted from 0, has a coordinate that is not within -16384 to 16384\nwhat to do: correct the atom, or move the structure nearer to the origin\n",
        ),
        _ => {}
    }
}

// The refusals of a builder's room, 9 to 11.
fn explain_room(r: Refusal) {
    match r {
        Refusal::NoScratch => say(
            b"the job has more residues than this program serves: ribbon-plan takes 512, ribbon 16384, or 1024 where the system gives it no long stack\nwhat to do: make the model with ribbon, under a higher limit of the stack (ulimit -Hs says it; 262144 are needed), or use the library (include/ribbon.h)\n",
        ),
        Refusal::TooManyVertices => say(
            b"the mesh would have more than 1048576 vertices\nwhat to do: split the file by its chains, or hide chains of the job, and build them one by one\n",
        ),
        Refusal::NoRoom(_, v, _) => say_of(
            b"the mesh has ",
            v,
            b" vertices, and there is room for fewer; the three numbers are its tubes, vertices and triangles\nwhat to do: lend buffers for so many; of ribbon: raise the limit of the stack (ulimit -Hs says it; 262144 are needed), or use the library (include/ribbon.h)\n",
        ),
        _ => {}
    }
}

// The refusals of a PDB file, 12 to 16.
fn explain_file(r: Refusal) {
    match r {
        Refusal::ShortLine(n) => say_of(
            b"line ",
            n,
            b" ends before its last column, which is 54 for ATOM, 38 for HELIX and SHEET\nwhat to do: fetch the file again if it was cut; if trailing blanks were stripped, pad its lines with blanks to 80 columns\n",
        ),
        Refusal::BadNumber(n) => say_of(
            b"a serial, a sequence number or a coordinate is not right in line ",
            n,
            b"\nwhat to do: correct the columns; serials past 99999 and residues past 9999 do not fit a PDB file: split it by its chains\n",
        ),
        Refusal::AbsentResidue(n) => say_of(
            b"the helix or strand in line ",
            n,
            b" begins or ends at a residue that no ATOM line has\nwhat to do: shorten it to residues that have ATOM lines (a modified residue often stands in HETATM lines alone), or leave the line out\n",
        ),
        Refusal::PastLimits => say(
            b"a job has at most 255 chains, 16384 residues, 65535 segments and 65535 atoms, and the file has more\nwhat to do: split the file by its chains\n",
        ),
        Refusal::NoJobRoom(n) => say_of(
            b"the job has ",
            n,
            b" bytes, and this program has less room: ribbon-job 2100000, ribbon 2752738, as many as any job has, or 1000000 where the system gives it no long stack\nwhat to do: raise the limit of the stack (ulimit -Hs says it; 262144 are needed), split the file by its chains, or use the library (include/ribbon.h)\n",
        ),
        _ => {}
    }
}

// The refusals of binary STL, 17 to 19: the writer's and the reader's 18 are told alike, by the number that they carry.
fn explain_stl(r: Refusal) {
    match r {
        Refusal::Inconsistent => say(
            b"the mesh buffers are not those of a mesh: too short for its counts, of more than 1048576 vertices, or a kind, a length, a start, the end or a corner is not what it must be\nwhat to do: hand over the buffers and the counts K, V and T as ribbon_build left them (docs/STL.md)\n",
        ),
        Refusal::NoStlRoom(_) => say(
            b"the lent room is too short: for writing the number is the file's size in bytes, for reading its triangles\nwhat to do: lend so many bytes; for reading nine corner floats and three normal floats for each triangle\n",
        ),
        Refusal::NotStl => say(
            b"this is no binary STL file: its size is not 84 bytes and 50 for each triangle that it counts\nwhat to do: fetch the file again if it was cut; a text STL (it begins with solid) has to be saved as binary first\n",
        ),
        _ => {}
    }
}

// The refusal of shares, 20.
fn explain_shares() {
    say(
        b"the two parties' shares overlap, or one leaves its buffer\nwhat to do: deal the shares anew: each within its buffer, and no place in two of them\n",
    );
}

// What a number means and what to do, for a reader who has no list of them at hand.
pub fn explain(r: Refusal) {
    match r {
        Refusal::BadLength
        | Refusal::BadVersion(_)
        | Refusal::BadCounts
        | Refusal::BadSize
        | Refusal::BadVisibility(_)
        | Refusal::BadKind(_)
        | Refusal::BadAtom(_)
        | Refusal::BadCoordinate(_) => explain_job(r),
        Refusal::NoScratch | Refusal::TooManyVertices | Refusal::NoRoom(_, _, _) => explain_room(r),
        Refusal::ShortLine(_)
        | Refusal::BadNumber(_)
        | Refusal::AbsentResidue(_)
        | Refusal::PastLimits
        | Refusal::NoJobRoom(_) => explain_file(r),
        Refusal::Inconsistent | Refusal::NoStlRoom(_) | Refusal::NotStl => explain_stl(r),
        Refusal::BadShares => explain_shares(),
    }
}

// What is no numbered refusal, since a program's own room or the file's kind is at fault.
#[derive(Drop)]
pub enum Else {
    LongJob,
    LongFile,
    LongModel,
    NoStack,
    NoTube,
    Changed,
}

// The same two lines for these.
pub fn explain_else(e: Else) {
    match e {
        Else::LongJob => say(
            b"ribbon-plan takes jobs of 65536 bytes and 512 residues\nwhat to do: plan it with the library, which takes every job (include/ribbon.h)\n",
        ),
        Else::LongFile => say(
            b"too long: ribbon-job has room for a file of 5000000 bytes\nwhat to do: split the file by its chains, or read it with the library, which has no such limit (include/ribbon.h)\n",
        ),
        Else::LongModel => say(
            b"too long: ribbon has room for a file of 134217728 bytes\nwhat to do: take out what is not read, such as all models but the first, or read it with the library, which has no such limit (include/ribbon.h)\n",
        ),
        Else::NoStack => say(
            b"too long: the system gives this program no long stack, and without it ribbon has room for a file of 1500000 bytes\nwhat to do: raise the limit of the stack (ulimit -Hs says it; 262144 are needed), or use the library (include/ribbon.h)\n",
        ),
        Else::NoTube => say(
            b"nothing to build: the file has no two neighbouring residues with a C-alpha each, so that there is no tube\nwhat to do: see that it is the PDB file of a protein, with ATOM lines\n",
        ),
        Else::Changed => say(
            b"the file changed while it was read, so that a part of it may be missing\nwhat to do: wait until whatever writes it has ended, and start again\n",
        ),
    }
}
