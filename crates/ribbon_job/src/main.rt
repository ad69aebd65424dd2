// The program `ribbon-job`: reads a PDB file, the one that is named or standard input, and writes its job to standard output. What was read, or why there is no
// job, it says on standard error.
#![tactic(auto)]

use files::{Source, Undone};
use std::io::Stdout;
use words::Else;

// Room of so many bytes. It comes from a function of its own, since a proof that sees so long an array's zeros counts them one by one.
fn room<const N: usize>() -> [u8; N] {
    [0; N]
}

// Says what was read, and writes the job, or says why it cannot be written: a job that is cut short is none.
fn send(to: Stdout, file: &[u8], job: &[u8]) -> Result<(), Undone> {
    pdb_notes::tell(file, job);
    files::told(
        files::write(to, job),
        b"ribbon-job: the job cannot be written",
    )
}

// Writes the job of a file, or says why there is none.
fn write_job(to: Stdout, file: &[u8], job: &mut [u8]) -> Result<(), Undone> {
    let a = pdb_reader::read_pdb(file, job);
    match a {
        Ok(n) => send(to, file, &job[..n]),
        Err(r) => {
            pdb_notes::tell_refused(file, r);
            Err(Undone::Told)
        }
    }
}

// Writes the job of the file that is read. The room for both stays below the 8 MiB that a system gives a program's stack.
fn convert(from: &Source, to: Stdout) -> Result<(), Undone> {
    let mut file: [u8; 5000001] = room();
    let mut job: [u8; 2100000] = room();
    let got = files::read_all(from, &mut file);
    let n = files::told(got, b"ribbon-job: the file cannot be read")?;
    if 5000000 < n {
        words::explain_else(Else::LongFile);
        return Err(Undone::Told);
    }
    write_job(to, &file[..n], &mut job)
}

fn run(rt: &HostRuntime) -> Result<(), Undone> {
    let from = files::open_first(rt)?;
    convert(&from, rt.stdout())
}

fn main(rt: HostRuntime) {
    files::end(run(&rt));
}
