// The program `ribbon-plan`: reads a job, from the file that is named or from standard input, and prints its counts and its tubes, or the refusal.
#![tactic(auto)]

use files::{Source, Undone};
use std::io::Stdout;
use words::Else;

// Prints one line whole.
fn print(to: Stdout, line: &[u8]) -> Result<(), Undone> {
    files::told(
        files::write(to, line),
        b"ribbon-plan: the plan cannot be written",
    )
}

// One tube's line, from a plan call of its own.
fn print_tube(
    to: Stdout,
    job: &[u8],
    k: usize,
    words: &mut [u32],
    floats: &mut [f32],
) -> Result<(), Undone> {
    let a = ribbon::plan(job, k, words, floats);
    match a {
        Ok(plan) => {
            let f = plan.words;
            let mut line = [0u8; 256];
            let n = ribbon_text::tube_line(
                &mut line, k, f.kind, f.first, f.length, f.vertex, f.triangle,
            );
            print(to, &line[..n])
        }
        Err(_) => Err(Undone::Told),
    }
}

fn print_tubes(
    to: Stdout,
    job: &[u8],
    tubes: usize,
    words: &mut [u32],
    floats: &mut [f32],
) -> Result<(), Undone> {
    for k in 0..tubes {
        print_tube(to, job, k, words, floats)?;
    }
    Ok(())
}

// Prints the whole plan, or why there is none.
fn print_plan(to: Stdout, job: &[u8], words: &mut [u32], floats: &mut [f32]) -> Result<(), Undone> {
    let mut line = [0u8; 256];
    let a = ribbon::plan(job, 0, words, floats);
    match a {
        Ok(plan) => {
            let c = plan.counts;
            let n = ribbon_text::totals_line(&mut line, c.tubes, c.vertices, c.triangles);
            print(to, &line[..n])?;
            print_tubes(to, job, c.tubes, words, floats)
        }
        Err(r) => {
            let n = ribbon_text::refused_line(&mut line, r);
            let _ = print(to, &line[..n]);
            words::explain(r);
            Err(Undone::Told)
        }
    }
}

// Prints the plan of an input's job.
fn plan(from: &Source, to: Stdout) -> Result<(), Undone> {
    // one byte more than is accepted, so that a longer job shows
    let mut job = [0u8; 65537];
    let mut words = [0u32; 4096];
    let mut floats = [0.0f32; 16384];
    let got = files::read_all(from, &mut job);
    let n = files::told(got, b"ribbon-plan: the job cannot be read")?;
    if 65536 < n {
        let _ = print(to, b"too long\n");
        words::explain_else(Else::LongJob);
        return Err(Undone::Told);
    }
    print_plan(to, &job[..n], &mut words, &mut floats)
}

fn run(rt: &HostRuntime) -> Result<(), Undone> {
    let from = files::open_first(rt)?;
    plan(&from, rt.stdout())
}

fn main(rt: HostRuntime) {
    files::end(run(&rt));
}
