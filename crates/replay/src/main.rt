// Replays requests that were recorded with the oracle's answers, with no Rust at hand, and says which is answered otherwise.
#![tactic(auto)]

use files::{STDOUT_FILENO, Source, Undone, Unfilled};
use serve::{End, Run};
use stream::sink::{Mode, Sink};

// Says a number between two texts; 1 is the status where that fails too.
fn say(before: &[u8], n: u64, after: &[u8]) -> Result<(), Undone> {
    if !io::write_all(STDOUT_FILENO, before) {
        return Err(Undone::Told);
    }
    io::print_decimal(STDOUT_FILENO, n);
    if !io::write_all(STDOUT_FILENO, after) {
        return Err(Undone::Told);
    }
    Ok(())
}

fn told(before: &[u8], n: u64, after: &[u8]) -> Result<(), Undone> {
    say(before, n, after)?;
    Err(Undone::Told)
}

// The requests have ended; so must the answers.
fn report_end(answers: &Source, answered: u64) -> Result<(), Undone> {
    let mut more = [0u8; 1];
    match files::fill(answers, &mut more) {
        Err(Unfilled::Nothing) => say(b"", answered, b" requests are answered as recorded\n"),
        Ok(()) => told(b"answers.bin goes on after answer ", answered, b"\n"),
        Err(Unfilled::Cut) => Err(Undone::Told),
        Err(Unfilled::Failed(why)) => files::told(Err(why), b"answers.bin"),
    }
}

// Whether every request was answered as recorded, and all of them are there.
fn report(run: Run, answers: &Source) -> Result<(), Undone> {
    let answered = run.answered;
    match run.end {
        End::Whole => report_end(answers, answered),
        End::Cut => told(
            b"requests.bin ends within request ",
            answered,
            b", counted from 0\n",
        ),
        End::Unread(why) => files::told(Err(why), b"requests.bin"),
        End::Unsent(_) => told(
            b"request ",
            answered,
            b", counted from 0, is answered otherwise than recorded, or answers.bin ends or cannot be read\n",
        ),
    }
}

// Whether both files are there and agree.
fn replay(rt: &HostRuntime) -> Result<(), Undone> {
    let requests = files::open(rt, b"requests.bin")?;
    let answers = files::open(rt, b"answers.bin")?;
    let mut s = Sink::new(Mode::Compare(answers.descriptor()));
    report(serve::serve_all(&requests, &mut s), &answers)
}

fn main(rt: HostRuntime) {
    files::end(replay(&rt));
}
