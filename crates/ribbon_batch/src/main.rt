// The program `ribbon-batch`: answers requests on standard input, one after the other, until it ends. Where it does not end behind a request, or an answer cannot
// be written, it says so on standard error.
#![tactic(auto)]

use files::{Source, Undone, say};
use serve::End;
use stream::sink::{Mode, Sink};

// Whether every request was answered.
fn report(end: End) -> Result<(), Undone> {
    match end {
        End::Whole => return Ok(()),
        End::Cut => say(b"ribbon-batch: the input ends within a request, which is not answered\n"),
        End::Unread(why) => files::fail(b"ribbon-batch: the input cannot be read", why),
        End::Unsent(why) => files::fail(b"ribbon-batch: an answer cannot be written", why),
    }
    Err(Undone::Told)
}

fn main(rt: HostRuntime) {
    let mut s = Sink::new(Mode::Write(rt.stdout()));
    let run = serve::serve_all(&Source::Standard(rt), &mut s);
    files::end(report(run.end));
}
