// Where answers go, a block at a time: they are written, or compared with answers that were recorded.
ghost use Rattle.std.specs.Prelude.{◌≡◌, ◌+◌, ◌*◌, ◌≤◌, ◌<◌, length};

use numbers::words::{Wire, put_all};
use std::io::{Error, Stdout};

// To standard output, or against the file behind a descriptor.
#[derive(Clone, Copy)]
pub enum Mode {
    Write(Stdout),
    Compare(i32),
}

// The first `at` bytes of the block wait to be handed on, and there is room for one more word. `sent` says that every block so far was written whole, or was as
// recorded, or why the last that was not was not.
#[derive(Clone, Copy)]
pub struct Sink {
    pub mode: Mode,
    block: [u8; 65536],
    pub at: usize,
    pub sent: Result<(), Error>,
    pub ghost ready: { at + 4 ≤ 65536 },
}

// Whether the bytes are those that come next in a file.
fn is_recorded(file: i32, bytes: &[u8]) -> bool {
    let mut there = io::large_buffer();
    let n = bytes.len();
    if 65536 < n {
        return false;
    }
    if io::read_full(file, &mut there[..n]) < n {
        return false;
    }
    check::same(bytes, &there[..n])
}

fn hand_on(mode: Mode, bytes: &[u8]) -> Result<(), Error> {
    match mode {
        Mode::Write(to) => files::write(to, bytes),
        Mode::Compare(file) if is_recorded(file, bytes) => Ok(()),
        Mode::Compare(_) => Err(Error::other("not as recorded")),
    }
}

impl Sink {
    pub fn new(mode: Mode) -> Sink
        ensures { result.at ≡ 0 }
    {
        Sink {
            mode,
            block: io::large_buffer(),
            at: 0,
            sent: Ok(()),
        }
    }

    // Hands on the first n bytes of the block.
    fn flush(&mut self, n: usize)
        requires { n ≤ 65536 }
        ensures { self.new.at ≡ 0 }
    {
        if let Err(why) = hand_on(self.mode, &self.block[..n]) {
            self.sent = Err(why);
        }
        self.at = 0;
    }

    // The first n bytes of the block are filled; they are handed on where there is no room for one more word.
    fn filled(&mut self, n: usize)
        requires { n ≤ 65536 }
    {
        if 65536 - n < 4 {
            self.flush(n);
        } else {
            self.at = n;
        }
    }

    pub fn send<T: Wire>(&mut self, items: &[T]) {
        let mut rest = items;
        // no range: as many at a time as the block has room for
        while !rest.is_empty() {
            let at = self.at;
            let n = ((65536 - at) / T::SIZE).min(rest.len());
            let (now, later) = rest.split_at(n);
            put_all(&mut self.block, at, now);
            self.filled(at + n * T::SIZE);
            rest = later;
        }
    }

    // Ends an answer: hands on what waits, and says whether every block went out.
    pub fn finish(&mut self) -> Result<(), Error>
        ensures { self.new.at ≡ 0 }
    {
        self.flush(self.at);
        self.sent
    }
}
