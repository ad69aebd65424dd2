// What every program here reads and writes with: a read that fails is told apart from the end of the input, and each program says at its end whether all went
// well. What a cut input gives is no whole file, and a part of a protein must never look like the whole of it.
#![tactic(auto)]

ghost use Rattle.std.specs.Prelude.{◌≡◌, ◌≤◌, length, Ok, IfOk, IfSome};

use std::env::{Env, FillError};
use std::fmt::InlineText;
use std::fs;
use std::fs::File;
use std::io::{Error, Print, Read, Seek, SeekFrom, Stdout};
use std::os::fd::AsRawFd;

pub const STDOUT_FILENO: i32 = 1;

pub const STDERR_FILENO: i32 = 2;

// The system's numbers for a name that is too long, and for one that is no text.
const ENAMETOOLONG: i32 = 36;

const EILSEQ: i32 = 84;

// What is read: standard input, by the runtime, or a file that was opened by its name.
#[derive(Drop)]
pub enum Source {
    Standard(HostRuntime),
    Named(File),
}

// Why a buffer was not filled: the input had ended before it; it ended within it; or a read failed.
#[derive(Clone, Copy)]
pub enum Unfilled {
    Nothing,
    Cut,
    Failed(Error),
}

impl From<Error> for Unfilled {
    fn from(why: Error) -> Unfilled {
        Unfilled::Failed(why)
    }
}

// A program has not done what it was asked: why was said, if it was worth a word. Told: its status is 1. Failed: it is 2, by which `ribbon` tells what could not be read,
// written or understood from a file that is refused.
#[derive(Clone, Copy)]
pub enum Undone {
    Told,
    Failed,
}

// One read, of at most as many bytes as buf has. The input has ended where it gives none.
fn read_some(from: &Source, buf: &mut [u8]) -> Result<usize, Error>
    ensures { IfOk result (λ n. n ≤ length buf.new) }
{
    match from {
        Source::Standard(rt) => rt.stdin().read(buf),
        Source::Named(file) => {
            let mut there = file;
            there.read(buf)
        }
    }
}

// Reads until the input ends or buf is full, and answers how many bytes it put there; where a read failed why, since what came before it is no whole file.
pub fn read_all(from: &Source, buf: &mut [u8]) -> Result<usize, Error>
    ensures { IfOk result (λ n. n ≤ length buf.new) }
{
    let mut done = 0;
    // no range: each read says how far it came
    while done < buf.len() {
        let n = read_some(from, &mut buf[done..])?;
        if n == 0 {
            return Ok(done);
        }
        done += n;
    }
    Ok(done)
}

// Reads exactly as many bytes as buf has, or tells why not.
pub fn fill(from: &Source, buf: &mut [u8]) -> Result<(), Unfilled> {
    let n = read_all(from, buf)?;
    if n == buf.len() {
        return Ok(());
    }
    Err(if n == 0 {
        Unfilled::Nothing
    } else {
        Unfilled::Cut
    })
}

// Writes all of the bytes to standard output.
pub fn write(to: Stdout, bytes: &[u8]) -> Result<(), Error> {
    to.write_all(bytes)
}

// Puts argument i at the front of buf and answers its length; none where there is no such argument, or it is longer than buf.
pub fn argument(rt: &HostRuntime, i: usize, buf: &mut [u8]) -> Option<usize>
    ensures { IfSome result (λ n. n ≤ length buf.new) }
{
    rt.arg(i, buf).ok()
}

// The file of a name, or that there is none, which was then said. A name that is no text names no file here.
pub fn open(rt: &HostRuntime, name: &[u8]) -> Result<Source, Undone> {
    let opened = match str::from_utf8(name) {
        Ok(path) => File::open(rt, path),
        Err(_) => Err(Error::from_raw_os_error(EILSEQ)),
    };
    Ok(Source::Named(told(opened, name)?))
}

// The file that the first argument names, standard input where there is none, or nothing, which was then said.
pub fn open_first(rt: &HostRuntime) -> Result<Source, Undone> {
    open_argument(rt, 1)
}

// The same of argument i.
pub fn open_argument(rt: &HostRuntime, i: usize) -> Result<Source, Undone> {
    let mut path = io::buffer();
    match rt.arg(i, &mut path) {
        Ok(n) => open(rt, &path[..n]),
        Err(FillError::NotPresent) => Ok(Source::Standard(*rt)),
        Err(FillError::TooLong) => told(
            Err(Error::from_raw_os_error(ENAMETOOLONG)),
            b"the file's name",
        ),
    }
}

impl Source {
    pub fn is_standard(&self) -> bool {
        match self {
            Source::Standard(_) => true,
            Source::Named(_) => false,
        }
    }

    // The descriptor that it is read by, which stays open while it is there.
    pub fn descriptor(&self) -> i32 {
        match self {
            Source::Standard(rt) => rt.stdin().as_raw_fd(),
            Source::Named(file) => file.as_raw_fd(),
        }
    }
}

// Where standard input stands in its file, as the system lists it.
fn place_of_input(rt: &HostRuntime) -> Option<u64> {
    let mut file = File::open(rt, "/proc/self/fdinfo/0").ok()?;
    let mut text = [0u8; 64];
    let n = file.read(&mut text).ok()?;
    let lines = str::from_utf8(&text[..n]).ok()?;
    let (place, _) = lines.strip_prefix("pos:\t")?.split_once('\n')?;
    place.parse::<u64>().ok()
}

// The same as below of standard input. It has no seek here, so that its file is looked at by name; where the system does not list the place it is n, as it is of
// an input that was read from its front.
fn is_input_settled(rt: &HostRuntime, n: usize) -> bool {
    match fs::metadata(rt, "/proc/self/fd/0") {
        Ok(seen) if seen.is_file() => seen.len() == place_of_input(rt).unwrap_or(n as u64),
        _ => true,
    }
}

fn is_file_settled(file: &File) -> bool {
    let mut there = file;
    let Ok(here) = there.stream_position() else {
        return true;
    };
    match there.seek(SeekFrom::End(0)) {
        Ok(end) => end == here,
        Err(_) => false,
    }
}

// Whether a file that was read to its end, n bytes in all, still ends where the reading stopped: one that was cut, or written on, meanwhile does not. What has no
// places, such as a pipe, ends where its writer ended.
pub fn is_settled(from: &Source, n: usize) -> bool {
    match from {
        Source::Standard(rt) => is_input_settled(rt, n),
        Source::Named(file) => is_file_settled(file),
    }
}

pub fn say(words: &[u8]) {
    io::write_all(STDERR_FILENO, words);
}

// The system's words for an error stand in front of its number.
fn words_in(text: &str) -> &str {
    match text.split_once(" (os error ") {
        Some((words, _)) => words,
        None => text,
    }
}

// Says what failed, and the system's words for why; those of number 0 where the system has no number for it.
pub fn fail(what: &[u8], why: Error) {
    let number = why.raw_os_error().unwrap_or(0);
    let text = InlineText::<128>::of(Error::from_raw_os_error(number));
    say(what);
    say(b": ");
    say(words_in(text.as_str()).as_bytes());
    say(b"\n");
}

// What was done; or what failed is said, and why.
pub fn told<T: Drop>(done: Result<T, Error>, what: &[u8]) -> Result<T, Undone>
    ensures { IfOk result (λ x. done ≡ Ok x) }
{
    match done {
        Ok(x) => Ok(x),
        Err(why) => {
            fail(what, why);
            Err(Undone::Told)
        }
    }
}

// A program has no exit status of its own: its last act is one byte to descriptor 3, by which whoever started it knows that it came to its end and how it went.
// Where nobody listens there, the write fails and nothing is lost.
pub fn end(done: Result<(), Undone>) {
    let status = match done {
        Ok(()) => b"0",
        Err(Undone::Told) => b"1",
        Err(Undone::Failed) => b"2",
    };
    io::write_all(3, status);
}
