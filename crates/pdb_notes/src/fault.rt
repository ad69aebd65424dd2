// The line that a refusal names, as it stands in the file, and which of its columns are at fault.
ghost use Rattle.std.specs.Prelude.{◌≤◌, length};

use crate::quote::say_bytes;
use files::{STDERR_FILENO, say};
use pdb_records::{Kind, Record};

// Where line `n` begins, counted from 1.
fn place_of(s: &[u8], n: usize) -> usize
    ensures { result ≤ length s.now }
{
    let mut at = 0;
    let mut line = 1;
    // no range: a line says where the next one begins
    while at < s.len() && line < n {
        at = pdb_lines::line_at(s, at).next;
        line += 1;
    }
    at
}

fn is_serial(l: &[u8]) -> bool
    requires { length l.now ≤ 8 }
{
    pdb_fields::whole_in(l).is_some_and(|n| !n.minus)
}

// The first number of an ATOM line that is not right.
fn blame_atom(l: &[u8]) {
    if l.len() < 54 {
        return;
    }
    if !is_serial(&l[6..11]) {
        say(b"its columns 7 to 11 are no serial: digits between blanks\n");
        return;
    }
    if pdb_fields::whole_in(&l[22..26]).is_none() {
        say_no_number(b"its columns 23 to 26");
        return;
    }
    if pdb_fields::thousandths_in(&l[30..38]).is_none() {
        say(b"its columns 31 to 38, x, are no number with a point and three digits behind it\n");
        return;
    }
    if pdb_fields::thousandths_in(&l[38..46]).is_none() {
        say(b"its columns 39 to 46, y, are no number with a point and three digits behind it\n");
        return;
    }
    if pdb_fields::thousandths_in(&l[46..54]).is_none() {
        say(b"its columns 47 to 54, z, are no number with a point and three digits behind it\n");
    }
}

// The words are put together before they are said: they go out in one write, so that nothing that others write comes between.
fn say_no_number(columns: &[u8; 20]) {
    let mut text =
        *b"its columns 00 to 00 are no residue number: a minus or none, and digits, between blanks\n";
    text[..20].copy_from_slice(columns);
    say(&text);
}

// A HELIX or SHEET line: which of its two residue numbers is not right. The first one's columns depend on its kind, and are named by `columns`.
fn blame_segment(l: &[u8], from: usize, columns: &[u8; 20])
    requires { from ≤ 34 }
{
    if l.len() < 38 {
        return;
    }
    if pdb_fields::whole_in(&l[from..from + 4]).is_none() {
        say_no_number(columns);
    } else {
        say_no_number(b"its columns 34 to 37");
    }
}

fn blame_number(l: &[u8]) {
    let k = pdb_records::kind_of(l);
    match k {
        Kind::Atom => blame_atom(l),
        Kind::Helix => blame_segment(l, 21, b"its columns 22 to 25"),
        Kind::Sheet => blame_segment(l, 22, b"its columns 23 to 26"),
        _ => {}
    }
}

// The residue at the start of a helix or a strand, or at its end: name, chain letter, number and insertion code, by the columns of its kind.
fn say_residue(l: &[u8], k: Kind, start: bool) {
    if l.len() < 38 {
        return;
    }
    let helix = k == Kind::Helix;
    let residue = match (start, helix) {
        (true, true) => &l[15..26],
        (true, false) => &l[17..27],
        (false, true) => &l[27..38],
        (false, false) => &l[28..38],
    };
    say_bytes(residue, true);
}

fn blame_residue(s: &[u8], l: &[u8]) {
    let k = pdb_records::kind_of(l);
    let r = pdb_records::record_of(k, l);
    if let Record::ASegment(g) = r {
        say(b"no right ATOM line has its residue ");
        say_residue(l, k, !pdb_file::is_present(s, g.start));
        say(b"\n");
    }
}

// What a refusal says of a line: the line itself, and what in it is at fault.
#[derive(Drop)]
pub enum Blame {
    Length,
    Digits,
    Residue,
}

pub fn blame_line(s: &[u8], n: usize, b: Blame) {
    let at = place_of(s, n);
    if s.len() <= at {
        return;
    }
    let l = pdb_lines::line_at(s, at);
    let to = l.to;
    say(b"line ");
    io::print_decimal(STDERR_FILENO, n as u64);
    say(b": ");
    say_bytes(&s[at..to], false);
    say(b"\n");
    match b {
        Blame::Length => {}
        Blame::Digits => blame_number(&s[at..to]),
        Blame::Residue => blame_residue(s, &s[at..to]),
    }
}
