// What a person is told of a PDB file, on standard error: what was read, what was left out, and where a refused file is at fault. None of it is a refusal, and no
// answer depends on it: a line that begins with `note:` goes with a job that was written.
#![tactic(auto)]

mod fault;
mod left_out;
mod quote;

use fault::{Blame, blame_line};
use files::{STDERR_FILENO, say};
use job::Refusal;
use left_out::count_residues;
use pdb_search::{What, count_lines, next_line};
use quote::say_bytes;

fn say_number(name: &[u8], n: usize) {
    say(name);
    io::print_decimal(STDERR_FILENO, n as u64);
}

// The counts of the job, and the C-alphas among its atoms.
fn tell_counts(job: &[u8], alphas: usize) {
    if job.len() < 13 {
        return;
    }
    say_number(b"note: read: chains ", numbers::u16_at(job, 5));
    say_number(b" residues ", numbers::u16_at(job, 7));
    say_number(b" segments ", numbers::u16_at(job, 9));
    say_number(b" atoms ", numbers::u16_at(job, 11));
    say_number(b" C-alphas ", alphas);
    say(b"\n");
}

// A file with no ATOM line may be something else.
fn tell_form(s: &[u8]) {
    say(b"note: no ATOM line was read: ");
    if 0 < count_lines(s, What::Atoms) {
        say(b"the first model has none, and what follows its ENDMDL is not read\n");
        return;
    }
    say(b"is this a PDB file? ");
    if pdb_lines::is_at(s, 0, &[31u8, 139u8]) {
        say(b"It is packed by gzip: unpack it first (gunzip)\n");
        return;
    }
    if 0 < count_lines(s, What::Items) {
        say(b"It looks like mmCIF, which is not read yet: take the PDB file of the structure\n");
        return;
    }
    if is_wide(s) {
        say(b"It is UTF-16 text: save it as plain ASCII\n");
        return;
    }
    if s.len() == 0 {
        say(b"It is empty\n");
        return;
    }
    if is_one_line(s) {
        say(b"Its lines end at CR alone: turn each CR into an LF (tr '\\r' '\\n')\n");
        return;
    }
    say(b"Such a line begins with ATOM and two blanks, in capitals\n");
}

// The mark of UTF-16 text.
fn is_wide(s: &[u8]) -> bool {
    pdb_lines::is_at(s, 0, &[255u8, 254u8]) || pdb_lines::is_at(s, 0, &[254u8, 255u8])
}

fn has_atoms(job: &[u8]) -> bool {
    13 <= job.len() && 0 < numbers::u16_at(job, 11)
}

fn tell_alphas(alphas: usize) {
    if alphas == 0 {
        say(
            b"note: no atom is a C-alpha, so there is nothing to draw: an atom's name stands in columns 13 to 16, a C-alpha's is ' CA '\n",
        );
    }
}

// CR alone ends no line: the whole file is one.
fn is_one_line(s: &[u8]) -> bool {
    !s.contains(&b'\n') && s.contains(&b'\r')
}

fn tell_line(s: &[u8]) {
    if is_one_line(s) {
        say(
            b"note: the lines end at CR alone, so that the whole file is one line: turn each CR into an LF (tr '\\r' '\\n')\n",
        );
    }
}

// Lines that were passed over for the sake of one column.
fn tell_misspelt(s: &[u8]) {
    if pdb_lines::is_at(s, 0, &[239u8, 187u8, 191u8]) {
        say(
            b"note: the file begins with a byte-order mark, so that its first line is passed over: save it as plain ASCII\n",
        );
    }
    let Some(p) = next_line(s, 0, false, What::Misspelt) else {
        return;
    };
    let from = p.at;
    let to = p.to;
    say_number(
        b"note: lines that begin as ATOM, HELIX or SHEET and are passed over, since all six columns of a name count: ",
        count_lines(s, What::Misspelt),
    );
    say(b"; the first is: ");
    say_bytes(&s[from..to], false);
    say(b"\n");
}

// Those that could not be told by name, since the index of residues is full.
fn tell_unnamed(s: &[u8], modelled: usize) {
    if modelled < 16384 {
        return;
    }
    if 0 < count_lines(s, What::Heteros) {
        say(
            b"note: residues whose C-alphas stand in HETATM lines alone are left out; there are too many residues to name them\n",
        );
    }
}

fn tell_left_out(s: &[u8]) {
    let r = count_residues(s);
    if r.resolved <= r.modelled {
        tell_unnamed(s, r.modelled);
        return;
    }
    say_number(b" (residues: ", r.resolved - r.modelled);
    if r.resolved == 16384 {
        say(b" or more");
    }
    say(b"); the ribbon lacks them, and a helix or strand over one comes in pieces\n");
}

fn tell_ends(s: &[u8]) {
    let models = count_lines(s, What::Models);
    if 1 < models {
        say_number(b"note: models: ", models);
        say(b"; the first is read\n");
    }
    if count_lines(s, What::Ends) == 0 {
        say(
            b"note: no END line: is the file whole? What is cut off here is missing from the model\n",
        );
    }
}

// What was read of a file whose job was written, and what was not.
pub fn tell(s: &[u8], job: &[u8]) {
    tell_counts(job, count_lines(s, What::Alphas));
    tell_notes(s, job);
}

// The same without the counts.
pub fn tell_notes(s: &[u8], job: &[u8]) {
    tell_misspelt(s);
    tell_left_out(s);
    if has_atoms(job) {
        tell_alphas(count_lines(s, What::Alphas));
        tell_line(s);
        tell_ends(s);
    } else {
        tell_form(s);
    }
}

// Why a file is refused: the refusal's number with what it carries, the line that it names, what is wrong and what to do.
pub fn tell_refused(s: &[u8], r: Refusal) {
    let mut line = [0u8; 256];
    let n = ribbon_text::refused_line(&mut line, r);
    io::write_all(STDERR_FILENO, &line[..n]);
    blame(s, r);
    words::explain(r);
    suspect(s);
}

// The line that a refusal names.
fn blame(s: &[u8], r: Refusal) {
    match r {
        Refusal::ShortLine(n) => blame_line(s, n, Blame::Length),
        Refusal::BadNumber(n) => blame_line(s, n, Blame::Digits),
        Refusal::AbsentResidue(n) => blame_line(s, n, Blame::Residue),
        _ => {}
    }
}

// A refused file may be something else.
fn suspect(s: &[u8]) {
    tell_line(s);
    if 0 < count_lines(s, What::Items) {
        say(
            b"the file looks like mmCIF, which is not read yet: take the PDB file of the structure\n",
        );
    }
}
