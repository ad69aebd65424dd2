// Where a chain's ribbon comes apart, and which residues no tube holds: why a print comes in parts. Two residues that tubes hold and that follow each other in
// their chain are a break where no tube holds both. It is told on standard error, and no byte of the model depends on it.
#![tactic(auto)]

ghost use Rattle.std.specs.Prelude.{◌≡◌, ◌+◌, ◌*◌, ◌≤◌, ◌<◌, length};
ghost use Rattle.protein.specs.Layout.{Whole};
ghost use Rattle.appearance.specs.Index.{Index};

use files::{STDERR_FILENO, say};
use pdb_records::Record;
use protein::Head;

// Three tables of 16,384 places, one for each residue: whether a tube holds it; from 16,384 on, whether a tube holds it and the next one; from 32,768 on, whether
// it has a C-alpha.
fn mark(marks: &mut [u8; 49152], at: usize) {
    if at < 49152 {
        marks[at] = 1;
    }
}

fn is_marked(marks: &[u8; 49152], at: usize) -> bool {
    at < 49152 && marks[at] == 1
}

// A residue of a tube; `more`: the tube holds the next one too.
fn mark_residue(marks: &mut [u8; 49152], r: usize, more: bool)
    requires { r < 16384 }
{
    mark(marks, r);
    if more {
        mark(marks, 16384 + r);
    }
}

// The residues of one tube, which follow each other.
fn mark_tube(marks: &mut [u8; 49152], first: usize, n: usize) {
    if 16384 < first {
        return;
    }
    if 16384 - first < n {
        return;
    }
    for i in 0..n {
        mark_residue(marks, first + i, i + 1 < n);
    }
}

fn mark_tubes(marks: &mut [u8; 49152], tubes: &[u32]) {
    for t in tubes.chunks_exact(5) {
        mark_tube(marks, t[1] as usize, t[2] as usize);
    }
}

fn mark_alpha(marks: &mut [u8; 49152], role: usize, r: usize) {
    if role != 1 {
        return;
    }
    if r < 16384 {
        mark(marks, 32768 + r);
    }
}

fn mark_alphas(marks: &mut [u8; 49152], job: &[u8], h: Head)
    requires { Whole job.now h }
{
    let atoms = h.atoms as usize;
    for a in 0..atoms {
        mark_alpha(marks, protein::role(job, h, a), protein::residue(job, h, a));
    }
}

// The residue that a record names, behind those that came before it: residues are numbered by first appearance, as the reader numbers them.
fn add_name(keys: &mut [u64; 16384], links: &mut [usize; 32768], n: usize, r: Record) -> usize
    requires { Index keys.old links.old n }
    ensures { Index keys.new links.new result }
{
    match r {
        Record::AnAtom(a) => appearance::add(keys, links, n, a.name),
        _ => n,
    }
}

fn list_names(s: &[u8], keys: &mut [u64; 16384], links: &mut [usize; 32768])
    requires { Index keys.old links.old 0 }
{
    let mut n = 0;
    for r in pdb_file::records(s) {
        n = add_name(keys, links, n, r);
    }
}

fn name_of(keys: &[u64; 16384], r: usize) -> u64 {
    if r < 16384 {
        return keys[r];
    }
    0
}

// The letter of a name's chain: specs/Records of pdb_records has how a name is put together.
fn letter_of(name: u64) -> u8
    ensures { result < 256 }
{
    (name / 2199023255552 % 256) as u8
}

fn say_byte(b: u8) {
    if (b' '..=b'~').contains(&b) {
        say(&[b]);
    } else {
        say(b"?");
    }
}

fn say_chain(name: u64) {
    say(b"chain ");
    let c = letter_of(name);
    if c == 32 {
        say(b"(blank)");
        return;
    }
    say_byte(c);
}

// A residue's number, and its insertion code where it has one.
fn say_residue(name: u64) {
    let n = name / 256 % 8589934592;
    if n < 4294967296 {
        say(b"-");
        io::print_decimal(STDERR_FILENO, 4294967296 - n);
    } else {
        io::print_decimal(STDERR_FILENO, n - 4294967296);
    }
    let code = (name % 256) as u8;
    if code != 32 {
        say_byte(code);
    }
}

fn say_break(before: u64, after: u64) {
    say(b"break: ");
    say_chain(after);
    say(b" between residues ");
    say_residue(before);
    say(b" and ");
    say_residue(after);
    say(b"\n");
}

// Whether a tube holds both residues.
fn is_joined(marks: &[u8; 49152], a: usize, b: usize) -> bool
    requires { a < 65536 }
{
    a + 1 == b && is_marked(marks, 16384 + a)
}

// How many breaks there are up to residue r, of which n were before it. The table has, for each letter, the last residue of that chain in a tube.
fn visit(
    keys: &[u64; 16384],
    marks: &[u8; 49152],
    last: &mut [Option<u16>; 256],
    r: usize,
    n: usize,
) -> usize
    requires { (r < 16384) × (n ≤ r) }
    ensures { result ≤ r + 1 }
{
    if !is_marked(marks, r) {
        return n;
    }
    let name = keys[r];
    let c = letter_of(name) as usize;
    let found = last[c];
    last[c] = Some(r as u16);
    let Some(before) = found else {
        return n;
    };
    let before = usize::from(before);
    if is_joined(marks, before, r) {
        return n;
    }
    if n < 12 {
        say_break(name_of(keys, before), name);
    }
    n + 1
}

// After a list of n, of which twelve are named: how many more there are, and what the list means.
fn say_end(and: &[u8], n: usize, meaning: &[u8]) {
    if n == 0 {
        return;
    }
    if 12 < n {
        say(and);
        io::print_decimal(STDERR_FILENO, (n - 12) as u64);
        say(b" more\n");
    }
    say(meaning);
}

fn tell_breaks(keys: &[u64; 16384], marks: &[u8; 49152], residues: usize)
    requires { residues ≤ 16384 }
{
    let mut last = [None; 256];
    let mut n = 0;
    for r in 0..residues {
        n = visit(keys, marks, &mut last, r, n);
    }
    say_end(
        b"break: and ",
        n,
        b"break: the print comes in loose parts there: a residue is missing, C-alphas stand more than 5 angstrom apart, or two helices or strands meet\n",
    );
}

fn is_alone(marks: &[u8; 49152], r: usize) -> bool
    requires { r < 16384 }
{
    !is_marked(marks, r) && is_marked(marks, 32768 + r)
}

fn visit_alone(keys: &[u64; 16384], marks: &[u8; 49152], r: usize, n: usize) -> usize
    requires { (r < 16384) × (n ≤ r) }
    ensures { result ≤ r + 1 }
{
    if !is_alone(marks, r) {
        return n;
    }
    if n < 12 {
        let name = keys[r];
        say(b"alone: ");
        say_chain(name);
        say(b" residue ");
        say_residue(name);
        say(b"\n");
    }
    n + 1
}

fn tell_alone(keys: &[u64; 16384], marks: &[u8; 49152], residues: usize)
    requires { residues ≤ 16384 }
{
    let mut n = 0;
    for r in 0..residues {
        n = visit_alone(keys, marks, r, n);
    }
    say_end(
        b"alone: and ",
        n,
        b"note: a residue alone has no neighbour with a C-alpha within 5 angstrom, so that no tube holds it: it is not in the print\n",
    );
}

// What a person is told of a file's mesh whose tube records these are.
pub fn tell(file: &[u8], job: &[u8], h: Head, tubes: &[u32])
    requires { Whole job.now h }
{
    let mut keys = [0u64; 16384];
    let mut links = [0usize; 32768];
    let mut marks = [0u8; 49152];
    list_names(file, &mut keys, &mut links);
    mark_tubes(&mut marks, tubes);
    mark_alphas(&mut marks, job, h);
    let residues = h.residues as usize;
    if residues <= 16384 {
        tell_breaks(&keys, &marks, residues);
        tell_alone(&keys, &marks, residues);
    }
}
