// The lines of a PDB file that tell what was read of it and what was not: C-alphas in ATOM lines and in HETATM lines, END lines, MODEL lines, lines that are nearly
// a record. No answer of a call depends on them; what a person is told does.
#![tactic(auto)]

ghost use Rattle.std.specs.Prelude.{◌≡◌, false, ◌&&◌, cond, ◌≤◌, length};
ghost use Rattle.pdb_lines.specs.Columns.{named};
ghost use Rattle.pdb_records.specs.Records.{atom_of};
ghost use Rattle.pdb_file.specs.Reading.{stops};
ghost use Rattle.pdb_search.specs.Kinds.{is_alpha, is_end, has_letters, is_misspelt, name_in, passes, everywhere, lines_of};
ghost use Rattle.pdb_search.specs.Post.{Found};

use pdb_records::{Kind, Record};

// Which lines: MODEL lines, END lines, ATOM lines and the items of an mmCIF file, in the whole file; of the lines that are read, C-alphas in ATOM and in HETATM lines, and
// lines that begin as a record does and are none.
#[derive(Clone, Copy)]
pub enum What {
    Models,
    Ends,
    Alphas,
    Heteros,
    Misspelt,
    Items,
    Atoms,
}

// Where a line stands, where the next one begins, and whether a MODEL line was read up to there.
#[derive(Drop)]
pub struct Spot {
    pub at: usize,
    pub to: usize,
    pub next: usize,
    pub seen: bool,
}

fn is_alpha(r: Record) -> bool
    ensures { result ≡ is_alpha r }
{
    match r {
        Record::AnAtom(a) => a.role == 1,
        _ => false,
    }
}

fn name_of(r: Record) -> u64
    ensures { result ≡ name_in r }
{
    match r {
        Record::AnAtom(a) => a.name,
        _ => 0,
    }
}

// The residue that the line of an atom names, in ATOM lines and in HETATM lines alike.
#[tactic(auto, unfolding(pdb_records::specs::Records::of_kind))]
pub fn name_in(l: &[u8]) -> u64
    ensures { result ≡ name_in (atom_of l.now) }
{
    name_of(pdb_records::record_of(Kind::Atom, l))
}

// A C-alpha in a line of the name.
#[tactic(auto, unfolding(pdb_records::specs::Records::of_kind))]
fn is_alpha_line(l: &[u8], name: &[u8]) -> bool
    ensures { result ≡ (named name.now 1 l.now && is_alpha (atom_of l.now)) }
{
    pdb_lines::is_at(l, 0, name) && is_alpha(pdb_records::record_of(Kind::Atom, l))
}

fn is_end(l: &[u8]) -> bool
    ensures { result ≡ is_end l.now }
{
    pdb_lines::is_at(l, 0, b"END") && (l.len() <= 3 || l[3] == 32)
}

fn has_letters(l: &[u8]) -> bool
    ensures { result ≡ has_letters l.now }
{
    pdb_lines::is_at(l, 0, b"ATOM")
        || pdb_lines::is_at(l, 0, b"HELIX")
        || pdb_lines::is_at(l, 0, b"SHEET")
}

fn is_misspelt(l: &[u8]) -> bool
    ensures { result ≡ is_misspelt l.now }
{
    has_letters(l) && pdb_records::kind_of(l) == Kind::Other
}

#[tactic(auto, unfolding(crate::specs::Kinds::passes))]
fn is_wanted(w: What, l: &[u8]) -> bool
    ensures { result ≡ passes w l.now }
{
    match w {
        What::Models => pdb_lines::is_at(l, 0, b"MODEL "),
        What::Ends => is_end(l),
        What::Alphas => is_alpha_line(l, b"ATOM  "),
        What::Heteros => is_alpha_line(l, b"HETATM"),
        What::Misspelt => is_misspelt(l),
        What::Items => pdb_lines::is_at(l, 0, b"_atom_site"),
        What::Atoms => pdb_lines::is_at(l, 0, b"ATOM  "),
    }
}

// Whether the search ends before a line of this kind.
fn is_over(w: What, seen: bool, k: Kind) -> bool
    ensures { result ≡ cond (everywhere w) false (stops seen k) }
{
    match w {
        What::Models | What::Ends | What::Items | What::Atoms => false,
        _ => pdb_file::stops_at(seen, k),
    }
}

// The next line of a kind from a place of the file on.
pub fn next_line(s: &[u8], at: usize, seen: bool, w: What) -> Option<Spot>
    requires { at ≤ length s.now }
    ensures { Found w s.now at seen result }
{
    let mut from = at;
    let mut model = seen;
    while from < s.len() {
        let l = pdb_lines::line_at(s, from);
        let to = l.to;
        let next = l.next;
        let k = pdb_records::kind_of(&s[from..to]);
        if is_over(w, model, k) {
            return None;
        }
        let v = pdb_file::saw_model(model, k);
        if is_wanted(w, &s[from..to]) {
            return Some(Spot {
                at: from,
                to,
                next,
                seen: v,
            });
        }
        from = next;
        model = v;
    }
    None
}

// How many lines of a kind there are.
pub fn count_lines(s: &[u8], w: What) -> usize
    ensures { result ≡ length (lines_of w s.now) }
{
    let mut at = 0;
    let mut seen = false;
    let mut n = 0;
    loop {
        let Some(p) = next_line(s, at, seen, w) else {
            return n;
        };
        n += 1;
        at = p.next;
        seen = p.seen;
    }
}
