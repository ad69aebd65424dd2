// Which of the residues that segments name a file has. Where there are more than the tables of a survey hold, many are looked for in one walk.
#![tactic(auto)]

ghost use Rattle.std.specs.Prelude.{◌≡◌, true, false, List, [], ◌∷◌, ◌++◌, ℕ, length};
ghost use Rattle.appearance.specs.Index.{Index};
ghost use Rattle.pdb_records.specs.declared.AtomLine.{AtomLine};
ghost use Rattle.pdb_file.specs.Reading.{atoms_in, atoms_of, names};
ghost use Rattle.pdb_wanted.specs.Wanted.{Wanted};

use appearance::Lookup;
use pdb_file::Walk;
use pdb_records::Record;

// An empty index.
fn forget(links: &mut [usize; 32768])
    ensures { (k : List ℕ) → length k ≡ 16384 → Index k links.new 0 }
{
    *links = [0usize; 32768];
}

// The number of names with those of this line's segment, if it gives one.
fn want_ends(keys: &mut [u64; 16384], links: &mut [usize; 32768], n: usize, r: Record) -> usize
    requires { Index keys.old links.old n }
    ensures { Index keys.new links.new result }
{
    match r {
        Record::ASegment(g) => {
            let m = appearance::add(keys, links, n, g.start);
            appearance::add(keys, links, m, g.end)
        }
        _ => n,
    }
}

// The bit of this name is 1 from now on, if the name is wanted.
fn note_name<'a>(index: &Lookup<'a>, bits: &mut [u8; 16384], name: u64)
    ensures { (l : List ℕ) → Wanted index.now.keys.now index.now.links.now bits.old index.now.n l
        → Wanted index.now.keys.now index.now.links.now bits.new index.now.n (l ++ (name ∷ [])) }
{
    if let Some(i) = index.find(name) {
        bits[i] = 1;
    }
}

// The bits with the atom of this line, if it gives one.
fn note_atom<'a>(index: &Lookup<'a>, bits: &mut [u8; 16384], r: Record)
    ensures { (l : List AtomLine) → Wanted index.now.keys.now index.now.links.now bits.old index.now.n (names l)
        → Wanted index.now.keys.now index.now.links.now bits.new index.now.n (names (l ++ atoms_in r)) }
{
    if let Record::AnAtom(a) = r {
        note_name(index, bits, a.name);
    }
}

// The names of the segments from a place of the file on, until the index is full: how many.
fn gather<'a>(from: Walk<'a>, keys: &mut [u64; 16384], links: &mut [usize; 32768]) -> usize
    requires { Index keys.old links.old 0 }
    ensures { Index keys.new links.new result }
{
    let mut n = 0;
    for r in from {
        if 16383 <= n {
            return n;
        }
        n = want_ends(keys, links, n, r);
    }
    n
}

// Which of the names are those of the file's residues, in one walk over the file.
fn note_atoms<'a>(s: &[u8], index: &Lookup<'a>, bits: &mut [u8; 16384])
    requires { Wanted index.now.keys.now index.now.links.now bits.old index.now.n [] }
    ensures { Wanted index.now.keys.now index.now.links.now bits.new index.now.n (names (atoms_of s.now)) }
{
    for r in pdb_file::records(s) {
        note_atom(index, bits, r);
    }
}

// Both ends of this line's segment, if it gives one, are in the index.
fn are_in<'a>(index: &Lookup<'a>, r: Record) -> bool {
    match r {
        Record::ASegment(g) => index.find(g.start).is_some() && index.find(g.end).is_some(),
        _ => true,
    }
}

// The index serves for this line. One that holds all residues of the file, where there are no more, serves for each.
fn serves<'a>(index: &Lookup<'a>, more: bool, r: Record) -> bool
    ensures { more ≡ false → result ≡ true }
{
    !more || are_in(index, r)
}

// An index that serves for the line `r`, where `from` is: the one at hand, or one of the names from this line on.
pub fn refresh<'a>(
    from: Walk<'a>,
    keys: &mut [u64; 16384],
    links: &mut [usize; 32768],
    bits: &mut [u8; 16384],
    n: usize,
    more: bool,
    r: Record,
) -> usize
    requires { Wanted keys.old links.old bits.old n (names (atoms_of from.text.now)) }
    ensures { (Wanted keys.new links.new bits.new result (names (atoms_of from.entry.text.now)))
        × (more ≡ false → (keys.new ≡ keys.old) × (links.new ≡ links.old) × (result ≡ n)) }
{
    let at_hand = Lookup {
        keys: &*keys,
        links: &*links,
        n,
    };
    if serves(&at_hand, more, r) {
        return n;
    }
    forget(links);
    let m = gather(from, keys, links);
    *bits = [0u8; 16384];
    let index = Lookup {
        keys: &*keys,
        links: &*links,
        n: m,
    };
    note_atoms(from.text, &index, bits);
    m
}
