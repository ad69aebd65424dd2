// Residues that are left out of a job, since their C-alphas stand in HETATM lines: modified residues, such as selenomethionine. A ribbon has a gap there.
ghost use Rattle.std.specs.Prelude.{◌≡◌, ◌<◌, ◌≤◌};
ghost use Rattle.appearance.specs.Index.{Index, Gains};
ghost use Rattle.pdb_search.specs.Kinds.{lines_of};
ghost use Rattle.pdb_notes.specs.Notes.{names_of, modelled, resolved};

use crate::quote::say_bytes;
use files::say;
use pdb_search::{What, name_in, next_line};

// How many residues have a C-alpha in ATOM lines, and how many in ATOM or HETATM lines; 16,384 stands for so many or more.
#[derive(Drop)]
pub struct Residues {
    pub modelled: usize,
    pub resolved: usize,
}

// The name of a residue, from the columns of an ATOM or HETATM line; `before` were told before it, and no more than twelve are.
fn tell_name(l: &[u8], before: usize) {
    if before == 0 {
        say(b"note: left out, since their C-alphas stand in HETATM lines: ");
    } else if before <= 12 {
        say(b", ");
    }
    if before == 12 {
        say(b"and others");
    }
    if 12 <= before {
        return;
    }
    if l.len() < 27 {
        return;
    }
    say_bytes(&l[17..27], true);
}

// A residue that is new is told: there were `before` of them, and are `now` with it.
fn tell_new(tell: bool, l: &[u8], before: usize, now: usize) {
    if tell && before < now {
        tell_name(l, before);
    }
}

// The names of the residues in the lines of a kind, entered behind those that are there: how many there are with them. Those that are new are told.
fn gather(
    s: &[u8],
    w: What,
    keys: &mut [u64; 16384],
    links: &mut [usize; 32768],
    n: usize,
    tell: bool,
) -> usize
    requires { Index keys.old links.old n }
    ensures gains { Gains keys.old links.old n keys.new links.new result (names_of (lines_of w s.now)) }
    ensures index { (Index keys.new links.new result) × (n ≤ result) }
{
    let mut at = 0;
    let mut seen = false;
    let mut m = n;
    // no range: each line that is found says where the search goes on
    loop {
        let Some(p) = next_line(s, at, seen, w) else {
            return m;
        };
        let from = p.at;
        let to = p.to;
        let k = appearance::add(keys, links, m, name_in(&s[from..to]));
        tell_new(tell, &s[from..to], m - n, k - n);
        m = k;
        at = p.next;
        seen = p.seen;
    }
}

// Both counts; the residues that are left out are told by name.
pub fn count_residues(s: &[u8]) -> Residues
    ensures modelled_value { result.resolved < 16384 → (result.modelled ≡ modelled s.now) × (result.resolved ≡ resolved s.now) }
    ensures modelled_le_resolved { result.modelled ≤ result.resolved }
{
    let mut keys = [0u64; 16384];
    let mut links = [0usize; 32768];
    let modelled = gather(s, What::Alphas, &mut keys, &mut links, 0, false);
    let resolved = gather(s, What::Heteros, &mut keys, &mut links, modelled, true);
    Residues { modelled, resolved }
}
