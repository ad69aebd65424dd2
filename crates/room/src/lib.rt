// Check 9, the totals that a call begins with, and the scratch after a call that passed check 9. Check 11 is `buffers::is_tight`.
#![tactic(auto)]

ghost use Rattle.std.specs.Prelude.{◌≡◌, ◌*◌, ◌≤◌, length};
ghost use Rattle.room.specs.Room.{start, counts_in, short_scratch, cleared_words, cleared_floats};

use buffers::Counts;
use protein::Head;
use walk::{Five, Totals};

// Before the first tube, where tube k's words are asked for.
pub fn before_all(k: usize) -> Totals
    ensures { result ≡ start k }
{
    let words = Five {
        kind: 0,
        first: 0,
        length: 0,
        vertex: 0,
        triangle: 0,
    };
    Totals {
        tubes: 0,
        vertices: 0,
        triangles: 0,
        wanted: k,
        words,
    }
}

// K, V and T of a walk's totals.
pub fn counts_of(t: Totals) -> Counts
    ensures { result ≡ counts_in t }
{
    Counts {
        tubes: t.tubes,
        vertices: t.vertices,
        triangles: t.triangles,
    }
}

// 01 fixes the scratch after every call that passes check 9.
pub fn clear_scratch(h: Head, words: &mut [u32], floats: &mut [f32])
    requires { (h.residues ≤ 16384) × (8 * h.residues ≤ length words.old) × (32 * h.residues ≤ length floats.old) }
    ensures { (words.new ≡ cleared_words h words.old) × (floats.new ≡ cleared_floats h floats.old) }
{
    let n = h.residues as usize;
    words[..8 * n].fill(0);
    floats[..32 * n].fill(0.0);
}

// Check 9.
pub fn is_short(h: Head, words: usize, floats: usize) -> bool
    ensures { result ≡ short_scratch h words floats }
{
    let n = h.residues as usize;
    if words < 8 * n {
        return true;
    }
    floats < 32 * n
}
