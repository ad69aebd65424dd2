// Lines and columns of a text file.
#![tactic(auto)]

ghost use Rattle.std.specs.Prelude.{◌≡◌, true, false, ℕ, ◌+◌, ◌-◌, ◌<◌, ◌≤◌, length, drop, get_or};
ghost use Rattle.pdb_lines.specs.Columns.{named};
ghost use Rattle.pdb_lines.specs.Post.{ending, Plain, Cut};

// Where a line ends, and where the next one begins.
#[derive(Drop)]
pub struct Line {
    pub to: usize,
    pub next: usize,
}

// How many bytes end a line at `i`: 0 where none ends.
fn ending_at(s: &[u8], i: usize) -> usize
    requires { i < length s.now }
    ensures { (result ≡ ending (drop i s.now)) × (i + result ≤ length s.now) }
{
    let b = s[i];
    if b == 10 {
        return 1;
    }
    if b != 13 {
        return 0;
    }
    if s.len() - i < 2 {
        return 0;
    }
    if s[i + 1] == 10 {
        return 2;
    }
    0
}

// A bound of the 16 bytes from `i` on: none is below it. They are all read, whatever stands there, so that the machine compares 16 at once.
fn least_byte(s: &[u8], i: usize) -> u8
    requires { i + 16 ≤ length s.now }
    ensures { (k : ℕ) → k < 16 → result ≤ get_or s.now (i + k) 0 }
{
    let mut least = 255u8;
    for k in 0usize..16 {
        least = least.min(s[i + k]);
    }
    least
}

// A place up to which no line ends: LF and CR, which are 10 and 13, are not among the bytes before it.
fn past_plain(s: &[u8], at: usize) -> usize
    requires { at ≤ length s.now }
    ensures { Plain s.now at result }
{
    let mut i = at;
    while 16 <= s.len() - i {
        if 13 < least_byte(s, i) {
            i += 16;
        } else {
            return i;
        }
    }
    i
}

// The line that starts at `at`.
pub fn line_at(s: &[u8], at: usize) -> Line
    requires { at < length s.now }
    ensures { Cut s.now at result.to result.next }
{
    for i in past_plain(s, at)..s.len() {
        let e = ending_at(s, i);
        if 0 < e {
            return Line { to: i, next: i + e };
        }
    }
    Line {
        to: s.len(),
        next: s.len(),
    }
}

// Whether the bytes of `name` stand at `from`.
pub fn is_at(l: &[u8], from: usize, name: &[u8]) -> bool
    requires { from ≤ length l.now }
    ensures { result ≡ named name.now (from + 1) l.now }
{
    l[from..].starts_with(name)
}
