// Which atoms, and which residues, a segment reaches. Where serials ascend, as in every file that a program wrote, its atoms are one part of the list.
// Where they begin anew once, as where two files were joined, its atoms are mostly one part of one of the two runs.
#![tactic(auto)]

ghost use Rattle.std.specs.Prelude.{◌≡◌, true, ℕ, ◌+◌, ◌≤◌, ◌<◌};
ghost use Rattle.protein.specs.Layout.{Whole};
ghost use Rattle.protein.specs.Job.{job_of, segments_of};
ghost use Rattle.stretch.specs.Stretch.{Run, Orders, range, inside, ranged, Splits, In, Holds, Outside, Reaches, Spans, Widened};

use protein::Head;

// Serial numbers from start to stop, both included.
#[derive(Clone, Copy)]
pub struct Range {
    pub start: usize,
    pub stop: usize,
}

// Atoms or residues from the first number up to, and without, the second.
#[derive(Clone, Copy)]
pub struct Part {
    pub from: usize,
    pub to: usize,
}

// The serials of segment i of the records q.
pub fn range_at(q: &[u8], i: usize) -> Range
    requires { i < (segments_of q.now).count }
    ensures { (result ≡ range (segments_of q.now) i) × (result.stop < 4294967296) }
{
    let start = protein::start(q, i);
    let stop = protein::stop(q, i);
    Range { start, stop }
}

// Whether a serial is in a range.
pub fn is_inside(g: Range, v: usize) -> bool
    ensures { result ≡ inside g v }
{
    if v < g.start {
        return false;
    }
    v <= g.stop
}

// The same by one comparison, for ranges that are not empty: two would be foretold badly by the machine where the atoms stand in no order.
fn is_within(g: Range, v: usize) -> bool
    requires { (g.start ≤ g.stop) × (g.stop < 4294967296) × (v < 4294967296) }
    ensures { result ≡ inside g v }
{
    (v + 4294967296 - g.start) % 4294967296 <= g.stop - g.start
}

// Where serials go down: they ascend up to, and without, the first of these atoms, and anew from there up to the second.
#[derive(Clone, Copy)]
pub struct Order {
    pub first: usize,
    pub second: usize,
}

// The atom up to which, and without which, serials never go down from one atom on.
fn end_of_run(b: &[u8], h: Head, from: usize) -> usize
    requires { Whole b.now h × (from ≤ h.atoms) }
    ensures { Run (job_of b.now h) from result }
{
    let n = h.atoms as usize;
    for a in from + 1..n {
        if protein::serial(b, h, a) < protein::serial(b, h, a - 1) {
            return a;
        }
    }
    n
}

// The order of a job's atoms.
pub fn order_of(b: &[u8], h: Head) -> Order
    requires { Whole b.now h }
    ensures { Orders (job_of b.now h) result }
{
    let first = end_of_run(b, h, 0);
    let second = end_of_run(b, h, first);
    Order { first, second }
}

// The first atom of a run whose serial is not below v; the run's end where there is none.
fn first_from(b: &[u8], h: Head, from: usize, to: usize, v: usize) -> usize
    requires { Whole b.now h × Run (job_of b.now h) from to }
    ensures { Splits (job_of b.now h).serial from to v result }
{
    // by hand: std's `partition_point` halves a slice, and serials stand 33 bytes apart
    let mut lo = from;
    let mut hi = to;
    while lo < hi {
        let mid = lo + (hi - lo) / 2;
        if protein::serial(b, h, mid) < v {
            lo = mid + 1;
        } else {
            hi = mid;
        }
    }
    lo
}

// The part of a run in which its atoms of the range stand.
fn part_of_run(b: &[u8], h: Head, g: Range, from: usize, to: usize) -> Part
    requires { Whole b.now h × Run (job_of b.now h) from to × (g.stop < 4294967296) }
    ensures { Holds (job_of b.now h) g from to result }
{
    let lo = first_from(b, h, from, to, g.start);
    let hi = first_from(b, h, from, to, g.stop + 1);
    Part { from: lo, to: hi }
}

// A part that has the atoms of two, of which the second stands behind the first.
fn joined(p: Part, q: Part) -> Part
    requires { p.to ≤ q.from }
    ensures { ((a : ℕ) → In p a → In result a) × ((a : ℕ) → In q a → In result a)
        × ((n : ℕ) → p.from ≤ n → q.from ≤ n → result.from ≤ n) × ((n : ℕ) → p.to ≤ n → q.to ≤ n → result.to ≤ n) }
{
    if q.to <= q.from {
        return p;
    }
    if p.to <= p.from {
        return q;
    }
    Part {
        from: p.from,
        to: q.to,
    }
}

// The first atom from one number up to another that is in the range; the second number where there is none.
pub fn first_inside(b: &[u8], h: Head, g: Range, from: usize, to: usize) -> usize
    requires { Whole b.now h × (to ≤ h.atoms) × (g.stop < 4294967296) }
    ensures { (result ≤ to) × (from ≤ to → from ≤ result) × Outside (job_of b.now h) g from result
        × (result < to → ranged (job_of b.now h) g result ≡ true) }
{
    if g.stop < g.start {
        return to;
    }
    for a in from..to {
        if is_within(g, protein::serial(b, h, a)) {
            return a;
        }
    }
    to
}

// One more than the last atom from a number on that is in the range; that number where there is none.
fn past_inside(b: &[u8], h: Head, g: Range, from: usize) -> usize
    requires { Whole b.now h × (from ≤ h.atoms) × (g.stop < 4294967296) }
    ensures { (from ≤ result) × (result ≤ h.atoms) × Outside (job_of b.now h) g result h.atoms }
{
    if g.stop < g.start {
        return from;
    }
    for a in (from..h.atoms as usize).rev() {
        if is_within(g, protein::serial(b, h, a)) {
            return a + 1;
        }
    }
    from
}

// The part of both runs in which their atoms of the range stand.
fn near(b: &[u8], h: Head, order: Order, g: Range) -> Part
    requires { Whole b.now h × Orders (job_of b.now h) order × (g.stop < 4294967296) }
    ensures { Holds (job_of b.now h) g 0 order.second result }
{
    let p = part_of_run(b, h, g, 0, order.first);
    let q = part_of_run(b, h, g, order.first, order.second);
    joined(p, q)
}

// A part of the atoms in which every atom of the range stands. In the two runs it is found by halving; the atoms behind them are read, from the last one down to
// one of the range, and where the range has none in the runs also from the first one on.
pub fn stretch(b: &[u8], h: Head, order: Order, g: Range) -> Part
    requires { Whole b.now h × Orders (job_of b.now h) order × (g.stop < 4294967296) }
    ensures { Reaches (job_of b.now h) g result }
{
    let p = near(b, h, order, g);
    let runs = order.second;
    let end = past_inside(b, h, g, runs);
    if end == runs {
        return p;
    }
    if p.from < p.to {
        return Part {
            from: p.from,
            to: end,
        };
    }
    let from = first_inside(b, h, g, runs, end);
    Part { from, to: end }
}

// The part of the residues, with r in it if that is below n, and no more than that takes.
pub fn widened(p: Part, n: usize, r: usize) -> Part
    requires { (p.to ≤ n) × (n ≤ 65536) }
    ensures { Widened p n r result }
{
    if n <= r {
        return p;
    }
    if r < p.from {
        if p.to <= r {
            return Part { from: r, to: r + 1 };
        }
        return Part { from: r, to: p.to };
    }
    if p.to <= r {
        return Part {
            from: p.from,
            to: r + 1,
        };
    }
    p
}

// A part of the residues in which those of a part of the atoms stand: all residues, where they are fewer than the atoms that would be read.
pub fn span(b: &[u8], h: Head, atoms: Part) -> Part
    requires { Whole b.now h × (atoms.from ≤ h.atoms) × (atoms.to ≤ h.atoms) }
    ensures { Spans (job_of b.now h) atoms result }
{
    let n = h.residues as usize;
    let end = atoms.to;
    if atoms.from + n < end {
        return Part { from: 0, to: n };
    }
    let mut p = Part { from: n, to: 0 };
    for a in atoms.from..end {
        p = widened(p, n, protein::residue(b, h, a));
    }
    if p.to < p.from {
        return Part { from: 0, to: 0 };
    }
    p
}
