// The lines that `ribbon-plan` prints, written to a lent buffer of bytes.
#![tactic(auto)]

ghost use Rattle.std.specs.Prelude.{◌+◌, ◌≤◌, length};
ghost use Rattle.io.specs.Counts.{IsPrefixLen};
ghost use Rattle.job.specs.Refusals.{carried};
ghost use Rattle.ribbon_text.specs.Text.{decimal, field, totals_line, tube_line, listed, refused_line, Wrote};

use job::Refusal;

// All of s, from byte at on; the answer is the place behind it.
fn put_text(out: &mut [u8], at: usize, s: &[u8]) -> usize
    requires { at + length s.now ≤ length out.old }
    ensures { Wrote out.old at s.now out.new result }
{
    let end = at + s.len();
    out[at..end].copy_from_slice(s);
    end
}

fn put_number(out: &mut [u8], at: usize, n: usize) -> usize
    requires { at + 20 ≤ length out.old }
    ensures { Wrote out.old at (decimal n) out.new result × (result ≤ at + 20) }
{
    let mut digits = [0u8; 20];
    let k = io::decimal(n as u64, &mut digits);
    put_text(out, at, &digits[..k])
}

fn put_field(out: &mut [u8], at: usize, label: &[u8], n: usize) -> usize
    requires { at + length label.now + 20 ≤ length out.old }
    ensures { Wrote out.old at (field label.now n) out.new result × (result ≤ at + length label.now + 20) }
{
    let next = put_text(out, at, label);
    put_number(out, next, n)
}

// The first line. The answer is its length, here and below; `Counts` says that the line lies within the buffer.
pub fn totals_line(out: &mut [u8], tubes: usize, vertices: usize, triangles: usize) -> usize
    requires { 256 ≤ length out.old }
    ensures wrote { Wrote out.old 0 (totals_line tubes vertices triangles) out.new result }
    ensures prefix_len { IsPrefixLen result out.new }
{
    let a = put_field(out, 0, b"tubes ", tubes);
    let b = put_field(out, a, b" vertices ", vertices);
    let c = put_field(out, b, b" triangles ", triangles);
    put_text(out, c, b"\n")
}

// A tube's line: its number and its five words.
pub fn tube_line(
    out: &mut [u8],
    k: usize,
    kind: usize,
    residue: usize,
    residues: usize,
    vertex: usize,
    triangle: usize,
) -> usize
    requires { 256 ≤ length out.old }
    ensures wrote { Wrote out.old 0 (tube_line k kind residue residues vertex triangle) out.new result }
    ensures prefix_len { IsPrefixLen result out.new }
{
    let a = put_field(out, 0, b"tube ", k);
    let b = put_field(out, a, b" kind ", kind);
    let c = put_field(out, b, b" residue ", residue);
    let d = put_field(out, c, b" length ", residues);
    let e = put_field(out, d, b" vertex ", vertex);
    let f = put_field(out, e, b" triangle ", triangle);
    put_text(out, f, b"\n")
}

// What a refusal carries: K, V and T where it is number 11, and else one value.
fn put_carried(out: &mut [u8], at: usize, r: Refusal) -> usize
    requires { at + 63 ≤ length out.old }
    ensures { Wrote out.old at (listed (carried r)) out.new result × (result ≤ at + 63) }
{
    let n = job::refusal_numbers(r);
    let a = put_field(out, at, b" ", n[1]);
    if n[0] != 11 {
        return a;
    }
    let b = put_field(out, a, b" ", n[2]);
    put_field(out, b, b" ", n[3])
}

pub fn refused_line(out: &mut [u8], r: Refusal) -> usize
    requires { 256 ≤ length out.old }
    ensures wrote { Wrote out.old 0 (refused_line r) out.new result }
    ensures prefix_len { IsPrefixLen result out.new }
{
    let n = job::refusal_numbers(r);
    let a = put_field(out, 0, b"refused ", n[0]);
    let b = put_carried(out, a, r);
    put_text(out, b, b"\n")
}
