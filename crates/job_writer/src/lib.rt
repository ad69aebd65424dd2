// Writes a job's bytes, record by record.
#![tactic(auto)]

ghost use Rattle.std.specs.Prelude.{◌≡◌, ◌+◌, ◌*◌, ◌<◌, ◌≤◌, length, replicate};
ghost use Rattle.lists.specs.Put.{put};
ghost use Rattle.job_writer.specs.Job.{segment_bytes, point, atom_bytes, head_bytes};

use numbers::{put_byte, put_u16, put_u32, put_u64};

#[derive(Drop)]
pub struct JobAtom {
    pub serial: u64,
    pub role: u8,
    pub residue: u64,
    pub chain: u64,
    pub x: u64,
    pub y: u64,
    pub z: u64,
}

#[derive(Drop)]
pub struct JobSegment {
    pub kind: u8,
    pub start: u64,
    pub end: u64,
}

pub fn put_point(out: &mut [u8], at: usize, x: u64, y: u64, z: u64)
    requires { at + 24 ≤ length out.old }
    ensures { out.new ≡ put out.old at (point x y z) }
{
    put_u64(out, at, x);
    put_u64(out, at + 8, y);
    put_u64(out, at + 16, z);
}

pub fn put_segment(out: &mut [u8], at: usize, g: JobSegment)
    requires { at + 9 ≤ length out.old }
    ensures { out.new ≡ put out.old at (segment_bytes g) }
{
    put_byte(out, at, g.kind);
    put_u32(out, at + 1, g.start);
    put_u32(out, at + 5, g.end);
}

pub fn put_atom(out: &mut [u8], at: usize, a: JobAtom)
    requires { at + 33 ≤ length out.old }
    ensures { out.new ≡ put out.old at (atom_bytes a) }
{
    put_u32(out, at, a.serial);
    put_byte(out, at + 4, a.role);
    put_u16(out, at + 5, a.residue);
    put_u16(out, at + 7, a.chain);
    put_point(out, at + 9, a.x, a.y, a.z);
}

// The first 13 bytes of a job whose atoms are `width` bytes each.
pub fn put_head(out: &mut [u8], version: u8, width: u64, c: u64, r: u64, s: u64, a: u64)
    requires { (13 ≤ length out.old) × (c < 65536) × (s < 65536) × (width * a < 4294967296) }
    ensures { out.new ≡ put out.old 0 (head_bytes version width c r s a) }
{
    put_u32(out, 0, 9 + c + 9 * s + width * a);
    put_byte(out, 4, version);
    put_u16(out, 5, c);
    put_u16(out, 7, r);
    put_u16(out, 9, s);
    put_u16(out, 11, a);
}

// Every chain visible.
pub fn put_visible(out: &mut [u8], at: usize, c: usize)
    requires { at + c ≤ length out.old }
    ensures { out.new ≡ put out.old at (replicate c 1) }
{
    out[at..at + c].fill(1);
}
