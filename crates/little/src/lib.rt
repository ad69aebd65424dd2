// Words, floats and vectors in bytes, the lowest byte first: read and written.
#![tactic(auto)]

ghost use Rattle.std.specs.Prelude.{◌≡◌, ◌+◌, ◌≤◌, ◌<◌, length};
ghost use Rattle.lists.specs.Put.{put};
ghost use Rattle.little.specs.Little.{le32, le32_at, le_float, le_float_at, le_vec, le_vec_at};

use floats::bits::{float_of, float_word};
use vectors::Vec3;

pub fn put_le32(out: &mut [u8], at: usize, w: u32)
    requires { at + 4 ≤ length out.old }
    ensures { out.new ≡ put out.old at (le32 w) }
{
    out[at..at + 4].copy_from_slice(&w.to_le_bytes());
}

pub fn le32_at(b: &[u8], at: usize) -> usize
    requires { at + 4 ≤ length b.now }
    ensures { (result ≡ le32_at b.now at) × (result < 4294967296) }
{
    u32::from_le_bytes([b[at], b[at + 1], b[at + 2], b[at + 3]]) as usize
}

fn put_float(out: &mut [u8], at: usize, x: f32)
    requires { at + 4 ≤ length out.old }
    ensures { out.new ≡ put out.old at (le_float x) }
{
    put_le32(out, at, float_word(x));
}

fn float_at(b: &[u8], at: usize) -> f32
    requires { at + 4 ≤ length b.now }
    ensures { result ≡ le_float_at b.now at }
{
    float_of(le32_at(b, at) as u32)
}

pub fn put_vec(out: &mut [u8], at: usize, v: Vec3)
    requires { at + 12 ≤ length out.old }
    ensures { out.new ≡ put out.old at (le_vec v) }
{
    put_float(out, at, v.x);
    put_float(out, at + 4, v.y);
    put_float(out, at + 8, v.z);
}

pub fn vec_at(b: &[u8], at: usize) -> Vec3
    requires { at + 12 ≤ length b.now }
    ensures { result ≡ le_vec_at b.now at }
{
    Vec3 {
        x: float_at(b, at),
        y: float_at(b, at + 4),
        z: float_at(b, at + 8),
    }
}
