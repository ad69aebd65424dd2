// Numbers in bytes, big-endian: read and written.
#![tactic(auto)]

ghost use Rattle.std.specs.Prelude.{◌≡◌, [], ◌∷◌, ◌+◌, ◌≤◌, ◌<◌, length};
ghost use Rattle.lists.specs.Put.{put};
ghost use Rattle.numbers.specs.Bytes.{u8_at, u16_at, u32_at, u64_at, u16, u32, u64};

pub mod words;

pub fn byte_at(b: &[u8], at: usize) -> usize
    requires { at < length b.now }
    ensures { (result ≡ u8_at b.now at) × (result < 256) }
{
    b[at] as usize
}

pub fn u16_at(b: &[u8], at: usize) -> usize
    requires { at + 2 ≤ length b.now }
    ensures { (result ≡ u16_at b.now at) × (result < 65536) }
{
    byte_at(b, at) * 256 + byte_at(b, at + 1)
}

pub fn u32_at(b: &[u8], at: usize) -> usize
    requires { at + 4 ≤ length b.now }
    ensures { (result ≡ u32_at b.now at) × (result < 4294967296) }
{
    u16_at(b, at) * 65536 + u16_at(b, at + 2)
}

pub fn u64_at(b: &[u8], at: usize) -> u64
    requires { at + 8 ≤ length b.now }
    ensures { result ≡ u64_at b.now at }
{
    (u32_at(b, at) * 4294967296 + u32_at(b, at + 4)) as u64
}

pub fn put_byte(out: &mut [u8], at: usize, n: u8)
    requires { at < length out.old }
    ensures { out.new ≡ put out.old at (n ∷ []) }
{
    out[at] = n;
}

pub fn put_u16(out: &mut [u8], at: usize, n: u64)
    requires { at + 2 ≤ length out.old }
    ensures { out.new ≡ put out.old at (u16 n) }
{
    out[at] = (n / 256 % 256) as u8;
    out[at + 1] = (n % 256) as u8;
}

pub fn put_u32(out: &mut [u8], at: usize, n: u64)
    requires { at + 4 ≤ length out.old }
    ensures { out.new ≡ put out.old at (u32 n) }
{
    put_u16(out, at, n / 65536);
    put_u16(out, at + 2, n);
}

pub fn put_u64(out: &mut [u8], at: usize, n: u64)
    requires { at + 8 ≤ length out.old }
    ensures { out.new ≡ put out.old at (u64 n) }
{
    put_u32(out, at, n / 4294967296);
    put_u32(out, at + 4, n);
}
