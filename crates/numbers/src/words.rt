// Words, floats and bytes, each of so many bytes: written a slice at a time, and read back.
ghost use Rattle.std.specs.Prelude.{◌≡◌, refl, [], ◌∷◌, List, ℕ, ◌+◌, ◌*◌, ◌≤◌, length};
ghost use Rattle.std.proofs.Common.{rules};
ghost use Rattle.std.specs.Float.{binary32};
ghost use Rattle.std.specs.Float.Ieee.{of_bits, to_bits};
ghost use Rattle.lists.specs.Put.{put, upto};
ghost use Rattle.numbers.specs.Bytes.{u8_at, u32, u32_at};
ghost use Rattle.numbers.specs.Words.{all_bytes, float_bytes, word_long};

use crate::{put_byte, u32_at};
use floats::bits::{float_of, float_word};

// What stands in bytes: a value is written as `bytes` and read from a place by `read`.
pub trait Wire: Copy {
    ghost SIZE: { ℕ };

    ghost bytes: { Self → List ℕ };

    ghost read: { List ℕ → ℕ → Self };

    const SIZE: usize;

    fn put(self, out: &mut [u8], at: usize)
        requires { at + SIZE ≤ length out.old }
        ensures { out.new ≡ put out.old at (bytes self) };

    fn get(b: &[u8], at: usize) -> Self
        requires { at + SIZE ≤ length b.now }
        ensures { result ≡ read b.now at };

    // A value has one to four bytes, and each value as many.
    ghost sized: { (1 ≤ SIZE) × (SIZE ≤ 4) };

    ghost long: { (x : Self) → length (bytes x) ≡ SIZE };
}

pub fn put_word(out: &mut [u8], at: usize, w: u32)
    requires { at + 4 ≤ length out.old }
    ensures { out.new ≡ put out.old at (u32 w) }
{
    out[at] = (w / 16777216) as u8;
    out[at + 1] = (w / 65536 % 256) as u8;
    out[at + 2] = (w / 256 % 256) as u8;
    out[at + 3] = (w % 256) as u8;
}

impl Wire for u32 {
    ghost SIZE = { 4 };

    ghost bytes = { u32 };

    ghost read = { u32_at };

    const SIZE: usize = 4;

    fn put(self, out: &mut [u8], at: usize) {
        put_word(out, at, self);
    }

    fn get(b: &[u8], at: usize) -> u32 {
        u32_at(b, at) as u32
    }

    ghost sized = { Prim.search rules };

    ghost long = { word_long };
}

impl Wire for f32 {
    ghost SIZE = { 4 };

    ghost bytes = { float_bytes };

    ghost read = { λ b at. of_bits binary32 (u32_at b at) };

    const SIZE: usize = 4;

    fn put(self, out: &mut [u8], at: usize) {
        put_word(out, at, float_word(self));
    }

    fn get(b: &[u8], at: usize) -> f32 {
        float_of(u32_at(b, at) as u32)
    }

    ghost sized = { Prim.search rules };

    ghost long = { λ x. word_long (to_bits binary32 x) };
}

impl Wire for u8 {
    ghost SIZE = { 1 };

    ghost bytes = { λ x. x ∷ [] };

    ghost read = { u8_at };

    const SIZE: usize = 1;

    fn put(self, out: &mut [u8], at: usize) {
        put_byte(out, at, self);
    }

    fn get(b: &[u8], at: usize) -> u8 {
        b[at]
    }

    ghost sized = { Prim.search rules };

    ghost long = { λ x. refl };
}

pub fn put_all<T: Wire>(out: &mut [u8], at: usize, items: &[T])
    requires { at + length items.now * T.SIZE ≤ length out.old }
    ensures { out.new ≡ put out.old at (all_bytes T.bytes items.now) }
{
    let mut place = at;
    for x in items {
        x.put(out, place);
        place += T::SIZE;
    }
}

// The values that stand in b from byte at on.
pub fn get_all<T: Wire>(b: &[u8], at: usize, items: &mut [T])
    requires { at + length items.old * T.SIZE ≤ length b.now }
    ensures { items.new ≡ put items.old 0 (upto (λ k. T.read b.now (at + k * T.SIZE) ∷ []) (length items.old)) }
{
    for i in 0..items.len() {
        items[i] = T::get(b, at + i * T::SIZE);
    }
}
