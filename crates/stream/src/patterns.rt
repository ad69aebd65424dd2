// What lent buffers hold before a call, so that a write to a place which the call should leave as it was shows.
ghost use Rattle.std.specs.Prelude.{◌≡◌, [], ◌∷◌, ℕ, length};
ghost use Rattle.lists.specs.Put.{put, upto};
ghost use Rattle.stream.specs.Patterns.{word_pattern, byte_pattern, float_pattern};

pub trait Pattern: Copy {
    ghost pattern: { ℕ → Self };

    // What stands in place i of a buffer.
    fn at(i: usize) -> Self
        ensures { result ≡ pattern i };
}

impl Pattern for u32 {
    ghost pattern = { word_pattern };

    fn at(i: usize) -> u32 {
        0xc0de_0000 + (i % 65536) as u32
    }
}

impl Pattern for u8 {
    ghost pattern = { byte_pattern };

    fn at(i: usize) -> u8 {
        ((i % 256 + 165) % 256) as u8
    }
}

impl Pattern for f32 {
    ghost pattern = { float_pattern };

    fn at(i: usize) -> f32 {
        f32::from_bits(0x4000_0000 + (i % 65536) as u32)
    }
}

pub fn fill<T: Pattern>(buffer: &mut [T])
    ensures { buffer.new ≡ put buffer.old 0 (upto (λ k. T.pattern k ∷ []) (length buffer.old)) }
{
    for i in 0..buffer.len() {
        buffer[i] = T::at(i);
    }
}
