// A walk over the records of a file.
ghost use Rattle.std.specs.Prelude.{◌≤◌, length};

// The records of a file from the line at `at` on; `seen`: a MODEL line was read before it.
#[derive(Clone, Copy)]
pub struct Walk<'a> {
    pub text: &'a [u8],
    pub at: usize,
    pub seen: bool,
    ghost inside: { at ≤ length text.now },
}
