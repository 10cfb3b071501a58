//! Search parameters: what stays fixed during a pass, and what the pass sees at one position.
ghost use Rattle.std.specs.Prelude.{◌+◌, ◌<◌, ◌≤◌, ◌^◌};

use rc_program::program::Program;

/// The parameters that stay fixed during a pass.
#[derive(Clone, Copy)]
pub struct Course<'a> {
    /// The program.
    pub program: &'a Program,
    /// The upper bound of the search, in bytes: no walk goes past it.
    pub hi: usize,
    /// If it is Some, only walks of this pattern count.
    pub pattern: Option<usize>,
    /// The last start, in bytes: at most `hi`.
    pub last: usize,
    ghost small: { hi + 1 < 2 ^ 64 },
    ghost ordered: { last ≤ hi },
}

/// A position of a pass, and the bytes around it.
#[derive(Clone, Copy)]
pub struct Spot<'a> {
    /// The parameters of the pass.
    pub course: Course<'a>,
    /// The position, in bytes.
    pub at: usize,
    /// The bytes before it: at least four, or all that the slice has.
    pub before: &'a [u8],
    /// The bytes after it: at least four, or all that the slice has.
    pub after: &'a [u8],
}
