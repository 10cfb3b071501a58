//! Pieces: values whose bytes may be a chunk.
ghost use Rattle.std.specs.Prelude.{◌≡◌, ℕ, List};
ghost use Rattle.std.specs.String.{string_bytes};

use std::alloc::Allocator;

/// A value that contains bytes: the same ones at each call.
pub trait Piece {
    /// These bytes.
    ghost bytes: { Self → List ℕ };

    /// Returns the bytes, which may be none.
    fn bytes(&self) -> &[u8]
        ensures { result.now ≡ bytes self.now };
}

impl Piece for &[u8] {
    ghost bytes = { λ s. s.now };

    fn bytes(&self) -> &[u8] {
        *self
    }
}

impl Piece for &str {
    ghost bytes = { λ s. s.now };

    fn bytes(&self) -> &[u8] {
        self.as_bytes()
    }
}

impl<const N: usize> Piece for [u8; N] {
    ghost bytes = { λ s. s };

    fn bytes(&self) -> &[u8] {
        &self[..]
    }
}

impl<A: Allocator> Piece for Vec<u8, A> {
    ghost bytes = { λ s. s.items };

    fn bytes(&self) -> &[u8] {
        self.as_slice()
    }
}

impl<A: Allocator> Piece for String<A> {
    ghost bytes = { λ s. string_bytes s };

    fn bytes(&self) -> &[u8] {
        self.as_str().as_bytes()
    }
}
