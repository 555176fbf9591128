// Bytes that are put often.

ghost use Rattle.std.specs.Prelude.{◌≡◌, ◌<◌, ◌≤◌, IfOk, length, take};

use std::alloc::{AllocError, Global};
use std::marker::Model;

/// Up to so many bytes, as those of a word, are put by one copy of that length.
pub(crate) const WORD_LENGTH: usize = 16;

/// Up to so many bytes are put by one copy of that length.
pub(crate) const SHORT_LENGTH: usize = 64;

/// Bytes that are put often. Others may stand behind them, which mean nothing, so that a few are copied by one copy of a fixed
/// length.
#[derive(Drop)]
pub struct Piece {
    padded: Vec<u8>,
    len: usize,
}

impl Model for Piece {
    ghost use Rattle.std.specs.Prelude.{List, ℕ, ◌<◌, ◌≤◌, length, take};

    ghost Value = { List ℕ };

    ghost view = { λ p. take p.len p.padded.items };

    ghost invariant = { λ p. (p.len ≤ length p.padded.items)
        × (16 ≤ length p.padded.items)
        × (16 < p.len → 64 ≤ length p.padded.items) };
}

impl Piece {
    /// These bytes.
    pub fn new(alloc: Global, bytes: &[u8]) -> Result<Piece, AllocError>
        ensures { IfOk result (λ piece. piece ≡ bytes.now) }
    {
        let len = bytes.len();
        let capacity = if len <= WORD_LENGTH {
            WORD_LENGTH
        } else {
            len.max(SHORT_LENGTH)
        };
        let mut padded = Vec::with_capacity(alloc, capacity)?;
        padded.extend_from_slice(bytes)?;
        padded.resize(capacity, 0)?;
        Ok(Piece { padded, len })
    }

    #[inline(always)]
    pub(crate) fn len(&self) -> usize
        ensures { result ≡ length self.now }
    {
        self.len
    }

    pub(crate) fn bytes(&self) -> &[u8]
        ensures { result.now ≡ self.now }
    {
        &self.padded[..self.len]
    }

    // The bytes, and behind them bytes that mean nothing.
    #[inline(always)]
    pub(crate) fn padded(&self) -> &[u8]
        ensures word { 16 ≤ length result.now }
        ensures short { 16 < length self.now → 64 ≤ length result.now }
        ensures bytes { take (length self.now) result.now ≡ self.now }
    {
        &self.padded
    }
}
