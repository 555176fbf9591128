// Why reading of items stops.

use std::alloc::{AllocError, AllocFailed};
use thiserror::Error;

/// Why reading of items stops. Offsets are in bytes, from 0.
#[derive(Clone, Copy, Debug, PartialEq, Eq, Error)]
pub enum ItemsError {
    /// No item begins at `at`.
    #[error("no item at {at}")]
    BadItem { at: u32 },
    /// The comment, prologue or block that begins at `at` isn't closed.
    #[error("open at {at}")]
    Unended { at: u32 },
    /// The directive at `at` has a word that isn't known.
    #[error("unknown directive at {at}")]
    UnknownDirective { at: u32 },
    #[error("out of memory")]
    Memory,
}

impl From<AllocError> for ItemsError {
    ghost use Rattle.std.specs.Prelude.{◌≡◌};
    ghost use Rattle.cs_yacc.specs.declared.items.error.ItemsError.TheVariants.{Memory};

    ghost from_gives = { λ _ e. e ≡ Memory };

    fn from(_: AllocError) -> Self {
        ItemsError::Memory
    }
}

impl<T: Drop> From<AllocFailed<T>> for ItemsError {
    ghost use Rattle.std.specs.Prelude.{◌≡◌};
    ghost use Rattle.cs_yacc.specs.declared.items.error.ItemsError.TheVariants.{Memory};

    ghost from_gives = { λ _ e. e ≡ Memory };

    fn from(_: AllocFailed<T>) -> Self {
        ItemsError::Memory
    }
}
