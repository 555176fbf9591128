// Why layout stops.

use std::alloc::{AllocError, AllocFailed};
use thiserror::Error;

/// Why layout stops. Offsets are in bytes, from 0.
#[derive(Clone, Copy, Debug, PartialEq, Eq, Error)]
pub enum LayoutError {
    /// The block, comment or action's brace that begins at `at` isn't closed.
    #[error("open at {at}")]
    Unended { at: u32 },
    /// The line at `at` has no form of the definitions section, or defines a name again; or the file ends there, before `%%`.
    #[error("no form at {at}")]
    Layout { at: u32 },
    /// The `%` line at `at` has a word that isn't known.
    #[error("unknown directive at {at}")]
    UnknownDirective { at: u32 },
    /// The word of `%option` at `at` isn't known.
    #[error("unknown option at {at}")]
    UnknownOption { at: u32 },
    /// The `%` line at `at` declares start conditions.
    #[error("start condition at {at}")]
    StartCondition { at: u32 },
    #[error("out of memory")]
    Memory,
}

impl From<AllocError> for LayoutError {
    ghost use Rattle.std.specs.Prelude.{◌≡◌};
    ghost use Rattle.cs_lex.specs.declared.layout.error.LayoutError.TheVariants.{Memory};

    ghost from_gives = { λ _ e. e ≡ Memory };

    fn from(_: AllocError) -> Self {
        LayoutError::Memory
    }
}

impl<T: Drop> From<AllocFailed<T>> for LayoutError {
    ghost use Rattle.std.specs.Prelude.{◌≡◌};
    ghost use Rattle.cs_lex.specs.declared.layout.error.LayoutError.TheVariants.{Memory};

    ghost from_gives = { λ _ e. e ≡ Memory };

    fn from(_: AllocFailed<T>) -> Self {
        LayoutError::Memory
    }
}
