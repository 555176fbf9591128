// Why there is no automaton.

use std::alloc::{AllocError, AllocFailed};

/// The number of a state.
pub type State = u16;

/// The most different sets of positions, without the start's.
pub(crate) const MOST_SETS: u32 = 16_384;

/// Why there is no automaton.
#[derive(Debug, Drop)]
pub enum AutomatonError {
    /// There are more than `most` different sets of positions.
    TooManyStates { most: u32 },
    /// Memory ran out.
    Memory,
}

impl From<AllocError> for AutomatonError {
    ghost use Rattle.std.specs.Prelude.{◌≡◌};
    ghost use Rattle.cs_scanner.specs.declared.automaton.error.AutomatonError.TheVariants.{Memory};

    ghost from_gives = { λ _ e. e ≡ Memory };

    fn from(_error: AllocError) -> Self {
        AutomatonError::Memory
    }
}

impl<T: Drop> From<AllocFailed<T>> for AutomatonError {
    ghost use Rattle.std.specs.Prelude.{◌≡◌};
    ghost use Rattle.cs_scanner.specs.declared.automaton.error.AutomatonError.TheVariants.{Memory};

    ghost from_gives = { λ _ e. e ≡ Memory };

    fn from(_error: AllocFailed<T>) -> Self {
        AutomatonError::Memory
    }
}
