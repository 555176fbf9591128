// Why a file is refused.

use crate::items::ItemsError;
use std::alloc::{AllocError, AllocFailed};
use thiserror::Error;

/// What is counted against a limit of grammars.
#[derive(Clone, Copy, Debug, PartialEq, Eq)]
pub enum YaccLimit {
    /// The tokens in use.
    Tokens,
    Nonterminals,
    Rules,
    /// The symbols of the first rule that has too many.
    RightSide,
}

/// Why a file is refused. Offsets are in bytes, from 0. The first error that fits is given.
#[derive(Clone, Copy, Debug, PartialEq, Eq, Error)]
pub enum YaccError {
    /// No item begins at `at`, where reading stops.
    #[error("no item at {at}")]
    BadItem {
        at: u32,
    },
    /// The comment, prologue or block that begins at `at` isn't closed.
    #[error("open at {at}")]
    Unended {
        at: u32,
    },
    /// The directive at `at` has a word that isn't known.
    #[error("unknown directive at {at}")]
    UnknownDirective {
        at: u32,
    },
    /// The item at `at` may not come there; or the file may not end, and `at` is its length.
    #[error("syntax at {at}")]
    Syntax {
        at: u32,
    },
    /// The second `%start` stands at `at`.
    #[error("second start at {at}")]
    SecondStart {
        at: u32,
    },
    /// The first left side that is a declared token or `error` stands at `at`.
    #[error("token on the left at {at}")]
    TokenOnLeft {
        at: u32,
    },
    /// The first name of a body that is neither token nor left side stands at `at`.
    #[error("undefined name at {at}")]
    Undefined {
        at: u32,
    },
    /// The name behind `%start`, at `at`, is no left side.
    #[error("start symbol without rules at {at}")]
    StartNotNonterminal {
        at: u32,
    },
    /// The number found is above the most. The limits are tried in the order of `YaccLimit`.
    #[error("{found} of at most {most}")]
    Limit {
        which: YaccLimit,
        found: u32,
        most: u32,
    },
    #[error("out of memory")]
    Memory,
}

impl From<AllocError> for YaccError {
    ghost use Rattle.std.specs.Prelude.{◌≡◌};
    ghost use Rattle.cs_yacc.specs.declared.reading.error.YaccError.TheVariants.{Memory};

    ghost from_gives = { λ _ e. e ≡ Memory };

    fn from(_: AllocError) -> Self {
        YaccError::Memory
    }
}

impl<T: Drop> From<AllocFailed<T>> for YaccError {
    ghost use Rattle.std.specs.Prelude.{◌≡◌};
    ghost use Rattle.cs_yacc.specs.declared.reading.error.YaccError.TheVariants.{Memory};

    ghost from_gives = { λ _ e. e ≡ Memory };

    fn from(_: AllocFailed<T>) -> Self {
        YaccError::Memory
    }
}

impl From<ItemsError> for YaccError {
    ghost use Rattle.std.specs.Prelude.{◌≡◌};
    ghost use Rattle.cs_yacc.specs.Reading.Errors.{error_of};

    ghost from_gives = { λ e f. f ≡ error_of e };

    fn from(error: ItemsError) -> Self {
        match error {
            ItemsError::BadItem { at } => YaccError::BadItem { at },
            ItemsError::Unended { at } => YaccError::Unended { at },
            ItemsError::UnknownDirective { at } => YaccError::UnknownDirective { at },
            ItemsError::Memory => YaccError::Memory,
        }
    }
}
