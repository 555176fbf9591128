// Why a lex file is refused.

use crate::layout::LayoutError;
use cs_pattern::PatternFault;
use std::alloc::{AllocError, AllocFailed};
use thiserror::Error;

/// What is counted against a limit of lex files.
#[derive(Clone, Copy, Debug, PartialEq, Eq)]
pub enum LexLimit {
    Rules,
    /// The leaves of the patterns of all rules.
    Positions,
}

/// Why a lex file is refused. Offsets are in bytes, from 0. The first five are told by the place where layout stops first; then
/// the first of the others that fits is given, in the order no rules, `|` at the end, rules, definitions, patterns, positions.
#[derive(Clone, Copy, Debug, PartialEq, Eq, Error)]
pub enum LexError {
    /// The block, comment or action's brace that begins at `at` isn't closed.
    #[error("open at {at}")]
    Unended {
        at: u32,
    },
    /// The line at `at` has no form of the definitions section, or defines a name again; or the file ends there, before `%%`.
    #[error("no form at {at}")]
    Layout {
        at: u32,
    },
    /// The `%` line at `at` has a word that isn't known.
    #[error("unknown directive at {at}")]
    UnknownDirective {
        at: u32,
    },
    /// The word of `%option` at `at` isn't known.
    #[error("unknown option at {at}")]
    UnknownOption {
        at: u32,
    },
    /// The `%` line at `at` declares start conditions.
    #[error("start condition at {at}")]
    StartCondition {
        at: u32,
    },
    /// The rules section has no rule.
    #[error("no rules")]
    NoRules,
    /// The last rule, whose line begins at `at`, has the action `|`.
    #[error("no rule behind `|` at {at}")]
    DanglingBar {
        at: u32,
    },
    /// So many are above the most.
    #[error("{found} are above {most}")]
    Limit {
        which: LexLimit,
        found: u32,
        most: u32,
    },
    /// The pattern or substitute that begins at `at` is refused.
    #[error("pattern at {at}: {fault}")]
    Pattern {
        at: u32,
        fault: PatternFault,
    },
    #[error("out of memory")]
    Memory,
}

impl From<LayoutError> for LexError {
    ghost use Rattle.std.specs.Prelude.{◌≡◌};
    ghost use Rattle.cs_lex.specs.Reading.Errors.{error_of};

    ghost from_gives = { λ stop e. e ≡ error_of stop };

    fn from(error: LayoutError) -> Self {
        match error {
            LayoutError::Unended { at } => LexError::Unended { at },
            LayoutError::Layout { at } => LexError::Layout { at },
            LayoutError::UnknownDirective { at } => LexError::UnknownDirective { at },
            LayoutError::UnknownOption { at } => LexError::UnknownOption { at },
            LayoutError::StartCondition { at } => LexError::StartCondition { at },
            LayoutError::Memory => LexError::Memory,
        }
    }
}

impl From<AllocError> for LexError {
    ghost use Rattle.std.specs.Prelude.{◌≡◌};
    ghost use Rattle.cs_lex.specs.declared.reading.error.LexError.TheVariants.{Memory};

    ghost from_gives = { λ _ e. e ≡ Memory };

    fn from(_: AllocError) -> Self {
        LexError::Memory
    }
}

impl<T: Drop> From<AllocFailed<T>> for LexError {
    ghost use Rattle.std.specs.Prelude.{◌≡◌};
    ghost use Rattle.cs_lex.specs.declared.reading.error.LexError.TheVariants.{Memory};

    ghost from_gives = { λ _ e. e ≡ Memory };

    fn from(_: AllocFailed<T>) -> Self {
        LexError::Memory
    }
}
