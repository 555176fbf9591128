// Why a text is no pattern, and why definitions are refused.

use std::alloc::{AllocError, AllocFailed};
use thiserror::Error;

/// Why a text is no pattern. Offsets are counted in bytes from 0. The first place where reading stops decides the first
/// five; then the others are tried in this order.
#[derive(Clone, Copy, Debug, PartialEq, Eq, Error)]
pub enum PatternFault {
    /// Reading stops at `^` or `$`.
    #[error("an anchor stands at {at}")]
    Anchor { at: u32 },
    /// Reading stops at `/`.
    #[error("a trailing context begins at {at}")]
    Trailing { at: u32 },
    /// The first byte is `<`.
    #[error("a start condition stands at {at}")]
    Condition { at: u32 },
    /// Reading stops at a bracket that holds a collating symbol or an equivalence class.
    #[error("the bracket at {at} holds a collating part")]
    Collation { at: u32 },
    /// Reading stops at anything else, the end included.
    #[error("no item may stand at {at}")]
    Syntax { at: u32 },
    /// The first `{name}` whose name is not defined.
    #[error("the name at {at} is not defined")]
    UndefinedName { at: u32 },
    /// In a definition, the first `{name}` from which the definition is reached again.
    #[error("the name at {at} leads back to its definition")]
    DefinitionCycle { at: u32 },
    /// So many groups, substitutions and repetitions stand around one atom.
    #[error("the depth is {found}, and the most is {most}")]
    TooDeep { found: u32, most: u32 },
    /// The pattern has more leaves than that after substitution.
    #[error("there are more than {most} leaves")]
    TooManyPositions { most: u32 },
}

/// Why a text was not read.
#[derive(Clone, Copy, Debug, PartialEq, Eq, Error)]
pub enum PatternError {
    #[error("{0}")]
    Fault(PatternFault),
    #[error("out of memory")]
    Memory,
}

/// Why a definition was not added.
#[derive(Clone, Copy, Debug, PartialEq, Eq, Error)]
pub enum DefinitionError {
    /// The name was added before.
    #[error("the name is defined already")]
    Twice,
    #[error("out of memory")]
    Memory,
}

/// Why definitions are refused: the definition, from 0, and its fault.
#[derive(Clone, Copy, Debug, PartialEq, Eq, Error)]
pub enum CheckError {
    #[error("definition {index}: {fault}")]
    Fault { index: u32, fault: PatternFault },
    #[error("out of memory")]
    Memory,
}

impl From<PatternFault> for PatternError {
    ghost use Rattle.std.specs.Prelude.{◌≡◌};
    ghost use Rattle.cs_pattern.specs.declared.text.fault.PatternError.TheVariants.{Fault};

    ghost from_gives = { λ f e. e ≡ Fault f };

    fn from(fault: PatternFault) -> Self {
        PatternError::Fault(fault)
    }
}

impl From<AllocError> for PatternError {
    ghost use Rattle.std.specs.Prelude.{◌≡◌};
    ghost use Rattle.cs_pattern.specs.declared.text.fault.PatternError.TheVariants.{Memory};

    ghost from_gives = { λ _ e. e ≡ Memory };

    fn from(_: AllocError) -> Self {
        PatternError::Memory
    }
}

impl<T: Drop> From<AllocFailed<T>> for PatternError {
    ghost use Rattle.std.specs.Prelude.{◌≡◌};
    ghost use Rattle.cs_pattern.specs.declared.text.fault.PatternError.TheVariants.{Memory};

    ghost from_gives = { λ _ e. e ≡ Memory };

    fn from(_: AllocFailed<T>) -> Self {
        PatternError::Memory
    }
}

impl From<AllocError> for CheckError {
    ghost use Rattle.std.specs.Prelude.{◌≡◌};
    ghost use Rattle.cs_pattern.specs.declared.text.fault.CheckError.TheVariants.{Memory};

    ghost from_gives = { λ _ e. e ≡ Memory };

    fn from(_: AllocError) -> Self {
        CheckError::Memory
    }
}

impl<T: Drop> From<AllocFailed<T>> for CheckError {
    ghost use Rattle.std.specs.Prelude.{◌≡◌};
    ghost use Rattle.cs_pattern.specs.declared.text.fault.CheckError.TheVariants.{Memory};

    ghost from_gives = { λ _ e. e ≡ Memory };

    fn from(_: AllocFailed<T>) -> Self {
        CheckError::Memory
    }
}

impl From<AllocError> for DefinitionError {
    ghost use Rattle.std.specs.Prelude.{◌≡◌};
    ghost use Rattle.cs_pattern.specs.declared.text.fault.DefinitionError.TheVariants.{Memory};

    ghost from_gives = { λ _ e. e ≡ Memory };

    fn from(_: AllocError) -> Self {
        DefinitionError::Memory
    }
}

impl<T: Drop> From<AllocFailed<T>> for DefinitionError {
    ghost use Rattle.std.specs.Prelude.{◌≡◌};
    ghost use Rattle.cs_pattern.specs.declared.text.fault.DefinitionError.TheVariants.{Memory};

    ghost from_gives = { λ _ e. e ≡ Memory };

    fn from(_: AllocFailed<T>) -> Self {
        DefinitionError::Memory
    }
}
