// How a run ends, by how its calls ended.

ghost use Rattle.std.specs.Prelude.{◌≡◌};
ghost use Rattle.cs_run.specs.Command.Words.{ending_after, ending_by, ending_of};
ghost use Rattle.cs_run.specs.Ending.Ending.{HasLine};
ghost use Rattle.cs_run.specs.Input.Refusal.{CanBeTold};

use crate::ending::Ending;
use crate::input::{Refusal, Stop};
use cs_io::Halt;
use cs_scanner::AutomatonError;

/// How a run ends whose text was written, or whose writing stopped.
pub(crate) fn ended(outcome: Result<(), Halt>) -> Ending
    ensures ending { result ≡ ending_after outcome }
    ensures told { HasLine result }
{
    match outcome {
        Ok(()) => Ending::Written,
        Err(halt) => Ending::Halted(halt),
    }
}

/// How a run ends whose files aren't given.
pub(crate) fn stopped(stop: Stop) -> Ending
    requires { CanBeTold stop }
    ensures ending { result ≡ ending_of stop }
    ensures told { HasLine result }
{
    match stop {
        Stop::NoFile(role) => Ending::NoFile(role),
        Stop::Refused(refusal) => Ending::Refused(refusal),
        Stop::Memory => Ending::Halted(Halt::Memory),
    }
}

/// How a run ends where a lex file has no automaton.
pub(crate) fn unmade(error: AutomatonError) -> Ending
    ensures ending { result ≡ ending_by error }
    ensures told { HasLine result }
{
    match error {
        AutomatonError::TooManyStates { .. } => Ending::Refused(Refusal::States),
        AutomatonError::Memory => Ending::Halted(Halt::Memory),
    }
}
