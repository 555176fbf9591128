// The line of an outcome.

ghost use Rattle.std.specs.Prelude.{◌≡◌, IfOk, string_bytes};
ghost use Rattle.cs_check_text.specs.Text as spec;

use cs_check::{ClaimFault, Outcome};
use std::alloc::{AllocError, Global};

/// The line that says how a check ended, with its newline.
pub(crate) fn line_of(alloc: Global, outcome: Outcome) -> Result<String, AllocError>
    ensures { IfOk result (λ line. string_bytes line ≡ spec.outcome_line outcome) }
{
    match outcome {
        Outcome::Yes { goals, negatives } => {
            format!(in alloc; "yes goals {goals} negatives {negatives}\n")
        }
        Outcome::No { line, fault } => {
            let fault = fault_word(fault);
            format!(in alloc; "no line {line}: {fault}\n")
        }
    }
}

fn fault_word(fault: ClaimFault) -> &'static str
    ensures { result.now ≡ spec.fault_word fault }
{
    match fault {
        ClaimFault::Form => "Form",
        ClaimFault::Head => "Head",
        ClaimFault::Unclosed => "Unclosed",
        ClaimFault::Derive => "Derive",
        ClaimFault::Size => "Size",
        ClaimFault::Yield => "Yield",
        ClaimFault::Scan => "Scan",
        ClaimFault::Goal => "Goal",
        ClaimFault::Infeasible => "Infeasible",
        ClaimFault::Base => "Base",
        ClaimFault::Edit => "Edit",
        ClaimFault::Pair => "Pair",
        ClaimFault::Totals => "Totals",
    }
}
