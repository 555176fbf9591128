// The bases of the entries of goals.

ghost use Rattle.std.specs.Prelude.{◌+◌, ◌≤◌, OnOk, length};
ghost use Rattle.cs_io.specs.Faults.{greatest};
ghost use Rattle.cs_writing.specs.Plan.Made.{entries_of};
ghost use Rattle.cs_writing.specs.Writing.Mutants.{Keeps, KeepsOne};

use crate::bases::Bases;
use crate::plan::Made;
use std::alloc::AllocError;

/// Keeps what are bases of these entries. `number` is that of the last entry before them.
pub(crate) fn keep_bases(bases: &mut Bases, number: u64, batch: &[Made]) -> Result<(), AllocError>
    requires { number + length batch.now ≤ greatest }
    ensures { OnOk result (Keeps number (entries_of batch.now) bases.old bases.new) }
{
    let mut before = number;
    for made in batch {
        keep_base(bases, before, made.sentence())?;
        before += 1;
    }
    Ok(())
}

// Keeps the tokens of an entry behind so many, where it has some and they are a base.
fn keep_base(bases: &mut Bases, before: u64, sentence: Option<&[u16]>) -> Result<(), AllocError>
    requires { before + 1 ≤ greatest }
    ensures { OnOk result (KeepsOne before sentence.entry bases.old bases.new) }
{
    match sentence {
        None => Ok(()),
        Some(tokens) => {
            bases.offer(before + 1, tokens)?;
            Ok(())
        }
    }
}
