// The text of `member`.

ghost use Rattle.std.specs.Prelude.{◌≤◌, All, OnErr, OnOk, length};
ghost use Rattle.cs_deep.specs.Membership.{IsCalmOrFull, IsMemberText, TookSomeFront, membership_lines};
ghost use Rattle.cs_grammar.specs.Grammar.{IsNumberOf};
ghost use Rattle.cs_io.specs.Asked.{IsCalmForAll, MetFault, MetNone, Stopped, TookOne};
ghost use Rattle.cs_manifest.specs.Output.Putting.{Puts};
ghost use Rattle.cs_io.specs.Lines.{Writes};
ghost use Rattle.cs_io.specs.declared.halt.Halt.TheVariants.{Failed};

use cs_grammar::Grammar;
use cs_io::{Halt, Sink, SinkError};
use cs_manifest::{LINE_LENGTH, Output, put_derivation};
use cs_member::{Membership, member};
use std::alloc::Global;

/// Writes whether a list of tokens is a sentence of a grammar, with a derivation.
pub fn write_member<O: Sink>(
    alloc: Global,
    grammar: &Grammar,
    tokens: &[u16],
    out: &mut O,
) -> Result<(), Halt>
    requires length { length tokens.now ≤ 2000 }
    requires tokens { All (IsNumberOf grammar.now.tokens) tokens.now }
    ensures ok { OnOk result
        (TookOne O.Sink (IsMemberText grammar.now tokens.now) out.old out.new) }
    ensures part { OnErr result
        (TookSomeFront O.Sink (IsMemberText grammar.now tokens.now) out.old out.new) }
    ensures no_fault { OnOk result (MetNone O.Sink out.old out.new) }
    ensures failed { Stopped Failed result → MetFault O.Sink out.old out.new }
    ensures full { IsCalmOrFull O.Sink (IsMemberText grammar.now tokens.now) out.old out.new }
    ensures room { IsCalmForAll O.Sink (IsMemberText grammar.now tokens.now) out.old out.new }
{
    let membership = member(alloc, grammar, tokens)?;
    write_lines(&membership, out)?;
    Ok(())
}

// Writes the lines of a membership.
fn write_lines<O: Sink>(membership: &Membership, out: &mut O) -> Result<(), SinkError>
    ensures { Writes O.Sink result (membership_lines membership.now) out.old out.new }
{
    let mut line = [0u8; LINE_LENGTH];
    let mut output = Output::new(out, &mut line, 0);
    put_lines(&mut output, membership);
    output.end()?;
    Ok(())
}

fn put_lines<S: Sink>(output: &mut Output<'_, S>, membership: &Membership)
    ensures { Puts S.Sink (membership_lines membership.now) output.old output.new }
{
    match membership {
        Membership::Inside(derivation) => {
            output.put(b"inside");
            put_derivation(output, derivation.rules());
            output.put(b"\n");
        }
        Membership::Outside => output.put(b"outside\n"),
    }
}
