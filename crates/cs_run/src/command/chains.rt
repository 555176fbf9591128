// The texts of `chains`.

ghost use Rattle.std.specs.Prelude.{◌≡◌};
ghost use Rattle.cs_chain_text.specs.Progress.{HaveLexemes, lexemes_by};
ghost use Rattle.cs_io.specs.Uses.{used};
ghost use Rattle.cs_manifest.specs.Manifest.Manifest.{measure_of};
ghost use Rattle.cs_run.specs.Command.Scanned.{WritesChainsBy, WritesChainsOf};
ghost use Rattle.cs_run.specs.Ending.Ending.{HasLine};

use crate::command::endings::ended;
use crate::ending::Ending;
use crate::input::Refusal;
use cs_chain::total;
use cs_chain_text::{Chained, write_chains};
use cs_choices::Weigh;
use cs_fan::{Crew, Gate};
use cs_grammar::Weights;
use cs_io::{Halt, Sink};
use cs_texts::RenderWork;
use cs_yacc::YaccFile;
use std::alloc::Global;
use std::thread::Threads;

// A grammar has no more chains.
const MOST_CHAINS: u64 = 1_000_000;

/// Writes the chains of a yacc file's grammar, without texts.
pub(crate) fn chains<R: Threads + Sync, O: Sink, G: Gate + Sync>(
    crew: &Crew<'_, R, G>,
    alloc: Global,
    file: &YaccFile,
    out: &mut O,
) -> Ending
    ensures writes { WritesChainsOf file.now result (used O.Sink out.old out.new) }
    ensures told { HasLine result }
{
    match Weights::nodes(alloc, file.grammar().tokens()) {
        Ok(weights) => chains_by(crew, alloc, file, &weights, Weigh::Nodes, None, out),
        Err(_) => Ending::Halted(Halt::Memory),
    }
}

/// The same by these weights; with texts, where there is a lex file.
pub(crate) fn chains_by<R: Threads + Sync, O: Sink, G: Gate + Sync>(
    crew: &Crew<'_, R, G>,
    alloc: Global,
    file: &YaccFile,
    weights: &Weights,
    weigh: Weigh,
    work: Option<&RenderWork<'_>>,
    out: &mut O,
) -> Ending
    requires weights { weights.now
        ≡ measure_of weigh file.now.grammar.tokens (lexemes_by work) }
    requires lexemes { HaveLexemes file.now work }
    ensures writes { WritesChainsBy file.now work.entry weigh result
        (used O.Sink out.old out.new) }
    ensures told { HasLine result }
{
    let found = match total(alloc, file.grammar()) {
        Ok(found) => found,
        Err(_) => return Ending::Halted(Halt::Memory),
    };
    if found > MOST_CHAINS {
        return Ending::Refused(Refusal::ManyChains { found });
    }
    let chained = Chained {
        yacc: file,
        weights,
        weigh,
        work,
    };
    ended(write_chains(crew, alloc, &chained, out))
}
