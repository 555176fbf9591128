// The text of `member`.

ghost use Rattle.std.specs.Prelude.{◌≤◌, All, length};
ghost use Rattle.cs_grammar.specs.Grammar.{IsNumberOf};
ghost use Rattle.cs_io.specs.Uses.{used};
ghost use Rattle.cs_run.specs.Command.Scanned.{WritesMembership, WritesTokens};
ghost use Rattle.cs_run.specs.Ending.Ending.{HasLine};
ghost use Rattle.cs_run.specs.Input.Read.{HasTokensOfItsFile};

use crate::command::endings::{ended, unmade};
use crate::ending::Ending;
use crate::input::{PairAndText, Refusal};
use crate::writer::scanner_of;
use cs_deep::write_member;
use cs_grammar::Grammar;
use cs_io::{Halt, Sink};
use cs_scanner::{Automaton, Scanned, scan};
use std::alloc::Global;

// A text has no more tokens.
const MOST_TOKENS: usize = 2_000;

/// Writes whether a text is a sentence, with a derivation.
pub(crate) fn of_text<O: Sink>(alloc: Global, beside: &PairAndText, out: &mut O) -> Ending
    requires short { length beside.now.text ≤ 67108864 }
    requires tokens { HasTokensOfItsFile beside.now }
    ensures writes { WritesMembership beside.now result (used O.Sink out.old out.new) }
    ensures told { HasLine result }
{
    let automaton = match Automaton::new(alloc, beside.pair.lex.patterns()) {
        Ok(automaton) => automaton,
        Err(error) => return unmade(error),
    };
    let scanner = scanner_of(&beside.pair.lex, &automaton);
    match scan(alloc, &scanner, beside.text.bytes()) {
        Ok(Scanned::Tokens(tokens)) => of_tokens(alloc, beside.pair.yacc.grammar(), &tokens, out),
        Ok(Scanned::Stops { at }) => Ending::Refused(Refusal::TextStops { at }),
        Err(_) => Ending::Halted(Halt::Memory),
    }
}

// The same of a list of tokens.
fn of_tokens<O: Sink>(alloc: Global, grammar: &Grammar, tokens: &[u16], out: &mut O) -> Ending
    requires { All (IsNumberOf grammar.now.tokens) tokens.now }
    ensures writes { WritesTokens grammar.now tokens.now result (used O.Sink out.old out.new) }
    ensures told { HasLine result }
{
    if tokens.len() > MOST_TOKENS {
        return Ending::Refused(Refusal::TextTokens {
            found: tokens.len(),
        });
    }
    ended(write_member(alloc, grammar, tokens, out))
}
