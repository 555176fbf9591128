// The lines of the closed sets.

ghost use Rattle.std.specs.Prelude.{◌≡◌, ◌<◌, All, length};
ghost use Rattle.cs_grammar.specs.Grammar.{IsNumberOf};
ghost use Rattle.cs_verdicts.specs.Closed.Closed.{AreClosedSets};
ghost use Rattle.cs_manifest.specs.Output.Names as names;
ghost use Rattle.cs_manifest.specs.Output.Putting.{Puts};
ghost use Rattle.cs_manifest.specs.Manifest.Named.{AreNamedSets};
ghost use Rattle.cs_manifest.specs.Manifest.SharedLines as lines;

use crate::output::{Output, put_names, put_nonterminal, put_spaced_mark};
use cs_grammar::{Mark, number_of};
use cs_io::Sink;
use cs_verdicts::{Closed, Marks, Tokens};
use cs_yacc::YaccFile;

/// The lines of the closed sets of the file's grammar.
pub(crate) fn put_closed<S: Sink>(output: &mut Output<'_, S>, file: &YaccFile, closed: &Closed)
    requires { AreClosedSets file.now.grammar closed.now }
    ensures { Puts S.Sink (lines.closed_lines file.now closed.now) output.old output.new }
{
    // Read for what it promises of the file, which has names for as many tokens and nonterminals as its grammar.
    let _named = file.token_names();
    put_sets(output, file, closed);
    put_edges(output, file, b"closed first ", closed.first());
    put_edges(output, file, b"closed last ", closed.last());
    put_next(output, file, Mark::Begin, closed.begin());
    put_token_nexts(output, file, closed.next());
}

// The lines of the sets of nonterminals.
fn put_sets<S: Sink>(output: &mut Output<'_, S>, file: &YaccFile, closed: &Closed)
    requires { AreNamedSets file.now closed.now }
    ensures { Puts S.Sink (lines.set_lines file.now closed.now) output.old output.new }
{
    put_set(output, file, b"closed productive", closed.productive());
    put_set(output, file, b"closed reachable", closed.reachable());
    put_set(output, file, b"closed empty", closed.empty());
}

fn put_set<S: Sink>(output: &mut Output<'_, S>, file: &YaccFile, set: &[u8], nonterminals: &[u16])
    requires { names.AreNamedNonterminals file.now nonterminals.now }
    ensures { Puts S.Sink (lines.set_line set.now file.now nonterminals.now) output.old output.new }
{
    output.put(set);
    put_nonterminals(output, file, nonterminals);
    output.put(b"\n");
}

fn put_nonterminals<S: Sink>(output: &mut Output<'_, S>, file: &YaccFile, nonterminals: &[u16])
    requires { names.AreNamedNonterminals file.now nonterminals.now }
    ensures { Puts S.Sink (lines.nonterminal_words file.now nonterminals.now)
        output.old output.new }
{
    for nonterminal in nonterminals {
        output.put(b" ");
        put_nonterminal(output, file, *nonterminal);
    }
}

// The lines of the tokens that begin or end the trees of each nonterminal.
fn put_edges<S: Sink>(output: &mut Output<'_, S>, file: &YaccFile, set: &[u8], edges: &[Tokens])
    requires many { length edges.now ≡ length file.now.nonterminal_names }
    requires few { length edges.now < 65536 }
    requires named { All (names.AreNamedTokens file.now) edges.now }
    ensures { Puts S.Sink (lines.edge_lines set.now file.now edges.now)
        output.old output.new }
{
    for (place, tokens) in edges.iter().enumerate() {
        put_edge(output, file, set, number_of(place), tokens.list());
    }
}

fn put_edge<S: Sink>(
    output: &mut Output<'_, S>,
    file: &YaccFile,
    set: &[u8],
    number: u16,
    tokens: &[u16],
)
    requires number { IsNumberOf (length file.now.nonterminal_names) number }
    requires tokens { names.AreNamedTokens file.now tokens.now }
    ensures { Puts S.Sink (lines.edge_line set.now file.now number tokens.now)
        output.old output.new }
{
    output.put(set);
    put_nonterminal(output, file, number);
    output.put(b" :");
    put_names(output, file, tokens);
    output.put(b"\n");
}

// The lines of the marks that follow each token.
fn put_token_nexts<S: Sink>(output: &mut Output<'_, S>, file: &YaccFile, nexts: &[Marks])
    requires many { length nexts.now ≡ length file.now.token_names }
    requires few { length nexts.now < 65536 }
    requires named { All (names.AreNamedMarks file.now) nexts.now }
    ensures { Puts S.Sink (lines.next_lines file.now nexts.now)
        output.old output.new }
{
    for (place, marks) in nexts.iter().enumerate() {
        put_next(output, file, Mark::Token(number_of(place)), marks.list());
    }
}

fn put_next<S: Sink>(output: &mut Output<'_, S>, file: &YaccFile, mark: Mark, marks: &[Mark])
    requires mark { names.IsNamedMark file.now mark }
    requires marks { names.AreNamedMarks file.now marks.now }
    ensures { Puts S.Sink (lines.next_line file.now mark marks.now) output.old output.new }
{
    output.put(b"closed next");
    put_spaced_mark(output, file, mark);
    output.put(b" :");
    put_marks(output, file, marks);
    output.put(b"\n");
}

fn put_marks<S: Sink>(output: &mut Output<'_, S>, file: &YaccFile, marks: &[Mark])
    requires { names.AreNamedMarks file.now marks.now }
    ensures { Puts S.Sink (lines.mark_words file.now marks.now) output.old output.new }
{
    for mark in marks {
        put_spaced_mark(output, file, *mark);
    }
}
