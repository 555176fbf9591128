// Whether lists of tokens are sentences.

ghost use Rattle.std.specs.Prelude.{◌≡◌, ◌≤◌, All, Some, IfOk, IfNone, IfSome, length};
ghost use Rattle.cs_grammar.specs.Grammar.{IsNumberOf};
ghost use Rattle.cs_grammar.specs.Sentence.{IsSentence};
ghost use Rattle.cs_member.specs.declared.TheConstants.{MOST_LENGTH};
ghost use Rattle.cs_member.specs.declared.chart.now.Span.{Span};
ghost use Rattle.cs_member.specs.Tables.Whole.{IsTables};
ghost use Rattle.cs_member.specs.Membership.Membership.{IsMembership, TellsMembership};
ghost use Rattle.cs_member.specs.Chart.Asked.{IsChartOf};
ghost use Rattle.cs_member.specs.Membership.Asked.{AsksSentence, FindsSpan, IsWholeOf};

use crate::MOST_LENGTH;
use crate::chart::{Position, Question, Span, chart_of};
use crate::derivation::{Task, write};
use crate::tables::Tables;
use cs_grammar::{Derivation, Grammar};
use std::alloc::{AllocError, Global};
use std::marker::Model;

/// A derivation of the list, or that there is none.
#[derive(Debug, Drop)]
pub enum Membership {
    Inside(Derivation),
    Outside,
}

// The number of a span of the nonterminal from the first position.
fn find_span(spans: &[Span], nonterminal: u16) -> Option<usize>
    ensures { FindsSpan spans.now nonterminal result }
{
    for (number, span) in spans.iter().enumerate() {
        if span.nonterminal == nonterminal && span.from == 0 {
            return Some(number);
        }
    }
    None
}

// The tree of the whole list.
fn whole(question: &Question, chart: &[Position]) -> Option<Task>
    requires tables { IsTables question.now.grammar.now question.now.tables.now }
    requires length { length question.now.tokens.now ≤ MOST_LENGTH }
    requires chart { IsChartOf question.now chart.now }
    ensures none { IfNone result
        (IsSentence question.now.grammar.now question.now.tokens.now → ⊥) }
    ensures some { IfSome result (IsWholeOf question.now chart.now) }
    ensures sentence { IfSome result (λ _. AsksSentence question.now) }
{
    let _well_formed = question.grammar.rules();
    let start = question.grammar.start();
    let last = question.tokens.len();
    if last == 0 {
        if question.tables.empties[start as usize] == 0 {
            return None;
        }
        return Some(Task::Empty(start));
    }
    match find_span(&chart[last].spans, start) {
        None => None,
        Some(number) => Some(Task::Tree {
            number,
            at: last as u16,
        }),
    }
}

/// What membership needs to know of a grammar, worked out once for many lists. It is seen as the grammar.
#[derive(Debug, Drop)]
pub struct Recognizer<'g> {
    grammar: &'g Grammar,
    tables: Tables,
}

impl<'g> Model for Recognizer<'g> {
    ghost use Rattle.cs_grammar.specs.Grammar.{PlainGrammar};

    ghost Value = { PlainGrammar };

    ghost view = { λ r. r.grammar.now };

    ghost use Rattle.cs_member.specs.Tables.Whole.{IsTables};

    ghost invariant = { λ r. IsTables r.grammar.now r.tables };
}

impl<'g> Recognizer<'g> {
    /// The recognizer of a grammar's sentences.
    pub fn new(alloc: Global, grammar: &'g Grammar) -> Result<Recognizer<'g>, AllocError>
        ensures { IfOk result (λ recognizer. recognizer ≡ grammar.now) }
    {
        let tables = Tables::new(alloc, grammar)?;
        Ok(Recognizer { grammar, tables })
    }

    /// Whether the list of tokens is a sentence, with a derivation of it: `Inside` with the code of a tree of the start
    /// symbol whose yield is the list, or `Outside` exactly where no tree of the start symbol yields it.
    pub fn member(&self, alloc: Global, tokens: &[u16]) -> Result<Membership, AllocError>
        requires length { length tokens.now ≤ MOST_LENGTH }
        requires tokens { All (IsNumberOf self.now.tokens) tokens.now }
        ensures { IfOk result (IsMembership self.now tokens.now) }
    {
        let question = Question {
            grammar: self.grammar,
            tables: &self.tables,
            tokens,
        };
        let chart = chart_of(alloc, &question)?;
        match whole(&question, &chart) {
            None => Ok(Membership::Outside),
            Some(task) => Ok(Membership::Inside(write(alloc, &question, &chart, task)?)),
        }
    }

    /// Whether the list of tokens is a sentence. No derivation is written, so it takes less time and memory than `member`.
    pub fn accepts(&self, alloc: Global, tokens: &[u16]) -> Result<bool, AllocError>
        requires length { length tokens.now ≤ MOST_LENGTH }
        requires tokens { All (IsNumberOf self.now.tokens) tokens.now }
        ensures { IfOk result (TellsMembership self.now tokens.now) }
    {
        let question = Question {
            grammar: self.grammar,
            tables: &self.tables,
            tokens,
        };
        let chart = chart_of(alloc, &question)?;
        let inside = whole(&question, &chart).is_some();
        Ok(inside)
    }
}

/// Whether the list of tokens is a sentence of the grammar, with a derivation of it: what `Recognizer::member` answers. Of
/// several lists ask one recognizer.
pub fn member(alloc: Global, grammar: &Grammar, tokens: &[u16]) -> Result<Membership, AllocError>
    requires length { length tokens.now ≤ MOST_LENGTH }
    requires tokens { All (IsNumberOf grammar.now.tokens) tokens.now }
    ensures { IfOk result (IsMembership grammar.now tokens.now) }
{
    let recognizer = Recognizer::new(alloc, grammar)?;
    let membership = recognizer.member(alloc, tokens)?;
    Ok(membership)
}
