// The lines of the head.

ghost use Rattle.std.specs.Prelude.{◌≡◌, ◌↔◌, ℕ, IsTrue, [], IfOk};
ghost use Rattle.cs_yacc.specs.Reading.File.{File};
ghost use Rattle.cs_lines.specs.Lines.Numbers.{IsRead};
ghost use Rattle.cs_lines.specs.Lines.Read.{set_kind, row_kind};
ghost use Rattle.cs_check.specs.Passing.Head.{TheToken, TheRule, TheLexeme, row_name};
ghost use Rattle.cs_check.specs.Passing.Dues.{due_told};
ghost use Rattle.cs_check.specs.Checking.Claims.{AreWholeSets, IsRowNumber};
ghost use Rattle.cs_check.specs.Checking.Head.{IsDueOf, TellsTaken, TellsOfFile, IsNumberBy};
ghost use Rattle.cs_check.specs.Checking.Head.{AreWholeIn, BeginsClaims, JudgesSet, JudgesRow};

use crate::checking::claims::{claim_row, claim_set};
use crate::checking::due::{Due, due_at, tables_size, whole_size};
use crate::checking::excluded::close;
use crate::checking::texts::are_symbols;
use crate::passing::ClaimFault;
use cs_choices::Weigh;
use cs_closed::Sets;
use cs_grammar::{Grammar, Mark, byte_weight};
use cs_lines::{Line, Quoted, RowKind, SetKind, is_mark, is_nonterminal, is_token};
use cs_yacc::YaccFile;
use std::alloc::{AllocError, Global};

/// What the lines of the head have told.
#[derive(Debug, Drop)]
pub(crate) struct Head {
    // How many lines there were.
    above: usize,
    weigh: Weigh,
    /// The numbers of the tokens, by what sizes count.
    pub(crate) numbers: Vec<u32>,
    /// What the closed lines claim, where there are some.
    pub(crate) sets: Option<Sets>,
}

// Whether the line is one for this place.
fn takes(due: Due, line: &Line<'_>) -> bool
    ensures { TellsTaken due line.now result }
{
    match (due, *line) {
        (Due::Opening, Line::Opening) => true,
        (Due::Weighing, Line::Weighing(_)) => true,
        (Due::Token(token), Line::Token { number, .. }) => is_number(number, token),
        (Due::Rule(rule), Line::Rule { number, .. }) => is_number(number, rule),
        (Due::Lexeme(_), Line::Lexeme { .. }) => true,
        (Due::Set(wanted), Line::Set { kind, .. }) => is_same_set(wanted, kind),
        (Due::Row(wanted, _), Line::Row { kind, .. }) => is_same_row(wanted, kind),
        _ => false,
    }
}

// Whether a number that is read is this one.
fn is_number(number: u64, wanted: u16) -> bool
    ensures { (n : ℕ) → IsRead n number → IsTrue result ↔ (n ≡ wanted) }
{
    number == wanted as u64
}

fn is_same_set(kind: SetKind, other: SetKind) -> bool
    ensures { IsTrue result ↔ (set_kind kind ≡ set_kind other) }
{
    match (kind, other) {
        (SetKind::Productive, SetKind::Productive) => true,
        (SetKind::Reachable, SetKind::Reachable) => true,
        (SetKind::Empty, SetKind::Empty) => true,
        _ => false,
    }
}

fn is_same_row(kind: RowKind, other: RowKind) -> bool
    ensures { IsTrue result ↔ (row_kind kind ≡ row_kind other) }
{
    match (kind, other) {
        (RowKind::First, RowKind::First) => true,
        (RowKind::Last, RowKind::Last) => true,
        (RowKind::Next, RowKind::Next) => true,
        _ => false,
    }
}

// Whether the line of a token is the file's.
fn is_of_token(file: &YaccFile, token: u16, line: &Line<'_>) -> bool
    ensures { TellsOfFile file.now (TheToken token) line.now result }
{
    match *line {
        Line::Token { name, .. } => is_token(file, token, name),
        _ => false,
    }
}

// Whether the line of a rule is.
fn is_of_rule(file: &YaccFile, number: u16, line: &Line<'_>) -> bool
    ensures { TellsOfFile file.now (TheRule number) line.now result }
{
    let Some(rule) = file.grammar().get_rule(number) else {
        return false;
    };
    match *line {
        Line::Rule { left, right, .. } => {
            is_nonterminal(file, rule.left(), left) && are_symbols(file, right, rule.right())
        }
        _ => false,
    }
}

// Whether the name in front of `:` is the one that is due.
fn is_row_name(file: &YaccFile, kind: RowKind, number: u16, name: &[u8]) -> bool
    ensures { IsTrue result ↔ (row_name file.now (row_kind kind) number ≡ name.now) }
{
    match kind {
        RowKind::First | RowKind::Last => is_nonterminal(file, number, name),
        RowKind::Next if number == 0 => is_mark(file, Mark::Begin, name),
        RowKind::Next => is_token(file, number, name),
    }
}

// The number of a token with this text.
fn number_by(weigh: Weigh, text: Option<Quoted<'_>>) -> u32
    ensures { IsNumberBy weigh text.entry result }
{
    match (weigh, text) {
        (Weigh::Nodes, _) => 1,
        (Weigh::Bytes, Some(quoted)) => byte_weight(Some(quoted.len())),
        (Weigh::Bytes, None) => byte_weight(None),
    }
}

// The sets, or those with nothing in them where there are none.
fn begun(alloc: Global, file: &YaccFile, sets: Option<Sets>) -> Result<Sets, AllocError>
    requires { AreWholeIn file.now.grammar sets }
    ensures whole { IfOk result (AreWholeSets file.now.grammar) }
    ensures claimed { BeginsClaims file.now sets result }
{
    match sets {
        Some(sets) => Ok(sets),
        None => Sets::none(alloc, file.grammar()),
    }
}

// Takes the line of a set; false where it isn't the file's.
fn take_set(
    alloc: Global,
    file: &YaccFile,
    sets: &mut Option<Sets>,
    kind: SetKind,
    line: &Line<'_>,
) -> Result<bool, AllocError>
    requires { AreWholeIn file.now.grammar sets.old }
    ensures whole { AreWholeIn file.now.grammar sets.new }
    ensures judged { JudgesSet file.now sets.old (set_kind kind) line.now sets.new result }
{
    let Line::Set { names, .. } = *line else {
        return Ok(false);
    };
    let mut held = begun(alloc, file, sets.take())?;
    let known = claim_set(file, &mut held, kind, names);
    *sets = Some(held);
    Ok(known)
}

// Takes the line of a nonterminal or a mark.
fn take_row(
    file: &YaccFile,
    sets: &mut Option<Sets>,
    kind: RowKind,
    number: u16,
    line: &Line<'_>,
) -> bool
    requires whole { AreWholeIn file.now.grammar sets.old }
    requires number { IsRowNumber file.now.grammar (row_kind kind) number }
    ensures whole { AreWholeIn file.now.grammar sets.new }
    ensures judged { JudgesRow file.now sets.old (row_kind kind) number line.now sets.new result }
{
    let Line::Row { name, names, .. } = *line else {
        return false;
    };
    if !is_row_name(file, kind, number, name) {
        return false;
    }
    match sets {
        Some(held) => claim_row(file, held, kind, number, names),
        None => false,
    }
}

impl Head {
    ghost use Rattle.cs_check.specs.Checking.Head.{HasWholeSets, KnowsHead, TellsInHead, TellsEnded};
    ghost use Rattle.cs_check.specs.Checking.Head.{JudgesHead, JudgesDue, AnswersClosed, AnswersEnd};

    /// No line is there.
    pub(crate) fn new(alloc: Global) -> Head
        ensures { (file : File) → KnowsHead file [] result }
    {
        Head {
            above: 0,
            weigh: Weigh::Nodes,
            numbers: Vec::new(alloc),
            sets: None,
        }
    }

    /// Whether the line is the next of the head, where all lines above are in it.
    pub(crate) fn has_next(&self, grammar: &Grammar, line: &Line<'_>) -> bool
        ensures { TellsInHead self.now grammar.now line.now result }
    {
        match due_at(grammar, self.above) {
            Some(due) => takes(due, line),
            None => false,
        }
    }

    /// Whether a line behind the head may come, where all lines above are in it.
    pub(crate) fn is_ended(&self, grammar: &Grammar) -> bool
        ensures { TellsEnded self.now grammar.now result }
    {
        match self.sets {
            Some(_) => self.above == whole_size(grammar),
            None => self.above == tables_size(grammar),
        }
    }

    // Takes a lexeme line.
    fn take_lexeme(
        &mut self,
        file: &YaccFile,
        token: u16,
        line: &Line<'_>,
    ) -> Result<bool, AllocError>
        requires { HasWholeSets file.now.grammar self.old }
        ensures whole { HasWholeSets file.now.grammar self.new }
        ensures above { self.new.above ≡ self.old.above }
        ensures judged { JudgesDue file.now self.old (TheLexeme token) line.now self.new result }
    {
        let Line::Lexeme { name, text } = *line else {
            return Ok(false);
        };
        if !is_token(file, token, name) {
            return Ok(false);
        }
        self.numbers.push(number_by(self.weigh, text))?;
        Ok(true)
    }

    // Takes the line that is due; false where it isn't the file's.
    fn take_due(
        &mut self,
        alloc: Global,
        file: &YaccFile,
        due: Due,
        line: &Line<'_>,
    ) -> Result<bool, AllocError>
        requires whole { HasWholeSets file.now.grammar self.old }
        requires due { IsDueOf file.now.grammar (due_told due) }
        ensures whole { HasWholeSets file.now.grammar self.new }
        ensures above { self.new.above ≡ self.old.above }
        ensures judged { JudgesDue file.now self.old (due_told due) line.now self.new result }
    {
        match due {
            Due::Opening => Ok(true),
            Due::Weighing => {
                if let Line::Weighing(weigh) = *line {
                    self.weigh = weigh;
                }
                Ok(true)
            }
            Due::Token(token) => Ok(is_of_token(file, token, line)),
            Due::Rule(rule) => Ok(is_of_rule(file, rule, line)),
            Due::Lexeme(token) => self.take_lexeme(file, token, line),
            Due::Set(kind) => take_set(alloc, file, &mut self.sets, kind, line),
            Due::Row(kind, number) => Ok(take_row(file, &mut self.sets, kind, number, line)),
        }
    }

    // Whether the sets, if there are some, are closed.
    fn are_closed(&self, file: &YaccFile) -> bool
        requires { HasWholeSets file.now.grammar self.now }
        ensures { AnswersClosed file.now self.now result }
    {
        match &self.sets {
            Some(sets) => close(file, sets),
            None => true,
        }
    }

    // Whether the sets are closed, where the whole head is there.
    fn ends_closed(&self, file: &YaccFile, whole: usize) -> bool
        requires { HasWholeSets file.now.grammar self.now }
        ensures { AnswersEnd file.now self.now whole result }
    {
        if self.above != whole {
            return true;
        }
        self.are_closed(file)
    }

    /// Takes the next line of the head, where it is one: what is wrong with it, if anything.
    pub(crate) fn take(
        &mut self,
        alloc: Global,
        file: &YaccFile,
        line: &Line<'_>,
    ) -> Result<Option<ClaimFault>, AllocError>
        requires { HasWholeSets file.now.grammar self.old }
        ensures whole { HasWholeSets file.now.grammar self.new }
        ensures judged { JudgesHead file.now self.old line.now self.new result }
    {
        let whole = whole_size(file.grammar());
        let Some(due) = due_at(file.grammar(), self.above) else {
            return Ok(Some(ClaimFault::Head));
        };
        if !self.take_due(alloc, file, due, line)? {
            return Ok(Some(ClaimFault::Head));
        }
        self.above += 1;
        if !self.ends_closed(file, whole) {
            return Ok(Some(ClaimFault::Unclosed));
        }
        Ok(None)
    }
}
