// What stands inside lines: goals, verdicts and edits, and words of few.

ghost use Rattle.std.specs.Prelude.{◌≡◌, MatchOption};
ghost use Rattle.cs_lines.specs.Lines.Texts.{weigh_word, set_word, row_word};
ghost use Rattle.cs_lines.specs.Lines.Read.{set_kind, row_kind};
ghost use Rattle.cs_lines.specs.Lines.Taken.{IsNoWeigh, IsNoSet, IsNoRow, TakesGoal, HasNoGoal, TakesVerdict, HasNoVerdict, TakesEdit, HasNoEdit};

use crate::lines::line::{EditWords, GoalWords, RowKind, SetKind, Verdict};
use crate::lines::word::same_word;
use crate::lines::words::Words;
use cs_choices::Weigh;

/// What sizes count, by its word.
pub(crate) fn weigh_of(word: &[u8]) -> Option<Weigh>
    ensures { MatchOption result (IsNoWeigh word.now) (λ w. word.now ≡ weigh_word w) }
{
    if same_word(word, b"nodes") {
        Some(Weigh::Nodes)
    } else if same_word(word, b"bytes") {
        Some(Weigh::Bytes)
    } else {
        None
    }
}

/// The sets of nonterminals that the word names.
pub(crate) fn set_of(word: &[u8]) -> Option<SetKind>
    ensures { MatchOption result (IsNoSet word.now) (λ k. word.now ≡ set_word (set_kind k)) }
{
    if same_word(word, b"productive") {
        Some(SetKind::Productive)
    } else if same_word(word, b"reachable") {
        Some(SetKind::Reachable)
    } else if same_word(word, b"empty") {
        Some(SetKind::Empty)
    } else {
        None
    }
}

/// What stands first, last or next, by its word.
pub(crate) fn row_of(word: &[u8]) -> Option<RowKind>
    ensures { MatchOption result (IsNoRow word.now) (λ k. word.now ≡ row_word (row_kind k)) }
{
    if same_word(word, b"first") {
        Some(RowKind::First)
    } else if same_word(word, b"last") {
        Some(RowKind::Last)
    } else if same_word(word, b"next") {
        Some(RowKind::Next)
    } else {
        None
    }
}

/// Takes the words of a goal.
pub(crate) fn take_goal<'m>(words: &mut Words<'m>) -> Option<GoalWords<'m>>
    ensures { MatchOption result (HasNoGoal words.old) (TakesGoal words.old words.new) }
{
    let word = words.next()?;
    if same_word(word, b"rule") {
        let rule = words.number()?;
        Some(GoalWords::Rule(rule))
    } else if same_word(word, b"context") {
        let outer = words.number()?;
        let place = words.number()?;
        let inner = words.number()?;
        Some(GoalWords::Context {
            outer,
            place,
            inner,
        })
    } else if same_word(word, b"pair") {
        let names = words.two_names()?;
        Some(GoalWords::Pair {
            left: names.left,
            right: names.right,
        })
    } else {
        None
    }
}

/// Takes the words of a verdict.
pub(crate) fn take_verdict(words: &mut Words<'_>) -> Option<Verdict>
    ensures { MatchOption result (HasNoVerdict words.old) (TakesVerdict words.old words.new) }
{
    let word = words.next()?;
    if same_word(word, b"infeasible") {
        Some(Verdict::Infeasible)
    } else if same_word(word, b"large") {
        Some(Verdict::Large)
    } else if same_word(word, b"size") {
        let size = words.number()?;
        let case = words.counted(b"case")?;
        let first = words.counted(b"first")?;
        Some(Verdict::Feasible { size, case, first })
    } else {
        None
    }
}

/// Takes the words of an edit.
pub(crate) fn take_edit<'m>(words: &mut Words<'m>) -> Option<EditWords<'m>>
    ensures { MatchOption result (HasNoEdit words.old) (TakesEdit words.old words.new) }
{
    let word = words.next()?;
    if same_word(word, b"delete") {
        let place = words.number()?;
        Some(EditWords::Delete(place))
    } else if same_word(word, b"insert") {
        let before = words.number()?;
        let put = words.name()?;
        Some(EditWords::Insert(before, put))
    } else if same_word(word, b"replace") {
        let replaced = words.number()?;
        let by = words.name()?;
        Some(EditWords::Replace(replaced, by))
    } else if same_word(word, b"swap") {
        let first = words.number()?;
        Some(EditWords::Swap(first))
    } else {
        None
    }
}
