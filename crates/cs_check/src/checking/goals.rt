// Which goal is due.

ghost use Rattle.std.specs.Prelude.{◌≡◌, [], IfNone, IfSome};
ghost use Rattle.cs_check.specs.Passing.DueGoals.{number, is_last, is_later, criteria_of, criterion_of};
ghost use Rattle.cs_check.specs.Passing.DueGoals.{GivesNextOf, GivesNoneOf, KnowsGoals};
ghost use Rattle.cs_check.specs.Passing.DueGoals.{HasNoneDue, TakesDue, TellsFinished, TellsWords};

use cs_choices::Criteria;
use cs_goals::{Goal, Goals};
use cs_grammar::Grammar;
use cs_lines::{GoalWords, is_mark};
use cs_yacc::YaccFile;

/// A criterion, in the order of their lists.
#[derive(Clone, Copy, Debug, PartialEq, Eq)]
pub(crate) enum Criterion {
    Rule,
    Cdrc,
    Pair,
}

/// The goals that are left of the last goal's list.
#[derive(Debug, Drop)]
pub(crate) struct DueGoals<'a> {
    pub(crate) grammar: &'a Grammar,
    pub(crate) last: Option<Criterion>,
    pub(crate) left: Goals<'a>,
}

/// The criterion of a goal's words.
pub(crate) fn criterion_of(words: &GoalWords<'_>) -> Criterion
    ensures { result ≡ criterion_of words.now }
{
    match words {
        GoalWords::Rule(_) => Criterion::Rule,
        GoalWords::Context { .. } => Criterion::Cdrc,
        GoalWords::Pair { .. } => Criterion::Pair,
    }
}

// The number of a criterion, by their order.
fn rank(criterion: Criterion) -> u8
    ensures { result ≡ number criterion }
{
    match criterion {
        Criterion::Rule => 0,
        Criterion::Cdrc => 1,
        Criterion::Pair => 2,
    }
}

fn criteria_of(criterion: Criterion) -> Criteria
    ensures { result ≡ criteria_of criterion }
{
    match criterion {
        Criterion::Rule => Criteria {
            rule: true,
            cdrc: false,
            pair: false,
        },
        Criterion::Cdrc => Criteria {
            rule: false,
            cdrc: true,
            pair: false,
        },
        Criterion::Pair => Criteria {
            rule: false,
            cdrc: false,
            pair: true,
        },
    }
}

// Whether the words are those of the goal.
fn are_words_of(file: &YaccFile, words: &GoalWords<'_>, goal: &Goal) -> bool
    ensures { TellsWords file.now words.now goal.now result }
{
    match (*words, *goal) {
        (GoalWords::Rule(number), Goal::Rule(rule)) => number == rule as u64,
        (
            GoalWords::Context {
                outer: p,
                place: i,
                inner: q,
            },
            Goal::Context {
                outer,
                place,
                inner,
            },
        ) => p == outer as u64 && i == place as u64 && q == inner as u64,
        (GoalWords::Pair { left: a, right: b }, Goal::Pair { left, right }) => {
            is_mark(file, left, a) && is_mark(file, right, b)
        }
        _ => false,
    }
}

impl<'a> DueGoals<'a> {
    /// What is due where no goal is above.
    pub(crate) fn new(grammar: &'a Grammar) -> DueGoals<'a>
        ensures { KnowsGoals grammar.now [] result }
    {
        let none = Criteria {
            rule: false,
            cdrc: false,
            pair: false,
        };
        DueGoals {
            grammar,
            last: None,
            left: Goals::new(grammar, none),
        }
    }

    /// Whether the last goal's list is at its end.
    pub(crate) fn are_finished(&self) -> bool
        ensures { TellsFinished self.now result }
    {
        let mut left = self.left.copied();
        left.next().is_none()
    }

    // Whether the criterion is that of the last goal.
    fn is_last(&self, criterion: Criterion) -> bool
        ensures { result ≡ is_last self.now.last criterion }
    {
        match self.last {
            Some(last) => rank(last) == rank(criterion),
            None => false,
        }
    }

    // Whether it comes behind that.
    fn is_later(&self, criterion: Criterion) -> bool
        ensures { result ≡ is_later self.now.last criterion }
    {
        match self.last {
            Some(last) => rank(last) < rank(criterion),
            None => true,
        }
    }

    /// Takes the next goal of the criterion, where one of it may come.
    pub(crate) fn next_of(&mut self, criterion: Criterion) -> Option<Goal>
        ensures some { IfSome result (GivesNextOf self.old criterion self.new) }
        ensures none { IfNone result (GivesNoneOf self.old criterion) }
    {
        if self.is_last(criterion) {
            return self.left.next();
        }
        if !self.is_later(criterion) || !self.are_finished() {
            return None;
        }
        self.last = Some(criterion);
        self.left = Goals::new(self.grammar, criteria_of(criterion));
        self.left.next()
    }

    /// The goal of these words, where it is due; then it is told.
    pub(crate) fn take(&mut self, file: &YaccFile, words: &GoalWords<'_>) -> Option<Goal>
        ensures some { IfSome result (TakesDue file.now self.old words.now self.new) }
        ensures none { IfNone result (HasNoneDue file.now self.old words.now) }
    {
        let goal = self.next_of(criterion_of(words))?;
        if are_words_of(file, words, &goal) {
            Some(goal)
        } else {
            None
        }
    }
}
