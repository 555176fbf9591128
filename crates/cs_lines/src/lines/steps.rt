// Words of a line that are due.

ghost use Rattle.std.specs.Prelude.{◌≡◌, [], ◌↔◌, IsTrue, MatchOption};
ghost use Rattle.cs_lines.specs.Lines.Splits.{split};
ghost use Rattle.cs_lines.specs.Lines.Taken.{words_in, Takes, IsNotNext, TakesName, HasNoName, TakesNames, HasNoNames, TakesNumber, HasNoNumber, Counted, HasNoCount, AreTwoNumbers, AreNotTwoNumbers};

use crate::lines::word::{is_name, number_of, same_word};
use crate::lines::words::Words;

/// Two names.
#[derive(Clone, Copy)]
pub(crate) struct TwoNames<'m> {
    pub(crate) left: &'m [u8],
    pub(crate) right: &'m [u8],
}

/// Two numbers.
#[derive(Clone, Copy)]
pub(crate) struct TwoNumbers {
    pub(crate) first: u64,
    pub(crate) second: u64,
}

impl<'m> Words<'m> {
    /// Whether nothing is left.
    pub(crate) fn is_done(self) -> bool
        ensures { IsTrue result ↔ (words_in self.entry ≡ []) }
    {
        let mut rest = self;
        rest.next().is_none()
    }

    /// What stands behind the next space.
    pub(crate) fn text(self) -> Option<&'m [u8]>
        ensures { MatchOption result (words_in self.entry ≡ [])
            (λ t. words_in self.entry ≡ split t.now) }
    {
        match self.rest {
            [b' ', text @ ..] => Some(text),
            _ => None,
        }
    }

    /// Takes the word away, where it is the next one.
    pub(crate) fn keyword(&mut self, word: &[u8]) -> Option<()>
        ensures { MatchOption result (IsNotNext self.old word.now)
            (λ _. Takes self.old self.new word.now) }
    {
        let next = self.next()?;
        if same_word(next, word) {
            Some(())
        } else {
            None
        }
    }

    /// Takes the next word away, where it is a name.
    pub(crate) fn name(&mut self) -> Option<&'m [u8]>
        ensures { MatchOption result (HasNoName self.old)
            (λ name. TakesName self.old self.new name.now) }
    {
        let next = self.next()?;
        if is_name(next) { Some(next) } else { None }
    }

    /// Takes the next word away, where it is a number.
    pub(crate) fn number(&mut self) -> Option<u64>
        ensures { MatchOption result (HasNoNumber self.old) (TakesNumber self.old self.new) }
    {
        let next = self.next()?;
        let number = number_of(next)?;
        Some(number)
    }

    /// Takes the word and a number behind it away, where they are the next ones.
    pub(crate) fn counted(&mut self, word: &[u8]) -> Option<u64>
        ensures { MatchOption result (HasNoCount word.now self.old)
            (Counted word.now self.old self.new) }
    {
        self.keyword(word)?;
        let number = self.number()?;
        Some(number)
    }

    /// Takes the next two words away, where they are names.
    pub(crate) fn two_names(&mut self) -> Option<TwoNames<'m>>
        ensures { MatchOption result (HasNoNames self.old) (TakesNames self.old self.new) }
    {
        let left = self.name()?;
        let right = self.name()?;
        Some(TwoNames { left, right })
    }

    /// The two numbers that are left, with the word between them, where nothing else is left.
    pub(crate) fn two_numbers(self, word: &[u8]) -> Option<TwoNumbers>
        ensures { MatchOption result (AreNotTwoNumbers word.now self.entry)
            (AreTwoNumbers word.now self.entry) }
    {
        let mut words = self;
        let first = words.number()?;
        let second = words.counted(word)?;
        if words.is_done() {
            Some(TwoNumbers { first, second })
        } else {
            None
        }
    }
}
