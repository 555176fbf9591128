// Numbers behind a space each, up to the end of a line.

use crate::lines::word::{number_in, number_of};
use crate::lines::words::Words;

/// Numbers that are still to be given, one by one. The greatest of `u64` stands for all above, too.
#[derive(Clone, Copy)]
pub struct Numbers<'m> {
    words: Words<'m>,
}

impl<'m> Numbers<'m> {
    ghost use Rattle.std.specs.Prelude.{◌≡◌, [], MatchOption};
    ghost use Rattle.cs_lines.specs.Lines.Numbers.{AreNumerals};
    ghost use Rattle.cs_lines.specs.Lines.Read.{numbers_in, GivesNumber};
    ghost use Rattle.cs_lines.specs.Lines.Taken.{words_in, AreNumbersOf};

    // The numbers of which the rest of a line is made, if it is.
    pub(crate) fn new(words: Words<'m>) -> Option<Numbers<'m>>
        ensures { MatchOption result (AreNumerals (words_in words.entry) → ⊥)
            (AreNumbersOf words.entry) }
    {
        let mut rest = words;
        while let Some(word) = rest.next() {
            let _number = number_of(word)?;
        }
        Some(Numbers { words })
    }

    /// Takes the next number away.
    pub fn next(&mut self) -> Option<u64>
        ensures { MatchOption result (numbers_in self.old ≡ []) (GivesNumber self.old self.new) }
    {
        let word = self.words.next()?;
        Some(number_in(word))
    }
}
