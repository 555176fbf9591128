// Names behind a space each, up to the end of a line.

use crate::lines::word::are_names;
use crate::lines::words::Words;

/// Names that are still to be given, one by one.
#[derive(Clone, Copy)]
pub struct Names<'m> {
    words: Words<'m>,
}

impl<'m> Names<'m> {
    ghost use Rattle.std.specs.Prelude.{◌≡◌, [], MatchOption, All};
    ghost use Rattle.cs_lines.specs.Words.Words.{IsWord};
    ghost use Rattle.cs_lines.specs.Lines.Read.{names_in, GivesName};
    ghost use Rattle.cs_lines.specs.Lines.Taken.{words_in, AreNamesOf};

    // The names of which the rest of a line is made, if it is.
    pub(crate) fn new(words: Words<'m>) -> Option<Names<'m>>
        ensures { MatchOption result (All IsWord (words_in words.entry) → ⊥)
            (AreNamesOf words.entry) }
    {
        let [b' ', text @ ..] = words.rest else {
            return Some(Names { words });
        };
        if are_names(text) {
            Some(Names { words })
        } else {
            None
        }
    }

    /// Takes the next name away.
    pub fn next(&mut self) -> Option<&'m [u8]>
        ensures { MatchOption result (names_in self.old ≡ [])
            (λ n. GivesName self.old self.new n.now) }
    {
        self.words.next()
    }
}
