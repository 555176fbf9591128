// What is left of a line, taken word by word.

ghost use Rattle.std.specs.Prelude.{◌≡◌, ◌≤◌, [], ◌∷◌, length, MatchOption};
ghost use Rattle.std.specs.List.{prefix_len};
ghost use Rattle.cs_lines.specs.Lines.Splits.{in_word, split};
ghost use Rattle.cs_lines.specs.Lines.Taken.{words_in, Takes};

/// The rest of a line: nothing, or a space and what stands behind it.
#[derive(Clone, Copy)]
pub(crate) struct Words<'m> {
    pub(crate) rest: &'m [u8],
}

/// The first word of a text, and what stands behind it.
#[derive(Clone, Copy)]
pub(crate) struct FirstWord<'m> {
    pub(crate) word: &'m [u8],
    pub(crate) behind: Words<'m>,
}

// How many bytes the first word of a text has.
fn word_len(text: &[u8]) -> usize
    ensures len { result ≡ prefix_len in_word text.now }
    ensures within { result ≤ length text.now }
{
    text.iter().take_while(|byte| **byte != b' ').count()
}

/// The first word of a text.
pub(crate) fn first_word(text: &[u8]) -> FirstWord<'_>
    ensures { split text.now ≡ result.word.now ∷ words_in result.behind }
{
    let size = word_len(text);
    FirstWord {
        word: &text[..size],
        behind: Words {
            rest: &text[size..],
        },
    }
}

impl<'m> Words<'m> {
    /// Takes the next word away.
    pub(crate) fn next(&mut self) -> Option<&'m [u8]>
        ensures { MatchOption result (words_in self.old ≡ [])
            (λ word. Takes self.old self.new word.now) }
    {
        let [b' ', text @ ..] = self.rest else {
            return None;
        };
        let first = first_word(text);
        *self = first.behind;
        Some(first.word)
    }
}
