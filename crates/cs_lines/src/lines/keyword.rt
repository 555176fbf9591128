// The first word of a line.

ghost use Rattle.std.specs.Prelude.{◌≡◌, MatchOption};
ghost use Rattle.cs_lines.specs.declared.lines.keyword.Keyword.{Keyword as First};
ghost use Rattle.cs_lines.specs.Lines.Keywords.{keyword};

use crate::lines::word::same_word;

/// The word with which a line begins. An indented line begins with an empty one.
#[derive(Clone, Copy)]
pub(crate) enum Keyword {
    Nothing,
    Negative,
    Goal,
    Case,
    Base,
    End,
    Closed,
    Lexeme,
    Rule,
    Token,
    Weigh,
    Conform,
}

/// Which word it is.
pub(crate) fn keyword_of(word: &[u8]) -> Option<Keyword>
    ensures { MatchOption result ((k : First) → word.now ≡ keyword k → ⊥)
        (λ k. word.now ≡ keyword k) }
{
    if same_word(word, b"") {
        Some(Keyword::Nothing)
    } else if same_word(word, b"negative") {
        Some(Keyword::Negative)
    } else if same_word(word, b"goal") {
        Some(Keyword::Goal)
    } else if same_word(word, b"case") {
        Some(Keyword::Case)
    } else if same_word(word, b"base") {
        Some(Keyword::Base)
    } else if same_word(word, b"end") {
        Some(Keyword::End)
    } else if same_word(word, b"closed") {
        Some(Keyword::Closed)
    } else if same_word(word, b"lexeme") {
        Some(Keyword::Lexeme)
    } else if same_word(word, b"rule") {
        Some(Keyword::Rule)
    } else if same_word(word, b"token") {
        Some(Keyword::Token)
    } else if same_word(word, b"weigh") {
        Some(Keyword::Weigh)
    } else if same_word(word, b"conform") {
        Some(Keyword::Conform)
    } else {
        None
    }
}
