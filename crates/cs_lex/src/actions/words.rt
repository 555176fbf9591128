// The C words of an action.

ghost use Rattle.std.specs.Prelude.{◌≡◌, ◌≤◌, length};
ghost use Rattle.std.specs.List.{list_any};
ghost use Rattle.std.specs.Str.{bytes_eq};
ghost use Rattle.cs_lex.specs.Actions.Kinds as spec;
ghost use Rattle.cs_lex.specs.Actions.Views.{FindsWords, one_more};

use cs_bytes::same_bytes;
use cs_ctext::{Word, words};

/// What the words of an action say.
#[derive(Clone, Copy, Debug)]
pub(crate) enum Words {
    /// One of them makes the action foreign.
    Foreign,
    /// None of them is `return`.
    None,
    /// One of them is, and ends there.
    One(usize),
    /// Several are.
    Several,
}

fn is_foreign(word: &[u8]) -> bool
    ensures { result ≡ list_any (bytes_eq word.now) spec.foreign_words }
{
    same_bytes(word, b"REJECT")
        || same_bytes(word, b"yymore")
        || same_bytes(word, b"yyless")
        || same_bytes(word, b"unput")
        || same_bytes(word, b"input")
        || same_bytes(word, b"BEGIN")
        || same_bytes(word, b"yyterminate")
}

/// One `return` more, which ends there.
fn one_more(found: Words, to: usize) -> Words
    ensures { result ≡ one_more found to }
{
    match found {
        Words::None => Words::One(to),
        _ => Words::Several,
    }
}

/// The bytes of the word.
fn bytes_of(text: &[u8], word: Word) -> &[u8]
    requires ordered { word.from ≤ word.to }
    requires within { word.to ≤ length text.now }
    ensures { result.now ≡ spec.text_of text.now word }
{
    &text[word.from..word.to]
}

/// What the words of the text say.
pub(crate) fn words_of(text: &[u8]) -> Words
    ensures { FindsWords text.now result }
{
    let mut found = Words::None;
    let mut rest = words(text, 0, text.len());
    while let Some(word) = rest.next() {
        let bytes = bytes_of(text, word);
        if is_foreign(bytes) {
            return Words::Foreign;
        }
        if same_bytes(bytes, b"return") {
            found = one_more(found, word.to);
        }
    }
    found
}
