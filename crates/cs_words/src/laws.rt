// Laws of the grammar of words.

ghost use Rattle.std.specs.Prelude.{◌⊎◌, List, ℕ};
ghost use Rattle.cs_grammar.specs.Laws.{AtMostOne};
ghost use Rattle.cs_words.specs.Requests.{IsAsked};
ghost use Rattle.cs_words.specs.Words.{HasNoBad, IsAccepted, IsFirstBad, texts};

use crate::request::read_words;

/// No words have two first bad places, and accepted words have none.
pub fn one_bad_word()
    ensures once { (words : List (List ℕ)) → AtMostOne (IsFirstBad words) }
    ensures not_accepted { (words : List (List ℕ)) → IsAccepted words → HasNoBad words }
{}

/// Words ask for at most one thing, or have one first bad place.
pub fn one_request()
    ensures { (words : List (List ℕ)) → AtMostOne (IsAsked words) }
{}

/// Words are accepted or have a first bad place.
pub fn accepted_or_bad(words: &[String])
    ensures { IsAccepted (texts words.now) ⊎ ((at : ℕ) × IsFirstBad (texts words.now) at) }
{
    match read_words(words) {
        Ok(_) => {}
        Err(_) => {}
    }
}
