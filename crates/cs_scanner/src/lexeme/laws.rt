// Laws of the order of lexemes, of lexemes, and of their lists.

ghost use Rattle.std.specs.Prelude.{ℕ, List, Option};
ghost use Rattle.cs_scanner.specs.Scan.Scan.{Scanning};
ghost use Rattle.cs_scanner.specs.Lexeme.Laws.{AreOneLexeme, AreOneList, HasLexemeIfAny, HaveSomeList, IsOrdered};

/// Of two texts of bytes the one is at most the other, or comes behind it, and not both.
pub fn total_order()
    ensures { (text other : List ℕ) → IsOrdered text other }
{}

/// A token has at most one lexeme.
pub fn one_lexeme()
    ensures { (s : Scanning) (token : ℕ) (text other : List ℕ) → AreOneLexeme s token text other }
{}

/// A token has a lexeme where some text of bytes scans to it in one match: that it has none leads to a contradiction. That it has
/// none where no text does is part of what a lexeme is.
pub fn some_lexeme()
    ensures { (s : Scanning) (token : ℕ) (text : List ℕ) → HasLexemeIfAny s token text }
{}

/// Tokens have at most one list of lexemes.
pub fn one_list_of_lexemes()
    ensures { (s : Scanning) (tokens : ℕ) (x y : List (Option (List ℕ))) → AreOneList s tokens x y }
{}

/// Tokens have a list of lexemes, each its lexeme or that it has none: that they have no such list leads to a contradiction.
pub fn some_list_of_lexemes()
    ensures { (s : Scanning) (tokens : ℕ) → HaveSomeList s tokens }
{}
