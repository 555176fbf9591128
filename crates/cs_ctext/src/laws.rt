//! Laws of the definitions: each construct has one end.

ghost use Rattle.std.specs.Prelude.{◌≡◌, ℕ, List};
ghost use Rattle.cs_ctext.specs.Comments.{IsComment};
ghost use Rattle.cs_ctext.specs.Quotes.{IsQuoted};
ghost use Rattle.cs_ctext.specs.Blocks.{IsBlock};
ghost use Rattle.cs_ctext.specs.Literals.{IsLiteral};
ghost use Rattle.cs_ctext.specs.Words.{HasWords};
ghost use Rattle.cs_ctext.specs.declared.word_iter.Word.{Word};

/// A comment has one end.
pub fn one_comment()
    ensures { (text : List ℕ) (m n : ℕ) → IsComment text m → IsComment text n → m ≡ n }
{}

/// A quoted construct has one end.
pub fn one_quoted()
    ensures { (text : List ℕ) (m n : ℕ) → IsQuoted text m → IsQuoted text n → m ≡ n }
{}

/// A block has one end.
pub fn one_block()
    ensures { (text : List ℕ) (m n : ℕ) → IsBlock text m → IsBlock text n → m ≡ n }
{}

/// A literal has one byte and one end.
pub fn one_literal()
    ensures { (t : List ℕ) (a b m n : ℕ)
        → IsLiteral t a m → IsLiteral t b n → (a ≡ b) × (m ≡ n) }
{}

/// A text has one list of words.
pub fn one_list_of_words()
    ensures { (at : ℕ) (t : List ℕ) (v w : List Word)
        → HasWords at t v → HasWords at t w → v ≡ w }
{}
