// The class of an edit.

ghost use Rattle.std.specs.Prelude.{◌≡◌};

/// What becomes of a base by an edit.
#[derive(Clone, Copy, Debug, PartialEq, Eq)]
pub enum EditClass {
    /// The framed result has a poisoned pair.
    Negative,
    /// It has none, and the result has more than 2,000 tokens.
    Long,
    /// It has none, and some tree of the start symbol yields the result.
    Sentence,
    /// It has none, and no tree of the start symbol yields the result.
    Outside,
}

impl EditClass {
    ghost use Rattle.cs_deep.specs.Edits.Classes.{is_outside};

    /// Whether it is that of the edits that are written.
    pub(crate) fn is_outside(self) -> bool
        ensures { result ≡ is_outside self }
    {
        match self {
            EditClass::Outside => true,
            EditClass::Negative | EditClass::Long | EditClass::Sentence => false,
        }
    }
}
