// The class of a slip.

use cs_grammar::Mark;

/// What is known of the list of a slip.
#[derive(Clone, Copy, Debug, PartialEq, Eq)]
pub enum SlipClass {
    /// There is no list: the left side has no context, or a symbol that is left has no tree.
    Nothing,
    /// The least such tree is larger than the limit.
    Large,
    /// An earlier slip has the same list.
    Again,
    /// The framed list has this pair of neighbours, which no sentence has; no earlier pair of it is such a one. Its place is
    /// counted from 0.
    Pair { left: Mark, right: Mark, at: u32 },
    /// It has none, and the list has more than 2,000 tokens.
    Long,
    /// It has none, and some tree of the start symbol yields the list.
    Sentence,
    /// It has none, and no tree of the start symbol yields the list.
    Outside,
}

impl SlipClass {
    ghost use Rattle.std.specs.Prelude.{◌≡◌};
    ghost use Rattle.cs_wrong.specs.Classes.Classes.{is_wrong};

    /// Whether it is one of those whose lists are written.
    pub(crate) fn is_wrong(self) -> bool
        ensures { result ≡ is_wrong self }
    {
        match self {
            SlipClass::Pair { .. } | SlipClass::Outside => true,
            SlipClass::Nothing | SlipClass::Large | SlipClass::Again => false,
            SlipClass::Long | SlipClass::Sentence => false,
        }
    }
}
