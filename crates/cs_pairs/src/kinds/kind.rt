// Kinds of trees by what they yield.

ghost use Rattle.std.specs.Prelude.{◌≡◌};
ghost use Rattle.cs_pairs.specs.Kinds.Kinds.{before, behind};

/// A kind of trees by what they yield: anything, nothing, something that begins with this token, something that ends with it.
#[derive(Clone, Copy, Debug, PartialEq, Eq)]
pub enum TreeKind {
    Any,
    Empty,
    Begins(u16),
    Ends(u16),
}

impl TreeKind {
    // The kind of the trees before one of the kind, where a list of trees is of the kind.
    pub(crate) fn before(self) -> TreeKind
        ensures { result ≡ before self }
    {
        match self {
            TreeKind::Any | TreeKind::Ends(_) => TreeKind::Any,
            TreeKind::Empty | TreeKind::Begins(_) => TreeKind::Empty,
        }
    }

    // The kind of the trees behind it.
    pub(crate) fn behind(self) -> TreeKind
        ensures { result ≡ behind self }
    {
        match self {
            TreeKind::Any | TreeKind::Begins(_) => TreeKind::Any,
            TreeKind::Empty | TreeKind::Ends(_) => TreeKind::Empty,
        }
    }
}
