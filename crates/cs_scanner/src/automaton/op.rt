// Steps through a pattern.

/// A step through a pattern, from left to right.
#[derive(Clone, Copy, Debug, PartialEq, Eq)]
pub(crate) enum Op {
    /// The class with this number.
    Place(u16),
    /// An either begins.
    Open,
    /// A part of an either ends.
    Or,
    /// An either ends.
    Close,
    /// A many begins.
    Loop,
    /// A many ends.
    Again,
}

/// What an open either or many remembers.
#[derive(Clone, Copy, Debug, PartialEq, Eq)]
pub(crate) struct Frame {
    pub(crate) entered: bool,
    pub(crate) left: bool,
}
