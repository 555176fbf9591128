// Slips of a grammar.

/// What becomes of the right side of a rule. Places are counted from 1.
#[derive(Clone, Copy, Debug, PartialEq, Eq)]
pub enum Change {
    /// The symbol at the place is left out.
    Drop(u16),
    /// It stands a second time, directly behind itself.
    Double(u16),
    /// It and the symbol behind it, which is another one, change places.
    Swap(u16),
}

/// A slip: a change of one rule.
#[derive(Clone, Copy, Debug, PartialEq, Eq)]
pub enum Slip {
    /// No token is left. It belongs to no rule.
    Empty,
    /// The rule of this number, counted from 1, is changed.
    Of { rule: u16, change: Change },
}
