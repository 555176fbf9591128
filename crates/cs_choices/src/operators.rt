/// The operators of which edits are wanted.
#[derive(Clone, Copy, Debug, PartialEq, Eq)]
pub struct Operators {
    /// Whether a token may go.
    pub delete: bool,
    /// Whether a token may come in.
    pub insert: bool,
    /// Whether a token may come in place of another.
    pub replace: bool,
    /// Whether two neighbours may change places.
    pub swap: bool,
}
