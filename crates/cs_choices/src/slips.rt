/// The slips of rules of which lists are wanted.
#[derive(Clone, Copy, Debug, PartialEq, Eq)]
pub struct Slips {
    /// Whether a symbol may be left out.
    pub drops: bool,
    /// Whether a symbol may stand twice.
    pub doubles: bool,
    /// Whether two neighbours may change places.
    pub swaps: bool,
}
