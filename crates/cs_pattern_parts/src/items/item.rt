// The items of a pattern's text.

use crate::items::byte_set::ByteSet;

/// How often what stands before it is repeated.
#[derive(Clone, Copy, Debug, PartialEq, Eq)]
pub enum Repetition {
    /// `?`
    Optional,
    /// `{n}`
    Exactly(u32),
    /// `{n,}`; `*` where n is 0, `+` where it is 1.
    AtLeast(u32),
    /// `{n,m}`
    Between(u32, u32),
}

/// An item of a pattern's text.
#[derive(Debug, Drop)]
pub enum Item {
    /// A byte, an escape, `.` or a bracket: the bytes for which it stands.
    Class(ByteSet),
    /// A quoted text: its bytes.
    Quoted(Vec<u8>),
    /// `{name}`
    Name(Vec<u8>),
    /// `(`
    Open,
    /// `)`
    Close,
    /// `|`
    Bar,
    Repeat(Repetition),
}

/// An item, and the offset of its first byte.
#[derive(Debug, Drop)]
pub struct Placed {
    pub at: u32,
    pub item: Item,
}
