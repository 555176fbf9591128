// How a spelling stands in a text.

/// In place of the lexeme of a token at a place of the list, from 0; or around each lexeme.
#[derive(Clone, Copy, Debug, PartialEq, Eq)]
pub(crate) enum Way {
    Gives { token: u16, place: usize },
    Skips,
}
