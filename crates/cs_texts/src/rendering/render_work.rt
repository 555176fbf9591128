// What lists of tokens are rendered with.

use cs_scanner::{Lexemes, Scanner};

/// What each list of tokens is rendered with: a scanner, a lexeme for each token that has one, and the separator between two
/// lexemes.
#[derive(Clone, Copy)]
pub struct RenderWork<'a> {
    pub scanner: &'a Scanner<'a>,
    pub lexemes: &'a Lexemes,
    pub separator: &'a [u8],
}
