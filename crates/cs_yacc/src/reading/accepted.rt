// Parts within the limits.

ghost use Rattle.std.specs.Prelude.{◌≤◌, length};

use crate::reading::parts::Parts;

/// Parts with at most 512 tokens and 1,024 nonterminals, so that each has a number.
#[derive(Drop)]
pub(crate) struct Accepted<'f, 'p, 'a> {
    pub(crate) parts: &'f Parts<'p, 'a>,
    ghost few_tokens: { length parts.now.tokens ≤ 512 },
    ghost few_lefts: { length parts.now.lefts ≤ 1024 },
}
