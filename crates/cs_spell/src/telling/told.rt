// What is told of a scanner rule.

use crate::texts::Way;
use cs_grammar::Derivation;
use cs_texts::Rendered;

/// A spelling that is shown.
#[derive(Debug, Drop)]
pub(crate) struct Shown<'j> {
    pub(crate) way: Way,
    pub(crate) rule: u16,
    pub(crate) size: u32,
    pub(crate) derivation: &'j Derivation,
    pub(crate) tokens: &'j [u16],
    pub(crate) rendered: Rendered,
}

/// What is told of a scanner rule.
#[derive(Debug, Drop)]
pub(crate) enum Told<'j> {
    Shadowed,
    Foreign,
    Literal,
    Infeasible,
    Large,
    Shown(Shown<'j>),
}
