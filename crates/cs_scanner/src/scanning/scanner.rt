// What a scanner is made of.

ghost use Rattle.std.specs.Prelude.{◌≡◌, length};

use crate::automaton::Automaton;
use cs_pattern_parts::Kind;

/// An automaton, the kind of each of its rules, and for each byte the token of its literal, or 0 where it has none.
#[derive(Clone, Copy)]
pub struct Scanner<'a> {
    pub automaton: &'a Automaton<'a>,
    pub kinds: &'a [Kind],
    pub literals: &'a [u16],

    pub ghost has_kinds: { length kinds.now ≡ length automaton.now.patterns },
    pub ghost has_literals: { length literals.now ≡ 256 },
}
