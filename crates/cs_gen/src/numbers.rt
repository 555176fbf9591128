// The sequence of numbers that all parts are drawn from.

ghost use Rattle.std.specs.Prelude.{◌≡◌, ◌<◌, ◌≤◌};
ghost use Rattle.cs_gen.specs.Draws as draws;
ghost use Rattle.cs_gen.specs.Rules as rules;

use crate::symbol::Symbol;

const MULTIPLIER: u64 = 6_364_136_223_846_793_005;

const INCREMENT: u64 = 1_442_695_040_888_963_407;

/// The tokens and the nonterminals of each generated file.
pub(crate) const TOKENS: u8 = 24;

pub(crate) const NONTERMINALS: u8 = 40;

/// A sequence of numbers, by the number at which it stands.
#[derive(Drop)]
pub(crate) struct Numbers {
    pub(crate) at: u64,
}

impl Numbers {
    pub fn new(seed: u64) -> Numbers
        ensures { result.at ≡ seed }
    {
        Numbers { at: seed }
    }

    /// A number below `k`.
    pub fn draw(&mut self, k: u8) -> u8
        requires { 0 < k }
        ensures what { result ≡ (draws.draw k self.old.at).what }
        ensures behind { self.new.at ≡ (draws.draw k self.old.at).behind }
        ensures small { result < k }
    {
        self.at = self.at.wrapping_mul(MULTIPLIER).wrapping_add(INCREMENT);
        ((self.at >> 33) % u64::from(k)) as u8
    }

    /// A number from 1 to `k`.
    pub fn one_of(&mut self, k: u8) -> u8
        requires { 0 < k }
        ensures what { result ≡ (draws.one_of k self.old.at).what }
        ensures behind { self.new.at ≡ (draws.one_of k self.old.at).behind }
        ensures small { result ≤ k }
    {
        1 + self.draw(k)
    }

    pub fn symbol(&mut self) -> Symbol
        ensures what { result ≡ (rules.symbol self.old.at).what }
        ensures behind { self.new.at ≡ (rules.symbol self.old.at).behind }
    {
        if self.draw(2) == 0 {
            Symbol::Token(self.one_of(TOKENS))
        } else {
            Symbol::Nonterminal(self.one_of(NONTERMINALS))
        }
    }
}
