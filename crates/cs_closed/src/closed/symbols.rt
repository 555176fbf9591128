// What sets say of symbols and of lists of symbols.

ghost use Rattle.std.specs.Prelude.{◌↔◌, IsTrue, All};
ghost use Rattle.cs_closed.specs.Closed.Sets.{IsProductiveSymbol, IsReachableSymbol, IsEmptySymbol, IsFirstOf, IsLastOf};
ghost use Rattle.cs_closed.specs.Closed.Closed.{IsLive, IsUsed, IsFirstAmong, IsLastAmong};

use crate::closed::sets::{Sets, has, has_pair};
use cs_grammar::{Rule, Symbol};

impl Sets {
    fn is_productive(&self, symbol: Symbol) -> bool
        ensures { IsTrue result ↔ IsProductiveSymbol self.now symbol }
    {
        match symbol {
            Symbol::Token(_) => true,
            Symbol::Nonterminal(n) => has(self.productive.members(), n),
        }
    }

    fn is_reachable(&self, symbol: Symbol) -> bool
        ensures { IsTrue result ↔ IsReachableSymbol self.now symbol }
    {
        match symbol {
            Symbol::Token(_) => true,
            Symbol::Nonterminal(n) => has(self.reachable.members(), n),
        }
    }

    pub(crate) fn is_empty(&self, symbol: Symbol) -> bool
        ensures { IsTrue result ↔ IsEmptySymbol self.now symbol }
    {
        match symbol {
            Symbol::Token(_) => false,
            Symbol::Nonterminal(n) => has(self.empty.members(), n),
        }
    }

    pub(crate) fn begins(&self, symbol: Symbol, token: u16) -> bool
        ensures { IsTrue result ↔ IsFirstOf self.now symbol token }
    {
        match symbol {
            Symbol::Token(t) => t == token,
            Symbol::Nonterminal(n) => has_pair(&self.first, n, token),
        }
    }

    fn ends(&self, symbol: Symbol, token: u16) -> bool
        ensures { IsTrue result ↔ IsLastOf self.now symbol token }
    {
        match symbol {
            Symbol::Token(t) => t == token,
            Symbol::Nonterminal(n) => has_pair(&self.last, n, token),
        }
    }

    pub(crate) fn is_live(&self, rule: &Rule) -> bool
        ensures { IsTrue result ↔ IsLive self.now rule.now }
    {
        rule.right()
            .iter()
            .all(|symbol| self.is_productive(*symbol))
    }

    pub(crate) fn is_used(&self, rule: &Rule) -> bool
        ensures { IsTrue result ↔ IsUsed self.now rule.now }
    {
        self.is_live(rule) && has(self.reachable.members(), rule.left())
    }

    pub(crate) fn are_reachable(&self, symbols: &[Symbol]) -> bool
        ensures { IsTrue result ↔ All (IsReachableSymbol self.now) symbols.now }
    {
        symbols.iter().all(|symbol| self.is_reachable(*symbol))
    }

    pub(crate) fn are_empty(&self, symbols: &[Symbol]) -> bool
        ensures { IsTrue result ↔ All (IsEmptySymbol self.now) symbols.now }
    {
        symbols.iter().all(|symbol| self.is_empty(*symbol))
    }

    // Whether the token is a first token at a place with only empty nonterminals before it.
    pub(crate) fn begin_with(&self, symbols: &[Symbol], token: u16) -> bool
        ensures { IsTrue result ↔ IsFirstAmong self.now symbols.now token }
    {
        for symbol in symbols {
            if self.begins(*symbol, token) {
                return true;
            }
            if !self.is_empty(*symbol) {
                return false;
            }
        }
        false
    }

    // Whether the token is a last token at a place with only empty nonterminals behind it.
    pub(crate) fn end_with(&self, symbols: &[Symbol], token: u16) -> bool
        ensures { IsTrue result ↔ IsLastAmong self.now symbols.now token }
    {
        for place in (0..symbols.len()).rev() {
            if self.ends(symbols[place], token) {
                return true;
            }
            if !self.is_empty(symbols[place]) {
                return false;
            }
        }
        false
    }
}
