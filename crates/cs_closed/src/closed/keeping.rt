// Whether sets are closed under the rules of a grammar.

ghost use Rattle.std.specs.Prelude.{◌≤◌, ◌↔◌, IsTrue, All, length};
ghost use Rattle.cs_closed.specs.Closed.Sets.{AreSetsOf};
ghost use Rattle.cs_closed.specs.Closed.Closed.{AreClosed};
ghost use Rattle.cs_closed.specs.Closed.Keeping.{MayBegin, KeepsNonterminals, KeepsMeetings, KeepsToken, AreParted, IsPartedSymbol, AreJoined, KeepsEnds, KeepsTokenIn, KeepsNonterminalsIn};

use crate::closed::sets::{Sets, has, has_pair};
use cs_grammar::{Grammar, MOST_NONTERMINALS, Rule, Symbol, number_of};

// The most nonterminals of a grammar.
const MOST: usize = MOST_NONTERMINALS as usize;

impl Sets {
    fn keeps_nonterminals(&self, rule: &Rule) -> bool
        ensures { IsTrue result ↔ KeepsNonterminals self.now rule.now }
    {
        if self.is_live(rule) && !has(self.productive.members(), rule.left()) {
            return false;
        }
        if self.are_empty(rule.right()) && !has(self.empty.members(), rule.left()) {
            return false;
        }
        !self.is_used(rule) || self.are_reachable(rule.right())
    }

    // One sweep from the right: whether the token may stand first behind each place.
    fn keeps_meetings(&self, symbols: &[Symbol], token: u16, parted: &[bool]) -> bool
        requires { AreParted self.now token parted.now }
        ensures { IsTrue result ↔ KeepsMeetings self.now token symbols.now }
    {
        let mut stands = false;
        for place in (0..symbols.len()).rev() {
            let symbol = symbols[place];
            if stands && self.is_parted(symbol, token, parted) {
                return false;
            }
            stands = self.begins_or_empty(symbol, token, stands);
        }
        true
    }

    // Whether the token may stand first from this symbol on, where it may or may not behind it.
    fn begins_or_empty(&self, symbol: Symbol, token: u16, behind: bool) -> bool
        ensures { IsTrue result ↔ MayBegin self.now symbol token behind }
    {
        self.begins(symbol, token) || self.is_empty(symbol) && behind
    }

    // Whether the symbol has a last token in whose line the token doesn't stand.
    fn is_parted(&self, symbol: Symbol, token: u16, parted: &[bool]) -> bool
        requires { AreParted self.now token parted.now }
        ensures { IsTrue result ↔ IsPartedSymbol self.now token symbol }
    {
        match symbol {
            Symbol::Token(t) => !has_pair(&self.next, t, token),
            Symbol::Nonterminal(n) => has(parted, n),
        }
    }

    // The nonterminals that have a last token in whose line the token doesn't stand.
    fn parted(&self, grammar: &Grammar, token: u16) -> [bool; MOST]
        requires { AreSetsOf grammar.now self.now }
        ensures { AreParted self.now token result }
    {
        let _well_formed = grammar.rules();
        let lasts = self.last.as_slice();
        let mut parted = [false; MOST];
        for place in 0..lasts.len() {
            if !has_pair(&self.next, number_of(place), token) {
                add(&mut parted, lasts[place].members());
            }
        }
        parted
    }

    fn keeps_token(&self, rule: &Rule, token: u16, parted: &[bool]) -> bool
        requires { AreParted self.now token parted.now }
        ensures { IsTrue result ↔ KeepsToken self.now token rule.now }
    {
        if !self.is_live(rule) {
            return true;
        }
        let right = rule.right();
        let left = rule.left();
        if self.begin_with(right, token) && !has_pair(&self.first, left, token) {
            return false;
        }
        if self.end_with(right, token) && !has_pair(&self.last, left, token) {
            return false;
        }
        !self.is_used(rule) || self.keeps_meetings(right, token, parted)
    }

    fn keep_token(&self, rules: &[Rule], token: u16, parted: &[bool]) -> bool
        requires { AreParted self.now token parted.now }
        ensures { IsTrue result ↔ All (KeepsToken self.now token) rules.now }
    {
        for rule in rules {
            if !self.keeps_token(rule, token, parted) {
                return false;
            }
        }
        true
    }

    fn keeps_ends(&self, start: u16, token: u16) -> bool
        ensures { IsTrue result ↔ KeepsEnds self.now start token }
    {
        if has_pair(&self.first, start, token) && !has(self.begin.members(), token) {
            return false;
        }
        !has_pair(&self.last, start, token) || has(self.end.members(), token)
    }

    fn keeps_token_in(&self, grammar: &Grammar, token: u16) -> bool
        requires { AreSetsOf grammar.now self.now }
        ensures { IsTrue result ↔ KeepsTokenIn self.now grammar.now.rules grammar.now.start token }
    {
        let parted = self.parted(grammar, token);
        self.keep_token(grammar.rules(), token, &parted) && self.keeps_ends(grammar.start(), token)
    }

    fn keeps_nonterminals_in(&self, grammar: &Grammar) -> bool
        ensures { IsTrue result ↔ KeepsNonterminalsIn self.now grammar.now }
    {
        if !has(self.reachable.members(), grammar.start()) {
            return false;
        }
        if has(self.empty.members(), grammar.start()) && !self.bare {
            return false;
        }
        grammar
            .rules()
            .iter()
            .all(|rule| self.keeps_nonterminals(rule))
    }

    /// Whether the sets are closed under the rules of the grammar. A table of tokens and nonterminals is gone through for
    /// each token, and so is each symbol of the rules; no set is made of two for each symbol.
    pub fn are_closed(&self, grammar: &Grammar) -> bool
        requires { AreSetsOf grammar.now self.now }
        ensures { IsTrue result ↔ AreClosed grammar.now self.now }
    {
        let _well_formed = grammar.rules();
        if !self.keeps_nonterminals_in(grammar) {
            return false;
        }
        for place in 0..grammar.tokens() {
            if !self.keeps_token_in(grammar, place + 1) {
                return false;
            }
        }
        true
    }
}

// Adds to a set what is in another.
fn add(set: &mut [bool], other: &[bool])
    requires { length other.now ≤ length set.old }
    ensures { AreJoined set.old other.now set.new }
{
    for place in 0..other.len() {
        if other[place] {
            set[place] = true;
        }
    }
}
