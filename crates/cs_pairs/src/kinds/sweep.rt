// A sweep over a right side, from its last symbol to its first.

ghost use Rattle.std.specs.Prelude.{◌≡◌, []};
ghost use Rattle.cs_grammar.specs.declared.symbol.Symbol.TheVariants.{Token};
ghost use Rattle.cs_grammar.specs.Grammar.{PlainGrammar, IsNumberOf, IsSymbolOf};
ghost use Rattle.cs_grammar.specs.Weights.{Measure};
ghost use Rattle.cs_pairs.specs.declared.kinds.kind.TreeKind.TheVariants.{Begins};
ghost use Rattle.cs_pairs.specs.Kinds.Kinds.{IsKind};
ghost use Rattle.cs_pairs.specs.Kinds.Sweep.{IsSwept};
ghost use Rattle.cs_pairs.specs.Kinds.Clauses.{AreWaysOver, HasSwept, IsSweptOver};

use crate::kinds::kind::TreeKind;
use crate::kinds::kinds::Kinds;
use crate::kinds::rows::bare_cost;
use cs_grammar::Symbol;
use cs_least::Cost;

/// What trees of the swept symbols cost: the `whole` is that of the least ones that are of the kind together, the `rest` that of
/// the least ones behind a tree of the kind. Symbols are swept from the last of a right side to its first.
#[derive(Clone, Copy, Debug)]
pub struct Sweep {
    pub kind: TreeKind,
    pub whole: Cost,
    pub rest: Cost,
}

// What lists of trees cost whose first tree is of a kind itself, and whose others are of the kind.
#[derive(Clone, Copy, Debug)]
pub(crate) struct Ways {
    pub(crate) here: Cost,
    pub(crate) later: Cost,
}

impl Sweep {
    /// Before any symbol is swept.
    #[inline(always)]
    pub fn new(kind: TreeKind) -> Sweep
        ensures kind { result.kind ≡ kind }
        ensures swept { (w : Measure) (g : PlainGrammar) → IsSwept w g [] result }
    {
        Sweep {
            kind,
            whole: bare_cost(kind),
            rest: bare_cost(kind.behind()),
        }
    }

    // The two ways with one more symbol in front.
    #[inline(always)]
    pub(crate) fn ways(&self, kinds: &Kinds, symbol: Symbol) -> Ways
        requires kind { IsKind kinds.now.grammar.tokens self.now.kind }
        requires symbol { IsSymbolOf kinds.now.grammar symbol }
        requires swept { HasSwept kinds.now self.now }
        ensures { AreWaysOver kinds.now self.now symbol result }
    {
        let here = kinds.plus(kinds.told(self.kind, symbol), self.rest);
        let later = kinds.plus(kinds.told(self.kind.before(), symbol), self.whole);
        Ways { here, later }
    }

    // One token more: the trees behind it are of the kind where it is the first of them alone.
    #[inline(always)]
    fn over_token(self, kinds: &Kinds, first: u16, token: u16) -> Sweep
        requires kind { self.kind ≡ Begins first }
        requires token { IsNumberOf kinds.now.grammar.tokens token }
        requires swept { HasSwept kinds.now self }
        ensures kind { result.kind ≡ self.kind }
        ensures swept { IsSweptOver kinds.now self (Token token) result }
    {
        let rest = kinds.plus(kinds.told(TreeKind::Any, Symbol::Token(token)), self.rest);
        Sweep {
            kind: self.kind,
            whole: if token == first { rest } else { Cost::Never },
            rest,
        }
    }

    // One symbol more, by the two ways.
    #[inline(always)]
    fn over_symbol(self, kinds: &Kinds, symbol: Symbol) -> Sweep
        requires kind { IsKind kinds.now.grammar.tokens self.kind }
        requires symbol { IsSymbolOf kinds.now.grammar symbol }
        requires swept { HasSwept kinds.now self }
        ensures kind { result.kind ≡ self.kind }
        ensures swept { IsSweptOver kinds.now self symbol result }
    {
        let ways = self.ways(kinds, symbol);
        Sweep {
            kind: self.kind,
            whole: kinds.lesser(ways.here, ways.later),
            rest: kinds.plus(kinds.told(self.kind.behind(), symbol), self.rest),
        }
    }

    /// One symbol more in front of those that are swept.
    #[inline(always)]
    pub fn over(self, kinds: &Kinds, symbol: Symbol) -> Sweep
        requires kind { IsKind kinds.now.grammar.tokens self.kind }
        requires symbol { IsSymbolOf kinds.now.grammar symbol }
        requires swept { HasSwept kinds.now self }
        ensures kind { result.kind ≡ self.kind }
        ensures swept { IsSweptOver kinds.now self symbol result }
    {
        match (self.kind, symbol) {
            (TreeKind::Begins(first), Symbol::Token(token)) => self.over_token(kinds, first, token),
            _ => self.over_symbol(kinds, symbol),
        }
    }
}
