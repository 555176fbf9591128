// Which marks may stand side by side, and what the least tree costs that shows it.

ghost use Rattle.std.specs.Prelude.{◌≡◌, ◌↔◌, IsTrue, IfOk};
ghost use Rattle.cs_grammar.specs.Grammar.{IsNumberOf};
ghost use Rattle.cs_goals.specs.Goal.{IsLeft, IsRight};
ghost use Rattle.cs_least.specs.Embed.Contexts.{AreContextsOf};
ghost use Rattle.cs_pairs.specs.Kinds.Kinds.{IsKind};
ghost use Rattle.cs_pairs.specs.Kinds.Laws.{HasTreeIn};
ghost use Rattle.cs_pairs.specs.Pairs.ChosenPair.{HasLeastPair, IsCodeOfPair};
ghost use Rattle.cs_pairs.specs.Pairs.Closed.{YieldsNothing, IsFirstOf, IsLastOf};
ghost use Rattle.cs_pairs.specs.Pairs.Pairs.{IsAdjacent};
ghost use Rattle.cs_pairs.specs.Pairs.Clauses.{IsPairCost, HasLeastOf, IsCodeOfTokens, HasSmallWhole, IsCodeOfWhole, IsWholeCost};

use crate::kinds::{Kinds, TreeKind};
use crate::pairs::derive::{kind_code, seam_code};
use crate::pairs::follows::{FollowRows, follow_rows};
use crate::pairs::fronts::around_rules;
use crate::pairs::kept::Kept;
use crate::pairs::meeting::TokenPair;
use cs_grammar::{Derivation, Grammar, Mark, Symbol, place_of};
use cs_least::{Cost, Costs, Embeds};
use std::alloc::{AllocError, Global};
use std::marker::Model;

/// What the least tree of a grammar costs that has two marks side by side.
#[derive(Debug, Drop)]
pub struct Pairs<'g> {
    kinds: Kinds<'g>,
    rows: FollowRows,
}

impl<'g> Model for Pairs<'g> {
    ghost use Rattle.cs_grammar.specs.Weights.{Weighed};
    ghost use Rattle.cs_pairs.specs.Pairs.Meetings.{AreFollowRows};

    ghost Value = { Weighed };

    ghost view = { λ p. p.kinds };

    ghost invariant = { λ p. AreFollowRows p.kinds p.rows };
}

impl<'g> Pairs<'g> {
    /// The pairs of a grammar, whose trees and contexts cost this. The costs are kept with them.
    pub fn new(alloc: Global, embeds: Embeds<'g>) -> Result<Pairs<'g>, AllocError>
        ensures { IfOk result (λ pairs. pairs ≡ embeds.entry) }
    {
        let kinds = Kinds::new(alloc, embeds)?;
        let around = around_rules(alloc, kinds.embeds())?;
        let steps = kinds.steps_to_ends(alloc)?;
        let rows = follow_rows(alloc, &kinds, &steps, &around)?;
        Ok(Pairs { kinds, rows })
    }

    /// The grammar that these are the pairs of.
    pub fn grammar(&self) -> &'g Grammar
        ensures { result.now ≡ self.now.grammar }
    {
        self.kinds.grammar()
    }

    /// What the least contexts of its nonterminals cost, and which contexts are chosen.
    pub fn embeds(&self) -> &Embeds<'g>
        ensures { result.now ≡ self.now }
    {
        self.kinds.embeds()
    }

    /// What the least trees of its symbols cost, and which trees are chosen.
    pub fn costs(&self) -> &Costs<'g>
        ensures { result.now ≡ self.now }
    {
        self.kinds.costs()
    }

    /// Whether some framed sentence has one mark directly followed by the other, whatever the size of its trees. The left one
    /// is the begin mark or a token of the grammar, the right one a token of the grammar or the end mark.
    pub fn adjacent(&self, left: Mark, right: Mark) -> bool
        requires left { IsLeft self.now.grammar.tokens left }
        requires right { IsRight self.now.grammar.tokens right }
        ensures { IsTrue result ↔ IsAdjacent self.now.grammar left right }
    {
        !matches!(self.cost(left, right), Cost::Never)
    }

    /// What the least tree of the start symbol costs whose framed yield has one mark directly followed by the other: `Never`
    /// where there is none, `Large` where each is larger than the limit, else the least size.
    /// The marks are as at `adjacent`.
    pub fn cost(&self, left: Mark, right: Mark) -> Cost
        requires left { IsLeft self.now.grammar.tokens left }
        requires right { IsRight self.now.grammar.tokens right }
        ensures { IsPairCost self.now left right result }
    {
        match (left, right) {
            (Mark::Begin, Mark::Token(second)) => self.whole_cost(TreeKind::Begins(second)),
            (Mark::Token(first), Mark::Token(second)) => {
                self.rows.costs[place_of(second)].costs()[place_of(first)]
            }
            (Mark::Token(first), Mark::End) => self.whole_cost(TreeKind::Ends(first)),
            (Mark::Begin, Mark::End) => self.whole_cost(TreeKind::Empty),
            _ => unreachable!(),
        }
    }

    /// The code of the chosen tree of a pair whose `cost` is a size; the marks are as at `adjacent`. Of the least
    /// trees that have it the chosen one of two tokens is that in which they meet under the lowest rule, and then the first of
    /// them ends a child at the lowest place, and then the second begins one; what stands between is empty, all parts are
    /// chosen ones, and the node stands in the chosen context of its rule's left side. Of a pair with a mark it is the start
    /// symbol's chosen tree that begins with the token, ends with it or is empty. Contexts that were made are kept, so that
    /// the next pairs have them.
    pub fn derive(
        &self,
        alloc: Global,
        kept: &mut Kept,
        left: Mark,
        right: Mark,
    ) -> Result<Derivation, AllocError>
        requires contexts { AreContextsOf self.now kept.old.contexts }
        requires left { IsLeft self.now.grammar.tokens left }
        requires right { IsRight self.now.grammar.tokens right }
        requires least { HasLeastPair self.now.weights self.now.grammar left right }
        ensures code { IfOk result (IsCodeOfPair self.now.weights self.now.grammar left right) }
        ensures contexts { AreContextsOf self.now kept.new.contexts }
    {
        match (left, right) {
            (Mark::Begin, Mark::Token(second)) => {
                self.derive_whole(alloc, TreeKind::Begins(second))
            }
            (Mark::Token(first), Mark::Token(second)) => {
                let tokens = TokenPair { first, second };
                self.derive_tokens(alloc, kept, tokens)
            }
            (Mark::Token(first), Mark::End) => self.derive_whole(alloc, TreeKind::Ends(first)),
            (Mark::Begin, Mark::End) => self.derive_whole(alloc, TreeKind::Empty),
            _ => unreachable!(),
        }
    }

    /// Whether some tree of a nonterminal of the grammar has an empty yield, whatever its size.
    pub fn empty(&self, nonterminal: u16) -> bool
        requires { IsNumberOf self.now.grammar.nonterminals nonterminal }
        ensures { IsTrue result ↔ YieldsNothing self.now.grammar nonterminal }
    {
        self.has_tree(TreeKind::Empty, nonterminal)
    }

    /// Whether the yield of some tree of a nonterminal begins with a token, whatever the tree's size. Both are of the grammar.
    pub fn first(&self, nonterminal: u16, token: u16) -> bool
        requires nonterminal { IsNumberOf self.now.grammar.nonterminals nonterminal }
        requires token { IsNumberOf self.now.grammar.tokens token }
        ensures { IsTrue result ↔ IsFirstOf self.now.grammar nonterminal token }
    {
        self.has_tree(TreeKind::Begins(token), nonterminal)
    }

    /// Whether the yield of some tree of a nonterminal ends with a token, whatever the tree's size. Both are of the grammar.
    pub fn last(&self, nonterminal: u16, token: u16) -> bool
        requires nonterminal { IsNumberOf self.now.grammar.nonterminals nonterminal }
        requires token { IsNumberOf self.now.grammar.tokens token }
        ensures { IsTrue result ↔ IsLastOf self.now.grammar nonterminal token }
    {
        self.has_tree(TreeKind::Ends(token), nonterminal)
    }

    // Whether a nonterminal has a tree that is of a kind.
    fn has_tree(&self, kind: TreeKind, nonterminal: u16) -> bool
        requires kind { IsKind self.now.grammar.tokens kind }
        requires nonterminal { IsNumberOf self.now.grammar.nonterminals nonterminal }
        ensures { IsTrue result ↔ HasTreeIn self.now kind (Symbol.Nonterminal nonterminal) }
    {
        let symbol = Symbol::Nonterminal(nonterminal);
        !matches!(self.kinds.told(kind, symbol), Cost::Never)
    }

    // The code of the chosen tree of the start symbol that is of a kind.
    fn derive_whole(&self, alloc: Global, kind: TreeKind) -> Result<Derivation, AllocError>
        requires kind { IsKind self.now.grammar.tokens kind }
        requires small { HasSmallWhole self.now kind }
        ensures { IfOk result (IsCodeOfWhole self.now kind) }
    {
        let grammar = self.kinds.grammar();
        let _rules = grammar.rules();
        let start = Symbol::Nonterminal(grammar.start());
        kind_code(alloc, &self.kinds, kind, start)
    }

    // The code of the chosen tree of two tokens.
    fn derive_tokens(
        &self,
        alloc: Global,
        kept: &mut Kept,
        tokens: TokenPair,
    ) -> Result<Derivation, AllocError>
        requires contexts { AreContextsOf self.now kept.old.contexts }
        requires first { IsNumberOf self.now.grammar.tokens tokens.first }
        requires second { IsNumberOf self.now.grammar.tokens tokens.second }
        requires least { HasLeastOf self.now tokens }
        ensures code { IfOk result (IsCodeOfTokens self.now tokens) }
        ensures contexts { AreContextsOf self.now kept.new.contexts }
    {
        let meetings = self.rows.meetings[place_of(tokens.second)].places();
        let Some(at) = meetings[place_of(tokens.first)] else {
            unreachable!()
        };
        seam_code(alloc, &self.kinds, kept, tokens, at)
    }

    // What the least tree of the start symbol costs that is of a kind.
    fn whole_cost(&self, kind: TreeKind) -> Cost
        requires { IsKind self.now.grammar.tokens kind }
        ensures { IsWholeCost self.now kind result }
    {
        let grammar = self.kinds.grammar();
        let _rules = grammar.rules();
        self.kinds.told(kind, Symbol::Nonterminal(grammar.start()))
    }
}
