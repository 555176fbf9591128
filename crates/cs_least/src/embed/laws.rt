// Laws of chosen contexts.

ghost use Rattle.std.specs.Prelude.{ℕ};
ghost use Rattle.cs_grammar.specs.declared.symbol.Symbol.{Symbol};
ghost use Rattle.cs_grammar.specs.Grammar.{PlainGrammar};
ghost use Rattle.cs_grammar.specs.Weights.{Measure};
ghost use Rattle.cs_grammar.specs.Laws.{AtMostOne};
ghost use Rattle.cs_least.specs.Embed.ChosenContext.{IsChosenContext};
ghost use Rattle.cs_least.specs.Embed.Around.{HasContext, HasChosenFor, ChosenContextIsLeast};

/// Whatever the weights, a chosen context of a nonterminal exists exactly where a context of it exists, however large, and
/// it is of least size.
pub fn chosen_context_exists()
    ensures exists { (w : Measure) (g : PlainGrammar) (n : ℕ)
        → HasContext g n → HasChosenFor w g n }
    ensures least { (w : Measure) (g : PlainGrammar) (b : Symbol) → ChosenContextIsLeast w g b }
{}

/// A symbol has at most one chosen context.
pub fn one_chosen_context()
    ensures { (w : Measure) (g : PlainGrammar) (b : Symbol) → AtMostOne (IsChosenContext w g b) }
{}
