// The law of the list of chains.

ghost use Rattle.std.specs.Prelude.{◌≢◌};
ghost use Rattle.std.specs.List.{AllPairs};
ghost use Rattle.cs_grammar.specs.Grammar.{PlainGrammar};
ghost use Rattle.cs_goals.specs.Goals.{HasExactly};
ghost use Rattle.cs_chain.specs.Chains.Chain.{IsChain};
ghost use Rattle.cs_chain.specs.Chains.Chains.{chains};

/// Each chain of the list stands in it once, and the chains in it are the grammar's.
pub fn each_chain_once()
    ensures once { (g : PlainGrammar) → AllPairs (λ a b. a ≢ b) (chains g) }
    ensures all { (g : PlainGrammar) → HasExactly (chains g) (IsChain g) }
{}
