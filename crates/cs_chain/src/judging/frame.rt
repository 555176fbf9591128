// The parts of a chain's verdict: what chains share that differ in the inner rule alone, and the node with that rule.

ghost use Rattle.std.specs.Prelude.{◌≡◌, IfOk, length};
ghost use Rattle.cs_grammar.specs.Grammar.{IsNumberOf};
ghost use Rattle.cs_least.specs.Cost.Rank.{IsCapped};
ghost use Rattle.cs_chain.specs.Chains.Chain.{IsChain};
ghost use Rattle.cs_chain.specs.Judging.Frame.{FitsCore, FitsFrames};

use crate::chains::Chain;
use crate::judging::costs::{USUAL_RULES, frame_codes, frame_cost, node_cost};
use crate::judging::cuts::rules_of;
use cs_grammar::Derivation;
use cs_least::{Cost, Costs, Embeds};
use std::alloc::{AllocError, Global};

/// What the least trees that meet a chain have besides the node with the inner rule: what that costs, and where the cost is a
/// size, the rule numbers before that node and behind it. Chains that differ in the inner rule alone have the same.
#[derive(Debug, Drop)]
pub struct Frame {
    pub cost: Cost,
    pub before: Derivation,
    pub behind: Derivation,
}

/// The least node with a rule: what it costs, and its code where the cost is a size.
#[derive(Debug, Drop)]
pub struct Core {
    pub cost: Cost,
    pub code: Derivation,
}

impl Frame {
    /// That of a chain of the grammar, and of each that differs in the inner rule alone.
    pub fn new(alloc: Global, embeds: &Embeds, chain: &Chain) -> Result<Frame, AllocError>
        requires { IsChain embeds.now.grammar chain.now }
        ensures frame { IfOk result (FitsFrames embeds.now chain.now) }
        ensures capped { IfOk result (λ frame. IsCapped embeds.now.weights.limit frame.cost) }
    {
        let rules = rules_of(embeds.grammar(), chain);
        let cost = frame_cost(embeds, &rules);
        let (before, behind) = match cost {
            Cost::Least(_) => frame_codes(alloc, embeds, chain, &rules)?,
            _ => (Derivation::new(alloc), Derivation::new(alloc)),
        };
        Ok(Frame {
            cost,
            before,
            behind,
        })
    }
}

impl Core {
    /// That of a rule.
    pub fn new(alloc: Global, costs: &Costs, rule: u16) -> Result<Core, AllocError>
        requires { IsNumberOf (length costs.now.grammar.rules) rule }
        ensures core { IfOk result (FitsCore costs.now rule) }
        ensures capped { IfOk result (λ core. IsCapped costs.now.weights.limit core.cost) }
    {
        let right = costs.grammar().rule(rule).right();
        let cost = node_cost(costs, costs.sum(right));
        let mut code = Derivation::new(alloc);
        if let Cost::Least(_) = cost {
            code = Derivation::with_capacity(alloc, USUAL_RULES)?;
            code.push(rule)?;
            costs.all_into(right, &mut code)?;
        }
        Ok(Core { cost, code })
    }
}
