// Derivations in the order in which they came, each once.

ghost use Rattle.std.specs.Prelude.{◌≡◌, IfOk, OnErr};
ghost use Rattle.cs_grammar.specs.Leftmost.{IsYield};
ghost use Rattle.cs_goals.specs.Meets.{IsMeeting};
ghost use Rattle.cs_verdicts.specs.Cases.Cases.{IsPlaced, IsFirstMet, HasMeeting, no_cases};
ghost use Rattle.cs_verdicts.specs.Cases.Table.{IsOwn};

use crate::cases::code::Code;
use crate::cases::firsts::Firsts;
use crate::cases::met::{Spot, add_met};
use cs_goals::Goal;
use cs_grammar::{Derivation, Grammar};
use indexmap::IndexSet;
use std::alloc::{AllocError, Global};
use std::marker::Model;

/// What is told of a derivation that is placed: the number of its case, the number of the first case whose tree meets the goal,
/// and whether its case is new. Cases are numbered from 1.
#[derive(Clone, Copy, Debug, PartialEq, Eq)]
pub struct Named {
    pub case: u64,
    pub first: u64,
    pub fresh: bool,
}

/// Derivations of a grammar, each once, in the order in which they came.
#[derive(Drop)]
pub struct Cases<'g> {
    alloc: Global,
    grammar: &'g Grammar,
    codes: IndexSet<Code>,
    firsts: Firsts,

    // Memory for walks over codes.
    spots: Vec<Spot>,
}

impl<'g> Model for Cases<'g> {
    ghost use Rattle.cs_verdicts.specs.Cases.Cases.{PlainCases};
    ghost use Rattle.cs_verdicts.specs.Cases.Table.{codes_in, AreFirstCases};

    ghost Value = { PlainCases };

    ghost view = { λ c. record { grammar = c.grammar.now; codes = codes_in c.codes.keys } };

    ghost invariant = { λ c. AreFirstCases c.grammar.now (codes_in c.codes.keys) c.firsts };
}

impl<'g> Cases<'g> {
    /// No cases of a grammar. That takes no memory.
    pub fn new(alloc: Global, grammar: &'g Grammar) -> Cases<'g>
        ensures { result ≡ no_cases grammar.now }
    {
        Cases {
            alloc,
            grammar,
            codes: IndexSet::new(alloc),
            firsts: Firsts::new(alloc),
            spots: Vec::new(alloc),
        }
    }

    /// The grammar that these are cases of.
    pub fn grammar(&self) -> &'g Grammar
        ensures { result.now ≡ self.now.grammar }
    {
        self.grammar
    }

    /// Places the derivation of a goal that its tree meets, with the tokens that it yields. A derivation that no case has is a
    /// new case and stands last. After a refusal, which is want of memory, the cases are as before.
    pub fn place(
        &mut self,
        goal: &Goal,
        derivation: &Derivation,
        tokens: &[u16],
    ) -> Result<Named, AllocError>
        requires met { IsMeeting self.old.grammar goal.now derivation.now }
        requires tokens { IsYield self.old.grammar derivation.now tokens.now }
        ensures placed { IfOk result (IsPlaced self.old goal.now derivation.now self.new) }
        ensures grammar { self.new.grammar ≡ self.old.grammar }
        ensures refused { OnErr result (self.new ≡ self.old) }
    {
        let (case, fresh) = self.own(derivation, tokens)?;
        let first = self.first(goal);
        Ok(Named { case, first, fresh })
    }

    // The number of a derivation's own case, which is made where there is none, and whether it is new. A new case has the
    // goals that its tree is the first to meet. A refusal takes all back.
    fn own(&mut self, derivation: &Derivation, tokens: &[u16]) -> Result<(u64, bool), AllocError>
        requires { IsYield self.old.grammar derivation.now tokens.now }
        ensures own { IfOk result (IsOwn self.old derivation.now self.new) }
        ensures refused { OnErr result (self.new ≡ self.old) }
    {
        let code = Code::of(self.alloc, derivation)?;
        let (index, fresh) = self.codes.insert_full(code)?;
        let _count = self.codes.len();
        let case = index as u64 + 1;
        if !fresh {
            return Ok((case, false));
        }
        let before = self.firsts.len();
        let added = add_met(
            self.grammar,
            derivation,
            tokens,
            case,
            &mut self.spots,
            &mut self.firsts,
        );
        if added.is_err() {
            self.codes.truncate(index);
            self.firsts.truncate(before);
            return Err(AllocError);
        }
        Ok((case, true))
    }

    // The first case whose tree meets a goal, where some tree does.
    fn first(&self, goal: &Goal) -> u64
        requires { HasMeeting self.now goal.now }
        ensures { IsFirstMet self.now goal.now result }
    {
        match self.firsts.get(goal) {
            Some(first) => first,
            None => unreachable!(),
        }
    }
}
