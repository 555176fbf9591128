// The cases that were told.

ghost use Rattle.std.specs.Prelude.{◌≡◌, ◌<◌, ◌^◌, ℕ, [], IfOk, OnOk, length};
ghost use Rattle.cs_grammar.specs.Leftmost.{IsYield};
ghost use Rattle.cs_lines.specs.Lines.Numbers.{IsRead};
ghost use Rattle.cs_lines.specs.Lines.Read.{numbers_in};
ghost use Rattle.cs_check.specs.Passing.Entries.{IsLast};
ghost use Rattle.cs_check.specs.Checking.Cases.{PlainCase, cases_of, IsPlaceOf, IsPushed, IsAt, Yields};
ghost use Rattle.cs_check.specs.Checking.Cases.{DecidesMeeting, TellsMet, TellsShown};

use crate::checking::derivations::read_rules;
use crate::checking::framed::has_pair;
use cs_goals::{Goal, meets};
use cs_grammar::{Derivation, Grammar, one_tree, yield_of};
use cs_lines::Numbers;
use std::alloc::{AllocError, Global};
use std::marker::Model;

// A case: its size, and its rule numbers where they stand in the manifest.
#[derive(Drop)]
struct Case<'m> {
    size: u64,
    rules: Numbers<'m>,
}

impl<'m> Model for Case<'m> {
    ghost use Rattle.cs_lines.specs.Lines.Read.{numbers_in};
    ghost use Rattle.cs_check.specs.Checking.Cases.{PlainCase, case_of};

    ghost Value = { PlainCase };

    ghost view = { λ c. case_of c.size (numbers_in c.rules) };
}

/// The cases, in the order of their numbers. All are derivations of the grammar.
#[derive(Drop)]
pub(crate) struct Cases<'g, 'm> {
    grammar: &'g Grammar,
    list: Vec<Case<'m>>,
    // The last case's derivation and its tokens, since most goals name the last case.
    last: Derivation,
    tokens: Vec<u16>,
}

impl<'g, 'm> Model for Cases<'g, 'm> {
    ghost use Rattle.std.specs.Prelude.{List, All};
    ghost use Rattle.cs_grammar.specs.Grammar.{PlainGrammar};
    ghost use Rattle.cs_grammar.specs.Tree.{IsDerivationOf};
    ghost use Rattle.cs_check.specs.Checking.Cases.{PlainCase, PlainCases, cases_of, HoldsLast};

    ghost Value = { PlainCases };

    ghost view = { λ c. cases_of c.grammar.now c.list.items };

    ghost invariant = { λ c. All (λ (case : PlainCase). IsDerivationOf c.grammar.now case.rules) c.list.items
        × HoldsLast c.grammar.now c.list.items c.last c.tokens.items };
}

/// The place in a list of what has this number.
pub(crate) fn place_in(number: u64, many: usize) -> Option<usize>
    requires { many < 2 ^ 63 }
    ensures { (n : ℕ) → IsRead n number → IsPlaceOf n many result }
{
    if 0 < number && number <= many as u64 {
        Some(number as usize - 1)
    } else {
        None
    }
}

impl<'g, 'm> Cases<'g, 'm> {
    /// No case.
    pub(crate) fn new(alloc: Global, grammar: &'g Grammar) -> Cases<'g, 'm>
        ensures { result ≡ cases_of grammar.now [] }
    {
        Cases {
            grammar,
            list: Vec::new(alloc),
            last: Derivation::new(alloc),
            tokens: Vec::new(alloc),
        }
    }

    /// The grammar of which they are derivations.
    pub(crate) fn grammar(&self) -> &'g Grammar
        ensures { result.now ≡ self.now.grammar }
    {
        self.grammar
    }

    /// How many there are.
    pub(crate) fn len(&self) -> usize
        ensures { result ≡ length self.now.list }
    {
        self.list.len()
    }

    /// The place of the case of this number.
    pub(crate) fn find(&self, number: u64) -> Option<usize>
        ensures { (n : ℕ) → IsRead n number → IsPlaceOf n (length self.now.list) result }
    {
        place_in(number, self.list.len())
    }

    /// Adds a case, with its rule numbers as they stand in the manifest, as a derivation, and with its tokens.
    pub(crate) fn push(
        &mut self,
        size: u64,
        rules: Numbers<'m>,
        derivation: Derivation,
        tokens: Vec<u16>,
    ) -> Result<(), AllocError>
        requires same { derivation ≡ numbers_in rules }
        requires yields { IsYield self.old.grammar derivation tokens.items }
        ensures { OnOk result (IsPushed self.old size (numbers_in rules.entry) self.new) }
    {
        self.list.push(Case { size, rules })?;
        self.last = derivation;
        self.tokens = tokens;
        Ok(())
    }

    /// The size of the case at this place.
    pub(crate) fn size(&self, place: usize) -> u64
        requires { place < length self.now.list }
        ensures { (case : PlainCase) → IsAt self.now place case → result ≡ case.size }
    {
        self.list[place].size
    }

    // The derivation of the case at this place.
    fn derivation(&self, alloc: Global, place: usize) -> Result<Derivation, AllocError>
        requires { place < length self.now.list }
        ensures { (case : PlainCase) → IsAt self.now place case
            → IfOk result (λ derivation. derivation ≡ case.rules) }
    {
        let _well_formed = self.grammar.rules();
        match read_rules(alloc, self.list[place].rules)? {
            Some(derivation) => Ok(derivation),
            None => unreachable!(),
        }
    }

    /// The tokens of the case at this place.
    pub(crate) fn tokens(&self, alloc: Global, place: usize) -> Result<Vec<u16>, AllocError>
        requires { place < length self.now.list }
        ensures { (case : PlainCase) → IsAt self.now place case
            → IfOk result (Yields self.now case) }
    {
        let derivation = self.derivation(alloc, place)?;
        yield_of(alloc, self.grammar, &derivation)
    }

    // Whether the tree of the last case meets the goal.
    fn is_met_by_last(&self, alloc: Global, goal: &Goal) -> Result<bool, AllocError>
        requires { 0 < length self.now.list }
        ensures { (case : PlainCase) → IsLast self.now.list case
            → IfOk result (DecidesMeeting self.now goal.now case) }
    {
        one_tree();
        match *goal {
            Goal::Pair { left, right } => Ok(has_pair(&self.tokens, left, right)),
            _ => meets(alloc, self.grammar, goal, &self.last),
        }
    }

    // Whether the tree of the case at this place meets the goal.
    fn is_met_at(&self, alloc: Global, goal: &Goal, place: usize) -> Result<bool, AllocError>
        requires { place < length self.now.list }
        ensures { (case : PlainCase) → IsAt self.now place case
            → IfOk result (DecidesMeeting self.now goal.now case) }
    {
        let many = self.list.len();
        if place + 1 == many {
            return self.is_met_by_last(alloc, goal);
        }
        let derivation = self.derivation(alloc, place)?;
        meets(alloc, self.grammar, goal, &derivation)
    }

    /// Whether a case has the number, and its tree meets the goal.
    pub(crate) fn is_met_by(
        &self,
        alloc: Global,
        goal: &Goal,
        number: u64,
    ) -> Result<bool, AllocError>
        ensures { (n : ℕ) → IsRead n number → IfOk result (TellsMet self.now goal.now n) }
    {
        match place_in(number, self.list.len()) {
            Some(place) => self.is_met_at(alloc, goal, place),
            None => Ok(false),
        }
    }

    /// Whether what a goal line says of its cases is so.
    pub(crate) fn is_shown(
        &self,
        alloc: Global,
        goal: &Goal,
        size: u64,
        case: u64,
        first: u64,
    ) -> Result<bool, AllocError>
        ensures { TellsShown self.now goal.now size case first result }
    {
        let Some(place) = place_in(case, self.list.len()) else {
            return Ok(false);
        };
        if self.list[place].size != size {
            return Ok(false);
        }
        if !self.is_met_by(alloc, goal, case)? {
            return Ok(false);
        }
        match place_in(first, self.list.len()) {
            Some(other) if other == place => Ok(true),
            _ => self.is_met_by(alloc, goal, first),
        }
    }
}
