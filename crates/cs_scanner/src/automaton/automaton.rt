// The automaton.

ghost use Rattle.std.specs.Prelude.{◌≡◌, ◌↔◌, ℕ, ◌+◌, ◌<◌, ◌≤◌, List, [], length, map, IfOk, IfSome, IsTrue, Err};
ghost use Rattle.cs_grammar.specs.Grammar.{IsNumberOf};
ghost use Rattle.cs_pattern_parts.specs.Tree.Pattern.{regex};
ghost use Rattle.cs_pattern_parts.specs.Tree.Scannable.{AreScannable};
ghost use Rattle.cs_scanner.specs.Automaton.Counted.{IsAbove, TooMany, too_many};
ghost use Rattle.cs_scanner.specs.Automaton.Machine.{AreMatching, HasOwnSets, IsFirstRule, IsNextState, MatchesRule, StateOf, patterns_of};
ghost use Rattle.cs_scanner.specs.Automaton.Meaning.{res_of};
ghost use Rattle.cs_scanner.specs.Automaton.Places.{InSet};
ghost use Rattle.cs_scanner.specs.Automaton.States as spec;

use crate::automaton::columns::{Columns, make_columns};
use crate::automaton::error::{AutomatonError, State};
use crate::automaton::program::make_program;
use crate::automaton::states::{States, make_states};
use cs_pattern_parts::Pattern;
use indexmap::IndexSet;
use std::alloc::Global;
use std::marker::Model;

/// The automaton of a list of patterns.
#[derive(Drop)]
pub struct Automaton<'p> {
    patterns: &'p [Pattern],
    column_of: Vec<usize>,
    sets: IndexSet<Vec<u64>>,
    steps: Vec<Vec<Option<State>>>,
    rules: Vec<Vec<u16>>,
}

impl<'p> Model for Automaton<'p> {
    ghost use Rattle.std.specs.Prelude.{map};
    ghost use Rattle.std.specs.Coded.{codes};
    ghost use Rattle.cs_pattern_parts.specs.Tree.Pattern.{regex};
    ghost use Rattle.cs_pattern_parts.specs.contracts.tree.pattern.Pattern as pattern;
    ghost use Rattle.cs_scanner.specs.Automaton.Automata.{AreTables, members};
    ghost use Rattle.cs_scanner.specs.Automaton.Machine.{Machine};
    ghost use Rattle.cs_scanner.specs.Automaton.Meaning.{res};
    ghost use Rattle.cs_scanner.specs.Automaton.Sets.{lists};
    ghost use Rattle.cs_scanner.specs.Automaton.States.{option_lists};

    ghost Value = { Machine };

    ghost coded = { Prim.hlevel (codes, pattern.the_row.coded) };

    ghost view = { λ a. record {
      patterns = a.patterns.now;
      sets = map members (lists a.sets.keys);
    } };

    ghost invariant = { λ a. AreTables (res (map regex a.patterns.now)) (lists a.sets.keys)
        (option_lists a.steps.items) a.column_of.items (lists a.rules.items) };
}

impl<'p> Automaton<'p> {
    /// The automaton of the patterns, or that there are more than 16,384 different sets of positions.
    pub fn new(alloc: Global, patterns: &'p [Pattern]) -> Result<Automaton<'p>, AutomatonError>
        requires scannable { AreScannable (map regex patterns.now) }
        ensures patterns { IfOk result (λ a. a.patterns ≡ patterns.now) }
        ensures few { IfOk result (λ _. IsAbove (InSet (res_of patterns.now)) 16384 → ⊥) }
        ensures too_many { (most : ℕ)
            → result ≡ Err (too_many most) → TooMany (res_of patterns.now) most }
    {
        let program = make_program(alloc, patterns)?;
        let width = program.classes.len() / 64 + 1;
        let Columns { rows, column_of } = make_columns(alloc, &program.classes, width)?;
        let States { sets, steps, rules } = make_states(alloc, &program, rows.as_slice(), width)?;
        Ok(Automaton {
            patterns,
            column_of,
            sets,
            steps,
            rules,
        })
    }
}

/// The step by a column.
fn step_in(steps: &[Vec<Option<State>>], state: usize, column: usize) -> Option<State>
    requires state { state < length steps.now }
    requires column { spec.HasColumn (spec.option_lists steps.now) state column }
    ensures { result ≡ spec.step_in (spec.option_lists steps.now) state column }
{
    steps[state][column]
}

impl Automaton<'_> {
    /// The state of the empty text.
    pub fn start(&self) -> State
        ensures stands { StateOf self.now result [] }
        ensures within { result < length self.now.sets }
    {
        let _sets = &self.sets;
        0
    }

    /// How many states there are, the start among them. The states are the numbers below.
    pub fn state_count(&self) -> usize
        ensures count { result ≡ length self.now.sets }
        ensures few { result ≤ 16384 + 1 }
        ensures sets { HasOwnSets self.now }
    {
        self.sets.len()
    }

    /// Where the byte leads from the state. None where no rule matches a text that begins with what was read and the byte.
    pub fn step(&self, state: State, byte: u8) -> Option<State>
        requires { state < length self.now.sets }
        ensures next { (x : List ℕ)
            → StateOf self.now state x → IsNextState self.now x byte result }
        ensures within { IfSome result (λ to. to < length self.now.sets) }
    {
        step_in(&self.steps, state as usize, self.column_of[byte as usize])
    }

    /// The lowest rule, counted from 1, that matches what was read. None where none does.
    pub fn first_rule(&self, state: State) -> Option<u16>
        requires { state < length self.now.sets }
        ensures { (x : List ℕ)
            → StateOf self.now state x → IsFirstRule (patterns_of self.now) x result }
    {
        self.rules_at(state).first().copied()
    }

    /// All rules that match what was read, ascending. They count from 1.
    pub fn rules_at(&self, state: State) -> &[u16]
        requires { state < length self.now.sets }
        ensures { (x : List ℕ)
            → StateOf self.now state x → AreMatching (patterns_of self.now) x result.now }
    {
        self.rules[state as usize].as_slice()
    }

    /// Whether the rule, which counts from 1, matches what was read. It takes no memory.
    pub fn matches(&self, state: State, rule: u16) -> bool
        requires state { state < length self.now.sets }
        requires rule { IsNumberOf (length self.now.patterns) rule }
        ensures { (x : List ℕ) → StateOf self.now state x
            → IsTrue result ↔ MatchesRule (patterns_of self.now) rule x }
    {
        self.rules_at(state).binary_search(&rule).is_ok()
    }
}
