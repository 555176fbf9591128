// The states that texts lead to, each with its least text.

ghost use Rattle.std.specs.Prelude.{◌≡◌, ◌<◌, ◌≤◌, IfOk, length};
ghost use Rattle.cs_scanner.specs.Lexeme.StateTexts.{AreStateTexts, entry_in};

use crate::automaton::{Automaton, State};
use crate::lexeme::search::{Visit, meet_all, start_visit, text_at};
use crate::lexeme::steps::{Steps, all_steps};
use std::alloc::{AllocError, Global};
use std::marker::Model;

/// The states that texts of at least one byte lead to, each with the least text that leads there, in the order of these texts.
///
/// It is seen as the list of these, whose places count from 0. It takes memory by the number of states, and not by their texts.
#[derive(Debug, Drop)]
pub struct StateTexts {
    visits: Vec<Visit>,
}

impl Model for StateTexts {
    ghost use Rattle.std.specs.Prelude.{List};
    ghost use Rattle.std.specs.Coded.{codes};
    ghost use Rattle.cs_scanner.specs.Lexeme.Seen.{IsSearched, seen};
    ghost use Rattle.cs_scanner.specs.Lexeme.StateTexts.{StateText};

    ghost Value = { List StateText };

    ghost coded = { Prim.hlevel codes };

    ghost view = { λ t. seen t.visits.items };

    ghost invariant = { λ t. IsSearched t.visits.items };
}

impl StateTexts {
    /// The states that texts lead to in the automaton.
    pub fn new(alloc: Global, automaton: &Automaton<'_>) -> Result<StateTexts, AllocError>
        ensures texts { IfOk result (AreStateTexts automaton.now) }
        ensures few { IfOk result (λ met. length met ≤ 16384) }
    {
        let rows = all_steps(alloc, automaton)?;
        let _states = automaton.state_count();
        let steps = Steps {
            automaton,
            rows: &rows,
        };
        let mut visits = start_visit(alloc, automaton.start())?;
        meet_all(alloc, &steps, &mut visits, 0)?;
        Ok(StateTexts { visits })
    }

    /// How many states these are. It takes no memory.
    pub fn count(&self) -> usize
        ensures { result ≡ length self.now }
    {
        self.visits.len() - 1
    }

    /// The state at the place. It takes no memory.
    pub fn state(&self, place: usize) -> State
        requires { place < length self.now }
        ensures { result ≡ (entry_in self.now place).state }
    {
        self.visits[place + 1].state
    }

    /// The least text that leads to the state at the place.
    pub fn text(&self, alloc: Global, place: usize) -> Result<Vec<u8>, AllocError>
        requires { place < length self.now }
        ensures { IfOk result (λ text. text.items ≡ (entry_in self.now place).text) }
    {
        text_at(alloc, &self.visits, place + 1)
    }
}
