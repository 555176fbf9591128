//! The automaton of a list of patterns: what a scanner built from them knows after each text, decided without walking patterns
//! (the positions of patterns: McNaughton and Yamada 1960, Glushkov 1961; sets as states: Rabin and Scott 1959).
//!
//! The layers above make an `Automaton` of patterns that are `AreScannable`, and go over a text by `start` and `step`. At a state
//! `first_rule`, `rules_at` and `matches` tell which rules match what was read. None of these takes memory. An automaton is seen
//! as its patterns and, for each state, the ascending numbers of its set.
//!
//! Meaning: `specs/Automaton/Machine.antt` (which rules match, what a state stands for, what a step answers), `specs/Automaton/Listed.antt`
//! (ascending lists of all numbers of a kind), `specs/Automaton/Places.antt` (the numbers of classes, the set of a text), `specs/Automaton/Numbered.antt` (words of numbers as texts), `specs/Automaton/Counted.antt` (how many sets there are), `specs/Automaton/Re.antt` and
//! `specs/Automaton/Meaning.antt` (patterns with two parts at each join and either). The other files are working words of proofs.

mod automaton;
mod bits;
mod columns;
mod error;
mod flat;
mod laws;
mod op;
mod program;
mod running;
mod sets;
mod states;

pub use automaton::Automaton;
pub use error::{AutomatonError, State};
pub use laws::numbered_words;
