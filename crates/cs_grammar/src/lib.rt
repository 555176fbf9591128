//! Context-free grammars: symbols, rules, grammars within their limits, derivations and what they yield.
//!
//! # What it is for
//!
//! The layers above build a `Grammar` (which is well formed from then on) and read it by `rules`, `rule` and the
//! counts; write the code of a tree into a `Derivation`, and get the tokens of a derivation by `expand` or `yield_of`.
//! Symbols that they still have to take on they keep on a stack, by `put_on_top`. Trees are measured by `Weights`.
//! Numbers count from 1 and places from 0: see `cs_grammar::numbers`.
//!
//! # What a contract sees
//!
//! Of the files of `specs/`, these say what is meant: `Grammar`, `Tree`, `Weights`, `Context`, `Places`, `Uses`,
//! `Sentence`, `Leftmost`, `Fault`, `Stack`; `Laws` has the two halves of "exactly one". `Walk` and `Entries` have
//! working words of proofs. The lemmas on trees, contexts and tables that the layers above share stand in `proofs/`.
//!
//! # What is proved
//!
//! Exactly the well-formed grammars are built. `expand` gives the yield of the one tree of a derivation of the start
//! symbol, and else names the first fault of the list. The laws are functions that do nothing; by one the limits of sizes
//! are those of the definitions.
//!
//! # What is only tested
//!
//! That the calls answer where memory is ample, and what they answer to worked rows: by `test_verdicts::trees` and, for
//! long lists, `test_hostile`.
#![tactic(auto)]

mod derivation;
mod expansion;
mod grammar;
mod laws;
mod numbers;
mod rule;
mod stack;
mod symbol;
mod walk;
mod weights;

pub use derivation::Derivation;
pub use expansion::{ExpandError, expand, yield_of};
pub use grammar::Grammar;
pub use laws::{one_outcome, one_tree, size_limits};
pub use numbers::{number_of, place_of};
pub use rule::Rule;
pub use stack::put_on_top;
pub use symbol::{Mark, Symbol};
pub use weights::{Weights, byte_weight};

/// The most nodes that a derivation tree may have to be written out, where nodes are weighed. A larger one is only known
/// to exist.
pub const LIMIT: u32 = 10_000;

/// The greatest size of a tree that is written out where bytes are weighed.
pub const BYTE_LIMIT: u32 = 100_000;

/// The most that the number of a token or the limit of weights may be.
pub const MOST_WEIGHT: u32 = 1_000_000;

/// The most tokens of a grammar.
pub const MOST_TOKENS: u16 = 512;

/// The most nonterminals of a grammar.
pub const MOST_NONTERMINALS: u16 = 1024;

/// The most rules of a grammar.
pub const MOST_RULES: usize = 8192;

/// The most symbols of a rule's right side.
pub const MOST_SYMBOLS: usize = 128;
