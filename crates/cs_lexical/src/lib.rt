//! What each rule of a scanner takes: the least text that it wins, the least text in which each two rules overlap, and the text
//! that tells of them.
//!
//! # What it is for
//!
//! An author of a scanner sees which rules others shadow, and where two rules compete. The layers above make a [`Lexical`] of
//! an automaton and ask it for texts, or write the whole report, a [`LexicalText`].
//!
//! # What a contract sees
//!
//! A [`Lexical`] is seen as one optional text for each rule, and for each rule a row of those with the rules behind it. The
//! report is the text that `IsLexical` tells of a yacc file and what a scanner scans by.
//!
//! # What is proved
//!
//! Each text is the least by the order of lexemes, of all texts of bytes that the rule wins, or in which the two rules overlap;
//! where there is none, no text is such. A file and a scanner have at most one report, and not none. A writer that ends well has
//! written exactly it, and else a prefix.
//!
//! # What is only tested
//!
//! How long it takes, and how much memory. Texts are kept once for each state that is the first one for some rule or pair.
//!
//! Meaning: `specs/Winning.antt` (winning, overlap, the least text), `specs/Least.antt` (the least texts of all rules), `specs/Lines.antt`
//! (the report), `specs/Laws.antt`. Working words of proofs: `specs/Noting.antt`.
#![tactic(auto)]

mod laws;
mod lexical;
mod noting;
mod put;
mod text;

pub use laws::{one_least_both, one_least_win, one_lexical_text, some_lexical_text};
pub use lexical::Lexical;
pub use text::{LexicalText, write_lexical};
