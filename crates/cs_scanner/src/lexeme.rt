//! The least text that a scanner takes for each token, and the least text to each state of an automaton.
//!
//! The layers above make `Lexemes` of a scanner and ask it for the text of a token. It is seen as the list of its texts, one a
//! token, and a token without a lexeme has none. They make `StateTexts` of an automaton, and look at its states in the order of
//! their least texts, as for the least text with a property that the state tells. The laws say that the order of texts is total,
//! that a token has at most one lexeme, and one where some text scans to it in one match, and that tokens have at most one list
//! of lexemes, and not none.
//!
//! Meaning: `specs/Lexeme/Rank.antt` (the ranks of bytes), `specs/Lexeme/Order.antt` (the order of lexemes), `specs/Lexeme/Lexeme.antt` (the lexeme
//! of a token, over all texts), `specs/Lexeme/Texts.antt` (what is seen of lexemes), `specs/Lexeme/StateTexts.antt` (states and their least
//! texts), `specs/Lexeme/Laws.antt`. Working words of proofs: `specs/Lexeme/Seen.antt` (what is seen of states that were met),
//! `specs/Lexeme/Number.antt` (the order by numbers), `specs/Lexeme/Bytes.antt`, `specs/Lexeme/Steps.antt` and `specs/Lexeme/Table.antt` (bytes and steps by
//! rank), `specs/Lexeme/Visits.antt` (states that were met), `specs/Lexeme/Kinds.antt` (which texts give a token).

mod laws;
mod lexemes;
mod order;
mod rank;
mod search;
mod state_texts;
mod steps;

pub use laws::{one_lexeme, one_list_of_lexemes, some_lexeme, some_list_of_lexemes, total_order};
pub use lexemes::Lexemes;
pub use state_texts::StateTexts;
