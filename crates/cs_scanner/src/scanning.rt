//! The longest match at a place of a text, the first rule that has it, the tokens of a text, and whether it scans to a list of
//! tokens (POSIX.1-2017, lex).
//!
//! The layers above compare a text with a list of tokens by a `Scanner` and `agrees`; those that go over bytes themselves step by
//! the scanner's automaton. `longest` tells the match at a place, as `agrees` takes one after another. Neither takes memory,
//! and threads may share a scanner. `scan` makes the list of a text's tokens, or tells where the scan stops. Numbers of tokens and rules count from 1 and places from 0: see `cs_grammar::numbers`.
//!
//! Meaning: `specs/Scan/Scan.antt` (a match, the scan of a text over matches, where and why it stops, what two lists have in common),
//! `specs/Scan/Compared.antt` (what a scanner scans by, what a comparison answers), `specs/Scan/Scanned.antt` (what a scan answers). Working words of proofs: `specs/Scan/Best.antt`, `specs/Scan/Going.antt`.

mod comparing;
mod front;
mod laws;
mod scanner;
mod tokens;

pub use comparing::{Agreement, agrees};
pub use front::longest;
pub use laws::{
    one_match, one_scan, one_stop, shared_scanner, some_scan, stop_or_whole, three_stops,
};
pub use scanner::Scanner;
pub use tokens::{Scanned, scan};
