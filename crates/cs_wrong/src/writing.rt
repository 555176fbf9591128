//! The text of `wrong`, written as it is made: workers judge a batch of slips, and its lines are written in order.
//!
//! The layer above calls [`write_wrong`]. The laws are functions that do nothing.
//!
//! Meaning: `specs/Writing/Text`. Working words of proofs: `Judging` (slips that are judged), `Tally` (how many there are of each
//! class), `Entries` (entries whose lines can be put), `Progress` (what was made and written).

mod judging;
mod laws;
mod lines;
mod tally;
mod writing;

pub use laws::{
    each_slip_once, each_wrong_list_once, one_list_of_slip, one_wrong_text, slips_add_up,
    some_wrong_text, wrong_lists_are_no_sentences,
};
pub use writing::{Wrong, write_wrong};
