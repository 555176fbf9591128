//! The files that a command names, or bytes in their place: what they mean, or the first cause why they are not given.
//!
//! The layer above asks for the files of a request by [`read_files`], which reads all of them, each by one call, before it
//! judges any; it gets what they mean, [`Meant`], or a [`Stop`]. [`judge_pair`] judges the bytes of two files that were
//! made. [`line`] says a refusal in words.
//!
//! Meaning: `specs/Input/Files` (the contents of files, and what they mean), `Refusal` (why files are refused, and in which order),
//! `Lines` (the line of a refusal), `Read` (what a call that reads gives).

mod judging;
mod lines;
mod reading;
mod refusal;
mod text;

pub use judging::{Meant, Pair, PairAndText, judge_pair};
pub use lines::line;
pub use reading::read_files;
pub use refusal::{Refusal, Stop};
pub use text::TextBytes;
