//! How a run ends: by which cause, with which status and which line; and what follows from that for whoever ran it.
//!
//! The layer above does what the words ask for, comes to an [`Ending`] whose cause it knows, and gives it to [`finish`], which
//! says it on the error output and answers the status. What a run promises then is one page, `specs/Ending/Headline`.
//!
//! Meaning, from the top down: `specs/Ending/Headline` (the promises), `Ending` (causes, statuses, lines), `Texts` (which text is
//! asked for), `Summary` (the summary of a number), `Files` (which files are accepted and refused, and their manifests).

mod ending;
mod report;

pub use ending::Ending;
pub use report::finish;
