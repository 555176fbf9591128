//! The lines of a manifest, written to a sink as they are made.
//!
//! The layers above begin a [`Manifest`] with a head, give it one [`Entry`] after another and finish it. Ok means that the sink
//! took exactly the lines of that call, and a failure that it took a prefix of them; no such call takes memory. A manifest is
//! seen as its head and the counts of what was written so far. An entry that is filled has the lines of that negative, and is put
//! by copying.
//!
//! Meaning: `specs/Writer/Progress` (what contracts see of a manifest, and of a sink that lines were written to) and `Entry` (which
//! lines stand for an entry). Working words of proofs: `Below`.

mod entry;
mod manifest;
mod put_closed;
mod put_entry;
mod put_head;

pub use entry::{Entry, FilledNegative, NumberedNegative};
pub use manifest::Manifest;
pub use put_entry::{put_derivation, put_edit, put_rendered, put_text_lines};
pub use put_head::{put_file, put_lexemes};
