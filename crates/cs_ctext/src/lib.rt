//! C text inside other files: comments, quoted constructs, blocks, words and character literals.
//!
//! # What it is for
//!
//! Both readers meet C inside their files. Each call here reads one construct at a place of a slice of bytes, and
//! answers the offset behind it, or `None` where it isn't closed. `words` gives the C words of a part of the bytes. A
//! reader that meets many constructs in one text walks over it as `CText`, and takes time linear in the text. No call
//! takes memory, and none recurs, however deep braces nest.
//!
//! # What a contract sees
//!
//! Bytes and offsets. Meaning, in `specs/`: `Marks`, `Comments`, `Quotes`, `Blocks`, `Literals` and `Words`. `Scans`
//! and `Unclosed` are working words of the proofs.
//!
//! # What is proved
//!
//! The end of a construct is exact, or that it isn't closed; a literal has exactly its byte, and a part exactly its
//! words, in order. The laws `one_comment`, `one_quoted`, `one_block`, `one_literal` and `one_list_of_words` say that
//! each has one answer.
//!
//! # What is only tested
//!
//! What the calls answer to worked rows: by `test_reading::readers`. That the time is linear is neither proved nor
//! tested.
#![tactic(auto)]

mod block;
mod c_text;
mod comment;
mod laws;
mod literal;
mod quoted;
mod word_iter;

pub use block::skip_block;
pub use c_text::CText;
pub use comment::{opens_comment, skip_comment};
pub use laws::{one_block, one_comment, one_list_of_words, one_literal, one_quoted};
pub use literal::read_literal;
pub use quoted::skip_quoted;
pub use word_iter::{Word, WordIter, words};
