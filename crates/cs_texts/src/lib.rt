//! Texts of lists of tokens, made where the joined lexemes scan back to them.
//!
//! The parts, from the bottom up; none stands on one behind it:
//!
//! - `rendering`: the text of a list of tokens, where the lexemes, joined by a separator, scan back to the tokens.
//! - `splice`: the renderings of lists of tokens that are near a list whose text is known, with a scan around what
//!   differs alone; and tokens whose lists have a text without any scan.
//! - `work`: the rendering of lists of tokens as work that several workers share.
//!
//! # What it is for
//!
//! The layers above render a list of tokens by `render`, many that are near it by `Prepared`, and batches with workers
//! by `RenderWork`. `Apart` tells them which tokens need no scan.
//!
//! # What a contract sees
//!
//! The rendering of a list: a text, or why it has none. The file of each part says which files of its folder of
//! `specs/` are meaning.
//!
//! # What is proved
//!
//! A list has exactly one rendering, and each of these calls answers it: the lexemes joined by the separator, exactly
//! where that text scans to the tokens. The laws are functions that do nothing.
//!
//! # What is only tested
//!
//! That the calls answer where memory is ample, and worked texts: by `test_scanner::texts`, and with workers by
//! `test_writing::workers`.
#![tactic(auto)]

mod rendering;
mod splice;
mod work;

pub use rendering::{RenderWork, Rendered, RenderedParts, one_rendering, render, some_rendering};
pub use splice::{Apart, Prepared, Spliced};
