//! The layout of a lex file: its bytes are cut into sections, lines, definitions and rules.
//!
//! The layer above calls `read_layout` and goes on with the parts: the name and the substitute of each definition, and the
//! pattern and the action of each rule. Patterns and actions have no meaning yet. For its law that any bytes are accepted or
//! refused it walks over them once more without memory: from `definitions_end` on by `rules_line`, a `RulesLine` at a time. By
//! the same walk `layout_or_stop` says that each text has a layout or stops.
//!
//! Meaning, in `specs/Layout/`: `Steps` (words of the others), `Lines` (what a line is, by what it begins with),
//! `Patterns`, `Runs` and `Forms` (how far each goes), `Layout` (which bytes have which layout, and where it stops), `Ends`
//! (where the definitions section ends), `Lies` (where the parts lie), `Places` (`FindsRulesLine`, what a line is told as),
//! `Settled` (`Stops`, `EndsOrStops`, `IsSettled`), `Answers` and `Laws`. The others of `Places` and `Settled`, `Names` and `Found`
//! are working words of the proofs.

mod bracket;
mod error;
mod forms;
mod laws;
mod layout;
mod line;
mod names;
mod parts;
mod pattern;
mod quoted;
mod run;
mod settled;
mod unit;

pub use error::LayoutError;
pub use laws::{
    limits, named_parts, new_names, one_end, one_layout, one_stop, stopped_has_no_layout,
};
pub(crate) use layout::{RulesLine, rules_line};
pub use layout::{Layout, read_layout};
pub use parts::{Definition, Part, Rule};
pub use settled::{definitions_end, layout_or_stop};

/// The most bytes of a lex file.
pub const MOST_BYTES: usize = cs_bytes::MOST_BYTES;
