//! The items of a yacc file: its bytes are cut into marks, directives, names, literals and signs, and a table says which item
//! may come where.
//!
//! The layer above calls `read_items` and then `syntax_fault`, and goes on with the items, each with the offset of its first
//! byte. No item has a meaning yet.
//!
//! Meaning, in `specs/Items/`: `Bytes`, `Directives` and `Items` (which bytes are read into which items), `Stops` (where reading
//! stops, and why), `Table` (which items are taken), and `Views` and `PlaceView` (what the code's items and places
//! are). `Finds` are working words of the proofs.

mod directive;
mod error;
mod gap;
mod item;
mod items;
mod laws;
mod table;

pub use directive::Directive;
pub use error::ItemsError;
pub use item::{Item, Placed};
pub use items::read_items;
pub(crate) use items::read_or_stopped;
pub use laws::{
    byte_limit, one_reading, one_stop, one_stuck, stopped_is_not_read, stuck_is_not_taken,
};
pub use table::syntax_fault;

/// The most bytes of a yacc file.
pub const MOST_BYTES: usize = cs_bytes::MOST_BYTES;
