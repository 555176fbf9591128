// What is kept from one pair to the next.

ghost use Rattle.cs_least.specs.Embed.Contexts.{AreContextsOf};

use crate::kinds::Part;
use cs_least::{Contexts, Embeds};

/// What is kept from one goal to the next: contexts that were made, and room for what is still to be written of a tree.
#[derive(Debug, Drop)]
pub struct Kept {
    pub contexts: Contexts,
    pub(crate) pending: Vec<Part>,
}

impl Kept {
    /// Nothing, which takes no memory.
    pub fn new(embeds: &Embeds) -> Kept
        ensures { AreContextsOf embeds.now result.contexts }
    {
        Kept {
            contexts: Contexts::new(embeds),
            pending: Vec::new(embeds.allocator()),
        }
    }
}
