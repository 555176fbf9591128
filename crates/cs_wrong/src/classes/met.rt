// Lists that were met.

ghost use Rattle.std.specs.Prelude.{◌≡◌, ◌↔◌, [], IfOk, IsTrue};
ghost use Rattle.std.specs.List.{Contains};
ghost use Rattle.cs_wrong.specs.Classes.Met.{known_with};

use indexmap::IndexMap;
use std::alloc::{AllocError, Global};
use std::marker::Model;

/// Lists of tokens, each once, in the order in which they came.
#[derive(Drop)]
pub(crate) struct Met {
    alloc: Global,
    lists: IndexMap<Vec<u16>, ()>,
}

impl Model for Met {
    ghost use Rattle.std.specs.Prelude.{ℕ, List};
    ghost use Rattle.cs_wrong.specs.Classes.Met.{lists_in};

    ghost Value = { List (List ℕ) };

    ghost view = { λ m. lists_in m.lists.entries };
}

impl Met {
    /// No lists. That takes no memory.
    pub(crate) fn new(alloc: Global) -> Met
        ensures { result ≡ [] }
    {
        Met {
            alloc,
            lists: IndexMap::new(alloc),
        }
    }

    /// Whether the list was met. If it wasn't, it is from then on.
    pub(crate) fn meet(&mut self, list: &[u16]) -> Result<bool, AllocError>
        ensures again { IfOk result (λ again. IsTrue again ↔ Contains self.old list.now) }
        ensures lists { IfOk result (λ again. self.new ≡ known_with self.old list.now again) }
    {
        if self.lists.contains_key(list) {
            return Ok(true);
        }
        let list = Vec::from_slice(self.alloc, list)?;
        self.lists.insert(list, ())?;
        Ok(false)
    }
}
