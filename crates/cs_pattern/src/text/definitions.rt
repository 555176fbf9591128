// The definitions of a file.

ghost use Rattle.std.specs.Prelude.{◌≡◌, ◌≤◌, ◌+◌, ◌++◌, ◌∷◌, [], IfOk, IfErr, OnOk, OnErr, ◌↔◌, IsErrOf, IsTrue, length};
ghost use Rattle.cs_bytes.specs.Limits.{most_bytes};
ghost use Rattle.cs_pattern.specs.Text.Checking.{AreAccepted, RefusesDefinitions};
ghost use Rattle.cs_pattern.specs.Operations.Definitions.{has_name, total_bytes};

use crate::operations::{Measure, Op, Texts, index_of};
use crate::text::compiling::{Compiled, compile};
use crate::text::fault::{CheckError, DefinitionError};
use indexmap::IndexMap;
use std::alloc::Global;
use std::marker::Model;

/// Names with the texts of the patterns for which they stand, in the order in which they were added.
#[derive(Drop)]
pub struct Definitions {
    alloc: Global,
    texts: Texts,
}

/// Definitions whose texts are all accepted.
#[derive(Drop)]
pub struct Checked {
    pub(crate) texts: Texts,
    pub(crate) bodies: Vec<Vec<Op>>,
    pub(crate) measures: Vec<Measure>,
    pub(crate) order: Vec<usize>,
    /// Where each definition stands in the order.
    pub(crate) places: Vec<usize>,
}

impl Model for Checked {
    ghost use Rattle.std.specs.Prelude.{List, length};
    ghost use Rattle.cs_pattern.specs.Text.Checked.{AreChecked};
    ghost use Rattle.cs_pattern.specs.Text.Needed.{ArePlaces};
    ghost use Rattle.cs_pattern.specs.Operations.Definitions.{Definition, definitions_of};

    ghost Value = { List Definition };

    ghost view = { λ d. definitions_of d.texts.entries };

    ghost invariant = { λ d. AreChecked (definitions_of d.texts.entries)
        d.bodies.items d.measures.items d.order.items
        × ArePlaces (length d.bodies.items) d.order.items d.places.items };
}

impl Model for Definitions {
    ghost use Rattle.std.specs.Prelude.{List, ◌≤◌};
    ghost use Rattle.cs_bytes.specs.Limits.{most_bytes};
    ghost use Rattle.cs_pattern.specs.Text.Classes.{HaveByteTexts};
    ghost use Rattle.cs_pattern.specs.Operations.Definitions.{Definition, definitions_of, total_bytes};

    ghost Value = { List Definition };

    ghost view = { λ d. definitions_of d.texts.entries };

    ghost invariant = { λ d. (total_bytes (definitions_of d.texts.entries) ≤ most_bytes)
        × HaveByteTexts (definitions_of d.texts.entries) };
}

impl Definitions {
    /// No definitions, which take no memory.
    pub fn new(alloc: Global) -> Definitions
        ensures { result ≡ [] }
    {
        Definitions {
            alloc,
            texts: IndexMap::new(alloc),
        }
    }

    /// Adds a definition, where all names and texts together have at most `MOST_BYTES` bytes with it. After a refusal the
    /// definitions are as before.
    pub fn add(&mut self, name: &[u8], text: &[u8]) -> Result<(), DefinitionError>
        requires { total_bytes self.old + length name.now + length text.now ≤ most_bytes }
        ensures ok { OnOk result
            (self.new ≡ self.old ++ record { name = name.now; text = text.now } ∷ []) }
        ensures twice { IsErrOf result DefinitionError.Twice
            ↔ IsTrue (has_name name.now self.old) }
        ensures err { OnErr result (self.new ≡ self.old) }
    {
        if index_of(&self.texts, name).is_some() {
            return Err(DefinitionError::Twice);
        }
        let name = Vec::from_slice(self.alloc, name)?;
        let text = Vec::from_slice(self.alloc, text)?;
        self.texts.insert(name, text)?;
        Ok(())
    }

    /// The same definitions, where every text is a pattern within the limits. Else the first definition whose reading stops is
    /// named; else the first that uses an undefined name; else the lowest that reaches itself; else the first beyond a limit.
    pub fn check(self) -> Result<Checked, CheckError>
        ensures same { IfOk result (λ checked. checked ≡ self) }
        ensures accepted { OnOk result (AreAccepted self) }
        ensures refused { IfErr result (RefusesDefinitions self) }
    {
        let Definitions { alloc, texts } = self;
        let Compiled {
            bodies,
            measures,
            order,
            places,
        } = compile(alloc, &texts)?;
        Ok(Checked {
            texts,
            bodies,
            measures,
            order,
            places,
        })
    }
}
