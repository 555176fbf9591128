// The names of definitions.

ghost use Rattle.std.specs.Prelude.{◌≡◌, ◌<◌};
ghost use Rattle.cs_pattern.specs.Operations.Definitions as spec;

use indexmap::IndexMap;

/// The texts of definitions by their names, in the order in which they were added.
pub(crate) type Texts = IndexMap<Vec<u8>, Vec<u8>>;

/// The index of the definition of a name.
pub(crate) fn index_of(texts: &Texts, name: &[u8]) -> Option<usize>
    ensures { result ≡ spec.index_of name.now (spec.definitions_of texts.now.entries) }
{
    texts.get_index_of(name)
}
