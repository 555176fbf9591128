// Marks of nodes.

ghost use Rattle.std.specs.Prelude.{◌≡◌, ℕ, false, IfOk, length, slice_index_or};
ghost use Rattle.cs_graph.specs.Marks.{unmarked};

use std::alloc::{AllocError, Global};

/// No marks of so many nodes.
pub(crate) fn no_marks(alloc: Global, count: usize) -> Result<Vec<bool>, AllocError>
    ensures size { IfOk result (λ marks. length marks.items ≡ count) }
    ensures none { IfOk result (λ marks.
        (node : ℕ) → slice_index_or marks.items node false ≡ false) }
    ensures unmarked { IfOk result (λ marks. unmarked marks.items ≡ count) }
{
    vec![in alloc; false; count]
}
