// Different sets of numbers, found by their words.

ghost use Rattle.std.specs.Prelude.{◌≡◌, IfOk, Some, slice_get};
ghost use Rattle.cs_scanner.specs.Automaton.Sets.{lists, AddsOnce};

use indexmap::IndexSet;
use std::alloc::AllocError;

/// The index of the set, which is added where it is new.
pub(crate) fn add(sets: &mut IndexSet<Vec<u64>>, set: Vec<u64>) -> Result<usize, AllocError>
    ensures found { IfOk result (λ k. slice_get (lists sets.new.keys) k ≡ Some set.items) }
    ensures kept { IfOk result (λ _.
        AddsOnce (lists sets.old.keys) (lists sets.new.keys) set.items) }
{
    let (index, _) = sets.insert_full(set)?;
    Ok(index)
}
