// Weights, by their numbers.

ghost use Rattle.std.specs.Prelude.{◌≡◌, ◌↔◌, All, IfOk, IsTrue, length};
ghost use Rattle.cs_grammar.specs.Grammar.{IsNumberOf};

use crate::error::SampleError;
use cs_grammar::{MOST_WEIGHT, Weights};
use std::alloc::Global;

fn are_weights(numbers: &[u32]) -> bool
    ensures { IsTrue result ↔ All (IsNumberOf 1000000) numbers.now }
{
    numbers
        .iter()
        .all(|number| 0 < *number && *number <= MOST_WEIGHT)
}

/// The weights of tokens with these numbers, and this limit.
pub fn weights_of(alloc: Global, numbers: &[u32], limit: u32) -> Result<Weights, SampleError>
    ensures { IfOk result (λ weights. length weights.numbers ≡ length numbers.now) }
{
    let is_limit = 0 < limit && limit <= MOST_WEIGHT;
    if !is_limit || !are_weights(numbers) {
        return Err(SampleError::Weights);
    }
    Ok(Weights::new(numbers.to_vec(alloc)?, limit))
}
