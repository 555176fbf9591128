// Sets of numbers as bits in words.

ghost use Rattle.std.specs.Prelude.{◌≡◌, ℕ, ◌*◌, ◌<◌, ◌^◌, slice_index, ◌&&◌, true, false, [], ◌∷◌, IfOk, length};
ghost use Rattle.cs_scanner.specs.Automaton.Bits.{bit, Puts};

use std::alloc::{AllocError, Global};

/// Whether the number is in the set.
pub(crate) fn has(words: &[u64], n: usize) -> bool
    ensures { result ≡ bit words.now n }
{
    let word = if n / 64 < words.len() {
        words[n / 64]
    } else {
        0
    };
    (word >> (n % 64)) & 1 == 1
}

/// Puts the number into the set, if it has room for it.
pub(crate) fn put(words: &mut [u64], n: usize)
    ensures { Puts words.old words.new (n ∷ []) }
{
    if n / 64 < words.len() {
        words[n / 64] |= 1 << (n % 64);
    }
}

/// What both sets have.
pub(crate) fn common(alloc: Global, left: &[u64], right: &[u64]) -> Result<Vec<u64>, AllocError>
    requires { length left.now ≡ length right.now }
    ensures long { IfOk result (λ v. length v.items ≡ length left.now) }
    ensures words { IfOk result (λ v. (k : ℕ) → slice_index v.items k < 2 ^ 64) }
    ensures bits { IfOk result (λ v.
        (m : ℕ) → bit v.items m ≡ (bit left.now m && bit right.now m)) }
{
    let mut words = Vec::with_capacity(alloc, left.len())?;
    for k in 0..left.len() {
        words.push(left[k] & right[k])?;
    }
    Ok(words)
}

/// Whether no number is in the set.
pub(crate) fn is_empty(words: &[u64]) -> bool
    ensures empty { result ≡ true → (m : ℕ) → bit words.now m ≡ false }
    ensures other { result ≡ false
        → (m : ℕ) × (m < 64 * length words.now) × (bit words.now m ≡ true) }
{
    for k in 0..words.len() {
        if words[k] != 0 {
            return false;
        }
    }
    true
}
