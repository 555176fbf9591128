// Sets of numbers: as bits in words of 64, and as the words that aren't 0.

ghost use Rattle.std.specs.Prelude.{◌≡◌, ◌≤◌, ◌<◌, ◌^◌, ◌↔◌, ◌⊎◌, ℕ, IsTrue, All, IfOk, OnOk, length, slice_index};
ghost use Rattle.cs_member.specs.Tables.Sets.{Has, InWord, InWords};
ghost use Rattle.cs_member.specs.Tables.Asked.{StaysShort, AreSmall, HasAlso, HasBitsAlso};

use smallvec::SmallVec;
use std::alloc::{AllocError, Global};

// Of the numbers from 64 times `at` on those whose bits are set.
#[derive(Clone, Copy, Debug, Default)]
pub(crate) struct Word {
    pub(crate) at: u16,
    pub(crate) bits: u64,
}

// The word of one number.
pub(crate) fn word_of(number: u16) -> Word
    ensures has { (n : ℕ) → InWord result n ↔ (n ≡ number) }
    ensures small { result.at < 1024 }
{
    Word {
        at: number / 64,
        bits: 1 << (number % 64),
    }
}

// The bits that stand at a place.
pub(crate) fn bits_at(set: &[u64], at: u32) -> u64
    ensures bits { result ≡ slice_index set.now at }
    ensures fits { result < 2 ^ 64 }
{
    match set.get(at as usize) {
        Some(bits) => *bits,
        None => 0,
    }
}

// Makes room up to a place.
pub(crate) fn widen(set: &mut Vec<u64>, at: u32) -> Result<(), AllocError>
    ensures within { OnOk result (at < length set.new.items) }
    ensures short { OnOk result (at < 1024 → StaysShort set.old.items set.new.items) }
    ensures same { OnOk result ((n : ℕ) →
        slice_index set.new.items n ≡ slice_index set.old.items n) }
{
    for _ in set.len()..at as usize + 1 {
        set.push(0)?;
    }
    Ok(())
}

// Puts bits into those at a place.
pub(crate) fn add_bits(set: &mut Vec<u64>, at: u32, bits: u64) -> Result<(), AllocError>
    ensures short { OnOk result (at < 1024 → StaysShort set.old.items set.new.items) }
    ensures has { OnOk result (HasBitsAlso at bits set.old.items set.new.items) }
{
    widen(set, at)?;
    set[at as usize] |= bits;
    Ok(())
}

// Takes the bits at a place away.
pub(crate) fn clear_bits(set: &mut Vec<u64>, at: u32)
    ensures none { slice_index set.new.items at ≡ 0 }
    ensures rest { (n : ℕ) → (n ≡ at → ⊥) →
        slice_index set.new.items n ≡ slice_index set.old.items n }
{
    if (at as usize) < set.len() {
        set[at as usize] = 0;
    }
}

// Puts the numbers of the word into the set.
pub(crate) fn add(set: &mut Vec<u64>, word: Word) -> Result<(), AllocError>
    ensures short { OnOk result (word.at < 1024 → StaysShort set.old.items set.new.items) }
    ensures has { OnOk result ((n : ℕ) →
        Has set.new.items n ↔ (Has set.old.items n ⊎ InWord word n)) }
{
    add_bits(set, word.at as u32, word.bits)?;
    Ok(())
}

// Puts the numbers of the words into the set.
pub(crate) fn add_all(set: &mut Vec<u64>, words: &[Word]) -> Result<(), AllocError>
    ensures short { OnOk result (AreSmall words.now → StaysShort set.old.items set.new.items) }
    ensures has { OnOk result (HasAlso (InWords words.now) set.old.items set.new.items) }
{
    for word in words {
        add(set, *word)?;
    }
    Ok(())
}

// The words of the set that aren't 0.
pub(crate) fn pack(alloc: Global, set: &[u64]) -> Result<SmallVec<Word, 1>, AllocError>
    requires { length set.now ≤ 1024 }
    ensures short { IfOk result (λ words. All (λ word. word.at < 1024) words.items) }
    ensures has { IfOk result (λ words. (n : ℕ) → InWords words.items n ↔ Has set.now n) }
{
    let mut words = SmallVec::new(alloc);
    for (at, bits) in set.iter().enumerate() {
        if *bits != 0 {
            words.push(Word {
                at: at as u16,
                bits: *bits,
            })?;
        }
    }
    Ok(words)
}

// Whether the number's bit is set.
pub(crate) fn stands(set: &[u64], number: u16) -> bool
    ensures { IsTrue result ↔ Has set.now number }
{
    (bits_at(set, number as u32 / 64) >> (number % 64)) & 1 == 1
}

// Whether the number is in one of the words.
pub(crate) fn has(words: &[Word], number: u16) -> bool
    ensures { IsTrue result ↔ InWords words.now number }
{
    for word in words {
        if word.at == number / 64 && (word.bits >> (number % 64)) & 1 == 1 {
            return true;
        }
    }
    false
}
