// The values of the number of bases, of how many negatives are kept, and of the separator; and a seed.

ghost use Rattle.std.specs.Prelude.{◌≡◌, ◌≤◌, ◌↔◌, IsTrue, IfNone, IfSome, List, ℕ, length, min, take};
ghost use Rattle.std.specs.List.{list_all};
ghost use Rattle.cs_bytes.specs.Classes.{is_digit};
ghost use Rattle.cs_bytes.specs.Digits.{number_of};
ghost use Rattle.cs_words.specs.Steps.{LacksSpelling};
ghost use Rattle.cs_words.specs.Values.{AreDigits, IsBases, IsFirst, IsSeed, IsSeparator, SpellsByte};

use crate::separator::Separator;
use cs_bytes::{ByteClass, digit_of, from_offset, number};

/// The number of bases that the value spells.
pub(crate) fn read_bases(value: &[u8]) -> Option<u16>
    ensures some { IfSome result (IsBases value.now) }
    ensures none { IfNone result ((bases : ℕ) → IsBases value.now bases → ⊥) }
{
    if !are_digits(value, 4) {
        return None;
    }
    let bases = number(10, value);
    if bases > 1000 {
        return None;
    }
    Some(bases as u16)
}

/// How many negatives are kept of each operator and left mark, as the value spells it.
pub(crate) fn read_first(value: &[u8]) -> Option<u16>
    ensures some { IfSome result (IsFirst value.now) }
    ensures none { IfNone result ((first : ℕ) → IsFirst value.now first → ⊥) }
{
    let first = read_bases(value)?;
    if first == 0 {
        return None;
    }
    Some(first)
}

/// The seed that the value spells.
pub(crate) fn read_seed(value: &[u8]) -> Option<u64>
    ensures some { IfSome result (IsSeed value.now) }
    ensures none { IfNone result ((seed : ℕ) → IsSeed value.now seed → ⊥) }
{
    if !are_digits(value, 20) {
        return None;
    }
    let seed = long_number(value);
    if seed > u128::from(u64::MAX) {
        return None;
    }
    Some(seed as u64)
}

// The number that decimal digits spell, or the greatest `u128` where it is larger.
fn long_number(digits: &[u8]) -> u128
    ensures { result ≡ min (number_of 10 digits.now) u128.MAX }
{
    let mut number: u128 = 0;
    for digit in digits {
        number = number
            .saturating_mul(10)
            .saturating_add(u128::from(digit_of(*digit)));
    }
    number
}

// At least one digit and at most so many, and nothing else.
fn are_digits(value: &[u8], most: usize) -> bool
    ensures { IsTrue result ↔ AreDigits most value.now }
{
    !value.is_empty() && value.len() <= most && has_only_digits(value)
}

fn has_only_digits(value: &[u8]) -> bool
    ensures { result ≡ list_all is_digit value.now }
{
    value.iter().all(|byte| ByteClass::Digit.has(*byte))
}

/// The separator that the value spells.
pub(crate) fn read_separator(value: &[u8]) -> Option<Separator>
    ensures some { IfSome result (IsSeparator value.now) }
    ensures none { IfNone result ((bytes : List ℕ) → IsSeparator value.now bytes → ⊥) }
{
    let mut separator = Separator::new();
    let mut at = 0;
    while at < value.len() {
        let spelled = front_byte(from_offset(value, at))?;
        if !separator.push(spelled.byte) {
            return None;
        }
        at += spelled.len;
    }
    Some(separator)
}

// A byte that is spelled, and the length of its spelling.
#[derive(Clone, Copy)]
struct Spelled {
    byte: u8,
    len: usize,
}

// The byte that the text spells in front.
fn front_byte(text: &[u8]) -> Option<Spelled>
    ensures some { IfSome result (λ s. SpellsByte (take s.len text.now) s.byte) }
    ensures within { IfSome result (λ s. s.len ≤ length text.now) }
    ensures none { IfNone result (LacksSpelling text.now) }
{
    match text {
        [b'\\', b'x', high, low, ..]
            if ByteClass::HexadecimalDigit.has(*high) && ByteClass::HexadecimalDigit.has(*low) => {
            let byte = digit_of(*high) * 16 + digit_of(*low);
            Some(Spelled {
                byte: byte as u8,
                len: 4,
            })
        }
        [] | [b'\\', ..] => None,
        [byte, ..] => Some(Spelled {
            byte: *byte,
            len: 1,
        }),
    }
}
