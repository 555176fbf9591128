// Which words are names and numbers.

ghost use Rattle.std.specs.Prelude.{◌≡◌, ◌↔◌, ◌<◌, ◌≤◌, ◌^◌, IsTrue, All, MatchOption, length, min};
ghost use Rattle.cs_bytes.specs.Digits as spec;
ghost use Rattle.cs_lines.specs.Words.Words.{IsVisible, IsWord};
ghost use Rattle.cs_lines.specs.Lines.Splits.{split};
ghost use Rattle.cs_lines.specs.Lines.Numbers.{IsDigit, IsNumeral, greatest};
ghost use Rattle.cs_lines.specs.Lines.Taken.{MayFollow, IsNumberRead, IsNoNumber};

use cs_bytes::{digit_of, same_bytes};

/// Whether both words are the same.
pub(crate) fn same_word(word: &[u8], other: &[u8]) -> bool
    ensures { IsTrue result ↔ (word.now ≡ other.now) }
{
    same_bytes(word, other)
}

// `!` to `~`
fn is_visible(byte: u8) -> bool
    ensures { IsTrue result ↔ IsVisible byte }
{
    0x21 <= byte && byte <= 0x7e
}

/// Whether the word may stand for a name or a mark.
pub(crate) fn is_name(word: &[u8]) -> bool
    ensures { IsTrue result ↔ IsWord word.now }
{
    !word.is_empty() && word.iter().all(|byte| is_visible(*byte))
}

// Whether the byte may be the next of words, each with one space behind it: a space where no byte of a word is due, or a byte
// of a word.
fn may_follow(is_due: bool, byte: u8) -> bool
    ensures { IsTrue result ↔ MayFollow is_due byte }
{
    if byte == b' ' {
        !is_due
    } else {
        is_visible(byte)
    }
}

/// Whether all words of the text may stand for names or marks. Each byte is looked at once.
pub(crate) fn are_names(text: &[u8]) -> bool
    ensures { IsTrue result ↔ All IsWord (split text.now) }
{
    let mut is_due = true;
    let mut left = text;
    while let [byte, rest @ ..] = left {
        if !may_follow(is_due, *byte) {
            return false;
        }
        is_due = *byte == b' ';
        left = rest;
    }
    !is_due
}

/// The number that decimal digits spell, or the greatest where it is larger.
pub(crate) fn number_in(digits: &[u8]) -> u64
    ensures { result ≡ min (spec.number_of 10 digits.now) greatest }
{
    let mut number: u64 = 0;
    for digit in digits {
        number = number
            .saturating_mul(10)
            .saturating_add(u64::from(digit_of(*digit)));
    }
    number
}

fn is_digit(byte: u8) -> bool
    ensures { IsTrue result ↔ IsDigit byte }
{
    b'0' <= byte && byte <= b'9'
}

fn are_digits(word: &[u8]) -> bool
    ensures { IsTrue result ↔ All IsDigit word.now }
{
    word.iter().all(|byte| is_digit(*byte))
}

// Whether the word is digits without a leading zero.
fn is_numeral(word: &[u8]) -> bool
    ensures { IsTrue result ↔ IsNumeral word.now }
{
    if word.is_empty() {
        return false;
    }
    let are_digits = are_digits(word);
    if word.len() == 1 {
        return are_digits;
    }
    are_digits && word[0] != b'0'
}

// The number that a few decimal digits spell.
fn few_digits(digits: &[u8]) -> u64
    requires digits { All IsDigit digits.now }
    requires few { length digits.now ≤ 19 }
    ensures value { result ≡ spec.number_of 10 digits.now }
    ensures small { result < 10 ^ 19 }
{
    let mut number: u64 = 0;
    for digit in digits {
        number = number * 10 + u64::from(*digit - b'0');
    }
    number
}

/// The number that the word is.
pub(crate) fn number_of(word: &[u8]) -> Option<u64>
    ensures { MatchOption result (IsNoNumber word.now) (IsNumberRead word.now) }
{
    if !is_numeral(word) {
        return None;
    }
    if word.len() <= 19 {
        Some(few_digits(word))
    } else {
        Some(number_in(word))
    }
}
