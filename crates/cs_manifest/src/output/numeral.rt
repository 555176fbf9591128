// Numbers that count up.

ghost use Rattle.std.specs.Prelude.{◌≡◌, ◌+◌, ◌<◌, ◌≤◌, decimal, length, take};
ghost use Rattle.cs_io.specs.Faults.{greatest};

use itoa::Buffer;
use std::marker::Model;

/// So many bytes has a numeral's array; a u64 has at most 20 digits.
pub(crate) const NUMERAL_LENGTH: usize = 32;

/// A number that counts up, with its decimal digits.
#[derive(Drop)]
pub struct Numeral {
    number: u64,
    digits: [u8; NUMERAL_LENGTH],
    len: usize,
}

impl Model for Numeral {
    ghost use Rattle.std.specs.Prelude.{ℕ, ◌≡◌, ◌≤◌, decimal, take};

    ghost Value = { ℕ };

    ghost view = { λ n. n.number };

    ghost invariant = { λ n. (take n.len n.digits ≡ decimal n.number)
        × (1 ≤ n.len) × (n.len ≤ 32) };
}

impl Numeral {
    /// This number.
    pub fn new(number: u64) -> Numeral
        ensures { result ≡ number }
    {
        let mut digits = [0u8; NUMERAL_LENGTH];
        let len = spell(&mut digits, number);
        Numeral {
            number,
            digits,
            len,
        }
    }

    /// The number.
    pub fn number(&self) -> u64
        ensures { result ≡ self.now }
    {
        self.number
    }

    /// Counts one further.
    #[inline(always)]
    pub fn advance(&mut self)
        requires { self.old < greatest }
        ensures { self.new ≡ self.old + 1 }
    {
        self.number += 1;
        let last = self.len - 1;
        if self.digits[last] < b'9' {
            self.digits[last] += 1;
        } else {
            self.len = spell(&mut self.digits, self.number);
        }
    }

    #[inline(always)]
    pub(crate) fn len(&self) -> usize
        ensures digits { result ≡ length (decimal self.now) }
        ensures short { result ≤ 32 }
    {
        self.len
    }

    // The digits, and behind them bytes that mean nothing.
    #[inline(always)]
    pub(crate) fn padded(&self) -> &[u8]
        ensures room { length result.now ≡ 32 }
        ensures digits { take (length (decimal self.now)) result.now ≡ decimal self.now }
    {
        &self.digits
    }

    pub(crate) fn bytes(&self) -> &[u8]
        ensures { result.now ≡ decimal self.now }
    {
        &self.digits[..self.len]
    }
}

// Writes all digits of a number, and answers how many they are.
#[inline(never)]
fn spell(digits: &mut [u8; NUMERAL_LENGTH], number: u64) -> usize
    ensures digits { take result digits.new ≡ decimal number }
    ensures some { 1 ≤ result }
    ensures short { result ≤ 32 }
{
    let mut buffer = Buffer::new();
    let text = buffer.format(number).as_bytes();
    let len = text.len();
    digits[..len].copy_from_slice(text);
    len
}
