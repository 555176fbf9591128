//! The value of digits.

ghost use Rattle.std.specs.Prelude.{◌≡◌, ◌<◌, min};
ghost use Rattle.cs_bytes.specs.Digits as spec;

/// The value of a digit in a base up to 16; 0 for another byte.
pub fn digit_of(byte: u8) -> u32
    ensures value { result ≡ spec.digit_of byte }
    ensures small { result < 16 }
{
    match byte {
        b'0'..=b'9' => u32::from(byte - b'0'),
        b'A'..=b'F' => u32::from(byte - b'A') + 10,
        b'a'..=b'f' => u32::from(byte - b'a') + 10,
        _ => 0,
    }
}

/// The number that the digits spell in the base, or the greatest `u32` where it is larger.
pub fn number(base: u32, digits: &[u8]) -> u32
    ensures { result ≡ min (spec.number_of base digits.now) u32.MAX }
{
    let mut number: u32 = 0;
    for digit in digits {
        number = number.saturating_mul(base).saturating_add(digit_of(*digit));
    }
    number
}
