//! What stands at a place of a text.

ghost use Rattle.std.specs.Prelude.{◌≡◌, ◌+◌, ◌≤◌, length, take, drop, IfSome, IfNone};
ghost use Rattle.std.specs.Str.{bytes_eq};
ghost use Rattle.cs_bytes.specs.Classes.{is_in};
ghost use Rattle.cs_bytes.specs.Places as places;

use crate::class::ByteClass;

/// The bytes from the offset on.
pub fn from_offset(text: &[u8], from: usize) -> &[u8]
    requires { from ≤ length text.now }
    ensures { result.now ≡ drop from text.now }
{
    &text[from..]
}

/// The bytes up to the offset.
pub fn to_offset(text: &[u8], to: usize) -> &[u8]
    requires { to ≤ length text.now }
    ensures { result.now ≡ take to text.now }
{
    &text[..to]
}

/// Whether the text begins with a byte of the class.
pub fn begins(text: &[u8], class: ByteClass) -> bool
    ensures { result ≡ places.front (is_in class) text.now }
{
    match text {
        [first, ..] => class.has(*first),
        [] => false,
    }
}

/// Whether the byte stands at the index.
pub fn has_at(text: &[u8], index: usize, byte: u8) -> bool
    ensures { result ≡ places.has_at text.now index byte }
{
    text.get(index).copied() == Some(byte)
}

/// Whether the two bytes stand at the index, one behind the other.
#[tactic(auto, using(crate::proofs::Fronts::pair_at))]
pub fn has_pair(text: &[u8], index: usize, first: u8, second: u8) -> bool
    ensures { result ≡ places.has_pair text.now index first second }
{
    has_at(text, index, first) && has_at(text, index + 1, second)
}

/// How many bytes stand before the first two such bytes, one behind the other.
#[tactic(auto, using(crate::proofs::Fronts::pair_within))]
pub fn find_pair(text: &[u8], first: u8, second: u8) -> Option<usize>
    ensures found { IfSome result (places.IsFirstPair first second text.now) }
    ensures within { IfSome result (λ n. n + 2 ≤ length text.now) }
    ensures none { IfNone result (places.HasNoPair first second text.now) }
{
    for index in 0..text.len() {
        if has_pair(text, index, first, second) {
            return Some(index);
        }
    }
    None
}

/// Whether both texts are the same bytes.
pub fn same_bytes(text: &[u8], other: &[u8]) -> bool
    ensures { result ≡ bytes_eq text.now other.now }
{
    text == other
}
