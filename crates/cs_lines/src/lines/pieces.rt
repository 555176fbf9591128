// How long the line in front of a text is.

ghost use Rattle.std.specs.Prelude.{◌≡◌, ◌≤◌, length};
ghost use Rattle.cs_bytes.specs.Places as places;

use memchr::memchr;

/// The size of the line in front, with its newline where it has one. Many bytes are looked at in one step.
pub fn line_size(text: &[u8]) -> usize
    ensures size { result ≡ places.line_size text.now }
    ensures within { result ≤ length text.now }
{
    match memchr(b'\n', text) {
        Some(place) => place + 1,
        None => text.len(),
    }
}
