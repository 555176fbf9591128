//! Runs of bytes, and lines.

ghost use Rattle.std.specs.Prelude.{◌≡◌, ◌≤◌, length};
ghost use Rattle.std.specs.List.{prefix_len};
ghost use Rattle.cs_bytes.specs.Classes.{is_in};
ghost use Rattle.cs_bytes.specs.Places as places;

use crate::class::ByteClass;
use crate::place::from_offset;

/// How many bytes in front of the text are of the class: the size of their longest run.
pub fn run_len(text: &[u8], class: ByteClass) -> usize
    ensures len { result ≡ prefix_len (is_in class) text.now }
    ensures within { result ≤ length text.now }
{
    text.iter().take_while(|byte| class.has(**byte)).count()
}

/// The offset behind the longest run of the class from the offset on, where the known one is that of a run that begins there or
/// earlier. Who asks for one offset after the other, each behind the last, and hands in the last answer, has each byte looked at
/// once.
pub fn run_end(text: &[u8], class: ByteClass, from: usize, known: usize) -> usize
    requires { places.EndsRun (is_in class) text.now from known }
    ensures { result ≡ places.run_end (is_in class) text.now from }
{
    if from <= known {
        known
    } else {
        from + run_len(from_offset(text, from.min(text.len())), class)
    }
}

/// The size of the line in front, without its newline.
pub fn line_len(text: &[u8]) -> usize
    ensures len { result ≡ places.line_len text.now }
    ensures within { result ≤ length text.now }
{
    run_len(text, ByteClass::Not(b'\n'))
}

/// The size of the line in front, with its newline where it has one.
pub fn line_size(text: &[u8]) -> usize
    ensures size { result ≡ places.line_size text.now }
    ensures within { result ≤ length text.now }
{
    let len = line_len(text);
    if len < text.len() { len + 1 } else { len }
}
