//! Quoted constructs.

ghost use Rattle.std.specs.Prelude.{◌≡◌, ◌==◌, ◌&&◌, not, ℕ, ◌-◌, ◌<◌, ◌≤◌, length, drop, slice_get, IsTrue, IfSome, IfNone, IsSomeAnd};
ghost use Rattle.cs_ctext.specs.Marks as marks;
ghost use Rattle.cs_ctext.specs.Quotes.{IsQuoted};
ghost use Rattle.cs_ctext.specs.Unclosed.{FindsRest};

use crate::c_text::CText;

/// Skips the quoted construct that begins at `at`, and answers the offset behind its closing mark.
///
/// It goes to the next equal mark on the line. A backslash takes the byte behind it along; where that is a newline, the
/// line goes on. `None` comes exactly where the construct isn't closed on its line.
pub fn skip_quoted(bytes: &[u8], at: usize) -> Option<usize>
    requires { IsSomeAnd (slice_get bytes.now at) (λ mark. IsTrue (marks.is_quote mark)) }
    ensures closed { IfSome result (λ end. IsQuoted (drop at bytes.now) (end - at)) }
    ensures within { IfSome result (λ end. (at < end) × (end ≤ length bytes.now)) }
    ensures unclosed { IfNone result ((size : ℕ) → ¬ IsQuoted (drop at bytes.now) size) }
{
    let mut text = CText::new(bytes);
    text.skip_quoted(at)
}

/// How the rest of a quoted construct goes on, behind its first mark.
pub(crate) enum Rest {
    /// It has this size, with its closing mark.
    Closed(usize),
    /// It isn't closed, and its line ends behind so many bytes.
    Unclosed(usize),
}

/// How the text goes on as the rest of a construct of this mark.
pub(crate) fn rest_of(text: &[u8], mark: u8) -> Rest
    ensures { FindsRest mark text.now result }
{
    let mut is_taken = false;
    for (index, byte) in text.iter().enumerate() {
        if is_bare(*byte, mark, is_taken) {
            return Rest::Closed(index + 1);
        }
        if is_bare(*byte, b'\n', is_taken) {
            return Rest::Unclosed(index);
        }
        is_taken = is_bare(*byte, b'\\', is_taken);
    }
    Rest::Unclosed(text.len())
}

/// Whether the byte is the wanted one, and no backslash takes it along.
fn is_bare(byte: u8, wanted: u8, is_taken: bool) -> bool
    ensures { result ≡ (not is_taken && (byte == wanted)) }
{
    !is_taken && byte == wanted
}
