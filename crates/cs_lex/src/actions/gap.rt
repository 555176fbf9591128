// What may stand between the parts of an action.

ghost use Rattle.std.specs.Prelude.{ℕ, ◌≤◌, ◌<◌, length, IfSome, IfNone};
ghost use Rattle.cs_bytes.specs.Classes.{is_in};
ghost use Rattle.cs_lex.specs.Actions.Gaps as spec;

use cs_bytes::{ByteClass, begins, from_offset};
use cs_ctext::skip_comment;

/// The size of the byte of the class or closed comment in front.
fn spacing_size(text: &[u8], class: ByteClass) -> Option<usize>
    ensures spacing { IfSome result (λ size. spec.IsSpacing (is_in class) text.now size) }
    ensures within { IfSome result (λ size. (0 < size) × (size ≤ length text.now)) }
    ensures none { IfNone result ((size : ℕ) → ¬ spec.IsSpacing (is_in class) text.now size) }
{
    if begins(text, class) {
        return Some(1);
    }
    skip_comment(text, 0)
}

/// The size of the gap in front: bytes of the class, and closed comments.
pub(crate) fn gap_size(text: &[u8], class: ByteClass) -> usize
    ensures gap { spec.IsGap (is_in class) text.now result }
    ensures within { result ≤ length text.now }
{
    let mut at = 0;
    while let Some(size) = spacing_size(from_offset(text, at), class) {
        at += size;
    }
    at
}
