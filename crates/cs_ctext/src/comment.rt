//! Comments.

ghost use Rattle.std.specs.Prelude.{◌≡◌, ℕ, ◌-◌, ◌<◌, ◌≤◌, ◌↔◌, length, drop, IsTrue, IfSome, IfNone};
ghost use Rattle.cs_ctext.specs.Comments.{IsComment, OpensComment, opens_comment};
ghost use Rattle.cs_ctext.specs.Scans as scans;

use cs_bytes::{find_pair, from_offset, has_pair, line_len};

/// Skips the comment that begins at `at`, and answers the offset behind it.
///
/// `/*` goes through the next `*/`, which shares no byte with the opener, so `/*/` isn't closed. `//` goes up to the next
/// newline, which isn't part of it, or to the end. `None` comes exactly where no comment begins at `at`, or `/*` isn't
/// closed.
pub fn skip_comment(bytes: &[u8], at: usize) -> Option<usize>
    ensures closed { IfSome result (λ end. IsComment (drop at bytes.now) (end - at)) }
    ensures within { IfSome result (λ end. (at < end) × (end ≤ length bytes.now)) }
    ensures unclosed { IfNone result ((size : ℕ) → ¬ IsComment (drop at bytes.now) size) }
{
    if !opens(bytes, at) {
        return None;
    }
    let size = comment_size(from_offset(bytes, at))?;
    Some(at + size)
}

/// Whether a comment begins at `at`, closed or not.
pub fn opens_comment(bytes: &[u8], at: usize) -> bool
    ensures { IsTrue result ↔ OpensComment (drop at bytes.now) }
{
    opens(bytes, at)
}

/// Whether a comment begins at the place.
pub(crate) fn opens(text: &[u8], at: usize) -> bool
    ensures { result ≡ opens_comment (drop at text.now) }
{
    has_pair(text, at, b'/', b'*') || has_pair(text, at, b'/', b'/')
}

/// The size of the comment in front of the text.
#[tactic(auto, using(crate::proofs::Fronts::comment_within))]
pub(crate) fn comment_size(text: &[u8]) -> Option<usize>
    requires { IsTrue (opens_comment text.now) }
    ensures size { result ≡ scans.comment_size text.now }
    ensures within { IfSome result (λ size. (0 < size) × (size ≤ length text.now)) }
{
    let inside = from_offset(text, 2);
    if has_pair(text, 0, b'/', b'/') {
        return Some(line_len(inside) + 2);
    }
    let size = find_pair(inside, b'*', b'/')?;
    Some(size + 4)
}
