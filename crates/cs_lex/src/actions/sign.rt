// Signs behind gaps.

ghost use Rattle.std.specs.Prelude.{◌≡◌, false, ℕ, ◌≤◌, ◌<◌, drop, length, IfSome, IfNone};
ghost use Rattle.cs_bytes.specs.Classes.{is_in, is_space};
ghost use Rattle.cs_bytes.specs.Names.{slash};
ghost use Rattle.cs_lex.specs.Actions.Gaps as spec;

use crate::actions::gap::gap_size;
use cs_bytes::{ByteClass, from_offset, has_at};

/// The size of the gap in front, in which bytes of the class may stand, and the sign behind it.
pub(crate) fn sign_size(text: &[u8], sign: u8, class: ByteClass) -> Option<usize>
    requires { is_in class slash ≡ false }
    ensures signed { IfSome result (λ size. spec.IsSign (is_in class) sign text.now size) }
    ensures within { IfSome result (λ size. (0 < size) × (size ≤ length text.now)) }
    ensures none { IfNone result ((size : ℕ) → ¬ spec.IsSign (is_in class) sign text.now size) }
{
    let gap = gap_size(text, class);
    if has_at(text, gap, sign) {
        Some(gap + 1)
    } else {
        None
    }
}

/// How many signs were passed, and how many bytes.
#[derive(Clone, Copy, Debug)]
pub(crate) struct SignCount {
    pub(crate) count: usize,
    pub(crate) at: usize,
}

/// All such signs in front, with the gaps of blanks, newlines and comments before them.
pub(crate) fn all_signs(text: &[u8], sign: u8) -> SignCount
    ensures signs { spec.AreSigns sign text.now result.count result.at }
    ensures within { result.at ≤ length text.now }
    ensures few { result.count ≤ result.at }
    ensures no_more { (size : ℕ) → ¬ spec.IsSign is_space sign (drop result.at text.now) size }
{
    let mut count = 0;
    let mut at = 0;
    while let Some(size) = sign_size(from_offset(text, at), sign, ByteClass::Space) {
        count += 1;
        at += size;
    }
    SignCount { count, at }
}
