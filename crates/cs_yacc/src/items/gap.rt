// What stands between items: blanks and comments.

ghost use Rattle.std.specs.Prelude.{◌≡◌, ℕ, suc, ◌-◌, ◌<◌, ◌≤◌, length, drop, IfSome, IfNone};
ghost use Rattle.cs_bytes.specs.Classes as classes;
ghost use Rattle.cs_bytes.specs.Places.{front};
ghost use Rattle.cs_yacc.specs.Items.Items.{IsGap};

use cs_bytes::from_offset;
use cs_ctext::skip_comment;

// Asked between all items, so it tests the byte by one test, where `ByteClass` looks for the class.
fn is_white_space(byte: u8) -> bool
    ensures { result ≡ classes.is_white_space byte }
{
    matches!(byte, b' ' | 9..=13)
}

fn begins_blank(text: &[u8]) -> bool
    ensures { result ≡ front classes.is_white_space text.now }
{
    match text {
        [first, ..] => is_white_space(*first),
        [] => false,
    }
}

/// The offset behind the blank or closed comment that stands at the offset.
#[tactic(auto, using(crate::proofs::OnItems::Gaps::blank_within))]
fn gap_step(bytes: &[u8], at: usize) -> Option<usize>
    requires { at ≤ length bytes.now }
    ensures gap { IfSome result (λ end. IsGap (drop at bytes.now) (end - at)) }
    ensures within { IfSome result (λ end. (at < end) × (end ≤ length bytes.now)) }
    ensures none { IfNone result ((n : ℕ) → ¬ IsGap (drop at bytes.now) (suc n)) }
{
    if begins_blank(from_offset(bytes, at)) {
        return Some(at + 1);
    }
    skip_comment(bytes, at)
}

/// The offset behind all blanks and closed comments that stand at the offset.
pub(crate) fn skip_gap(bytes: &[u8], from: usize) -> usize
    requires { from ≤ length bytes.now }
    ensures gap { IsGap (drop from bytes.now) (result - from) }
    ensures within { (from ≤ result) × (result ≤ length bytes.now) }
    ensures ends { (n : ℕ) → ¬ IsGap (drop result bytes.now) (suc n) }
{
    let mut at = from;
    while let Some(end) = gap_step(bytes, at) {
        at = end;
    }
    at
}
