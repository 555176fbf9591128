// What stands behind `return`.

ghost use Rattle.std.specs.Prelude.{ℕ, ◌≤◌, length, IfSome, IfNone};
ghost use Rattle.cs_lex.specs.Actions.Gaps as spec;
ghost use Rattle.cs_lex.specs.Actions.Views.{FindsReturned};

use crate::actions::gap::gap_size;
use crate::actions::named::{Named, named_at};
use crate::actions::sign::{all_signs, sign_size};
use cs_bytes::{ByteClass, from_offset};

/// The size of so many signs in front, with the gaps before them.
fn signs_size(text: &[u8], sign: u8, count: usize) -> Option<usize>
    ensures signs { IfSome result (λ size. spec.AreSigns sign text.now count size) }
    ensures within { IfSome result (λ size. size ≤ length text.now) }
    ensures none { IfNone result ((size : ℕ) → ¬ spec.AreSigns sign text.now count size) }
{
    let mut at = 0;
    for passed in 0..count {
        at += sign_size(from_offset(text, at), sign, ByteClass::Space)?;
    }
    Some(at)
}

/// What is named behind `return`, between parentheses and before `;`.
pub(crate) fn returned(text: &[u8]) -> Option<Named<'_>>
    ensures { FindsReturned text.now result }
{
    let opened = all_signs(text, b'(');
    let gap = gap_size(from_offset(text, opened.at), ByteClass::Space);
    let found = named_at(from_offset(text, opened.at + gap))?;
    let behind = opened.at + gap + found.size;
    let closed = signs_size(from_offset(text, behind), b')', opened.count)?;
    sign_size(from_offset(text, behind + closed), b';', ByteClass::Space)?;
    Some(found.named)
}
