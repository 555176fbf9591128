//! Blocks.

ghost use Rattle.std.specs.Prelude.{◌≡◌, ℕ, ◌-◌, ◌<◌, ◌≤◌, Some, length, drop, slice_get, IfSome, IfNone};
ghost use Rattle.cs_bytes.specs.Names.{opening_brace};
ghost use Rattle.cs_ctext.specs.Blocks.{IsBlock};

use crate::c_text::CText;

/// Skips the block that begins at `at`, and answers the offset behind the matching `}`.
///
/// Comments and closed quoted constructs inside are skipped, and braces are counted. A quote mark that isn't closed on its
/// line is a plain byte, and so is a `/` that opens no comment. `None` comes exactly where no `}` matches, or a comment
/// inside is left open.
pub fn skip_block(bytes: &[u8], at: usize) -> Option<usize>
    requires { slice_get bytes.now at ≡ Some opening_brace }
    ensures closed { IfSome result (λ end. IsBlock (drop at bytes.now) (end - at)) }
    ensures within { IfSome result (λ end. (at < end) × (end ≤ length bytes.now)) }
    ensures unclosed { IfNone result ((size : ℕ) → ¬ IsBlock (drop at bytes.now) size) }
{
    let mut text = CText::new(bytes);
    text.skip_block(at)
}

impl CText<'_> {
    /// Skips the block that begins at `at`, as the function of this name does.
    pub fn skip_block(&mut self, at: usize) -> Option<usize>
        requires { slice_get self.old at ≡ Some opening_brace }
        ensures closed { IfSome result (λ end. IsBlock (drop at self.old) (end - at)) }
        ensures within { IfSome result (λ end. (at < end) × (end ≤ length self.old)) }
        ensures unclosed { IfNone result ((size : ℕ) → ¬ IsBlock (drop at self.old) size) }
        ensures text { self.new ≡ self.old }
    {
        let bytes = self.bytes();
        let mut depth: usize = 1;
        let mut from = at + 1;
        while from < bytes.len() {
            match bytes[from] {
                b'{' => {
                    depth += 1;
                    from += 1;
                }
                b'}' if depth == 1 => return Some(from + 1),
                b'}' => {
                    depth -= 1;
                    from += 1;
                }
                _ => from += self.part_size(from)?,
            }
        }
        None
    }
}
