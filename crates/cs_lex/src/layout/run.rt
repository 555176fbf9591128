// C text up to a line's end.

ghost use Rattle.std.specs.Prelude.{◌≡◌, ◌≤◌, ◌<◌, ◌-◌, length, drop, false, IfSome, IfNone};
ghost use Rattle.cs_bytes.specs.Classes.{is_newline};
ghost use Rattle.cs_bytes.specs.Places as places;
ghost use Rattle.cs_lex.specs.Layout.Found as found;
ghost use Rattle.cs_lex.specs.Layout.Runs as spec;

use cs_bytes::{from_offset, has_at};
use cs_ctext::CText;

/// How far a run goes.
#[derive(Clone, Copy, Debug)]
pub(crate) enum Run {
    /// To the line's end, behind so many bytes.
    To(usize),
    /// A comment or brace that isn't closed stands behind so many bytes.
    Open(usize),
}

/// Whether the text is empty or begins with a newline.
fn ends_run(text: &[u8]) -> bool
    ensures { result ≡ places.front_or_end is_newline text.now }
{
    match text {
        [byte, ..] => *byte == b'\n',
        [] => true,
    }
}

/// The offset behind the comment, closed quoted construct, block or other byte at the offset; `None` where a comment or brace
/// that isn't closed stands there.
fn skip_piece(text: &mut CText<'_>, at: usize, braces: bool) -> Option<usize>
    requires within { at < length text.old }
    requires inside { places.front_or_end is_newline (drop at text.old) ≡ false }
    ensures piece { IfSome result (λ end. spec.IsPiece braces (drop at text.old) (end - at)) }
    ensures within { IfSome result (λ end. (at < end) × (end ≤ length text.old)) }
    ensures unclosed { IfNone result (spec.IsOpen braces (drop at text.old)) }
    ensures text { text.new ≡ text.old }
{
    if braces && has_at(text.bytes(), at, b'{') {
        return text.skip_block(at);
    }
    text.skip_part(at)
}

/// How far the run in front goes: to the first newline outside comments, closed quoted constructs and, where braces count,
/// blocks.
pub(crate) fn run_of(text: &[u8], braces: bool) -> Run
    ensures { found.FindsRun braces text.now result }
{
    let mut walk = CText::new(text);
    let mut at = 0;
    while !ends_run(from_offset(text, at)) {
        match skip_piece(&mut walk, at, braces) {
            Some(end) => at = end,
            None => return Run::Open(at),
        }
    }
    Run::To(at)
}
