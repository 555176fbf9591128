// Pairs of a negative.

ghost use Rattle.cs_check.specs.Checking.Excluded.{TellsApart};

use crate::checking::excluded::exclude;
use crate::checking::framed::framed_at;
use cs_closed::Sets;
use cs_goals::Goal;
use cs_lines::is_mark;
use cs_yacc::YaccFile;

/// Whether the marks with these names stand at the place of the framed tokens, one behind the other, and are kept apart.
pub(crate) fn is_kept_apart(
    file: &YaccFile,
    sets: &Option<Sets>,
    tokens: &[u16],
    at: u64,
    left: &[u8],
    right: &[u8],
) -> bool
    ensures { TellsApart file.now sets.now tokens.now at left.now right.now result }
{
    let Some(first) = framed_at(tokens, at) else {
        return false;
    };
    let Some(second) = framed_at(tokens, at.saturating_add(1)) else {
        return false;
    };
    if !is_mark(file, first, left) || !is_mark(file, second, right) {
        return false;
    }
    let goal = Goal::Pair {
        left: first,
        right: second,
    };
    exclude(file, sets, &goal)
}
