// What the sets of a manifest exclude.

ghost use Rattle.cs_closed.specs.Closed.Sets.{AreSetsOf};
ghost use Rattle.cs_check.specs.Checking.Excluded.{TellsExcluded, TellsClosed};

use cs_closed::Sets;
use cs_goals::Goal;
use cs_yacc::YaccFile;

/// Whether there are sets, and they exclude the goal.
pub(crate) fn exclude(file: &YaccFile, sets: &Option<Sets>, goal: &Goal) -> bool
    ensures { TellsExcluded file.now sets.now goal.now result }
{
    match sets {
        Some(sets) => sets.excludes(file.grammar(), goal),
        None => false,
    }
}

/// Whether the sets are closed.
pub(crate) fn close(file: &YaccFile, sets: &Sets) -> bool
    requires { AreSetsOf file.now.grammar sets.now }
    ensures { TellsClosed file.now sets.now result }
{
    sets.are_closed(file.grammar())
}
