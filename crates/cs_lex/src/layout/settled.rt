// Where the definitions section ends, and that each text has a layout or stops.

ghost use Rattle.std.specs.Prelude.{◌≤◌, length, IfSome, IfNone};
ghost use Rattle.cs_bytes.specs.Limits.{most_bytes};
ghost use Rattle.cs_lex.specs.Layout.Ends.{EndsBefore, NeverEnds};
ghost use Rattle.cs_lex.specs.Layout.Settled as spec;

use crate::layout::layout::{DefinitionsLine, RulesLine, definitions_line, rules_line};

/// The offset behind the definitions section, where its lines lead to one that ends it. `None` comes where one of them has a
/// fault, or none ends the section. That a line defines a name again is no fault here, though layout stops there.
pub fn definitions_end(bytes: &[u8]) -> Option<usize>
    requires { length bytes.now ≤ most_bytes }
    ensures before { IfSome result (EndsBefore bytes.now) }
    ensures end { IfSome result (λ from. spec.EndsOrStops bytes.now from) }
    ensures within { IfSome result (λ from. from ≤ length bytes.now) }
    ensures never { IfNone result (NeverEnds bytes.now) }
    ensures stop { IfNone result (spec.Stops bytes.now) }
{
    let mut at = 0;
    while at < bytes.len() {
        match definitions_line(bytes, at) {
            Ok(DefinitionsLine::End(to)) => return Some(to),
            Ok(DefinitionsLine::Passed(to)) => at = to,
            Ok(DefinitionsLine::Definition(_, to)) => at = to,
            Err(_) => return None,
        }
    }
    None
}

/// Walks over the rules section that begins at the offset.
fn walk_rules(bytes: &[u8], from: usize)
    requires within { from ≤ length bytes.now }
    requires short { length bytes.now ≤ most_bytes }
    ensures { spec.RulesEndOrStop bytes.now from }
{
    let mut at = from;
    while at < bytes.len() {
        match rules_line(bytes, at) {
            Ok(RulesLine::End) => return,
            Ok(RulesLine::Passed(to)) => at = to,
            Ok(RulesLine::Rule(_, to)) => at = to,
            Err(_) => return,
        }
    }
}

/// A text has a layout, or layout of it stops. The walk takes no memory and answers nothing: it is there for the law.
pub fn layout_or_stop(bytes: &[u8])
    requires { length bytes.now ≤ most_bytes }
    ensures { spec.IsSettled bytes.now }
{
    if let Some(from) = definitions_end(bytes) {
        walk_rules(bytes, from);
    }
}
