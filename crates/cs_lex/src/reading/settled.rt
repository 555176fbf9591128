// That the rules section ends or stops, and its actions have kinds.

ghost use Rattle.std.specs.Prelude.{◌≤◌, length};
ghost use Rattle.cs_bytes.specs.Limits.{most_bytes};
ghost use Rattle.cs_lex.specs.Reading.Settled.{KindsEndOrStop};

use crate::actions::action_kind;
use crate::layout::{RulesLine, rules_line};
use crate::reading::rules::bytes_of;

/// Walks over the rules section that begins at the offset, and over the action of each rule. It takes no memory and answers
/// nothing: it is there for the law.
pub(crate) fn walk_kinds(bytes: &[u8], from: usize)
    requires within { from ≤ length bytes.now }
    requires short { length bytes.now ≤ most_bytes }
    ensures { KindsEndOrStop bytes.now from }
{
    let mut at = from;
    while at < bytes.len() {
        match rules_line(bytes, at) {
            Ok(RulesLine::End) => return,
            Ok(RulesLine::Passed(to)) => at = to,
            Ok(RulesLine::Rule(rule, to)) => {
                action_kind(bytes_of(bytes, rule.action));
                at = to;
            }
            Err(_) => return,
        }
    }
}
