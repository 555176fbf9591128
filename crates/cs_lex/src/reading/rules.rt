// Whether the rules are well made, before their patterns are read.

ghost use Rattle.std.specs.Prelude.{◌≡◌, ◌≤◌, ◌<◌, false, length, OnOk, IfErr, IsTrue};
ghost use Rattle.cs_bytes.specs.Limits.{most_bytes};
ghost use Rattle.cs_lex.specs.Reading.Found.{RulesRefused};
ghost use Rattle.cs_lex.specs.Reading.Kinds as kinds;
ghost use Rattle.cs_lex.specs.Reading.Reading.{AreRules};
ghost use Rattle.cs_lex.specs.Layout.Layout as layout;
ghost use Rattle.cs_lex.specs.Layout.Lies.{LiesIn, RuleLies, RulesLie};

use crate::actions::{ActionKind, action_kind};
use crate::layout::{Part, Rule};
use crate::reading::MOST_RULES;
use crate::reading::error::{LexError, LexLimit};

/// The bytes of a part.
pub(crate) fn bytes_of(bytes: &[u8], part: Part) -> &[u8]
    requires { LiesIn (length bytes.now) part }
    ensures { result.now ≡ layout.bytes_of bytes.now part }
{
    &bytes[part.from..part.to]
}

/// Whether the rule has the action `|`.
fn is_bar(bytes: &[u8], rule: Rule) -> bool
    requires { RuleLies (length bytes.now) rule }
    ensures yes { IsTrue result → kinds.IsBarRule bytes.now rule }
    ensures no { result ≡ false → ¬ kinds.IsBarRule bytes.now rule }
{
    match action_kind(bytes_of(bytes, rule.action)) {
        ActionKind::Bar => true,
        _ => false,
    }
}

/// Refuses rules that are none, that end with `|`, or that are too many.
pub(crate) fn check_rules(bytes: &[u8], rules: &[Rule]) -> Result<(), LexError>
    requires lie { RulesLie (length bytes.now) (length bytes.now) rules.now }
    requires short { length bytes.now ≤ most_bytes }
    ensures ok { OnOk result (AreRules bytes.now rules.now) }
    ensures refused { IfErr result (RulesRefused bytes.now rules.now) }
{
    if rules.is_empty() {
        return Err(LexError::NoRules);
    }
    let last = rules[rules.len() - 1];
    if is_bar(bytes, last) {
        return Err(LexError::DanglingBar { at: last.at as u32 });
    }
    if rules.len() > MOST_RULES {
        return Err(LexError::Limit {
            which: LexLimit::Rules,
            found: rules.len() as u32,
            most: MOST_RULES as u32,
        });
    }
    Ok(())
}
