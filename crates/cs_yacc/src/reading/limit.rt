// Limits of a file.

ghost use Rattle.std.specs.Prelude.{◌<◌, ◌^◌};
ghost use Rattle.cs_yacc.specs.Reading.Meaning as spec;
ghost use Rattle.cs_yacc.specs.Reading.Finding.{FindsFault};
ghost use Rattle.cs_yacc.specs.Reading.PartsView.{parts_in};

use crate::reading::error::{YaccError, YaccLimit};
use crate::reading::parts::Parts;
use cs_grammar::{MOST_NONTERMINALS, MOST_RULES, MOST_SYMBOLS, MOST_TOKENS};

fn check_limit(which: YaccLimit, found: usize, most: u32) -> Result<(), YaccError>
    requires { found < 2 ^ 32 }
    ensures { FindsFault result (spec.above which found most) }
{
    let found = found as u32;
    if found > most {
        return Err(YaccError::Limit { which, found, most });
    }
    Ok(())
}

fn check_rights(parts: &Parts<'_, '_>) -> Result<(), YaccError>
    ensures { FindsFault result (spec.long_right (parts_in parts.now).rules) }
{
    for rule in &parts.rules {
        check_limit(YaccLimit::RightSide, rule.right.len(), MOST_SYMBOLS as u32)?;
    }
    Ok(())
}

/// The first limit that the parts pass.
pub(crate) fn check_limits(parts: &Parts<'_, '_>) -> Result<(), YaccError>
    ensures { FindsFault result (spec.limit_passed (parts_in parts.now)) }
{
    check_limit(
        YaccLimit::Tokens,
        parts.tokens.len(),
        u32::from(MOST_TOKENS),
    )?;
    check_limit(
        YaccLimit::Nonterminals,
        parts.lefts.len(),
        u32::from(MOST_NONTERMINALS),
    )?;
    check_limit(YaccLimit::Rules, parts.rules.len(), MOST_RULES as u32)?;
    check_rights(parts)
}
