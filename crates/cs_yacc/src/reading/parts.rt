// What the items of a file give before its symbols are numbered.

ghost use Rattle.std.specs.Prelude.{◌^◌, ◌<◌, length};
ghost use Rattle.std.specs.List.{All};
ghost use Rattle.cs_yacc.specs.Reading.Marks.{AreWithin};
ghost use Rattle.cs_yacc.specs.Reading.RuleView.{rules_in};

use crate::items::Placed;
use crate::reading::spelled::SpelledRule;
use crate::reading::spelling::Spellings;

/// The spellings of all items, the tokens in use among them, the left sides, the item that names the start symbol, if one
/// does, and the rules, whose bodies give places among the spellings.
#[derive(Drop)]
pub(crate) struct Parts<'p, 'a> {
    pub(crate) words: &'p Spellings<'a>,
    pub(crate) tokens: Spellings<'a>,
    pub(crate) lefts: Spellings<'a>,
    pub(crate) start: Option<Placed<'a>>,
    pub(crate) rules: Vec<SpelledRule<'p, 'a>>,
    ghost few_tokens: { length tokens < 2 ^ 32 },
    ghost few_lefts: { length lefts < 2 ^ 32 },
    ghost few_rules: { length rules.items < 2 ^ 32 },
    ghost within: { AreWithin words.now rules.items },
    ghost short: { All (λ r. length r.right < 2 ^ 32) (rules_in words.now rules.items) },
}
