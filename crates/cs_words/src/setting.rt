// One option: a mark and a value.

ghost use Rattle.std.specs.Prelude.{◌≡◌, ◌++◌, IfNone, IfSome};
ghost use Rattle.cs_words.specs.Options.{IsOption, IsMarked, kind_of};
ghost use Rattle.cs_words.specs.declared.setting.Setting.{Setting};

use crate::choices::{read_criteria, read_format, read_operators, read_slips, read_weigh};
use crate::separator::Separator;
use crate::values::{read_bases, read_first, read_separator};
use cs_choices::{Criteria, Format, Operators, Slips, Weigh};

/// What an option sets.
#[derive(Drop)]
pub(crate) enum Setting {
    /// The criteria of goals.
    Cover(Criteria),
    /// The operators of edits.
    Mutate(Operators),
    /// The greatest number of bases.
    Bases(u16),
    /// What stands between lexemes.
    Separate(Separator),
    /// What sizes count.
    Weigh(Weigh),
    /// How the manifest tells of derivations.
    Format(Format),
    /// The slips of rules.
    Slip(Slips),
    /// How many negatives are kept of each operator and left mark.
    First(u16),
}

/// What an option is about.
#[derive(Clone, Copy, Debug, PartialEq, Eq)]
pub(crate) enum Kind {
    Criteria,
    Mutate,
    Bases,
    Separator,
    Weigh,
    Format,
    Slips,
    First,
}

impl Setting {
    /// What it is about.
    pub fn kind(&self) -> Kind
        ensures { result ≡ kind_of self.now }
    {
        match self {
            Setting::Cover(_) => Kind::Criteria,
            Setting::Mutate(_) => Kind::Mutate,
            Setting::Bases(_) => Kind::Bases,
            Setting::Separate(_) => Kind::Separator,
            Setting::Weigh(_) => Kind::Weigh,
            Setting::Format(_) => Kind::Format,
            Setting::Slip(_) => Kind::Slips,
            Setting::First(_) => Kind::First,
        }
    }
}

/// The setting of an option.
pub(crate) fn read_option(word: &str) -> Option<Setting>
    ensures some { IfSome result (IsOption word.now) }
    ensures none { IfNone result ((setting : Setting) → IsOption word.now setting → ⊥) }
{
    if let Some(value) = behind(word, "--criteria=") {
        return Some(Setting::Cover(read_criteria(value)?));
    }
    if let Some(value) = behind(word, "--mutate=") {
        return Some(Setting::Mutate(read_operators(value)?));
    }
    if let Some(value) = behind(word, "--bases=") {
        return Some(Setting::Bases(read_bases(value.as_bytes())?));
    }
    if let Some(value) = behind(word, "--separator=") {
        return Some(Setting::Separate(read_separator(value.as_bytes())?));
    }
    if let Some(value) = behind(word, "--weigh=") {
        return Some(Setting::Weigh(read_weigh(value)?));
    }
    if let Some(value) = behind(word, "--format=") {
        return Some(Setting::Format(read_format(value)?));
    }
    if let Some(value) = behind(word, "--slips=") {
        return Some(Setting::Slip(read_slips(value)?));
    }
    let value = behind(word, "--first=")?;
    Some(Setting::First(read_first(value.as_bytes())?))
}

// What stands behind the mark.
fn behind<'w>(word: &'w str, mark: &str) -> Option<&'w str>
    ensures some { IfSome result (λ value. word.now ≡ mark.now ++ value.now) }
    ensures none { IfNone result (IsMarked mark.now word.now → ⊥) }
{
    word.strip_prefix(mark)
}
