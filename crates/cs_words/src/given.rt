// What the options so far say.

ghost use Rattle.std.specs.Bool.{OnTrue, OnFalse};
ghost use Rattle.cs_words.specs.Steps.{AreDefaulted, HasKind, IsNothing, Sets};

use crate::options::Options;
use crate::separator::Separator;
use crate::setting::Setting;
use cs_choices::{Criteria, Format, Operators, Slips, Weigh};

/// What the options so far say.
#[derive(Drop)]
pub(crate) struct Given {
    pub(crate) criteria: Option<Criteria>,
    pub(crate) operators: Option<Operators>,
    pub(crate) bases: Option<u16>,
    pub(crate) separator: Option<Separator>,
    pub(crate) weigh: Option<Weigh>,
    pub(crate) format: Option<Format>,
    pub(crate) slips: Option<Slips>,
    pub(crate) first: Option<u16>,
}

impl Given {
    /// Nothing is said.
    pub fn new() -> Given
        ensures { IsNothing result }
    {
        Given {
            criteria: None,
            operators: None,
            bases: None,
            separator: None,
            weigh: None,
            format: None,
            slips: None,
            first: None,
        }
    }

    /// Takes a setting, or gives false where one of its kind was there.
    pub fn set(&mut self, setting: Setting) -> bool
        ensures set { OnTrue result (Sets self.old setting self.new) }
        ensures twice { OnFalse result (HasKind self.old setting) }
    {
        match setting {
            Setting::Cover(criteria) => self.criteria.replace(criteria).is_none(),
            Setting::Mutate(operators) => self.operators.replace(operators).is_none(),
            Setting::Bases(bases) => self.bases.replace(bases).is_none(),
            Setting::Separate(separator) => self.separator.replace(separator).is_none(),
            Setting::Weigh(weigh) => self.weigh.replace(weigh).is_none(),
            Setting::Format(format) => self.format.replace(format).is_none(),
            Setting::Slip(slips) => self.slips.replace(slips).is_none(),
            Setting::First(first) => self.first.replace(first).is_none(),
        }
    }

    /// The options, with defaults for what isn't said.
    pub fn options(self) -> Options
        ensures { AreDefaulted self result }
    {
        let defaults = Options::defaults();
        Options {
            criteria: self.criteria.unwrap_or(defaults.criteria),
            operators: self.operators.unwrap_or(defaults.operators),
            bases: self.bases.unwrap_or(defaults.bases),
            separator: self.separator.unwrap_or(defaults.separator),
            weigh: self.weigh.unwrap_or(defaults.weigh),
            format: self.format.unwrap_or(defaults.format),
            slips: self.slips.unwrap_or(defaults.slips),
            first: self.first,
        }
    }
}
