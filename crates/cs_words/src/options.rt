// What the options of a command say.

ghost use Rattle.std.specs.Prelude.{◌≡◌};
ghost use Rattle.cs_words.specs.Options.{default_options};

use crate::separator::Separator;
use cs_choices::{Criteria, Format, Operators, Slips, Weigh};

/// What the options of a command say, with the defaults for those that no word gives.
#[derive(Drop)]
pub struct Options {
    /// Which goals are wanted.
    pub criteria: Criteria,
    /// Which edits are made. None of them where nothing is mutated: then there are no bases either.
    pub operators: Operators,
    /// At most how many bases there are, from 0 to 1,000.
    pub bases: u16,
    /// What stands between the lexemes of a text.
    pub separator: Separator,
    /// What sizes of derivations count.
    pub weigh: Weigh,
    /// How the manifest tells of derivations.
    pub format: Format,
    /// Which slips of rules are made.
    pub slips: Slips,
    /// How many negatives with one forbidden pair are kept of each operator and left mark, from 1 to 1,000; all of them and those
    /// with more such pairs where no word says so.
    pub first: Option<u16>,
}

impl Options {
    /// The options where no word gives one: all criteria, all operators, 16 bases, one space, nodes, the second format, all
    /// slips, and all negatives.
    pub fn defaults() -> Options
        ensures { result ≡ default_options }
    {
        Options {
            criteria: Criteria {
                rule: true,
                cdrc: true,
                pair: true,
            },
            operators: Operators {
                delete: true,
                insert: true,
                replace: true,
                swap: true,
            },
            bases: 16,
            separator: Separator::space(),
            weigh: Weigh::Nodes,
            format: Format::Two,
            slips: Slips {
                drops: true,
                doubles: true,
                swaps: true,
            },
            first: None,
        }
    }
}
