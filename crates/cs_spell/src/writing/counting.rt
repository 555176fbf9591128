// How many rules there are of each kind.

ghost use Rattle.std.specs.Prelude.{◌≡◌, ◌<◌, ◌^◌, length};
ghost use Rattle.cs_spell.specs.Writing.Counting.{AreFew, added, none_counted};
ghost use Rattle.cs_spell.specs.Writing.Counts.{AreCounts};
ghost use Rattle.cs_spell.specs.Telling.Seen.{all_told, told_of};

use crate::telling::Told;

/// How many rules there are, and how many of each kind.
#[derive(Clone, Copy, Debug, PartialEq, Eq)]
pub(crate) struct Counts {
    pub(crate) rules: u64,
    pub(crate) shown: u64,
    pub(crate) shadowed: u64,
    pub(crate) foreign: u64,
    pub(crate) literal: u64,
    pub(crate) infeasible: u64,
    pub(crate) large: u64,
}

fn no_counts() -> Counts
    ensures { result ≡ none_counted }
{
    Counts {
        rules: 0,
        shown: 0,
        shadowed: 0,
        foreign: 0,
        literal: 0,
        infeasible: 0,
        large: 0,
    }
}

// One rule more.
fn add(counts: Counts, told: &Told<'_>) -> Counts
    requires { AreFew counts }
    ensures { result ≡ added counts (told_of told.now) }
{
    let rules = counts.rules + 1;
    match told {
        Told::Shown(_) => Counts {
            rules,
            shown: counts.shown + 1,
            ..counts
        },
        Told::Shadowed => Counts {
            rules,
            shadowed: counts.shadowed + 1,
            ..counts
        },
        Told::Foreign => Counts {
            rules,
            foreign: counts.foreign + 1,
            ..counts
        },
        Told::Literal => Counts {
            rules,
            literal: counts.literal + 1,
            ..counts
        },
        Told::Infeasible => Counts {
            rules,
            infeasible: counts.infeasible + 1,
            ..counts
        },
        Told::Large => Counts {
            rules,
            large: counts.large + 1,
            ..counts
        },
    }
}

/// Counts what is told.
pub(crate) fn count_all(told: &[Told<'_>]) -> Counts
    requires { length told.now < 2 ^ 63 }
    ensures { AreCounts (all_told told.now) result }
{
    let mut counts = no_counts();
    for place in 0..told.len() {
        counts = add(counts, &told[place]);
    }
    counts
}
