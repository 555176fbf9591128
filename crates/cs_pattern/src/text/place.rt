// Which item may stand where.

ghost use Rattle.std.specs.Prelude.{◌≡◌, ◌<◌, ◌≤◌, ◌+◌, ◌^◌, ◌↔◌, IsTrue, IfSome};
ghost use Rattle.cs_pattern_parts.specs.Items.Views.{item_of};
ghost use Rattle.cs_pattern.specs.Text.Table as spec;

use cs_pattern_parts::Item;

/// A place between two items: whether it is directly behind an atom's last item or a repetition, and how many more `(` than
/// `)` stand before it.
#[derive(Clone, Copy, Debug, PartialEq, Eq)]
pub(crate) struct PatternPlace {
    pub(crate) behind_atom: bool,
    pub(crate) groups: usize,
}

/// The place before the first item.
pub(crate) fn beginning() -> PatternPlace
    ensures { result ≡ spec.beginning }
{
    PatternPlace {
        behind_atom: false,
        groups: 0,
    }
}

/// The place behind a `)`, where it may stand.
fn closed(place: PatternPlace) -> Option<PatternPlace>
    ensures value { result ≡ spec.closed place.behind_atom place.groups }
    ensures groups { IfSome result (λ next. next.groups ≤ place.groups) }
{
    if place.behind_atom && place.groups > 0 {
        Some(PatternPlace {
            behind_atom: true,
            groups: place.groups - 1,
        })
    } else {
        None
    }
}

/// The place behind the item, where the item may stand at the place.
pub(crate) fn behind(place: PatternPlace, item: &Item) -> Option<PatternPlace>
    requires { place.groups < 2 ^ 32 }
    ensures value { result ≡ spec.next_place place (item_of item.now) }
    ensures groups { IfSome result (λ next. next.groups ≤ place.groups + 1) }
{
    match item {
        Item::Class(_) | Item::Quoted(_) | Item::Name(_) => Some(PatternPlace {
            behind_atom: true,
            groups: place.groups,
        }),
        Item::Open => Some(PatternPlace {
            behind_atom: false,
            groups: place.groups + 1,
        }),
        Item::Close => closed(place),
        Item::Bar => if place.behind_atom {
            Some(PatternPlace {
                behind_atom: false,
                groups: place.groups,
            })
        } else {
            None
        },
        Item::Repeat(_) => if place.behind_atom { Some(place) } else { None },
    }
}

/// Whether a text may end at the place.
pub(crate) fn may_end(place: PatternPlace) -> bool
    ensures { IsTrue result ↔ spec.MayEnd place }
{
    place.behind_atom && place.groups == 0
}
