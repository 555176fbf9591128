// The items that have a meaning, and the spellings of all.

ghost use Rattle.std.specs.Prelude.{◌≡◌, ◌≤◌, IfOk, length, option_map};
ghost use Rattle.cs_bytes.specs.Limits.{most_bytes};
ghost use Rattle.cs_yacc.specs.Reading.Meaning as spec;
ghost use Rattle.cs_yacc.specs.Reading.Meaning.{distinct, spelled};
ghost use Rattle.cs_yacc.specs.Reading.Places.{meant_in, HasPlaces};
ghost use Rattle.cs_yacc.specs.Reading.SpellingView.{items_in};
ghost use Rattle.cs_yacc.specs.Items.Views.{item_of, placed_all};

use crate::items::{Directive, Item, Placed};
use crate::reading::spelling::Spellings;
use std::alloc::{AllocError, Global};

fn is_prec(item: Item<'_>) -> bool
    ensures { result ≡ spec.is_prec (item_of item.entry) }
{
    matches!(item, Item::Directive(Directive::Prec))
}

fn is_idle(item: Item<'_>) -> bool
    ensures { result ≡ spec.is_idle (item_of item.entry) }
{
    matches!(
        item,
        Item::Directive(Directive::Prec | Directive::Empty)
            | Item::Block
            | Item::Tag
            | Item::Number
            | Item::Comma
    )
}

/// Whether the item has a meaning, where `before` stands directly before it.
fn has_meaning(before: Option<Item<'_>>, item: Item<'_>) -> bool
    ensures { result ≡ spec.has_meaning (option_map item_of before.entry) (item_of item.entry) }
{
    let behind_prec = match before {
        Some(before) => is_prec(before),
        None => false,
    };
    !behind_prec && !is_idle(item)
}

/// The items that have a meaning, the spellings of all items, each once, and the place among these of each of those.
#[derive(Drop)]
pub(crate) struct Meant<'a> {
    pub(crate) items: Vec<Placed<'a>>,
    pub(crate) words: Spellings<'a>,
    pub(crate) places: Vec<u32>,
}

/// Leaves out the items that have no meaning: the idle ones, and those directly behind `%prec`.
pub(crate) fn with_meaning<'a>(
    alloc: Global,
    items: Vec<Placed<'a>>,
) -> Result<Meant<'a>, AllocError>
    requires { length items.items ≤ most_bytes }
    ensures items { IfOk result (λ m.
        meant_in m ≡ spec.with_meaning (placed_all items.entry.items)) }
    ensures words { IfOk result (λ m. m.words ≡ distinct (spelled (items_in items.entry.items))) }
    ensures places { IfOk result HasPlaces }
{
    let mut items = items;
    let mut words = Spellings::new(alloc);
    let mut places = Vec::with_capacity(alloc, items.len())?;
    let mut before = None;
    let mut kept = 0;
    for index in 0..items.len() {
        let placed = items[index];
        let place = words.place_of(placed.item)?;
        if has_meaning(before, placed.item) {
            items[kept] = placed;
            places.push(place)?;
            kept += 1;
        }
        before = Some(placed.item);
    }
    items.truncate(kept);
    Ok(Meant {
        items,
        words,
        places,
    })
}
