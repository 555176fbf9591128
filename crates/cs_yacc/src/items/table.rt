// Which item may come at which place.

ghost use Rattle.std.specs.Prelude.{option_map, ◌≡◌, ◌^◌, ◌<◌, IfNone, IfSome};
ghost use Rattle.cs_yacc.specs.Items.Items.{items_of};
ghost use Rattle.cs_yacc.specs.Items.Table as spec;
ghost use Rattle.cs_yacc.specs.Items.Views.{item_of, placed_all};
ghost use Rattle.cs_yacc.specs.Items.PlaceView.{place_of};

use crate::items::directive::Directive;
use crate::items::item::{Item, Placed};

/// A place in the list of items.
#[derive(Clone, Copy, Debug)]
pub(crate) enum Place {
    Declarations,
    Start,
    Union,
    Expect,
    List,
    Tagged,
    Entry,
    Counted,
    Comma,
    Rules,
    Left,
    Body,
    Named,
    Prec,
    Closed,
    Done,
}

/// The place behind a directive among the declarations.
fn behind_directive(directive: Directive) -> Option<Place>
    ensures { option_map place_of result ≡ spec.behind_directive directive }
{
    match directive {
        Directive::Start => Some(Place::Start),
        Directive::Union => Some(Place::Union),
        Directive::Expect => Some(Place::Expect),
        Directive::Prec | Directive::Empty => None,
        _ => Some(Place::List),
    }
}

fn in_declarations(item: Item<'_>) -> Option<Place>
    ensures { option_map place_of result ≡ spec.in_declarations (item_of item.entry) }
{
    match item {
        Item::Directive(directive) => behind_directive(directive),
        Item::Prologue | Item::Semicolon => Some(Place::Declarations),
        Item::Mark => Some(Place::Rules),
        _ => None,
    }
}

fn in_entry(item: Item<'_>) -> Option<Place>
    ensures { option_map place_of result ≡ spec.in_entry (item_of item.entry) }
{
    match item {
        Item::Name(_) | Item::Literal(_) => Some(Place::Entry),
        _ => in_declarations(item),
    }
}

fn in_body(item: Item<'_>) -> Option<Place>
    ensures { option_map place_of result ≡ spec.in_body (item_of item.entry) }
{
    match item {
        Item::Name(_) => Some(Place::Named),
        Item::Literal(_) | Item::Block | Item::Bar => Some(Place::Body),
        Item::Directive(Directive::Empty) => Some(Place::Body),
        Item::Directive(Directive::Prec) => Some(Place::Prec),
        Item::Semicolon => Some(Place::Closed),
        Item::Mark => Some(Place::Done),
        _ => None,
    }
}

/// The place behind the item, where the item may come at the place.
fn behind(place: Place, item: Item<'_>) -> Option<Place>
    ensures { option_map place_of result ≡ spec.next_place (place_of place) (item_of item.entry) }
{
    match (place, item) {
        (Place::Start, Item::Name(_)) => Some(Place::Declarations),
        (Place::Union, Item::Block) => Some(Place::Declarations),
        (Place::Expect, Item::Number) => Some(Place::Declarations),
        (Place::List, Item::Tag) => Some(Place::Tagged),
        (Place::List | Place::Tagged, Item::Name(_) | Item::Literal(_)) => Some(Place::Entry),
        (Place::Entry, Item::Number) => Some(Place::Counted),
        (Place::Entry | Place::Counted, Item::Comma) => Some(Place::Comma),
        (Place::Entry | Place::Counted | Place::Comma, _) => in_entry(item),
        (Place::Declarations, _) => in_declarations(item),
        (Place::Rules, Item::Name(_)) => Some(Place::Left),
        (Place::Left | Place::Named, Item::Colon) => Some(Place::Body),
        (Place::Body | Place::Named, _) => in_body(item),
        (Place::Prec, Item::Name(_) | Item::Literal(_)) => Some(Place::Body),
        (Place::Closed, Item::Bar) => Some(Place::Body),
        (Place::Closed, Item::Semicolon) => Some(Place::Closed),
        (Place::Closed, Item::Name(_)) => Some(Place::Left),
        (Place::Closed, Item::Mark) => Some(Place::Done),
        _ => None,
    }
}

/// Whether the list may end at the place.
fn may_end(place: Place) -> bool
    ensures { result ≡ spec.may_end (place_of place) }
{
    matches!(
        place,
        Place::Body | Place::Named | Place::Closed | Place::Done
    )
}

/// The offset of the first item that the table doesn't take; the length, where it takes all items and the list may not end
/// there; `None` where the items are taken. The length is the file's, in bytes.
pub fn syntax_fault(items: &[Placed<'_>], length: usize) -> Option<u32>
    requires { length < 2 ^ 32 }
    ensures taken { IfNone result (spec.IsTaken (items_of (placed_all items.now))) }
    ensures stuck { IfSome result (spec.IsStuck length (placed_all items.now)) }
{
    let mut place = Place::Declarations;
    for placed in items {
        match behind(place, placed.item) {
            Some(next) => place = next,
            None => return Some(placed.at),
        }
    }
    if may_end(place) {
        None
    } else {
        Some(length as u32)
    }
}
