// The rules, as the file spells them.

ghost use Rattle.std.specs.Prelude.{◌≡◌, ◌<◌, ◌^◌, IfOk, OnOk, length, take};
ghost use Rattle.cs_yacc.specs.Reading.Meaning as spec;
ghost use Rattle.cs_yacc.specs.Reading.Marks.{AreApart, AreWithin, Adds};
ghost use Rattle.cs_yacc.specs.Reading.Places.{ArePlaces};
ghost use Rattle.cs_yacc.specs.Items.Views.{item_of};
ghost use Rattle.cs_yacc.specs.Reading.SpellingView.{items_in, left_of};
ghost use Rattle.cs_yacc.specs.Reading.RuleView.{rules_in, next_left, GoesOn, Opens};

use crate::items::{Item, Placed};
use crate::reading::gather::{begins_with_colon, behind, left_at};
use crate::reading::spelling::{Spelling, Spellings};
use std::alloc::{AllocError, Global};

/// A left side and one of its bodies, by the places of its spellings among those of all items.
#[derive(Clone, Copy, Debug)]
pub(crate) struct SpelledRule<'p, 'a> {
    pub(crate) left: Spelling<'a>,
    pub(crate) right: &'p [u32],
}

/// Whether the body goes on with the item.
fn goes_on(item: Item<'_>, behind: &[Placed<'_>]) -> bool
    ensures { GoesOn result (item_of item.entry) (items_in behind.now) }
{
    match item {
        Item::Name(_) if !begins_with_colon(behind) => true,
        Item::Literal(_) => true,
        _ => false,
    }
}

/// How many items the body has that begins here.
fn body_len(items: &[Placed<'_>]) -> usize
    ensures { result ≡ length (spec.body (items_in items.now)) }
{
    for (index, placed) in items.iter().enumerate() {
        if !goes_on(placed.item, behind(items, index)) {
            return index;
        }
    }
    items.len()
}

/// The places of the body that begins here.
fn body<'p>(items: &[Placed<'_>], places: &'p [u32]) -> &'p [u32]
    requires { length items.now ≡ length places.now }
    ensures { result.now ≡ take (length (spec.body (items_in items.now))) places.now }
{
    &places[..body_len(items)]
}

/// The left side of the bodies behind the item.
fn left_behind<'a>(
    left: Option<Spelling<'a>>,
    item: Item<'a>,
    rest: &[Placed<'a>],
) -> Option<Spelling<'a>>
    ensures { left_of result
        ≡ next_left (left_of left.entry) (item_of item.entry) (items_in rest.now) }
{
    match left_at(item, rest) {
        Some(spelling) => Some(spelling),
        None => left,
    }
}

/// The left side, where the item opens one of its bodies.
fn opening<'a>(left: Option<Spelling<'a>>, item: Item<'a>) -> Option<Spelling<'a>>
    ensures { Opens result left.entry item.entry }
{
    match (left, item) {
        (Some(left), Item::Colon | Item::Bar) => Some(left),
        _ => None,
    }
}

/// Adds the rule whose body the item opens, unless the body holds `error`, which stands at this place.
fn push_rule<'p, 'a>(
    rules: &mut Vec<SpelledRule<'p, 'a>>,
    error: u32,
    left: Option<Spelling<'a>>,
    item: Item<'a>,
    rest: &[Placed<'a>],
    places: &'p [u32],
) -> Result<(), AllocError>
    requires { length rest.now ≡ length places.now }
    ensures { OnOk result (Adds error rules.old rules.new left.entry item.entry
        rest.now places.now) }
{
    if let Some(left) = opening(left, item) {
        let right = body(rest, places);
        if !right.contains(&error) {
            rules.push(SpelledRule { left, right })?;
        }
    }
    Ok(())
}

/// The rules without those whose body holds `error`, in the file's order. The places are those of the items among the
/// spellings.
pub(crate) fn kept_rules<'p, 'a>(
    alloc: Global,
    words: &Spellings<'a>,
    items: &[Placed<'a>],
    places: &'p [u32],
) -> Result<Vec<SpelledRule<'p, 'a>>, AllocError>
    requires few { length words.now < 2 ^ 32 }
    requires apart { AreApart words.now }
    requires places { ArePlaces words.now (items_in items.now) places.now }
    ensures rules { IfOk result (λ v. rules_in words.now v.items ≡ spec.kept (items_in items.now)) }
    ensures within { IfOk result (λ v. AreWithin words.now v.items) }
{
    let error = words.find(Spelling::Named(b"error")) as u32;
    let mut rules = Vec::new(alloc);
    let mut left = None;
    for (index, placed) in items.iter().enumerate() {
        let after = behind(items, index);
        left = left_behind(left, placed.item, after);
        let rest = &places[index + 1..];
        push_rule(&mut rules, error, left, placed.item, after, rest)?;
    }
    Ok(rules)
}
