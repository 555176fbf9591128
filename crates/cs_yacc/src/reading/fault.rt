// The first faults of the items.

ghost use Rattle.std.specs.Prelude.{◌≡◌, take};
ghost use Rattle.std.specs.List.{list_any};
ghost use Rattle.std.specs.Option.{option_to_list};
ghost use Rattle.cs_yacc.specs.Reading.Meaning as spec;
ghost use Rattle.cs_yacc.specs.Items.Views.{item_of, placed_all};
ghost use Rattle.cs_yacc.specs.Reading.Finding.{later_fault, undefined_in, is_unknown, HoldsSpellings};
ghost use Rattle.cs_yacc.specs.Reading.SpellingView.{spelling_of, items_in};

use crate::items::{Directive, Item, Placed};
use crate::reading::error::YaccError;
use crate::reading::gather::{behind, left_at};
use crate::reading::spelling::{Spelling, Spellings, spelling_at};

/// The items behind the first mark.
pub(crate) fn behind_mark<'i, 'a>(items: &'i [Placed<'a>]) -> &'i [Placed<'a>]
    ensures { placed_all result.now ≡ spec.behind_mark (placed_all items.now) }
{
    for (index, placed) in items.iter().enumerate() {
        if matches!(placed.item, Item::Mark) {
            return behind(items, index);
        }
    }
    &items[items.len()..]
}

fn is_start(item: Item<'_>) -> bool
    ensures { result ≡ spec.is_start (item_of item.entry) }
{
    matches!(item, Item::Directive(Directive::Start))
}

/// The items behind the first `%start`.
pub(crate) fn behind_start<'i, 'a>(items: &'i [Placed<'a>]) -> &'i [Placed<'a>]
    ensures { placed_all result.now ≡ spec.behind_start (placed_all items.now) }
{
    for (index, placed) in items.iter().enumerate() {
        if is_start(placed.item) {
            return behind(items, index);
        }
    }
    &items[items.len()..]
}

/// The item that stands first.
pub(crate) fn first_item<'a>(items: &[Placed<'a>]) -> Option<Placed<'a>>
    ensures { placed_all (option_to_list result) ≡ take 1 (placed_all items.now) }
{
    match items.split_first() {
        Some((first, _)) => Some(*first),
        None => None,
    }
}

/// The offset of the first `%start`.
pub(crate) fn first_start(items: &[Placed<'_>]) -> Option<u32>
    ensures { result ≡ spec.first_start (placed_all items.now) }
{
    for placed in items {
        if is_start(placed.item) {
            return Some(placed.at);
        }
    }
    None
}

fn is_token_on_left(declared: &Spellings<'_>, item: Item<'_>, behind: &[Placed<'_>]) -> bool
    ensures { result
        ≡ spec.is_token_on_left declared.now (item_of item.entry) (items_in behind.now) }
{
    match left_at(item, behind) {
        Some(spelling) => declared.has(spelling),
        None => false,
    }
}

/// The offset of the first left side that is declared.
fn first_token_on_left(items: &[Placed<'_>], declared: &Spellings<'_>) -> Option<u32>
    ensures { result ≡ spec.first_at (spec.is_token_on_left declared.now) (placed_all items.now) }
{
    for (index, placed) in items.iter().enumerate() {
        if is_token_on_left(declared, placed.item, behind(items, index)) {
            return Some(placed.at);
        }
    }
    None
}

fn is_undefined(declared: &Spellings<'_>, lefts: &Spellings<'_>, item: Item<'_>) -> bool
    ensures { result ≡ spec.is_undefined declared.now lefts.now (item_of item.entry) }
{
    match item {
        Item::Name(name) => !declared.has(Spelling::Named(name))
            && !lefts.has(Spelling::Named(name)),
        _ => false,
    }
}

/// The offset of the first name that is neither declared nor a left side.
fn first_undefined(
    items: &[Placed<'_>],
    declared: &Spellings<'_>,
    lefts: &Spellings<'_>,
) -> Option<u32>
    ensures { result ≡ spec.first_undefined declared.now lefts.now (placed_all items.now) }
{
    for placed in items {
        if is_undefined(declared, lefts, placed.item) {
            return Some(placed.at);
        }
    }
    None
}

/// Whether the spelling is a name that is neither declared nor a left side.
fn is_unknown(declared: &Spellings<'_>, lefts: &Spellings<'_>, spelling: Spelling<'_>) -> bool
    ensures { result ≡ is_unknown declared.now lefts.now (spelling_of spelling.entry) }
{
    match spelling {
        Spelling::Named(_) => !declared.has(spelling) && !lefts.has(spelling),
        Spelling::Quoted(_) => false,
    }
}

/// Whether such a name is among the spellings.
fn has_unknown(spelled: &Spellings<'_>, declared: &Spellings<'_>, lefts: &Spellings<'_>) -> bool
    ensures { result ≡ list_any (is_unknown declared.now lefts.now) spelled.now }
{
    for spelling in spelled.as_slice() {
        if is_unknown(declared, lefts, *spelling) {
            return true;
        }
    }
    false
}

/// The offset of the first name behind the first mark that is neither declared nor a left side. The items are looked at only
/// where such a name is among the spellings, which are far fewer.
fn undefined_name(
    items: &[Placed<'_>],
    spelled: &Spellings<'_>,
    declared: &Spellings<'_>,
    lefts: &Spellings<'_>,
) -> Option<u32>
    requires { HoldsSpellings spelled.now (items_in items.now) }
    ensures { result ≡ undefined_in declared.now lefts.now items.now }
{
    if has_unknown(spelled, declared, lefts) {
        first_undefined(behind_mark(items), declared, lefts)
    } else {
        None
    }
}

fn is_no_left(lefts: &Spellings<'_>, item: Item<'_>) -> bool
    ensures { result ≡ spec.is_no_left lefts.now (item_of item.entry) }
{
    match spelling_at(item) {
        Some(spelling) => !lefts.has(spelling),
        None => true,
    }
}

/// The offset of the name behind `%start`, where it is no left side.
fn wrong_start(start: Option<Placed<'_>>, lefts: &Spellings<'_>) -> Option<u32>
    ensures { result ≡ spec.wrong_start lefts.now (placed_all (option_to_list start.entry)) }
{
    match start {
        Some(placed) if is_no_left(lefts, placed.item) => Some(placed.at),
        _ => None,
    }
}

/// The first fault that lies in names, but for a second `%start`; `spelled` are the spellings of all items.
pub(crate) fn name_fault(
    start: Option<Placed<'_>>,
    items: &[Placed<'_>],
    spelled: &Spellings<'_>,
    known: &Spellings<'_>,
    lefts: &Spellings<'_>,
) -> Option<YaccError>
    requires { HoldsSpellings spelled.now (items_in items.now) }
    ensures { result ≡ later_fault start.entry items.now known.now lefts.now }
{
    if let Some(at) = first_token_on_left(items, known) {
        return Some(YaccError::TokenOnLeft { at });
    }
    if let Some(at) = undefined_name(items, spelled, known, lefts) {
        return Some(YaccError::Undefined { at });
    }
    match wrong_start(start, lefts) {
        Some(at) => Some(YaccError::StartNotNonterminal { at }),
        None => None,
    }
}
