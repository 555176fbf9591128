// Spellings that the items hold, gathered into tables.

ghost use Rattle.std.specs.Prelude.{◌≡◌, ◌+◌, ◌<◌, IfOk, OnOk, length, drop};
ghost use Rattle.std.specs.List.{All};
ghost use Rattle.cs_yacc.specs.Items.Views.{item_of};
ghost use Rattle.cs_yacc.specs.Reading.Meaning as spec;
ghost use Rattle.cs_yacc.specs.Reading.Meaning.{listed, declared_at};
ghost use Rattle.cs_yacc.specs.Reading.Marks.{AreApart, AreWithin, AreMarksOfUsed, MarksAt, AreTokens, used_here};
ghost use Rattle.cs_yacc.specs.Reading.SpellingView.{spelling_of, spellings_in, items_in, and_all};

use crate::items::{Directive, Item, Placed};
use crate::reading::spelled::SpelledRule;
use crate::reading::spelling::{Spelling, Spellings};
use std::alloc::{AllocError, Global};

/// The items behind the index.
pub(crate) fn behind<'i, 'a>(items: &'i [Placed<'a>], index: usize) -> &'i [Placed<'a>]
    requires { index < length items.now }
    ensures { result.now ≡ drop (index + 1) items.now }
{
    &items[index + 1..]
}

/// Whether a colon stands first.
pub(crate) fn begins_with_colon(items: &[Placed<'_>]) -> bool
    ensures { result ≡ spec.begins_with_colon (items_in items.now) }
{
    match items.split_first() {
        Some((first, _)) => matches!(first.item, Item::Colon),
        None => false,
    }
}

pub(crate) fn left_at<'a>(item: Item<'a>, behind: &[Placed<'a>]) -> Option<Spelling<'a>>
    ensures { spellings_in result ≡ spec.left_at (item_of item.entry) (items_in behind.now) }
{
    match item {
        Item::Name(name) if begins_with_colon(behind) => Some(Spelling::Named(name)),
        _ => None,
    }
}

/// The left sides, each once.
pub(crate) fn nonterminals<'a>(
    alloc: Global,
    items: &[Placed<'a>],
) -> Result<Spellings<'a>, AllocError>
    ensures { IfOk result (λ s. s ≡ spec.nonterminals (items_in items.now)) }
{
    let mut spellings = Spellings::new(alloc);
    for (index, placed) in items.iter().enumerate() {
        spellings.add_some(left_at(placed.item, behind(items, index)))?;
    }
    Ok(spellings)
}

fn add_listed<'a>(spellings: &mut Spellings<'a>, items: &[Placed<'a>]) -> Result<(), AllocError>
    ensures { OnOk result
        (spellings.new ≡ and_all spellings.old (spec.listed (items_in items.now))) }
{
    for placed in items {
        match placed.item {
            Item::Name(name) => spellings.add(Spelling::Named(name))?,
            Item::Literal(_) => {}
            _ => return Ok(()),
        }
    }
    Ok(())
}

/// The list of names that the item declares, with what stands behind it; nothing where it declares none.
fn declared_list<'i, 'a>(by: Item<'a>, rest: &'i [Placed<'a>]) -> &'i [Placed<'a>]
    ensures { listed (items_in result.now) ≡ declared_at (item_of by.entry) (items_in rest.now) }
{
    match by {
        Item::Directive(
            Directive::Token
            | Directive::Left
            | Directive::Right
            | Directive::Nonassoc
            | Directive::Precedence,
        ) => rest,
        _ => &rest[rest.len()..],
    }
}

/// The declared tokens and `error`, each once.
pub(crate) fn declared<'a>(alloc: Global, items: &[Placed<'a>]) -> Result<Spellings<'a>, AllocError>
    ensures { IfOk result (λ s. s ≡ spec.declared_tokens (items_in items.now)) }
{
    let mut spellings = Spellings::new(alloc);
    spellings.add(Spelling::Named(b"error"))?;
    for (index, placed) in items.iter().enumerate() {
        add_listed(
            &mut spellings,
            declared_list(placed.item, behind(items, index)),
        )?;
    }
    Ok(spellings)
}

/// Marks the places.
fn mark_all(marks: &mut Vec<bool>, places: &[u32])
    requires { All (λ k. k < length marks.old.items) places.now }
    ensures length { length marks.new.items ≡ length marks.old.items }
    ensures marks { MarksAt marks.old.items marks.new.items places.now }
{
    for place in places {
        marks[*place as usize] = true;
    }
}

/// Marks those of the spellings that stand in the rules' right sides.
pub(crate) fn used(
    alloc: Global,
    words: &Spellings<'_>,
    rules: &[SpelledRule<'_, '_>],
) -> Result<Vec<bool>, AllocError>
    requires apart { AreApart words.now }
    requires within { AreWithin words.now rules.now }
    ensures { IfOk result (λ marks. AreMarksOfUsed marks.items words.now rules.now) }
{
    let mut marks = vec![in alloc; false; words.len()]?;
    for rule in rules {
        mark_all(&mut marks, rule.right);
    }
    Ok(marks)
}

/// The spelling, where it is used and no left side.
fn in_use<'a>(spelling: Spelling<'a>, used: bool, lefts: &Spellings<'a>) -> Option<Spelling<'a>>
    ensures { spellings_in result ≡ used_here used lefts.now (spelling_of spelling.entry) }
{
    if used && !lefts.has(spelling) {
        Some(spelling)
    } else {
        None
    }
}

/// The tokens in use among the spellings, in their order; those that are used are marked.
pub(crate) fn tokens<'a>(
    alloc: Global,
    words: &Spellings<'a>,
    marks: &[bool],
    lefts: &Spellings<'a>,
) -> Result<Spellings<'a>, AllocError>
    requires { length marks.now ≡ length words.now }
    ensures { IfOk result (λ s. AreTokens s marks.now words.now lefts.now) }
{
    let mut spellings = Spellings::new(alloc);
    for (place, spelling) in words.as_slice().iter().enumerate() {
        spellings.add_some(in_use(*spelling, marks[place], lefts))?;
    }
    Ok(spellings)
}
