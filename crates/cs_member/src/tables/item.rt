// Items: rules up to a place.

ghost use Rattle.std.specs.Prelude.{◌≡◌, ◌↔◌, ◌<◌, IsTrue};
ghost use Rattle.cs_member.specs.Tables.Item.{IsItem, IsNext, over as item_over};

use cs_grammar::{Grammar, Symbol, place_of};

// A rule and a place in its right side.
#[derive(Clone, Copy, Debug, PartialEq, Eq)]
pub(crate) struct Item {
    pub(crate) rule: u16,
    pub(crate) place: u16,
}

pub(crate) fn same(first: Item, second: Item) -> bool
    ensures { IsTrue result ↔ (first ≡ second) }
{
    first == second
}

// What stands behind the place of an item: a symbol, or nothing, and then the item is done with its rule's left side.
#[derive(Clone, Copy, Debug)]
pub(crate) enum Next {
    Awaited(Symbol),
    Done(u16),
}

pub(crate) fn next_of(grammar: &Grammar, item: Item) -> Next
    requires { IsItem grammar.now item }
    ensures { IsNext grammar.now item result }
{
    let rule = &grammar.rules()[place_of(item.rule)];
    match rule.right().get(item.place as usize) {
        Some(symbol) => Next::Awaited(*symbol),
        None => Next::Done(rule.left()),
    }
}

// The item with the next symbol taken.
pub(crate) fn over(item: Item) -> Item
    requires { item.place < 65535 }
    ensures { result ≡ item_over item }
{
    Item {
        rule: item.rule,
        place: item.place + 1,
    }
}
