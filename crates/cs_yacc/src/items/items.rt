// Reading a text item by item.

ghost use Rattle.std.specs.Prelude.{◌≡◌, ◌≤◌, ◌<◌, ◌⊎◌, length};
ghost use Rattle.cs_yacc.specs.Items.Items as spec;
ghost use Rattle.cs_bytes.specs.Limits.{most_bytes};
ghost use Rattle.cs_yacc.specs.Items.Finds.{IsNext};
ghost use Rattle.cs_yacc.specs.Items.Stops.{AnswersItems, IsRead, IsStopped};
ghost use Rattle.cs_yacc.specs.Items.Views.{item_of};

use crate::items::error::ItemsError;
use crate::items::gap::skip_gap;
use crate::items::item::{Front, Item, Placed, front_at};
use cs_ctext::CText;
use std::alloc::Global;

/// What stands behind an offset.
enum Next<'a> {
    Item { placed: Placed<'a>, end: usize },
    End,
    Stop(ItemsError),
}

fn next_item<'a>(text: &mut CText<'a>, from: usize) -> Next<'a>
    requires within { from ≤ length text.old }
    requires short { length text.old ≤ most_bytes }
    ensures next { IsNext text.old from result }
    ensures text { text.new ≡ text.old }
{
    let bytes = text.bytes();
    let offset = skip_gap(bytes, from);
    if offset == bytes.len() {
        return Next::End;
    }
    let at = offset as u32;
    match front_at(text, offset) {
        Front::Item(item, size) => Next::Item {
            placed: Placed { at, item },
            end: offset + size,
        },
        Front::Open => Next::Stop(ItemsError::Unended { at }),
        Front::Unknown => Next::Stop(ItemsError::UnknownDirective { at }),
        Front::Nothing => Next::Stop(ItemsError::BadItem { at }),
    }
}

/// The count of marks behind the item, where so many stand before it.
fn marks_behind(marks: u8, item: Item<'_>) -> u8
    requires { marks < 2 }
    ensures { result ≡ spec.marks_behind marks (item_of item.entry) }
{
    match item {
        Item::Mark => marks + 1,
        _ => marks,
    }
}

/// The items of the bytes, each with the offset of its first byte, through the second mark or to the end.
///
/// The errors come where reading stops before: `Unended` where a comment, prologue or block begins that isn't closed,
/// `UnknownDirective` where a directive of an unknown word begins, `BadItem` where neither does. `Memory` is want of memory.
/// Source: POSIX yacc, the grammar file.
pub fn read_items(alloc: Global, bytes: &[u8]) -> Result<Vec<Placed<'_>>, ItemsError>
    requires { length bytes.now ≤ most_bytes }
    ensures { AnswersItems bytes.now result }
{
    let mut text = CText::new(bytes);
    let mut items = Vec::new(alloc);
    let mut from = 0;
    let mut marks = 0;
    while marks < 2 {
        match next_item(&mut text, from) {
            Next::Item { placed, end } => {
                items.push(placed)?;
                from = end;
                marks = marks_behind(marks, placed.item);
            }
            Next::End => return Ok(items),
            Next::Stop(error) => return Err(error),
        }
    }
    Ok(items)
}

/// Bytes are read into items, or reading stops: a law, which takes no memory.
pub(crate) fn read_or_stopped(bytes: &[u8])
    requires { length bytes.now ≤ most_bytes }
    ensures { IsRead bytes.now ⊎ IsStopped bytes.now }
{
    let mut text = CText::new(bytes);
    let mut from = 0;
    let mut marks = 0;
    while marks < 2 {
        match next_item(&mut text, from) {
            Next::Item { placed, end } => {
                from = end;
                marks = marks_behind(marks, placed.item);
            }
            Next::End => return,
            Next::Stop(_) => return,
        }
    }
}
