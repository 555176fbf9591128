// Lists by number.

ghost use Rattle.std.specs.Prelude.{◌≡◌, ◌+◌, ◌<◌, IfOk, OnOk, length};
ghost use Rattle.std.specs.Global.{Vec};
ghost use Rattle.cs_member.specs.Tables.Adding.{IsAdded};
ghost use Rattle.cs_member.specs.Tables.Asked.{AreEmptyLists};

use std::alloc::{AllocError, Global};

// Lists for the numbers up to the last.
pub(crate) fn no_lists<X: Drop>(alloc: Global, last: u16) -> Result<Vec<Vec<X>>, AllocError>
    ensures size { IfOk result (λ lists. length lists.items ≡ last + 1) }
    ensures empty { IfOk result (λ lists. AreEmptyLists lists.items) }
{
    let many = last as usize + 1;
    let mut lists = Vec::with_capacity(alloc, many)?;
    for _ in 0..many {
        lists.push(Vec::new(alloc))?;
    }
    Ok(lists)
}

// Puts an entry last in the list of a number.
pub(crate) fn add_at<X: Drop>(
    lists: &mut Vec<Vec<X>>,
    number: u16,
    entry: X,
) -> Result<(), AllocError>
    requires { number < length lists.old.items }
    ensures { OnOk result (IsAdded number entry lists.old.items lists.new.items) }
{
    lists[number as usize].push(entry)?;
    Ok(())
}
