// Edits of a list of tokens, and their results.

ghost use Rattle.std.specs.Prelude.{◌≡◌, ◌↔◌, ◌+◌, ◌≤◌, IsTrue, IfOk, OnOk, length};
ghost use Rattle.cs_mutate.specs.Edit.{IsPlaced, Fits, patched, edited};

use std::alloc::{AllocError, Global};

/// A change of a list of tokens at a place, counted from 0.
#[derive(Clone, Copy, Debug, PartialEq, Eq)]
pub enum Edit {
    /// The token at the place goes.
    Delete(u32),
    /// A token comes in front of the place, which may be the end.
    Insert(u32, u16),
    /// A token comes in place of the one there.
    Replace(u32, u16),
    /// The token there and the next change places.
    Swap(u32),
}

/// Whether an edit's place is one of a list of that length, and its token one of so many.
pub fn edit_fits(length: u32, tokens: u16, edit: &Edit) -> bool
    ensures { IsTrue result ↔ Fits length tokens edit.now }
{
    match *edit {
        Edit::Delete(place) => place < length,
        Edit::Insert(place, token) => place <= length && 0 < token && token <= tokens,
        Edit::Replace(place, token) => place < length && 0 < token && token <= tokens,
        Edit::Swap(place) => place < length.saturating_sub(1),
    }
}

/// The edited list. The edit's place is one of the list's; want of memory alone is an error.
pub fn apply(alloc: Global, base: &[u16], edit: &Edit) -> Result<Vec<u16>, AllocError>
    requires { IsPlaced (length base.now) edit.now }
    ensures { IfOk result (λ list. list.items ≡ edited base.now edit.now) }
{
    let mut list = Vec::with_capacity(alloc, base.len() + 1)?;
    apply_into(&mut list, base, edit)?;
    Ok(list)
}

/// Puts the edited list in place of what another holds. After a refusal, which is want of memory, nothing of use stands there.
pub fn apply_into(list: &mut Vec<u16>, base: &[u16], edit: &Edit) -> Result<(), AllocError>
    requires { IsPlaced (length base.now) edit.now }
    ensures { OnOk result (list.new.items ≡ edited base.now edit.now) }
{
    match *edit {
        Edit::Delete(place) => patch(list, base, place as usize, &[], 1),
        Edit::Insert(place, token) => patch(list, base, place as usize, &[token], 0),
        Edit::Replace(place, token) => patch(list, base, place as usize, &[token], 1),
        Edit::Swap(place) => {
            let at = place as usize;
            patch(list, base, at, &[base[at + 1], base[at]], 2)
        }
    }
}

// Puts the base with other tokens in place of so many from a place on.
fn patch(
    list: &mut Vec<u16>,
    base: &[u16],
    place: usize,
    put: &[u16],
    gone: usize,
) -> Result<(), AllocError>
    requires { place + gone ≤ length base.now }
    ensures { OnOk result (list.new.items ≡ patched base.now place put.now gone) }
{
    list.clear();
    list.extend_from_slice(&base[..place])?;
    list.extend_from_slice(put)?;
    list.extend_from_slice(&base[place + gone..])?;
    Ok(())
}
