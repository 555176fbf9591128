// What an edit makes of a list of tokens.

ghost use Rattle.std.specs.Prelude.{◌≡◌, ◌+◌, ◌≤◌, ℕ, OnOk, length};
ghost use Rattle.cs_lines.specs.Words.Edits.{patched};
ghost use Rattle.cs_lines.specs.Lines.Numbers.{IsRead};
ghost use Rattle.cs_check.specs.Checking.Edits.{IsBelow, DeletesAt, InsertsAt, ReplacesAt, SwapsAt, EditsTold};

use crate::checking::finding::look_up_token;
use cs_yacc::YaccFile;
use std::alloc::AllocError;

// The tokens before a place, others, and the tokens from another place on.
fn patch(
    base: &[u16],
    place: usize,
    put: &[u16],
    gone: usize,
    edited: &mut Vec<u16>,
) -> Result<(), AllocError>
    requires { place + gone ≤ length base.now }
    ensures { OnOk result (edited.new.items ≡ patched base.now place put.now gone) }
{
    edited.truncate(0);
    edited.extend_from_slice(&base[..place])?;
    edited.extend_from_slice(put)?;
    edited.extend_from_slice(&base[place + gone..])?;
    Ok(())
}

/// The place, where it is below that.
pub(crate) fn below(place: u64, end: usize) -> Option<usize>
    ensures { (n : ℕ) → IsRead n place → IsBelow n end result }
{
    if place < end as u64 {
        Some(place as usize)
    } else {
        None
    }
}

fn delete(base: &[u16], at: u64, edited: &mut Vec<u16>) -> Result<bool, AllocError>
    ensures { DeletesAt at base.now edited.new.items result }
{
    let Some(place) = below(at, base.len()) else {
        return Ok(false);
    };
    patch(base, place, &[], 1, edited)?;
    Ok(true)
}

fn insert(
    file: &YaccFile,
    base: &[u16],
    at: u64,
    name: &[u8],
    edited: &mut Vec<u16>,
) -> Result<bool, AllocError>
    ensures { InsertsAt file.now at name.now base.now edited.new.items result }
{
    let Some(place) = below(at, base.len() + 1) else {
        return Ok(false);
    };
    let Some(token) = look_up_token(file, name) else {
        return Ok(false);
    };
    patch(base, place, &[token], 0, edited)?;
    Ok(true)
}

fn replace(
    file: &YaccFile,
    base: &[u16],
    at: u64,
    name: &[u8],
    edited: &mut Vec<u16>,
) -> Result<bool, AllocError>
    ensures { ReplacesAt file.now at name.now base.now edited.new.items result }
{
    let Some(place) = below(at, base.len()) else {
        return Ok(false);
    };
    let Some(token) = look_up_token(file, name) else {
        return Ok(false);
    };
    patch(base, place, &[token], 1, edited)?;
    Ok(true)
}

fn swap(base: &[u16], at: u64, edited: &mut Vec<u16>) -> Result<bool, AllocError>
    ensures { SwapsAt at base.now edited.new.items result }
{
    let Some(place) = below(at, base.len()) else {
        return Ok(false);
    };
    if place + 1 == base.len() {
        return Ok(false);
    }
    let pair = [base[place + 1], base[place]];
    patch(base, place, &pair, 2, edited)?;
    Ok(true)
}

/// Makes the result of an edit of the list; false where it doesn't fit.
pub(crate) fn edit_into(
    file: &YaccFile,
    base: &[u16],
    edit: cs_lines::EditWords<'_>,
    edited: &mut Vec<u16>,
) -> Result<bool, AllocError>
    ensures { EditsTold file.now edit.entry base.now edited.new.items result }
{
    match edit {
        cs_lines::EditWords::Delete(at) => delete(base, at, edited),
        cs_lines::EditWords::Insert(at, name) => insert(file, base, at, name, edited),
        cs_lines::EditWords::Replace(at, name) => replace(file, base, at, name, edited),
        cs_lines::EditWords::Swap(at) => swap(base, at, edited),
    }
}
