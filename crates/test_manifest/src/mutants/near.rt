//! The lists of tokens that are near a list.

ghost use Rattle.std.specs.Prelude.{◌≤◌, length};

use std::alloc::{AllocError, Global};

// Puts the list with each of the tokens behind it.
fn put_longer(
    alloc: Global,
    lists: &mut Vec<Vec<u16>>,
    list: &[u16],
    most: u16,
) -> Result<(), AllocError> {
    for token in 1..=most {
        let mut longer = Vec::new(alloc);
        longer.extend_from_slice(list)?;
        longer.push(token)?;
        lists.push(longer)?;
    }
    Ok(())
}

// The lists of at most two of the tokens.
fn short_lists(alloc: Global, most: u16) -> Result<Vec<Vec<u16>>, AllocError> {
    let mut lists = Vec::new(alloc);
    lists.push(Vec::new(alloc))?;
    put_longer(alloc, &mut lists, &[], most)?;
    for token in 1..=most {
        put_longer(alloc, &mut lists, &[token], most)?;
    }
    Ok(lists)
}

// Puts the lists with each of these between the front and the back.
fn put_between(
    alloc: Global,
    lists: &mut Vec<Vec<u16>>,
    front: &[u16],
    between: &[Vec<u16>],
    back: &[u16],
) -> Result<(), AllocError> {
    for list in between {
        let mut whole = Vec::new(alloc);
        whole.extend_from_slice(front)?;
        whole.extend_from_slice(list)?;
        whole.extend_from_slice(back)?;
        lists.push(whole)?;
    }
    Ok(())
}

// Puts the lists with each of these at the place, where at most two tokens go.
fn put_at(
    alloc: Global,
    lists: &mut Vec<Vec<u16>>,
    tokens: &[u16],
    place: usize,
    between: &[Vec<u16>],
) -> Result<(), AllocError>
    requires { place ≤ length tokens.now }
{
    let (front, behind) = tokens.split_at(place);
    for gone in 0..=behind.len().min(2) {
        put_between(alloc, lists, front, between, &behind[gone..])?;
    }
    Ok(())
}

/// The lists that the list becomes by taking out and putting in tokens at a place, at most two each.
pub(crate) fn near_lists(
    alloc: Global,
    tokens: &[u16],
    most: u16,
) -> Result<Vec<Vec<u16>>, AllocError> {
    let between = short_lists(alloc, most)?;
    let mut lists = Vec::new(alloc);
    for place in 0..=tokens.len() {
        put_at(alloc, &mut lists, tokens, place, &between)?;
    }
    Ok(lists)
}
