// With which nonterminals the rules of each may begin.

ghost use Rattle.std.specs.Prelude.{◌≡◌, ◌≤◌, ◌<◌, ◌+◌, ◌↔◌, [], ℕ, Some, true, All, IfOk, OnOk, length, slice_get};
ghost use Rattle.cs_member.specs.Tables.Sets.{InWords};
ghost use Rattle.cs_member.specs.Tables.Expecting.{AreMarked, AreCorners, AreDescents, IsDescent, IsDescended, IsMarked};
ghost use Rattle.cs_member.specs.Tables.Asked.{HasMarked, MarksIn};

use crate::tables::word::{Word, add, pack, word_of};
use smallvec::SmallVec;
use std::alloc::{AllocError, Global};

// Expects a nonterminal.
fn expect(
    expected: &mut Vec<bool>,
    pending: &mut Vec<u16>,
    nonterminal: u16,
) -> Result<(), AllocError>
    requires marked { AreMarked expected.old.items pending.old.items }
    requires nonterminal { nonterminal < length expected.old.items }
    ensures marked { OnOk result (AreMarked expected.new.items pending.new.items) }
    ensures marks { OnOk result (MarksIn expected.old pending.old expected.new pending.new) }
    ensures is_marked { OnOk result (slice_get expected.new.items nonterminal ≡ Some true) }
{
    if expected[nonterminal as usize] {
        return Ok(());
    }
    expected[nonterminal as usize] = true;
    pending.push(nonterminal)?;
    Ok(())
}

// Expects each of these.
fn expect_each(
    expected: &mut Vec<bool>,
    pending: &mut Vec<u16>,
    nonterminals: &[u16],
) -> Result<(), AllocError>
    requires marked { AreMarked expected.old.items pending.old.items }
    requires nonterminals { All (λ a. a < length expected.old.items) nonterminals.now }
    ensures marked { OnOk result (AreMarked expected.new.items pending.new.items) }
    ensures marks { OnOk result (MarksIn expected.old pending.old expected.new pending.new) }
    ensures are_marked { OnOk result (HasMarked expected.new nonterminals.now) }
{
    for nonterminal in nonterminals {
        expect(expected, pending, *nonterminal)?;
    }
    Ok(())
}

// Expects what the rules of expected nonterminals begin with.
fn expect_corners(
    corners: &[Vec<u16>],
    expected: &mut Vec<bool>,
    pending: &mut Vec<u16>,
) -> Result<(), AllocError>
    requires marked { AreMarked expected.old.items pending.old.items }
    requires corners { AreCorners (length expected.old.items) corners.now }
    ensures marks { OnOk result (MarksIn expected.old pending.old expected.new pending.new) }
    ensures closed { OnOk result (IsDescended corners.now (IsMarked expected.new.items)) }
{
    for number in 0..u32::MAX {
        if number as usize >= pending.len() {
            return Ok(());
        }
        let nonterminal = pending[number as usize];
        expect_each(expected, pending, &corners[nonterminal as usize])?;
    }
    Err(AllocError)
}

fn none_expected(alloc: Global, last: u16) -> Result<Vec<bool>, AllocError>
    ensures size { IfOk result (λ expected. length expected.items ≡ last + 1) }
    ensures none { IfOk result (λ expected. AreMarked expected.items []) }
{
    let many = last as usize + 1;
    let mut expected = Vec::with_capacity(alloc, many)?;
    for _ in 0..many {
        expected.push(false)?;
    }
    Ok(expected)
}

// The numbers of the marks.
fn words_of(alloc: Global, marks: &[bool]) -> Result<SmallVec<Word, 1>, AllocError>
    requires { length marks.now ≤ 65536 }
    ensures { IfOk result (λ words. (n : ℕ) → InWords words.items n ↔ IsMarked marks.now n) }
{
    let mut set = Vec::new(alloc);
    for (number, marked) in marks.iter().enumerate() {
        if *marked {
            add(&mut set, word_of(number as u16))?;
        }
    }
    let words = pack(alloc, &set)?;
    Ok(words)
}

// The nonterminals with which rules of this one may begin, itself among them.
fn descent_of(
    alloc: Global,
    corners: &[Vec<u16>],
    last: u16,
    nonterminal: u16,
) -> Result<SmallVec<Word, 1>, AllocError>
    requires corners { AreCorners (last + 1) corners.now }
    requires nonterminal { nonterminal ≤ last }
    ensures { IfOk result (λ words. IsDescent corners.now nonterminal words.items) }
{
    let mut expected = none_expected(alloc, last)?;
    let mut pending = Vec::new(alloc);
    expect(&mut expected, &mut pending, nonterminal)?;
    expect_corners(corners, &mut expected, &mut pending)?;
    let words = words_of(alloc, &expected)?;
    Ok(words)
}

// By nonterminal: those with which its rules may begin.
pub(crate) fn descents_of(
    alloc: Global,
    corners: &[Vec<u16>],
    last: u16,
) -> Result<Vec<SmallVec<Word, 1>>, AllocError>
    requires { AreCorners (last + 1) corners.now }
    ensures { IfOk result (λ descents. AreDescents (last + 1) corners.now descents.items) }
{
    let mut descents = Vec::with_capacity(alloc, corners.len())?;
    for nonterminal in 0..corners.len() {
        let words = descent_of(alloc, corners, last, nonterminal as u16)?;
        descents.push(words)?;
    }
    Ok(descents)
}
