// Spellings of symbols, and lists in which each stands once.

ghost use Rattle.std.specs.Prelude.{◌≡◌, ◌+◌, ◌^◌, ◌<◌, [], IfOk, OnOk, Some, length, slice_get};
ghost use Rattle.cs_yacc.specs.Reading.Meaning as spec;
ghost use Rattle.cs_yacc.specs.Reading.Places.{place_in, IsPlace};
ghost use Rattle.cs_yacc.specs.Items.Views.{item_of};
ghost use Rattle.cs_yacc.specs.Reading.SpellingView.{spelling_of, spellings_of, spellings_in, and_one, and_all};

use crate::items::Item;
use cs_grammar::number_of;
use indexmap::IndexSet;
use std::alloc::{AllocError, Global};
use std::hash::{Hash, Hasher};
use std::marker::Model;

/// A name or a byte between quotes, in the bytes of the file.
#[derive(Clone, Copy, Debug, PartialEq, Eq)]
pub(crate) enum Spelling<'a> {
    Named(&'a [u8]),
    Quoted(u8),
}

// In one write, where the derived one would make a write for each byte.
impl<'a> Hash for Spelling<'a> {
    ghost use Rattle.cs_yacc.specs.Reading.SpellingHash.{writes_of, equal_writes};

    ghost hash_input = { writes_of };

    ghost respects_eq = { equal_writes };

    fn hash<H: Hasher>(&self, state: &mut H) {
        match self {
            Spelling::Named(name) => state.write(name),
            Spelling::Quoted(byte) => state.write_u8(*byte),
        }
    }
}

/// The spelling of the item, if it has one.
pub(crate) fn spelling_at(item: Item<'_>) -> Option<Spelling<'_>>
    ensures { spellings_in result ≡ spec.spelling_at (item_of item.entry) }
{
    match item {
        Item::Name(name) => Some(Spelling::Named(name)),
        Item::Literal(byte) => Some(Spelling::Quoted(byte)),
        _ => None,
    }
}

/// The place of an item without a spelling.
const NO_PLACE: u32 = u32::MAX;

/// Spellings, each once, in the order in which they came. Contracts see them as a list of names.
#[derive(Debug, Drop)]
pub(crate) struct Spellings<'a> {
    set: IndexSet<Spelling<'a>>,
}

impl<'a> Model for Spellings<'a> {
    ghost use Rattle.std.specs.Prelude.{List};
    ghost use Rattle.cs_yacc.specs.declared.reading.name.TokenName.{TokenName};

    ghost Value = { List TokenName };

    ghost use Rattle.cs_yacc.specs.Reading.SpellingView.{spellings_of};

    ghost view = { λ s. spellings_of s.set.keys };
}

impl<'a> Spellings<'a> {
    /// No spellings.
    pub fn new(alloc: Global) -> Self
        ensures { result ≡ [] }
    {
        Spellings {
            set: IndexSet::new(alloc),
        }
    }

    /// Puts the spelling last, if it is missing.
    pub fn add(&mut self, spelling: Spelling<'a>) -> Result<(), AllocError>
        ensures { OnOk result (self.new ≡ and_one self.old (spelling_of spelling.entry)) }
    {
        self.set.insert(spelling)?;
        Ok(())
    }

    /// Puts the spelling last, if there is one and it is missing.
    pub fn add_some(&mut self, spelling: Option<Spelling<'a>>) -> Result<(), AllocError>
        ensures { OnOk result (self.new ≡ and_all self.old (spellings_in spelling.entry)) }
    {
        match spelling {
            Some(spelling) => self.add(spelling),
            None => Ok(()),
        }
    }

    /// Puts the spelling last, if it is missing, and answers its place.
    pub fn place(&mut self, spelling: Spelling<'a>) -> Result<u32, AllocError>
        requires { length self.old < 2 ^ 32 }
        ensures words { OnOk result (self.new ≡ and_one self.old (spelling_of spelling.entry)) }
        ensures place { IfOk result (λ k.
            slice_get self.new k ≡ Some (spelling_of spelling.entry)) }
    {
        let (place, _) = self.set.insert_full(spelling)?;
        Ok(place as u32)
    }

    /// Puts the spelling of the item last, if it has one and it is missing, and answers its place.
    pub fn place_of(&mut self, item: Item<'a>) -> Result<u32, AllocError>
        requires { length self.old < 2 ^ 32 }
        ensures words { OnOk result
            (self.new ≡ and_all self.old (spec.spelling_at (item_of item.entry))) }
        ensures place { IfOk result (λ k. IsPlace self.new (item_of item.entry) k) }
    {
        match spelling_at(item) {
            Some(spelling) => self.place(spelling),
            None => Ok(NO_PLACE),
        }
    }

    pub fn has(&self, spelling: Spelling<'_>) -> bool
        ensures { result ≡ spec.has_spelling self.now (spelling_of spelling.entry) }
    {
        self.set.contains(&spelling)
    }

    /// The place of the spelling; the length of the list where it is none of them.
    pub fn find(&self, spelling: Spelling<'_>) -> usize
        ensures { result ≡ place_in self.now (spelling_of spelling.entry) }
    {
        self.set.get_index_of(&spelling).unwrap_or(self.set.len())
    }

    /// The number of the spelling, from 1; one above all where it is none of them.
    pub fn number(&self, spelling: Spelling<'_>) -> u16
        requires { length self.now + 1 < 2 ^ 16 }
        ensures { result ≡ spec.number_in self.now (spelling_of spelling.entry) }
    {
        number_of(self.find(spelling))
    }

    pub fn len(&self) -> usize
        ensures { result ≡ length self.now }
    {
        self.set.len()
    }

    /// The spellings in their order.
    pub fn as_slice(&self) -> &[Spelling<'a>]
        ensures { spellings_of result.now ≡ self.now }
    {
        self.set.as_slice()
    }
}
