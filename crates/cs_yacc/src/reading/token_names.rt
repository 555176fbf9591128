// The names of the tokens, found by number and by spelling.

ghost use Rattle.std.specs.Prelude.{◌≡◌, ◌<◌, ◌^◌, IfOk, IfSome, IfNone, OnOk, length};
ghost use Rattle.cs_yacc.specs.Reading.File.{IsNamed, NoneNamed};
ghost use Rattle.cs_yacc.specs.Reading.TokenNumbers.{FindsWords, FindsBytes, PutsWord, PutsByte};

use crate::reading::name::TokenName;
use cs_grammar::number_of;
use indexmap::IndexMap;
use std::alloc::{AllocError, Global};
use std::marker::Model;

/// The numbers of the tokens that are words, by their bytes.
type Words = IndexMap<Vec<u8>, u16>;

/// The numbers of the tokens that are literals.
type Literals = IndexMap<u8, u16>;

/// The names of the tokens in the order of their numbers, which count from 1. The number of a name is looked up in a table.
#[derive(Debug, Drop)]
pub(crate) struct TokenNames {
    names: Vec<TokenName>,
    words: Words,
    literals: Literals,
}

impl Model for TokenNames {
    ghost use Rattle.std.specs.Prelude.{List, length};
    ghost use Rattle.cs_yacc.specs.declared.reading.name.TokenName.{TokenName};
    ghost use Rattle.cs_yacc.specs.Reading.TokenNumbers.{FindsWords, FindsBytes};

    ghost Value = { List TokenName };

    ghost view = { λ t. t.names.items };

    ghost invariant = { λ t. FindsWords t.words.entries (length t.names.items) t.names.items
        × FindsBytes t.literals.entries (length t.names.items) t.names.items };
}

impl TokenNames {
    /// The names, with the tables of their numbers.
    pub fn new(alloc: Global, names: Vec<TokenName>) -> Result<TokenNames, AllocError>
        requires { length names.items < 2 ^ 16 }
        ensures { IfOk result (λ t. t ≡ names.items) }
    {
        let mut words = IndexMap::new(alloc);
        let mut literals = IndexMap::new(alloc);
        for (index, name) in names.iter().enumerate() {
            put(alloc, &mut words, &mut literals, name, number_of(index))?;
        }
        Ok(TokenNames {
            names,
            words,
            literals,
        })
    }

    /// The names in the order of their numbers.
    pub fn as_slice(&self) -> &[TokenName]
        ensures { result.now ≡ self.now }
    {
        &self.names
    }

    /// The token of the name; `None` where no token has it.
    pub fn word(&self, name: &[u8]) -> Option<u16>
        ensures found { IfSome result (λ t. IsNamed self.now t (TokenName.Word name.now)) }
        ensures none { IfNone result (NoneNamed self.now (TokenName.Word name.now)) }
    {
        self.words.get(name).copied()
    }

    /// The token of the literal; `None` where no token has it.
    pub fn literal(&self, byte: u8) -> Option<u16>
        ensures found { IfSome result (λ t. IsNamed self.now t (TokenName.Byte byte)) }
        ensures none { IfNone result (NoneNamed self.now (TokenName.Byte byte)) }
    {
        self.literals.get(&byte).copied()
    }
}

/// Puts the number at the name, in the table of its kind.
fn put(
    alloc: Global,
    words: &mut Words,
    literals: &mut Literals,
    name: &TokenName,
    number: u16,
) -> Result<(), AllocError>
    ensures words { OnOk result (PutsWord words.new.entries words.old.entries name.now number) }
    ensures bytes { OnOk result
        (PutsByte literals.new.entries literals.old.entries name.now number) }
{
    match name {
        TokenName::Word(word) => words.insert(Vec::from_slice(alloc, word.bytes())?, number)?,
        TokenName::Byte(byte) => literals.insert(*byte, number)?,
    };
    Ok(())
}
