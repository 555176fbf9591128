// Symbols of the generated rules, and their names.

ghost use Rattle.std.specs.Prelude.{◌≡◌, ◌++◌, ◌∷◌, OnOk, decimal};
ghost use Rattle.cs_gen.specs.Texts as texts;

use itoa::Buffer;
use std::alloc::AllocError;

/// A symbol by its number, from 1.
#[derive(Clone, Copy)]
pub(crate) enum Symbol {
    Token(u8),
    Nonterminal(u8),
}

fn put_numbered(text: &mut Vec<u8>, letter: u8, number: u8) -> Result<(), AllocError>
    ensures { OnOk result (text.new.items ≡ text.old.items ++ (letter ∷ decimal number)) }
{
    text.push(letter)?;
    let mut digits = Buffer::new();
    text.extend_from_slice(digits.format(number).as_bytes())
}

impl Symbol {
    /// Writes the symbol's name behind the text.
    pub fn put(self, text: &mut Vec<u8>) -> Result<(), AllocError>
        ensures { OnOk result (text.new.items ≡ text.old.items ++ texts.name self) }
    {
        match self {
            Symbol::Token(number) => put_numbered(text, b't', number),
            Symbol::Nonterminal(number) => put_numbered(text, b'n', number),
        }
    }

    /// Writes a space and the symbol's name behind the text.
    pub fn put_spaced(self, text: &mut Vec<u8>) -> Result<(), AllocError>
        ensures { OnOk result (text.new.items ≡ text.old.items ++ texts.spaced_name self) }
    {
        text.push(b' ')?;
        self.put(text)
    }
}
