// The text of the generated lex file, which is the same for each seed.

ghost use Rattle.std.specs.Prelude.{◌≡◌, ◌++◌, OnOk, IfOk};
ghost use Rattle.cs_gen.specs.Texts as texts;

use crate::numbers::TOKENS;
use crate::symbol::Symbol;
use std::alloc::{AllocError, Global};

fn put_token_rule(text: &mut Vec<u8>, number: u8) -> Result<(), AllocError>
    ensures { OnOk result (text.new.items ≡ text.old.items ++ texts.token_rule number) }
{
    let token = Symbol::Token(number);
    token.put(text)?;
    text.extend_from_slice(b" return ")?;
    token.put(text)?;
    text.extend_from_slice(b";\n")
}

/// The lex file.
pub(crate) fn lex_text(alloc: Global) -> Result<Vec<u8>, AllocError>
    ensures { IfOk result (λ text. text.items ≡ texts.lex_text) }
{
    let mut text = Vec::from_slice(alloc, b"%%\n")?;
    for number in 0..TOKENS {
        put_token_rule(&mut text, number + 1)?;
    }
    text.extend_from_slice(b"[ \\n]+ ;\n")?;
    Ok(text)
}
