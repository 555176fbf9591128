// The text of the generated yacc file, drawn and written from its beginning to its end.

ghost use Rattle.std.specs.Prelude.{◌≡◌, ◌++◌, ◌<◌, ◌≤◌, OnOk, IfOk};
ghost use Rattle.cs_gen.specs.Rules as rules;
ghost use Rattle.cs_gen.specs.Texts.{bodies_text, body_text, declaration, first_text, line_of, yacc_text};

use crate::numbers::{NONTERMINALS, Numbers, TOKENS};
use crate::symbol::Symbol;
use std::alloc::{AllocError, Global};

fn put_body(text: &mut Vec<u8>, numbers: &mut Numbers) -> Result<(), AllocError>
    ensures text { OnOk result (text.new.items ≡ text.old.items ++ body_text numbers.old.at) }
    ensures numbers { OnOk result (numbers.new.at ≡ (rules.body numbers.old.at).behind) }
{
    let length = numbers.draw(4);
    for _symbol in 0..length {
        numbers.symbol().put_spaced(text)?;
    }
    Ok(())
}

fn put_alternatives(text: &mut Vec<u8>, numbers: &mut Numbers) -> Result<(), AllocError>
    ensures text { OnOk result (text.new.items ≡ text.old.items ++ bodies_text numbers.old.at) }
    ensures numbers { OnOk result (numbers.new.at ≡ (rules.bodies numbers.old.at).behind) }
{
    let count = numbers.one_of(3);
    for _body in 0..count {
        text.extend_from_slice(b" |")?;
        put_body(text, numbers)?;
    }
    Ok(())
}

fn put_first_body(text: &mut Vec<u8>, left: u8, token: u8) -> Result<(), AllocError>
    requires { left ≤ 40 }
    ensures { OnOk result (text.new.items ≡ text.old.items ++ first_text left token) }
{
    Symbol::Token(token).put_spaced(text)?;
    if left < NONTERMINALS {
        Symbol::Nonterminal(left + 1).put_spaced(text)?;
    }
    Ok(())
}

fn put_line(text: &mut Vec<u8>, left: u8, numbers: &mut Numbers) -> Result<(), AllocError>
    requires { left ≤ 40 }
    ensures text { OnOk result (text.new.items ≡ text.old.items ++ line_of left numbers.old.at) }
    ensures numbers { OnOk result (numbers.new.at ≡ (rules.line left numbers.old.at).behind) }
{
    Symbol::Nonterminal(left).put(text)?;
    text.extend_from_slice(b" :")?;
    let token = numbers.one_of(TOKENS);
    put_first_body(text, left, token)?;
    put_alternatives(text, numbers)?;
    text.extend_from_slice(b" ;\n")?;
    Ok(())
}

fn put_declaration(text: &mut Vec<u8>) -> Result<(), AllocError>
    ensures { OnOk result (text.new.items ≡ text.old.items ++ declaration) }
{
    text.extend_from_slice(b"%token")?;
    for number in 0..TOKENS {
        Symbol::Token(number + 1).put_spaced(text)?;
    }
    text.extend_from_slice(b"\n%%\n")
}

/// The yacc file of the seed.
pub(crate) fn yacc_text(alloc: Global, seed: u64) -> Result<Vec<u8>, AllocError>
    ensures { IfOk result (λ text. text.items ≡ yacc_text seed) }
{
    let mut text = Vec::new(alloc);
    put_declaration(&mut text)?;
    let mut numbers = Numbers::new(seed);
    for number in 0..NONTERMINALS {
        put_line(&mut text, number + 1, &mut numbers)?;
    }
    Ok(text)
}
