// Makes the two files of a number.

ghost use Rattle.std.specs.Prelude.{◌≡◌, ◌≤◌, IfOk, length};
ghost use Rattle.cs_yacc.specs.Reading.Reading.{IsAccepted};
ghost use Rattle.cs_bytes.specs.Limits.{most_bytes};
ghost use Rattle.cs_gen.specs.Boundary.{IsAcceptedBesideAll, HasFewSets};
ghost use Rattle.cs_gen.specs.Texts as texts;

use crate::lex::lex_text;
use crate::yacc::yacc_text;
use std::alloc::{AllocError, Global};

/// The two files of a number.
#[derive(Drop)]
pub struct Generated {
    pub yacc: Vec<u8>,
    pub lex: Vec<u8>,
}

/// Makes a yacc file of 24 tokens and 40 nonterminals, and a lex file that has a rule for each token. The seed tells every
/// byte: the same number gives the same files on each machine.
pub fn make(alloc: Global, seed: u64) -> Result<Generated, AllocError>
    ensures yacc { IfOk result (λ files. files.yacc.items ≡ texts.yacc_text seed) }
    ensures lex { IfOk result (λ files. files.lex.items ≡ texts.lex_text) }
    ensures short_yacc { IfOk result (λ files. length files.yacc.items ≤ most_bytes) }
    ensures short_lex { IfOk result (λ files. length files.lex.items ≤ most_bytes) }
    ensures yacc_accepted { IfOk result (λ files. IsAccepted files.yacc.items) }
    ensures lex_accepted { IfOk result (λ files. IsAcceptedBesideAll files.lex.items) }
    ensures few_sets { IfOk result (λ files. HasFewSets files.lex.items) }
{
    let yacc = yacc_text(alloc, seed)?;
    let lex = lex_text(alloc)?;
    Ok(Generated { yacc, lex })
}
