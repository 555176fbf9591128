// A yacc file and a lex file, read, and the lexemes of their tokens.

ghost use Rattle.std.specs.Prelude.{◌≡◌, IfOk, length};

use cs_io::SinkError;
use cs_lex::{LexError, LexFile, read_lex};
use cs_samples::SUMS;
use cs_scanner::{Automaton, AutomatonError, Lexemes, Scanner};
use cs_yacc::{YaccError, YaccFile, read_yacc};
use std::alloc::{AllocError, Global};

/// Why a test has nothing to look at.
#[derive(Debug, Drop)]
pub enum Trouble {
    TooLong,
    Yacc(YaccError),
    Lex(LexError),
    Automaton(AutomatonError),
    Sink(SinkError),
    Memory,
}

impl From<YaccError> for Trouble {
    fn from(error: YaccError) -> Self {
        Trouble::Yacc(error)
    }
}

impl From<LexError> for Trouble {
    fn from(error: LexError) -> Self {
        Trouble::Lex(error)
    }
}

impl From<AutomatonError> for Trouble {
    fn from(error: AutomatonError) -> Self {
        Trouble::Automaton(error)
    }
}

impl From<SinkError> for Trouble {
    fn from(error: SinkError) -> Self {
        Trouble::Sink(error)
    }
}

impl From<AllocError> for Trouble {
    fn from(_error: AllocError) -> Self {
        Trouble::Memory
    }
}

/// Reads a yacc file.
pub fn yacc_of(alloc: Global, bytes: &[u8]) -> Result<YaccFile, Trouble> {
    if bytes.len() > cs_yacc::MOST_BYTES {
        return Err(Trouble::TooLong);
    }
    Ok(read_yacc(alloc, bytes)?)
}

/// The yacc file of sums.
pub fn sums(alloc: Global) -> Result<YaccFile, Trouble> {
    yacc_of(alloc, SUMS)
}

/// Reads a yacc file and a lex file.
pub fn read_files(alloc: Global, yacc: &[u8], lex: &[u8]) -> Result<(YaccFile, LexFile), Trouble> {
    if lex.len() > cs_lex::MOST_BYTES {
        return Err(Trouble::TooLong);
    }
    let yacc = yacc_of(alloc, yacc)?;
    let lex = read_lex(alloc, lex, &yacc)?;
    Ok((yacc, lex))
}

/// The lexemes of a yacc file's tokens by a lex file.
pub fn lexemes_of(alloc: Global, yacc: &YaccFile, lex: &LexFile) -> Result<Lexemes, Trouble>
    ensures each { IfOk result (λ lexemes. length lexemes ≡ yacc.now.grammar.tokens) }
    ensures named { IfOk result (λ lexemes. length lexemes ≡ length yacc.now.token_names) }
{
    let automaton = Automaton::new(alloc, lex.patterns())?;
    let scanner = Scanner {
        automaton: &automaton,
        kinds: lex.kinds(),
        literals: lex.literals(),
    };
    Ok(Lexemes::new(alloc, &scanner, yacc.grammar().tokens())?)
}
