// Why files aren't given.

use cs_lex::LexError;
use cs_words::Role;
use cs_yacc::YaccError;

/// Why files are refused, the first cause that applies.
#[derive(Clone, Copy, Debug, PartialEq, Eq)]
pub enum Refusal {
    /// A file has more bytes than are read.
    TooLong(Role),
    /// The yacc file is none.
    OfYacc(YaccError),
    /// The lex file is none.
    OfLex(LexError),
    /// The automaton of the lex file has too many states.
    States,
    /// The grammar has too many chains, so many.
    ManyChains { found: u64 },
    /// The scan of the text stops at this byte.
    TextStops { at: u32 },
    /// The text has too many tokens, so many.
    TextTokens { found: usize },
}

/// Why files aren't given.
#[derive(Clone, Copy, Debug, PartialEq, Eq)]
pub enum Stop {
    /// The file can't be read.
    NoFile(Role),
    Refused(Refusal),
    Memory,
}
