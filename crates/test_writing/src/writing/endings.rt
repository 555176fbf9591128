// The statuses and the lines of endings, as `docs/FORMATS.md` has them.

ghost use Rattle.std.specs.Prelude.{IsTrue};
ghost use Rattle.cs_run.specs.Ending.Ending.{HasLine};

use cs_io::{Halt, MemorySink};
use cs_lex::LexError;
use cs_run::{Ending, Refusal, finish};
use cs_words::Role;
use cs_yacc::{YaccError, YaccLimit};
use std::alloc::{AllocError, Global};
use std::test::Fail;

// Want of memory while a file is read is no refusal of it.
fn has_line(ending: Ending) -> bool
    ensures { IsTrue result → HasLine ending }
{
    match ending {
        Ending::Refused(Refusal::OfYacc(error)) => error != YaccError::Memory,
        Ending::Refused(Refusal::OfLex(error)) => error != LexError::Memory,
        _ => true,
    }
}

// An output with so much room takes the front of the line.
fn ends_so(
    alloc: Global,
    ending: Ending,
    room: usize,
    status: u8,
    line: &[u8],
) -> Result<bool, AllocError> {
    let mut err = MemorySink::new(alloc, room, 5, Vec::new(alloc))?;
    if !has_line(ending) {
        return Ok(false);
    }
    let ended = finish(alloc, ending, &mut err);
    Ok(ended == status && err.written() == line)
}

const LIMIT: YaccError = YaccError::Limit {
    which: YaccLimit::Rules,
    found: 8_193,
    most: 8_192,
};

const REFUSALS: &[(Refusal, &[u8])] = &[
    (
        Refusal::TooLong(Role::Yacc),
        b"conform: yacc: Length above 1048576\n",
    ),
    (
        Refusal::OfYacc(YaccError::Syntax { at: 12 }),
        b"conform: yacc: Syntax at 12\n",
    ),
    (
        Refusal::OfYacc(LIMIT),
        b"conform: yacc: Limit Rules 8193 of 8192\n",
    ),
    (
        Refusal::OfLex(LexError::NoRules),
        b"conform: lex: NoRules\n",
    ),
    (Refusal::States, b"conform: lex: States above 16384\n"),
    (
        Refusal::TooLong(Role::Text),
        b"conform: text: Length above 65536\n",
    ),
    (
        Refusal::TooLong(Role::Manifest),
        b"conform: manifest: Length above 67108864\n",
    ),
    (Refusal::TextStops { at: 2 }, b"conform: text: Stops at 2\n"),
    (
        Refusal::TextTokens { found: 2_001 },
        b"conform: text: Tokens 2001 of 2000\n",
    ),
    (
        Refusal::ManyChains { found: 1_000_001 },
        b"conform: chains: Limit Goals 1000001 of 1000000\n",
    ),
];

#[test]
fn lines_of_refusals(rt: HostRuntime) -> Result<(), Fail> {
    for &(refusal, line) in REFUSALS {
        let ending = Ending::Refused(refusal);
        assert!(rt; ends_so(rt.alloc(), ending, 99, 1, line)?, "{ending:?}");
    }
    Ok(())
}

// Endings, how much room their output has, the status, and what it gets. The last two outputs are too small for the line: the
// status is the same.
const ENDINGS: &[(Ending, usize, u8, &[u8])] = &[
    (Ending::Written, 99, 0, b""),
    (
        Ending::BadWord { at: 3 },
        99,
        2,
        b"conform: usage: word 3\n",
    ),
    (
        Ending::NoFile(Role::Yacc),
        99,
        3,
        b"conform: read fault: yacc\n",
    ),
    (
        Ending::NoFile(Role::Lex),
        99,
        3,
        b"conform: read fault: lex\n",
    ),
    (
        Ending::NoFile(Role::Manifest),
        99,
        3,
        b"conform: read fault: manifest\n",
    ),
    (
        Ending::Halted(Halt::Failed),
        99,
        4,
        b"conform: write fault\n",
    ),
    (
        Ending::Halted(Halt::Memory),
        99,
        5,
        b"conform: out of memory\n",
    ),
    (Ending::Halted(Halt::Failed), 7, 4, b"conform"),
    (Ending::Halted(Halt::Failed), 0, 4, b""),
    (Ending::Denied, 0, 6, b""),
];

#[test]
fn statuses_and_lines(rt: HostRuntime) -> Result<(), Fail> {
    for &(ending, room, status, line) in ENDINGS {
        assert!(rt;
            ends_so(rt.alloc(), ending, room, status, line)?,
            "{ending:?}"
        );
    }
    Ok(())
}
