// The text of `check`: what is expected was written by hand from the page on formats. And an output that fails.

use crate::checking::{LEX, YACC, manifest_with};
use cs_check_text::write_check;
use cs_io::{Halt, MemorySink};
use cs_sample_files::{Trouble, read_files};
use cs_scanner::{Automaton, Scanner};
use std::alloc::Global;
use std::test::Fail;

// The number of a line, another text of that line, whether the manifest passes then, and what is written.
const TEXTS: &[(usize, &[u8], bool, &[u8])] = &[
    (0, b"", true, b"yes goals 7 negatives 1\n"),
    (36, b"", false, b"no line 36: Form\n"),
    (3, b"token 1 'y'\n", false, b"no line 3: Head\n"),
    (20, b"  text \"y\"\n", false, b"no line 20: Scan\n"),
    (32, b"base 1 goal 6\n", false, b"no line 32: Base\n"),
];

// Writes the text of the manifest with another text of one line. None where a write failed.
fn written(
    alloc: Global,
    number: usize,
    text: &[u8],
    sink: &mut MemorySink,
) -> Result<Option<bool>, Trouble> {
    let (yacc, lex) = read_files(alloc, YACC, LEX)?;
    let manifest = manifest_with(alloc, number, text)?;
    if manifest.len() > 67_108_864 {
        return Err(Trouble::TooLong);
    }
    let automaton = Automaton::new(alloc, lex.patterns())?;
    let scanner = Scanner {
        automaton: &automaton,
        kinds: lex.kinds(),
        literals: lex.literals(),
    };
    match write_check(alloc, &yacc, &scanner, &manifest, sink) {
        Ok(passes) => Ok(Some(passes)),
        Err(Halt::Failed) => Ok(None),
        Err(Halt::Memory) => Err(Trouble::Memory),
    }
}

#[test]
fn texts_of_manifests(rt: HostRuntime) -> Result<(), Fail> {
    let alloc = rt.alloc();
    for &(number, text, passes, want) in TEXTS {
        let mut sink = MemorySink::new(alloc, want.len(), 7, Vec::new(alloc))?;
        let answer = written(alloc, number, text, &mut sink)?;
        assert_eq!(rt; answer, Some(passes));
        assert_eq!(rt; sink.written(), want);
    }
    Ok(())
}

// Room for one byte too few.
#[test]
fn writes_that_fail(rt: HostRuntime) -> Result<(), Fail> {
    let alloc = rt.alloc();
    for &(number, text, _, want) in TEXTS {
        let room = want.len() - 1;
        let mut sink = MemorySink::new(alloc, room, 7, Vec::new(alloc))?;
        let answer = written(alloc, number, text, &mut sink)?;
        assert_eq!(rt; answer, None);
        assert_eq!(rt; sink.written(), &want[..room]);
    }
    Ok(())
}
