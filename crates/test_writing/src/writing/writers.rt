// The public calls of `cs_run::writer`, each by itself.

use cs_fan::{Crew, OpenGate};
use cs_io::{Halt, MemorySink};
use cs_manifest::Counts;
use cs_run::{write_rules, write_suite, write_summary};
use cs_sample_files::{Trouble, read_files, yacc_of};
use cs_samples::{LETTER, LETTER_SCANNER, LETTER_SUITE_TWO};
use cs_scanner::{Automaton, Scanner};
use cs_words::Options;
use std::alloc::{AllocError, Global};
use std::test::Fail;
use std::thread::Threads;

// In the form of `rules` these are the lines of `LETTER_SUITE_ONE` without lexemes, texts, pairs and negatives, as
// `docs/FORMATS.md` lays them out.
const LETTER_RULES: &[u8] = b"conform 1 rules
token 1 'x'
rule 1 s : 'x'
goal 1 rule 1 size 2
  derive 1
  tokens 'x'
end goals 1 feasible 1 infeasible 0 large 0 negatives 0
";

// The summary of 1 in `docs/FORMATS.md`; crates/test_command/src/command says where its numbers come from.
const SUMMARY: &[u8] =
    b"gen 1 yacc 1240 lex 378 goals 968 feasible 862 infeasible 106 large 0 negatives 1442 bytes 315463\n";

// An empty output for so many bytes, which takes at most 7 in a call.
fn output(alloc: Global, room: usize) -> Result<MemorySink, AllocError> {
    MemorySink::new(alloc, room, 7, Vec::new(alloc))
}

// What the writer of `rules` answers for the letter, and what it wrote.
fn rules<R: Threads + Sync>(
    rt: &R,
    alloc: Global,
    room: usize,
) -> Result<(Result<(), Halt>, MemorySink), Trouble> {
    let yacc = yacc_of(alloc, LETTER)?;
    let mut out = output(alloc, room)?;
    let answer = write_rules(
        &Crew {
            rt,
            gate: &OpenGate,
        },
        alloc,
        &yacc,
        &mut out,
    );
    Ok((answer, out))
}

// The same of the writer of `suite` by default options, for the letter and its scanner.
fn suite<R: Threads + Sync>(
    rt: &R,
    alloc: Global,
    room: usize,
) -> Result<(Result<Counts, Halt>, MemorySink), Trouble> {
    let (yacc, lex) = read_files(alloc, LETTER, LETTER_SCANNER)?;
    let automaton = Automaton::new(alloc, lex.patterns())?;
    let scanner = Scanner {
        automaton: &automaton,
        kinds: lex.kinds(),
        literals: lex.literals(),
    };
    let mut out = output(alloc, room)?;
    let answer = write_suite(
        &Crew {
            rt,
            gate: &OpenGate,
        },
        alloc,
        &yacc,
        &scanner,
        &Options::defaults(),
        &mut out,
    );
    Ok((answer, out))
}

// The same of the writer of `gen`, for the number 1.
fn summary<R: Threads + Sync>(
    rt: &R,
    alloc: Global,
    room: usize,
) -> Result<(Result<(), Halt>, MemorySink), Trouble> {
    let mut out = output(alloc, room)?;
    let answer = write_summary(
        &Crew {
            rt,
            gate: &OpenGate,
        },
        alloc,
        1,
        &mut out,
    );
    Ok((answer, out))
}

// Whether the output is full of the front of these bytes.
fn is_full_of(out: &MemorySink, room: usize, bytes: &[u8]) -> bool {
    out.written().len() == room && bytes.starts_with(out.written())
}

#[test]
fn the_rules_of_the_letter(rt: HostRuntime) -> Result<(), Fail> {
    let (answer, out) = rules(&rt, rt.alloc(), 999)?;
    assert_eq!(rt; answer, Ok(()));
    assert_eq!(rt; out.written(), LETTER_RULES);
    Ok(())
}

// The last of these rooms lacks one byte.
#[test]
fn no_room_for_rules(rt: HostRuntime) -> Result<(), Fail> {
    for room in [0, 20, 143] {
        let (answer, out) = rules(&rt, rt.alloc(), room)?;
        assert_eq!(rt; answer, Err(Halt::Failed));
        assert!(rt; is_full_of(&out, room, LETTER_RULES), "{room}");
    }
    Ok(())
}

/// The counts of the whole suite of the letter in the second format: those of the page's end line.
pub(crate) fn letter_counts() -> Counts {
    Counts {
        goals: 5,
        feasible: 3,
        infeasible: 2,
        large: 0,
        negatives: 2,
        cases: Some(1),
        bytes: LETTER_SUITE_TWO.len() as u128,
    }
}

#[test]
fn the_suite_of_the_letter(rt: HostRuntime) -> Result<(), Fail> {
    let (answer, out) = suite(&rt, rt.alloc(), 999)?;
    assert_eq!(rt; answer, Ok(letter_counts()));
    assert_eq!(rt; out.written(), LETTER_SUITE_TWO);
    Ok(())
}

// The last of these rooms lacks one byte.
#[test]
fn no_room_for_a_suite(rt: HostRuntime) -> Result<(), Fail> {
    for room in [0, 20, 682] {
        let (answer, out) = suite(&rt, rt.alloc(), room)?;
        assert_eq!(rt; answer, Err(Halt::Failed));
        assert!(rt; is_full_of(&out, room, LETTER_SUITE_TWO), "{room}");
    }
    Ok(())
}

#[test]
fn the_summary_of_one(rt: HostRuntime) -> Result<(), Fail> {
    let (answer, out) = summary(&rt, rt.alloc(), 999)?;
    assert_eq!(rt; answer, Ok(()));
    assert_eq!(rt; out.written(), SUMMARY);
    Ok(())
}

// The last of these rooms lacks one byte.
#[test]
fn no_room_for_a_summary(rt: HostRuntime) -> Result<(), Fail> {
    for room in [0, 20, 97] {
        let (answer, out) = summary(&rt, rt.alloc(), room)?;
        assert_eq!(rt; answer, Err(Halt::Failed));
        assert!(rt; is_full_of(&out, room, SUMMARY), "{room}");
    }
    Ok(())
}
