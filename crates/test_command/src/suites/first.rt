// Suites of the first format, and how suites end, by `run`: what is expected was worked by hand from the definitions, as
// docs/FORMATS.md lays them out.

use crate::suites::ending::{Ended, Files, suite, written};
use cs_io::MemorySink;
use cs_samples::{LETTER, LETTER_SCANNER, LETTER_SUITE_ONE, NUMBER, SCANNER, SUMS};
use std::alloc::{AllocError, Global};
use std::test::Fail;
use std::thread::Threads;

// The second base of sums, and its first negatives.
const SECOND_BASE: &[u8] = b"base 2 goal 2
negative 24 base 2 delete 0 pair <begin> <end> at 0
  tokens
  text \"\"
negative 25 base 2 insert 0 NUM pair NUM NUM at 1
  tokens NUM NUM
  text \"0 0\"
";

// All mutants of two letters and a third, by deleting and exchanging.
const SMALL_MUTANTS: &[u8] = b"base 1 goal 1
negative 1 base 1 delete 2 pair 'x' <end> at 2
  tokens 'x' 'x'
  text \"x x\"
negative 2 base 1 swap 1 pair 'y' 'x' at 2
  tokens 'x' 'y' 'x'
  text \"x y x\"
";

// Whether the part stands in the text.
fn has(text: &[u8], part: &[u8]) -> bool {
    for at in 0..text.len() {
        if text[at..].starts_with(part) {
            return true;
        }
    }
    false
}

// Whether the text has the part and the end.
fn has_both(text: &[u8], part: &[u8], end: &[u8]) -> bool {
    text.starts_with(b"conform 1 suite\n") && has(text, part) && text.ends_with(end)
}

// A yacc file, a lex file, two options, a part of the output, and its end.
type Row = (
    &'static [u8],
    &'static [u8],
    [&'static str; 2],
    &'static [u8],
    &'static [u8],
);

// Whether the suite of the first format has the part and the end.
fn is_written<R: Threads + Sync>(rt: &R, alloc: Global, row: Row) -> Result<bool, AllocError> {
    let (yacc, lex, [first, second], part, end) = row;
    match written(rt, alloc, yacc, lex, &[first, second, "--format=1"])? {
        Some(text) => Ok(has_both(text.written(), part, end)),
        None => Ok(false),
    }
}

const NONE: &str = "--mutate=none";

const UNUSED: &[u8] = b"%token NUM\n%%\ne : e '+' t | t ;\nt : NUM | '(' e ')' ;\nu : u 'x' ;\n";

const KEYWORDS: &[u8] = b"%token IF ID\n%%\ns : IF | ID ;\n";

const NESTED: &[u8] = b"goal 24 pair ')' ')' size 11
  derive 2 4 2 4 2 3
  tokens '(' '(' NUM ')' ')'
  text \"( ( 0 ) )\"
";

const NO_KEYWORD: &[u8] = b"lexeme IF none
lexeme ID \"a\"
goal 1 rule 1 size 2
  derive 1
  tokens IF
  no text lexeme IF
";

const SUITES: [Row; 9] = [
    (
        SUMS,
        SCANNER,
        [NONE, "--criteria=cdrc"],
        b"goal 1 context 1 1 1 size 11\n  derive 1 1 2 3 3 3\n",
        b"end goals 8 feasible 8 infeasible 0 large 0 negatives 0\n",
    ),
    (
        SUMS,
        SCANNER,
        [NONE, "--criteria=pair"],
        NESTED,
        b"end goals 25 feasible 12 infeasible 13 large 0 negatives 0\n",
    ),
    (
        SUMS,
        SCANNER,
        [NONE, "--criteria=rule"],
        b"goal 1 rule 1 size 7\n  derive 1 2 3 3\n  tokens NUM '+' NUM\n  text \"0 + 0\"\n",
        b"end goals 4 feasible 4 infeasible 0 large 0 negatives 0\n",
    ),
    (
        SUMS,
        SCANNER,
        [NONE, "--separator="],
        b"tokens NUM '+' NUM\n  text \"0+0\"\n",
        b"end goals 37 feasible 24 infeasible 13 large 0 negatives 0\n",
    ),
    (
        UNUSED,
        SCANNER,
        [NONE, "--bases=0"],
        b"lexeme 'x' none\n",
        b"end goals 50 feasible 24 infeasible 26 large 0 negatives 0\n",
    ),
    (
        b"%%\ns : s 'x' ;\n",
        LETTER_SCANNER,
        [NONE, "--bases=3"],
        b"goal 1 rule 1 infeasible\n",
        b"end goals 6 feasible 0 infeasible 6 large 0 negatives 0\n",
    ),
    (
        KEYWORDS,
        b"%%\n[a-z]+ return ID;\nif return IF;\n",
        [NONE, "--criteria=rule"],
        NO_KEYWORD,
        b"end goals 2 feasible 2 infeasible 0 large 0 negatives 0\n",
    ),
    (
        KEYWORDS,
        b"%%\nif return IF;\n[a-z]+ return ID;\n",
        [NONE, "--criteria=rule"],
        b"lexeme IF \"if\"\nlexeme ID \"a\"\n",
        b"end goals 2 feasible 2 infeasible 0 large 0 negatives 0\n",
    ),
    (
        NUMBER,
        b"%%\n(a|b)*a(a|b){13} return NUM;\n",
        [NONE, "--criteria=rule"],
        b"lexeme NUM \"aaaaaaaaaaaaaa\"\n",
        b"end goals 1 feasible 1 infeasible 0 large 0 negatives 0\n",
    ),
];

#[test]
fn suites_of_files(rt: HostRuntime) -> Result<(), Fail> {
    for row in SUITES {
        assert!(rt; is_written(&rt, rt.alloc(), row)?);
    }
    Ok(())
}

const ONE_MUTANT: &[u8] = b"base 1 goal 1
negative 1 base 1 insert 0 'x' pair <begin> 'x' at 0
  tokens 'x'
  text \"x\"
";

const MUTANTS: [Row; 9] = [
    (
        LETTER,
        LETTER_SCANNER,
        ["", ""],
        LETTER_SUITE_ONE,
        LETTER_SUITE_ONE,
    ),
    (
        LETTER,
        LETTER_SCANNER,
        ["--mutate=insert,delete", ""],
        LETTER_SUITE_ONE,
        LETTER_SUITE_ONE,
    ),
    (
        LETTER,
        LETTER_SCANNER,
        ["--mutate=swap,replace", ""],
        b"base 1 goal 1\n",
        b"end goals 5 feasible 3 infeasible 2 large 0 negatives 0\n",
    ),
    (
        SUMS,
        SCANNER,
        ["--criteria=rule", "--bases=2"],
        SECOND_BASE,
        b"end goals 4 feasible 4 infeasible 0 large 0 negatives 32\n",
    ),
    (
        SUMS,
        SCANNER,
        ["--criteria=rule", "--bases=0"],
        b"goal 4 rule 4",
        b"  text \"( 0 )\"\nend goals 4 feasible 4 infeasible 0 large 0 negatives 0\n",
    ),
    (
        b"%%\ns : 'x' 'x' ;\n",
        b"%%\n[xyz] return yytext[0];\n",
        ["--criteria=rule", ""],
        b"base 1 goal 1\n",
        b"end goals 1 feasible 1 infeasible 0 large 0 negatives 0\n",
    ),
    (
        b"%%\ns : s 'x' ;\n",
        LETTER_SCANNER,
        ["", ""],
        b"goal 6 pair 'x' <end> infeasible\n",
        b"infeasible\nend goals 6 feasible 0 infeasible 6 large 0 negatives 0\n",
    ),
    (
        b"%%\ns : ;\nt : 'x' ;\n",
        LETTER_SCANNER,
        ["--criteria=rule", ""],
        ONE_MUTANT,
        b"end goals 2 feasible 1 infeasible 1 large 0 negatives 1\n",
    ),
    (
        b"%%\ns : 'x' 'x' 'y' ;\n",
        b"%%\n[xy] return yytext[0];\n[ ]+ ;\n",
        ["--criteria=rule", "--mutate=delete,swap"],
        SMALL_MUTANTS,
        b"end goals 1 feasible 1 infeasible 0 large 0 negatives 2\n",
    ),
];

#[test]
fn mutants_of_bases(rt: HostRuntime) -> Result<(), Fail> {
    for row in MUTANTS {
        assert!(rt; is_written(&rt, rt.alloc(), row)?);
    }
    Ok(())
}

// Whether the run without mutants ends with this status and line, and writes nothing.
fn is_refused<R: Threads + Sync>(
    rt: &R,
    alloc: Global,
    files: Files<'_>,
    option: &str,
    status: u8,
    said: &[u8],
) -> Result<bool, AllocError> {
    let out = MemorySink::new(alloc, 9, 9, Vec::new(alloc))?;
    let ended = suite(rt, alloc, files, &[NONE, option], out)?;
    let is_told = ended.err.written() == said;
    Ok(ended.status == status && ended.out.written().is_empty() && is_told)
}

// A yacc file, a lex file, an option, the status, and the line on the error output.
type Ending = (
    Option<&'static [u8]>,
    Option<&'static [u8]>,
    &'static str,
    u8,
    &'static [u8],
);

const ENDINGS: [Ending; 7] = [
    (
        Some(b""),
        None,
        "--bases=1",
        3,
        b"conform: read fault: lex\n",
    ),
    (
        None,
        Some(b""),
        "--bases=1",
        3,
        b"conform: read fault: yacc\n",
    ),
    (
        Some(b""),
        Some(b""),
        "--bases=1",
        1,
        b"conform: yacc: Syntax at 0\n",
    ),
    (
        Some(SUMS),
        Some(b"%%\nab/cd return NUM;\n"),
        "--bases=1",
        1,
        b"conform: lex: Pattern at 3: Trailing at 2\n",
    ),
    (None, None, "--bases=1001", 2, b"conform: usage: word 4\n"),
    (None, None, "--mutate=none", 2, b"conform: usage: word 4\n"),
    (
        None,
        None,
        "--criteria=rule,rule",
        2,
        b"conform: usage: word 4\n",
    ),
];

#[test]
fn other_endings_in_their_order(rt: HostRuntime) -> Result<(), Fail> {
    for (yacc, lex, option, status, said) in ENDINGS {
        let is_told = is_refused(&rt, rt.alloc(), (yacc, lex), option, status, said)?;
        assert!(rt; is_told);
    }
    Ok(())
}

#[test]
fn files_that_are_too_long(rt: HostRuntime) -> Result<(), Fail> {
    let long = vec![in rt.alloc(); b' '; 1_048_577]?;
    let empty: &[u8] = b"";
    let rows: [(Files<'_>, &[u8]); 2] = [
        (
            (Some(empty), Some(&long)),
            b"conform: lex: Length above 1048576\n",
        ),
        (
            (Some(&long), Some(empty)),
            b"conform: yacc: Length above 1048576\n",
        ),
    ];
    for (files, said) in rows {
        assert!(rt; is_refused(&rt, rt.alloc(), files, "--bases=1", 1, said)?);
    }
    Ok(())
}

// The suite of sums by an option, written in short pieces, and the status of its run.
fn suite_of_sums<R: Threads + Sync>(
    rt: &R,
    alloc: Global,
    option: &str,
) -> Result<(u8, MemorySink), AllocError> {
    let out = MemorySink::new(alloc, 100_000, 7, Vec::new(alloc))?;
    let options = [NONE, option, "--format=1"];
    let ended = suite(rt, alloc, (Some(SUMS), Some(SCANNER)), &options, out)?;
    let Ended { status, out, .. } = ended;
    Ok((status, out))
}

#[test]
fn criteria_in_another_order_give_the_same(rt: HostRuntime) -> Result<(), Fail> {
    let (first, one) = suite_of_sums(&rt, rt.alloc(), "--criteria=rule,cdrc,pair")?;
    assert!(rt; first == 0);
    for option in ["--criteria=pair,rule,cdrc", "--criteria=cdrc,pair,rule"] {
        let (status, other) = suite_of_sums(&rt, rt.alloc(), option)?;
        assert!(rt; status == 0 && other.written() == one.written());
    }
    Ok(())
}
