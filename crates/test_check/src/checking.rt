use cs_check::ClaimFault::{
    Base, Derive, Edit, Form, Goal, Head, Infeasible, Pair, Scan, Size, Totals, Unclosed, Yield,
};
use cs_check::{ClaimFault, Outcome, check};
use cs_lex::LexFile;
use cs_sample_files::{Trouble, read_files};
use cs_scanner::{Automaton, Scanner};
use cs_yacc::YaccFile;
use std::alloc::{AllocError, Global};
use std::test::Fail;

pub(crate) const YACC: &[u8] = b"%%\ns : 'x' | e ;\ne : ;\n";

pub(crate) const LEX: &[u8] = b"%%\nx return 'x';\n[ ]+ ;\n";

// It has two cases, of which goals 2, 3 and 5 name the second.
const MANIFEST: &[&[u8]] = &[
    b"conform 2 suite\n",
    b"weigh nodes\n",
    b"token 1 'x'\n",
    b"rule 1 s : 'x'\n",
    b"rule 2 s : e\n",
    b"rule 3 e :\n",
    b"lexeme 'x' \"x\"\n",
    b"closed productive s e\n",
    b"closed reachable s e\n",
    b"closed empty s e\n",
    b"closed first s : 'x'\n",
    b"closed first e :\n",
    b"closed last s : 'x'\n",
    b"closed last e :\n",
    b"closed next <begin> : 'x' <end>\n",
    b"closed next 'x' : <end>\n",
    b"case 1 size 2\n",
    b"  derive 1\n",
    b"  tokens 'x'\n",
    b"  text \"x\"\n",
    b"goal 1 rule 1 size 2 case 1 first 1\n",
    b"case 2 size 2\n",
    b"  derive 2 3\n",
    b"  tokens\n",
    b"  text \"\"\n",
    b"goal 2 rule 2 size 2 case 2 first 2\n",
    b"goal 3 rule 3 size 2 case 2 first 2\n",
    b"goal 4 pair <begin> 'x' size 2 case 1 first 1\n",
    b"goal 5 pair <begin> <end> size 2 case 2 first 2\n",
    b"goal 6 pair 'x' 'x' infeasible\n",
    b"goal 7 pair 'x' <end> size 2 case 1 first 1\n",
    b"base 1 goal 1\n",
    b"negative 1 base 1 insert 0 'x' pair 'x' 'x' at 1\n",
    b"  tokens 'x' 'x'\n",
    b"  text \"x x\"\n",
    b"end goals 7 feasible 6 infeasible 1 large 0 negatives 1 cases 2\n",
];

// The number of a line, another text of that line, and the line that has a fault then, with its lowest.
const ROWS: &[(usize, &[u8], u32, ClaimFault)] = &[
    (3, b"token 2 'x'\n", 3, Form),
    (36, b"", 36, Form),
    (3, b"token 1 'y'\n", 3, Head),
    (8, b"closed productive s f\n", 8, Head),
    (15, b"closed next <begin> : 'x' 'y'\n", 15, Head),
    (13, b"closed last s :\n", 16, Unclosed),
    (18, b"  derive 2\n", 18, Derive),
    (23, b"  derive 2 65536\n", 23, Derive),
    (22, b"case 2 size 3\n", 23, Size),
    (24, b"  tokens 'x'\n", 24, Yield),
    (34, b"  tokens 'x'\n", 34, Yield),
    (20, b"  text \"y\"\n", 20, Scan),
    (35, b"  text \"xx x\"\n", 35, Scan),
    (21, b"goal 1 rule 1 size 3 case 1 first 1\n", 21, Goal),
    (26, b"goal 2 rule 2 size 2 case 2 first 1\n", 26, Goal),
    (27, b"goal 3 rule 3 size 2 case 1 first 2\n", 27, Goal),
    (
        28,
        b"goal 4 pair <begin> 'x' size 2 case 2 first 1\n",
        28,
        Goal,
    ),
    (
        28,
        b"goal 4 pair <begin> 'x' size 2 case 1 first 2\n",
        28,
        Goal,
    ),
    (
        29,
        b"goal 5 pair <begin> <end> size 2 case 3 first 2\n",
        29,
        Goal,
    ),
    (
        31,
        b"goal 7 pair <begin> 'x' size 2 case 1 first 1\n",
        31,
        Goal,
    ),
    (
        29,
        b"goal 5 pair <begin> <end> infeasible\n",
        29,
        Infeasible,
    ),
    (32, b"base 1 goal 6\n", 32, Base),
    (
        33,
        b"negative 1 base 2 insert 0 'x' pair 'x' 'x' at 1\n",
        33,
        Base,
    ),
    (
        33,
        b"negative 1 base 1 insert 2 'x' pair 'x' 'x' at 1\n",
        33,
        Edit,
    ),
    (
        33,
        b"negative 1 base 1 insert 0 'y' pair 'x' 'x' at 1\n",
        33,
        Edit,
    ),
    (
        33,
        b"negative 1 base 1 insert 0 'x' pair 'x' 'x' at 0\n",
        33,
        Pair,
    ),
    (
        36,
        b"end goals 7 feasible 6 infeasible 1 large 0 negatives 2 cases 2\n",
        36,
        Totals,
    ),
];

// The manifest with another text of the line of this number.
pub(crate) fn manifest_with(
    alloc: Global,
    number: usize,
    text: &[u8],
) -> Result<Vec<u8>, AllocError> {
    let mut manifest = Vec::new(alloc);
    for (place, line) in MANIFEST.iter().enumerate() {
        manifest.extend_from_slice(if place + 1 == number { text } else { *line })?;
    }
    Ok(manifest)
}

// What is found of a manifest, which isn't too long.
fn outcome_of(
    alloc: Global,
    yacc: &YaccFile,
    lex: &LexFile,
    manifest: &[u8],
) -> Result<Outcome, Trouble> {
    if manifest.len() > 67_108_864 {
        return Err(Trouble::TooLong);
    }
    let automaton = Automaton::new(alloc, lex.patterns())?;
    let scanner = Scanner {
        automaton: &automaton,
        kinds: lex.kinds(),
        literals: lex.literals(),
    };
    Ok(check(alloc, yacc, &scanner, manifest)?)
}

// Whether the manifest with this change fails so.
fn fails(
    alloc: Global,
    yacc: &YaccFile,
    lex: &LexFile,
    row: &(usize, &[u8], u32, ClaimFault),
) -> Result<bool, Trouble> {
    let (number, text, line, fault) = *row;
    let manifest = manifest_with(alloc, number, text)?;
    Ok(outcome_of(alloc, yacc, lex, &manifest)? == Outcome::No { line, fault })
}

#[test]
fn manifest_that_passes(rt: HostRuntime) -> Result<(), Fail> {
    let (yacc, lex) = read_files(rt.alloc(), YACC, LEX)?;
    let manifest = manifest_with(rt.alloc(), 0, b"")?;
    let outcome = outcome_of(rt.alloc(), &yacc, &lex, &manifest)?;
    assert!(rt;
        outcome
            == Outcome::Yes {
                goals: 7,
                negatives: 1
            }
    );
    Ok(())
}

// Each fault, by one line that is changed.
#[test]
fn faults_of_lines(rt: HostRuntime) -> Result<(), Fail> {
    let (yacc, lex) = read_files(rt.alloc(), YACC, LEX)?;
    for row in ROWS {
        assert!(rt; fails(rt.alloc(), &yacc, &lex, row)?);
    }
    Ok(())
}
