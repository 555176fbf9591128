// Suites of the second format, and suites that weigh bytes, by `run`. What is expected was worked by hand from the definitions:
// the closed sets over all trees, the least trees by their sizes, the cases in the order of the goals.

use crate::suites::ending::written;
use cs_samples::{LETTER, LETTER_SCANNER, LETTER_SUITE_TWO, SCANNER, SUMS, SUMS_SUITE_TWO};
use std::alloc::{AllocError, Global};
use std::test::Fail;
use std::thread::Threads;

const LONG: &[u8] = b"%token LONG\n%%\ns : a t ; a : LONG | 'x' 'y' ; t : 'z' ;\n";

const LONG_SCANNER: &[u8] = b"%%\nlonglong return LONG;\n[xyz] return yytext[0];\n[ ]+ ;\n";

// No tree at all: the hole alone is a context of the start symbol.
const NO_SENTENCE: &[u8] = b"conform 2 suite
weigh nodes
token 1 'x'
rule 1 s : s 'x'
lexeme 'x' \"x\"
closed productive
closed reachable s
closed empty
closed first s :
closed last s :
closed next <begin> :
closed next 'x' :
goal 1 rule 1 infeasible
goal 2 context 1 1 1 infeasible
goal 3 pair <begin> 'x' infeasible
goal 4 pair <begin> <end> infeasible
goal 5 pair 'x' 'x' infeasible
goal 6 pair 'x' <end> infeasible
end goals 6 feasible 0 infeasible 6 large 0 negatives 0 cases 0
";

// The nonterminal n has no tree, and a context all the same; t has a tree and no context; u has neither.
const LOOSE: &[u8] = b"%%\ns : | n ;\nn : n 'x' ;\nt : 'x' ;\nu : u ;\n";

const LOOSE_SUITE: &[u8] = b"conform 2 suite
weigh nodes
token 1 'x'
rule 1 s :
rule 2 s : n
rule 3 n : n 'x'
rule 4 t : 'x'
rule 5 u : u
lexeme 'x' \"x\"
closed productive s t
closed reachable s n
closed empty s
closed first s :
closed first n :
closed first t : 'x'
closed first u :
closed last s :
closed last n :
closed last t : 'x'
closed last u :
closed next <begin> : <end>
closed next 'x' :
case 1 size 1
  derive 1
  tokens
  text \"\"
goal 1 rule 1 size 1 case 1 first 1
goal 2 rule 2 infeasible
goal 3 rule 3 infeasible
goal 4 rule 4 infeasible
goal 5 rule 5 infeasible
base 1 goal 1
negative 1 base 1 insert 0 'x' pair <begin> 'x' at 0
  tokens 'x'
  text \"x\"
end goals 5 feasible 1 infeasible 4 large 0 negatives 1 cases 1
";

// The lexeme of A has 7,000 bytes, and so its leaf the size 112,001. A large goal has no case.
const LARGE: &[u8] = b"lexeme 'x' \"x\"
closed productive s
closed reachable s
closed empty
closed first s : A 'x'
closed last s : A 'x'
closed next <begin> : A 'x'
closed next A : <end>
closed next 'x' : <end>
goal 1 rule 1 large
case 1 size 18
  derive 2
  tokens 'x'
  text \"x\"
goal 2 rule 2 size 18 case 1 first 1
end goals 2 feasible 1 infeasible 0 large 1 negatives 0 cases 1
";

// The leaf of LONG has the size 129, and those of the letters 17.
const LONG_BY_BYTES: &[u8] = b"goal 1 rule 1 size 54
  derive 1 3 4
  tokens 'x' 'y' 'z'
  text \"x y z\"
goal 2 rule 2 size 149
  derive 1 2 4
  tokens LONG 'z'
  text \"longlong z\"
goal 3 rule 3 size 54
  derive 1 3 4
  tokens 'x' 'y' 'z'
  text \"x y z\"
goal 4 rule 4 size 54
  derive 1 3 4
  tokens 'x' 'y' 'z'
  text \"x y z\"
end goals 4 feasible 4 infeasible 0 large 0 negatives 0
";

const LONG_BY_NODES: &[u8] = b"goal 1 rule 1 size 5
  derive 1 2 4
  tokens LONG 'z'
  text \"longlong z\"
goal 2 rule 2 size 5
  derive 1 2 4
  tokens LONG 'z'
  text \"longlong z\"
goal 3 rule 3 size 6
  derive 1 3 4
  tokens 'x' 'y' 'z'
  text \"x y z\"
goal 4 rule 4 size 5
  derive 1 2 4
  tokens LONG 'z'
  text \"longlong z\"
end goals 4 feasible 4 infeasible 0 large 0 negatives 0
";

// A leaf of a token without a lexeme has the size 5,000.
const NO_LEXEME: &[u8] = b"lexeme IND none
lexeme 'x' \"x\"
goal 1 rule 1 size 36
  derive 1 3
  tokens 'x' 'x'
  text \"x x\"
goal 2 rule 2 size 5002
  derive 1 2
  tokens IND
  no text lexeme IND
goal 3 rule 3 size 36
  derive 1 3
  tokens 'x' 'x'
  text \"x x\"
end goals 3 feasible 3 infeasible 0 large 0 negatives 0
";

// Whether the suite of these files by these options is written, begins so and ends so.
fn writes<R: Threads + Sync>(
    rt: &R,
    alloc: Global,
    files: (&[u8], &[u8]),
    options: &[&str],
    begin: &[u8],
    end: &[u8],
) -> Result<bool, AllocError> {
    match written(rt, alloc, files.0, files.1, options)? {
        Some(text) => Ok(text.written().starts_with(begin) && text.written().ends_with(end)),
        None => Ok(false),
    }
}

#[test]
fn whole_suites_of_the_second_format(rt: HostRuntime) -> Result<(), Fail> {
    let alloc = rt.alloc();
    let none: &[u8] = b"%%\ns : s 'x' ;\n";
    let rules = "--criteria=rule";
    let rows: [((&[u8], &[u8]), &[&str], &[u8]); 4] = [
        ((LETTER, LETTER_SCANNER), &[], LETTER_SUITE_TWO),
        (
            (SUMS, SCANNER),
            &["--format=2", rules, "--mutate=none"],
            SUMS_SUITE_TWO.as_bytes(),
        ),
        ((none, LETTER_SCANNER), &["--weigh=nodes"], NO_SENTENCE),
        ((LOOSE, LETTER_SCANNER), &[rules], LOOSE_SUITE),
    ];
    for (files, options, whole) in rows {
        assert!(rt; writes(&rt, alloc, files, options, whole, whole)?);
    }
    Ok(())
}

#[test]
fn sizes_by_bytes_and_by_nodes(rt: HostRuntime) -> Result<(), Fail> {
    let alloc = rt.alloc();
    let indent: &[u8] = b"%token IND\n%%\ns : a ; a : IND | 'x' 'x' ;\n";
    let rows: [((&[u8], &[u8]), &str, &[u8]); 3] = [
        ((LONG, LONG_SCANNER), "--weigh=bytes", LONG_BY_BYTES),
        ((LONG, LONG_SCANNER), "--weigh=nodes", LONG_BY_NODES),
        ((indent, LETTER_SCANNER), "--weigh=bytes", NO_LEXEME),
    ];
    for (files, weigh, end) in rows {
        let options = ["--format=1", "--criteria=rule", weigh, "--mutate=none"];
        assert!(rt; writes(&rt, alloc, files, &options, b"conform 1 suite\n", end)?);
    }
    Ok(())
}

#[test]
fn a_large_goal_by_bytes(rt: HostRuntime) -> Result<(), Fail> {
    let alloc = rt.alloc();
    let yacc: &[u8] = b"%token A\n%%\ns : A | 'x' ;\n";
    let lex: &[u8] = b"%%\na{1000}{7} return A;\nx return 'x';\n";
    let options = ["--weigh=bytes", "--criteria=rule", "--mutate=none"];
    let begin: &[u8] = b"conform 2 suite\nweigh bytes\ntoken 1 A\n";
    assert!(rt; writes(&rt, alloc, (yacc, lex), &options, begin, LARGE)?);
    Ok(())
}
