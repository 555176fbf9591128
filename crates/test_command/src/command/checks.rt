// What `check` writes of manifests, and how it ends, by `run`. The manifest is that of `s : 'x' ;`, which was worked by hand from
// docs/FORMATS.md, and so were the faults of what is changed in it.

use crate::command::reports::{Row, desk, is_ended};
use cs_fan::OpenGate;
use cs_io::MemorySink;
use cs_run::run;
use cs_samples::words;
use std::test::Fail;

const YACC: &[u8] = b"%%\ns : 'x' ;\n";

const LEX: &[u8] = b"%%\nx return 'x';\n[ ]+ ;\n";

const MANIFEST: &[u8] = b"conform 2 suite
weigh nodes
token 1 'x'
rule 1 s : 'x'
lexeme 'x' \"x\"
closed productive s
closed reachable s
closed empty
closed first s : 'x'
closed last s : 'x'
closed next <begin> : 'x'
closed next 'x' : <end>
case 1 size 2
  derive 1
  tokens 'x'
  text \"x\"
goal 1 rule 1 size 2 case 1 first 1
goal 2 pair <begin> 'x' size 2 case 1 first 1
goal 3 pair <begin> <end> infeasible
goal 4 pair 'x' 'x' infeasible
goal 5 pair 'x' <end> size 2 case 1 first 1
base 1 goal 1
negative 1 base 1 delete 0 pair <begin> <end> at 0
  tokens
  text \"\"
negative 2 base 1 insert 0 'x' pair 'x' 'x' at 1
  tokens 'x' 'x'
  text \"x x\"
end goals 5 feasible 3 infeasible 2 large 0 negatives 2 cases 1
";

// The mark of `'x'` is followed by itself too, the last token isn't claimed, the end is missing, and so are the closed lines.
const WIDER: &[u8] = b"conform 2 suite
weigh nodes
token 1 'x'
rule 1 s : 'x'
lexeme 'x' \"x\"
closed productive s
closed reachable s
closed empty
closed first s : 'x'
closed last s : 'x'
closed next <begin> : 'x'
closed next 'x' : 'x' <end>
case 1 size 2
  derive 1
  tokens 'x'
  text \"x\"
goal 1 rule 1 size 2 case 1 first 1
goal 2 pair <begin> 'x' size 2 case 1 first 1
goal 3 pair <begin> <end> infeasible
goal 4 pair 'x' 'x' infeasible
goal 5 pair 'x' <end> size 2 case 1 first 1
base 1 goal 1
negative 1 base 1 delete 0 pair <begin> <end> at 0
  tokens
  text \"\"
negative 2 base 1 insert 0 'x' pair 'x' 'x' at 1
  tokens 'x' 'x'
  text \"x x\"
end goals 5 feasible 3 infeasible 2 large 0 negatives 2 cases 1
";

const UNCLOSED: &[u8] = b"conform 2 suite
weigh nodes
token 1 'x'
rule 1 s : 'x'
lexeme 'x' \"x\"
closed productive s
closed reachable s
closed empty
closed first s : 'x'
closed last s :
closed next <begin> : 'x'
closed next 'x' : <end>
case 1 size 2
  derive 1
  tokens 'x'
  text \"x\"
goal 1 rule 1 size 2 case 1 first 1
goal 2 pair <begin> 'x' size 2 case 1 first 1
goal 3 pair <begin> <end> infeasible
goal 4 pair 'x' 'x' infeasible
goal 5 pair 'x' <end> size 2 case 1 first 1
base 1 goal 1
negative 1 base 1 delete 0 pair <begin> <end> at 0
  tokens
  text \"\"
negative 2 base 1 insert 0 'x' pair 'x' 'x' at 1
  tokens 'x' 'x'
  text \"x x\"
end goals 5 feasible 3 infeasible 2 large 0 negatives 2 cases 1
";

const CUT_SHORT: &[u8] = b"conform 2 suite
weigh nodes
token 1 'x'
rule 1 s : 'x'
lexeme 'x' \"x\"
closed productive s
closed reachable s
closed empty
closed first s : 'x'
closed last s : 'x'
closed next <begin> : 'x'
closed next 'x' : <end>
case 1 size 2
  derive 1
  tokens 'x'
  text \"x\"
goal 1 rule 1 size 2 case 1 first 1
goal 2 pair <begin> 'x' size 2 case 1 first 1
goal 3 pair <begin> <end> infeasible
goal 4 pair 'x' 'x' infeasible
goal 5 pair 'x' <end> size 2 case 1 first 1
base 1 goal 1
negative 1 base 1 delete 0 pair <begin> <end> at 0
  tokens
  text \"\"
negative 2 base 1 insert 0 'x' pair 'x' 'x' at 1
  tokens 'x' 'x'
  text \"x x\"
";

const WITHOUT_SETS: &[u8] = b"conform 2 suite
weigh nodes
token 1 'x'
rule 1 s : 'x'
lexeme 'x' \"x\"
case 1 size 2
  derive 1
  tokens 'x'
  text \"x\"
goal 1 rule 1 size 2 case 1 first 1
goal 2 pair <begin> 'x' size 2 case 1 first 1
goal 3 pair <begin> <end> infeasible
goal 4 pair 'x' 'x' infeasible
goal 5 pair 'x' <end> size 2 case 1 first 1
base 1 goal 1
negative 1 base 1 delete 0 pair <begin> <end> at 0
  tokens
  text \"\"
negative 2 base 1 insert 0 'x' pair 'x' 'x' at 1
  tokens 'x' 'x'
  text \"x x\"
end goals 5 feasible 3 infeasible 2 large 0 negatives 2 cases 1
";

const CHECK: &[&str] = &["check", "y", "l", "t"];

const ROWS: [Row; 9] = [
    (CHECK, MANIFEST, 0, b"yes goals 5 negatives 2\n", b""),
    (CHECK, WIDER, 6, b"no line 20: Infeasible\n", b""),
    (CHECK, UNCLOSED, 6, b"no line 12: Unclosed\n", b""),
    (CHECK, CUT_SHORT, 6, b"no line 29: Form\n", b""),
    (CHECK, WITHOUT_SETS, 6, b"no line 12: Infeasible\n", b""),
    (CHECK, b"", 6, b"no line 1: Form\n", b""),
    (
        &["check", "y", "l"],
        b"",
        2,
        b"",
        b"conform: usage: word 3\n",
    ),
    (
        &["check", "y", "l", "u"],
        b"",
        3,
        b"",
        b"conform: read fault: manifest\n",
    ),
    (
        &["check", "l", "l", "t"],
        MANIFEST,
        1,
        b"",
        b"conform: yacc: BadItem at 17\n",
    ),
];

#[test]
fn checks_of_a_manifest(rt: HostRuntime) -> Result<(), Fail> {
    for row in &ROWS {
        assert!(rt; is_ended(&rt, rt.alloc(), YACC, LEX, row)?);
    }
    Ok(())
}

// A manifest is too long by its bytes, and within.
#[test]
fn manifests_about_the_limit(rt: HostRuntime) -> Result<(), Fail> {
    let rows: [(usize, u8, &[u8], &[u8]); 2] = [
        (67_108_864, 6, b"no line 1: Form\n", b""),
        (
            67_108_865,
            1,
            b"",
            b"conform: manifest: Length above 67108864\n",
        ),
    ];
    for (length, status, written, said) in rows {
        let manifest = vec![in rt.alloc(); b'x'; length]?;
        let words = words(rt.alloc(), CHECK)?;
        let mut desk = desk(rt.alloc(), YACC, LEX, &manifest)?;
        let mut out = MemorySink::new(rt.alloc(), 99, 99, Vec::new(rt.alloc()))?;
        let mut err = MemorySink::new(rt.alloc(), 99, 99, Vec::new(rt.alloc()))?;
        let got = run(
            &rt,
            rt.alloc(),
            &words,
            &mut desk,
            &mut out,
            &mut err,
            &OpenGate,
        );
        assert!(rt; got == status && out.written() == written && err.written() == said);
    }
    Ok(())
}
