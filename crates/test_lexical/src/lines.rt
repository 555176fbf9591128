// The text of `lexical` on small files, worked by hand from the page on formats; and an output that fails.

use cs_io::{Halt, MemorySink};
use cs_lexical::write_lexical;
use cs_sample_files::{Trouble, read_files};
use cs_samples::SUMS;
use cs_scanner::{Automaton, Scanner};
use std::alloc::Global;
use std::test::Fail;

const NAMES: &[u8] = b"%token IF ID\n%%\ns : IF | ID ;\n";

// A yacc file, a lex file and their text.
const ROWS: &[(&[u8], &[u8], &str)] = &[
    (
        NAMES,
        b"%%\n[a-z]+ return ID;\nif return IF;\n",
        "rule 1 token ID wins \"a\"\nrule 2 token IF shadowed\noverlap 1 2 \"if\"\n\
end rules 2 shadowed 1 overlaps 1 disjoint 0\n",
    ),
    (
        NAMES,
        b"%%\nif return IF;\n[a-z]+ return ID;\n",
        "rule 1 token IF wins \"if\"\nrule 2 token ID wins \"a\"\noverlap 1 2 \"if\"\n\
end rules 2 shadowed 0 overlaps 1 disjoint 0\n",
    ),
    (
        SUMS,
        b"%%\n[0-9]+ return NUM;\n[-+()] return yytext[0];\n[ \\t]+ ;\n",
        "rule 1 token NUM wins \"0\"\nrule 2 literal wins \"(\"\nrule 3 skip wins \" \"\n\
end rules 3 shadowed 0 overlaps 0 disjoint 3\n",
    ),
    // The empty text is won by none.
    (
        NAMES,
        b"%%\n\"\" return IF;\n",
        "rule 1 token IF shadowed\nend rules 1 shadowed 1 overlaps 0 disjoint 0\n",
    ),
    // The same pattern twice, a bar, a rule that matches the empty text, and a text that a third rule wins.
    (
        NAMES,
        b"%%\nb |\nb return IF;\n(ab)* return f();\n[ab]* yymore();\n\"\\x00\\\"\" ;\n",
        "rule 1 token IF wins \"b\"\nrule 2 token IF shadowed\nrule 3 foreign wins \"ab\"\n\
rule 4 foreign wins \"a\"\nrule 5 skip wins \"\\x00\\x22\"\noverlap 1 2 \"b\"\n\
overlap 1 4 \"b\"\noverlap 2 4 \"b\"\noverlap 3 4 \"ab\"\n\
end rules 5 shadowed 1 overlaps 4 disjoint 6\n",
    ),
];

// Writes the text of files to a sink that has room for so many bytes.
fn written(alloc: Global, yacc: &[u8], lex: &[u8], sink: &mut MemorySink) -> Result<bool, Trouble> {
    let (yacc, lex) = read_files(alloc, yacc, lex)?;
    let automaton = Automaton::new(alloc, lex.patterns())?;
    let scanner = Scanner {
        automaton: &automaton,
        kinds: lex.kinds(),
        literals: lex.literals(),
    };
    match write_lexical(alloc, &yacc, &scanner, sink) {
        Ok(()) => Ok(true),
        Err(Halt::Failed) => Ok(false),
        Err(Halt::Memory) => Err(Trouble::Memory),
    }
}

#[test]
fn texts_of_files(rt: HostRuntime) -> Result<(), Fail> {
    let alloc = rt.alloc();
    for &(yacc, lex, lines) in ROWS {
        let mut sink = MemorySink::new(alloc, 4096, 4096, Vec::new(alloc))?;
        assert!(rt; written(alloc, yacc, lex, &mut sink)?);
        let want = format!(in alloc; "conform lexical\n{lines}")?;
        assert_eq!(rt; sink.written(), want.as_bytes(), "{lines}");
    }
    Ok(())
}

#[test]
fn writes_that_fail(rt: HostRuntime) -> Result<(), Fail> {
    let alloc = rt.alloc();
    for &(yacc, lex, lines) in ROWS {
        let mut sink = MemorySink::new(alloc, 20, 3, Vec::new(alloc))?;
        assert!(rt; !written(alloc, yacc, lex, &mut sink)?, "{lines}");
        assert_eq!(rt;
            sink.written(),
            b"conform lexical\nrule".as_slice(),
            "{lines}"
        );
    }
    Ok(())
}
