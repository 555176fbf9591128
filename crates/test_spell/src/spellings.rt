// The spellings of small files, worked by hand: `docs/FORMATS.md` gives their lines. And an output that fails.

use cs_choices::Weigh;
use cs_grammar::Weights;
use cs_io::{Halt, MemorySink};
use cs_lex::LexFile;
use cs_sample_files::{Trouble, read_files};
use cs_samples::{SCANNER, SUMS};
use cs_scanner::{Automaton, Lexemes, Scanner};
use cs_spell::write_spell;
use cs_texts::RenderWork;
use cs_yacc::YaccFile;
use std::alloc::Global;
use std::test::Fail;

const OF_SUMS: &[u8] = b"conform spell
spelling 1 token NUM goal 3 size 3 at 0
  derive 2 3
  tokens NUM
  text \"0\"
spelling 2 literal
spelling 3 skip goal 1 size 7
  derive 1 2 3 3
  tokens NUM '+' NUM
  text \" 0 + 0 \"
end rules 3 spelled 2 shadowed 0 foreign 0 literal 1 infeasible 0 large 0
";

// Three forms of numbers, words of which one rule wins none, and comments. With a space behind it the line comment takes the rest.
const FORMS: &[u8] = b"%token NUM ID\n%%\ne : e '+' NUM | NUM | ID ;\n";

const FORMS_SCANNER: &[u8] =
    b"%%\n[0-9]+ return NUM;\n0x[0-9a-f]+ return NUM;\n[a-z]+ return ID;\nif return ID;\n\
[ \\t\\n]+ ;\n\"/*\"[^*]*\"*/\" ;\n\"//\"[^\\n]* ;\n\"+\" return '+';\n[-+*/] return yytext[0];\n\"@\" REJECT;\n";

const OF_FORMS: &[u8] = b"conform spell
spelling 1 token NUM goal 2 size 2 at 0
  derive 2
  tokens NUM
  text \"0\"
spelling 2 token NUM goal 2 size 2 at 0
  derive 2
  tokens NUM
  text \"0xa\"
spelling 3 token ID goal 3 size 2 at 0
  derive 3
  tokens ID
  text \"a\"
spelling 4 shadowed
spelling 5 skip goal 1 size 5
  derive 1 2
  tokens NUM '+' NUM
  text \" 0 + 0 \"
spelling 6 skip goal 1 size 5
  derive 1 2
  tokens NUM '+' NUM
  text \"/**/0/**/+/**/0/**/\"
spelling 7 skip goal 1 size 5
  derive 1 2
  tokens NUM '+' NUM
  no text scan 0
spelling 8 token '+' goal 1 size 5 at 1
  derive 1 2
  tokens NUM '+' NUM
  text \"0 + 0\"
spelling 9 literal
spelling 10 foreign
end rules 10 spelled 7 shadowed 1 foreign 1 literal 1 infeasible 0 large 0
";

// With a space `a` stands in a longer match; without one it is a match of its own.
const PAIR: &[u8] = b"%token X Y\n%%\ns : X Y ;\n";

const PAIR_SCANNER: &[u8] = b"%%\na return X;\nb return Y;\na[ ] return X;\n[ ] ;\n";

const OF_PAIR: &[u8] = b"conform spell
spelling 1 token X goal 1 size 3 at 0
  derive 1
  tokens X Y
  no text scan 2
spelling 2 token Y goal 1 size 3 at 1
  derive 1
  tokens X Y
  text \"a b\"
spelling 3 token X goal 1 size 3 at 0
  derive 1
  tokens X Y
  text \"a  b\"
spelling 4 skip goal 1 size 3
  derive 1
  tokens X Y
  text \" a b \"
end rules 4 spelled 4 shadowed 0 foreign 0 literal 0 infeasible 0 large 0
";

const OF_PAIR_JOINED: &[u8] = b"conform spell
spelling 1 token X goal 1 size 3 at 0
  derive 1
  tokens X Y
  text \"ab\"
spelling 2 token Y goal 1 size 3 at 1
  derive 1
  tokens X Y
  text \"ab\"
spelling 3 token X goal 1 size 3 at 0
  derive 1
  tokens X Y
  text \"a b\"
spelling 4 skip goal 1 size 3
  derive 1
  tokens X Y
  text \" a b \"
end rules 4 spelled 4 shadowed 0 foreign 0 literal 0 infeasible 0 large 0
";

// A nonterminal that derives nothing, and a token without a lexeme.
const LACKS: &[u8] = b"%token IND\n%%\ns : IND s 'x' | 'x' | u 'y' ;\nu : u 'y' ;\n";

const LACKS_SCANNER: &[u8] = b"%%\nx return 'x';\ny return 'y';\n[ ]+ ;\n";

const OF_LACKS: &[u8] = b"conform spell
spelling 1 token 'x' goal 2 size 2 at 0
  derive 2
  tokens 'x'
  text \"x\"
spelling 2 infeasible
spelling 3 skip goal 1 size 5
  derive 1 2
  tokens IND 'x' 'x'
  no text lexeme IND
end rules 3 spelled 2 shadowed 0 foreign 0 literal 0 infeasible 1 large 0
";

// A yacc file, a lex file, a separator and their text.
const ROWS: &[(&[u8], &[u8], &[u8], &[u8])] = &[
    (SUMS, SCANNER, b" ", OF_SUMS),
    (FORMS, FORMS_SCANNER, b" ", OF_FORMS),
    (PAIR, PAIR_SCANNER, b" ", OF_PAIR),
    (PAIR, PAIR_SCANNER, b"", OF_PAIR_JOINED),
    (LACKS, LACKS_SCANNER, b" ", OF_LACKS),
];

// Writes the spellings, nodes counted.
fn write(
    alloc: Global,
    yacc: &YaccFile,
    lex: &LexFile,
    separator: &[u8],
    out: &mut MemorySink,
) -> Result<Result<(), Halt>, Trouble> {
    let automaton = Automaton::new(alloc, lex.patterns())?;
    let scanner = Scanner {
        automaton: &automaton,
        kinds: lex.kinds(),
        literals: lex.literals(),
    };
    let tokens = yacc.grammar().tokens();
    let lexemes = Lexemes::new(alloc, &scanner, tokens)?;
    let weights = Weights::nodes(alloc, tokens)?;
    let work = RenderWork {
        scanner: &scanner,
        lexemes: &lexemes,
        separator,
    };
    Ok(write_spell(alloc, yacc, &weights, Weigh::Nodes, &work, out))
}

#[test]
fn spellings_of_files(rt: HostRuntime) -> Result<(), Fail> {
    let alloc = rt.alloc();
    for &(yacc, lex, separator, want) in ROWS {
        let (yacc, lex) = read_files(alloc, yacc, lex)?;
        let mut out = MemorySink::new(alloc, 2_000, 7, Vec::new(alloc))?;
        assert_eq!(rt; write(alloc, &yacc, &lex, separator, &mut out)?, Ok(()));
        assert_eq!(rt; out.written(), want);
    }
    Ok(())
}

// An output that is full after so many bytes has these, and the call says that it failed.
#[test]
fn output_that_is_full_has_a_front(rt: HostRuntime) -> Result<(), Fail> {
    let alloc = rt.alloc();
    let (yacc, lex) = read_files(alloc, SUMS, SCANNER)?;
    for room in [0, 1, 40, 100, 249] {
        let mut out = MemorySink::new(alloc, room, 7, Vec::new(alloc))?;
        assert_eq!(rt;
            write(alloc, &yacc, &lex, b" ", &mut out)?,
            Err(Halt::Failed)
        );
        assert_eq!(rt; out.written(), &OF_SUMS[..room]);
    }
    Ok(())
}
