// The text of `deep` for the files of sums and others.

ghost use Rattle.std.specs.Prelude.{◌≡◌};
ghost use Rattle.cs_grammar.specs.Weights.{nodes};
ghost use Rattle.cs_writing.specs.Plan.Plans.{CanRender};

use cs_choices::{Criteria, Operators, Weigh};
use cs_deep::{Deep, write_deep};
use cs_fan::{Crew, OpenGate};
use cs_grammar::Weights;
use cs_io::{Halt, MemorySink};
use cs_lex::LexFile;
use cs_sample_files::{Trouble, read_files};
use cs_samples::{LETTER, LETTER_SCANNER, SCANNER, SUMS};
use cs_scanner::{Automaton, Lexemes, Scanner};
use cs_texts::RenderWork;
use cs_verdicts::Tables;
use cs_writing::{Means, Mutation};
use cs_yacc::YaccFile;
use std::alloc::{AllocError, Global};
use std::test::Fail;
use std::thread::Threads;

const RULES: Criteria = Criteria {
    rule: true,
    cdrc: false,
    pair: false,
};

const ALL: Operators = Operators {
    delete: true,
    insert: true,
    replace: true,
    swap: true,
};

const INSERT: Operators = Operators {
    delete: false,
    insert: true,
    replace: false,
    swap: false,
};

const NONE: Operators = Operators {
    delete: false,
    insert: false,
    replace: false,
    swap: false,
};

// Worked by hand.
const OF_SUMS: &str = "conform deep
base 1 goal 1
deep 1 base 1 insert 0 '('
  tokens '(' NUM '+' NUM
  text \"( 0 + 0\"
deep 2 base 1 insert 1 ')'
  tokens NUM ')' '+' NUM
  text \"0 ) + 0\"
deep 3 base 1 insert 2 '('
  tokens NUM '+' '(' NUM
  text \"0 + ( 0\"
deep 4 base 1 insert 3 ')'
  tokens NUM '+' NUM ')'
  text \"0 + 0 )\"
base 2 goal 2
deep 5 base 2 insert 0 '('
  tokens '(' NUM
  text \"( 0\"
deep 6 base 2 insert 1 ')'
  tokens NUM ')'
  text \"0 )\"
end bases 2 edits 38 negatives 32 deep 6 sentences 0 long 0
";

// The base x has the edits `delete 0`, to the empty list, and `insert 0 'x'`, to x x: both hold a poisoned pair.
const OF_LETTER: &str = "conform deep
base 1 goal 1
end bases 1 edits 2 negatives 2 deep 0 sentences 0 long 0
";

// s : s 'x' | 'x' ;  The bases are x x and x, and each edit by an insertion is x x x or x x.
const LETTERS: &[u8] = b"%%\ns : s 'x' | 'x' ;\n";

const OF_LETTERS: &str = "conform deep
base 1 goal 1
base 2 goal 2
end bases 2 edits 2 negatives 0 deep 0 sentences 2 long 0
";

const NO_BASES: &str = "conform deep
end bases 0 edits 0 negatives 0 deep 0 sentences 0 long 0
";

type Row = (&'static [u8], &'static [u8], Operators, u32, &'static str);

const ROWS: [Row; 5] = [
    (SUMS, SCANNER, ALL, 2, OF_SUMS),
    (LETTER, LETTER_SCANNER, ALL, 16, OF_LETTER),
    (LETTERS, LETTER_SCANNER, INSERT, 16, OF_LETTERS),
    (SUMS, SCANNER, ALL, 0, NO_BASES),
    (SUMS, SCANNER, NONE, 16, NO_BASES),
];

type Answer = Result<(), Halt>;

// Writes the text of `deep` by the rule goals of a file.
fn write<'f, R: Threads + Sync>(
    rt: &R,
    alloc: Global,
    yacc: &'f YaccFile,
    weights: &'f Weights,
    work: &'f RenderWork<'f>,
    row: Row,
    out: &mut MemorySink,
) -> Result<Answer, AllocError>
    requires weights { weights.now ≡ nodes yacc.now.grammar.tokens }
    requires work { CanRender yacc.now work.now }
{
    let tables = Tables::new(alloc, yacc.grammar(), weights)?;
    let deep = Deep {
        yacc,
        criteria: RULES,
        tables: &tables,
        means: Means {
            work,
            mutation: Mutation {
                pairs: tables.pairs(),
                operators: row.2,
                most: row.3,
                first: None,
            },
            weigh: Weigh::Nodes,
        },
    };
    Ok(write_deep(
        &Crew {
            rt,
            gate: &OpenGate,
        },
        alloc,
        &deep,
        out,
    ))
}

// The same by the texts of a lex file.
fn write_texts<R: Threads + Sync>(
    rt: &R,
    alloc: Global,
    yacc: &YaccFile,
    lex: &LexFile,
    row: Row,
    out: &mut MemorySink,
) -> Result<Answer, Trouble> {
    let automaton = Automaton::new(alloc, lex.patterns())?;
    let scanner = Scanner {
        automaton: &automaton,
        kinds: lex.kinds(),
        literals: lex.literals(),
    };
    let lexemes = Lexemes::new(alloc, &scanner, yacc.grammar().tokens())?;
    let work = RenderWork {
        scanner: &scanner,
        lexemes: &lexemes,
        separator: b" ",
    };
    let weights = Weights::nodes(alloc, yacc.grammar().tokens())?;
    Ok(write(rt, alloc, yacc, &weights, &work, row, out)?)
}

// The same for the files of a row and an output for so many bytes: what was answered, and what was written.
fn deep<R: Threads + Sync>(
    rt: &R,
    alloc: Global,
    row: Row,
    room: usize,
) -> Result<(Answer, MemorySink), Trouble> {
    let (yacc, lex) = read_files(alloc, row.0, row.1)?;
    let mut out = MemorySink::new(alloc, room, 7, Vec::new(alloc))?;
    let answer = write_texts(rt, alloc, &yacc, &lex, row, &mut out)?;
    Ok((answer, out))
}

#[test]
fn texts(rt: HostRuntime) -> Result<(), Fail> {
    for row in ROWS {
        let (answer, out) = deep(&rt, rt.alloc(), row, 9_999)?;
        assert!(rt; answer == Ok(()), "{}", row.4);
        assert!(rt; out.written() == row.4.as_bytes(), "{}", row.4);
    }
    Ok(())
}

#[test]
fn full_outputs(rt: HostRuntime) -> Result<(), Fail> {
    for row in ROWS {
        let (answer, out) = deep(&rt, rt.alloc(), row, 50)?;
        assert!(rt; answer == Err(Halt::Failed), "{}", row.4);
        let front = out.written().len() == 50 && row.4.as_bytes().starts_with(out.written());
        assert!(rt; front, "{}", row.4);
    }
    Ok(())
}
