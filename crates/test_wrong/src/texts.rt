// The texts of `wrong` of small files, worked by hand: `docs/FORMATS.md` gives their lines.

ghost use Rattle.cs_wrong.specs.Writing.Text.{HaveLexemes};

use cs_choices::{Slips, Weigh};
use cs_fan::{Crew, OpenGate};
use cs_grammar::Weights;
use cs_io::{Halt, MemorySink};
use cs_lex::LexFile;
use cs_sample_files::{Trouble, read_files};
use cs_samples::{SCANNER, SUMS};
use cs_scanner::{Automaton, Lexemes, Scanner};
use cs_texts::RenderWork;
use cs_wrong::{Wrong, write_wrong};
use cs_yacc::YaccFile;
use std::alloc::{AllocError, Global};
use std::test::Fail;
use std::thread::Threads;

const SUMS_WRONG: &[u8] = b"conform wrong
wrong 1 empty pair <begin> <end> at 0
  tokens
  text \"\"
wrong 2 rule 1 drop 1 pair <begin> '+' at 0
  tokens '+' NUM
  text \"+ 0\"
wrong 3 rule 1 drop 2 pair NUM NUM at 1
  tokens NUM NUM
  text \"0 0\"
wrong 4 rule 1 drop 3 pair '+' <end> at 2
  tokens NUM '+'
  text \"0 +\"
wrong 5 rule 1 double 1 pair NUM NUM at 1
  tokens NUM NUM '+' NUM
  text \"0 0 + 0\"
wrong 6 rule 1 double 2 pair '+' '+' at 2
  tokens NUM '+' '+' NUM
  text \"0 + + 0\"
wrong 7 rule 1 double 3 pair NUM NUM at 3
  tokens NUM '+' NUM NUM
  text \"0 + 0 0\"
wrong 8 rule 1 swap 1 pair <begin> '+' at 0
  tokens '+' NUM NUM
  text \"+ 0 0\"
wrong 9 rule 1 swap 2 pair NUM NUM at 1
  tokens NUM NUM '+'
  text \"0 0 +\"
wrong 10 rule 4 drop 1 outside
  tokens NUM ')'
  text \"0 )\"
wrong 11 rule 4 drop 2 pair '(' ')' at 1
  tokens '(' ')'
  text \"( )\"
wrong 12 rule 4 drop 3 outside
  tokens '(' NUM
  text \"( 0\"
wrong 13 rule 4 double 1 outside
  tokens '(' '(' NUM ')'
  text \"( ( 0 )\"
wrong 14 rule 4 double 2 pair NUM NUM at 2
  tokens '(' NUM NUM ')'
  text \"( 0 0 )\"
wrong 15 rule 4 double 3 outside
  tokens '(' NUM ')' ')'
  text \"( 0 ) )\"
wrong 16 rule 4 swap 1 pair NUM '(' at 1
  tokens NUM '(' ')'
  text \"0 ( )\"
wrong 17 rule 4 swap 2 pair '(' ')' at 1
  tokens '(' ')' NUM
  text \"( ) 0\"
end slips 21 none 0 large 0 again 4 long 0 sentences 0 wrong 17
";

// A nonterminal without a tree, and one without a context.
const APART: &[u8] = b"%%
s : 'x' | u s 'y' | 'z' s ;
u : u 'x' | u ;
v : 'x' 'x' ;
";

const APART_SCANNER: &[u8] = b"%%
[xyz] return yytext[0];
[ ]+ ;
";

const APART_WRONG: &[u8] = b"conform wrong
wrong 1 empty pair <begin> <end> at 0
  tokens
  text \"\"
wrong 2 rule 1 double 1 pair 'x' 'x' at 1
  tokens 'x' 'x'
  text \"x x\"
wrong 3 rule 2 drop 1 pair 'x' 'y' at 1
  tokens 'x' 'y'
  text \"x y\"
wrong 4 rule 3 drop 2 pair 'z' <end> at 1
  tokens 'z'
  text \"z\"
wrong 5 rule 3 double 2 pair 'x' 'x' at 2
  tokens 'z' 'x' 'x'
  text \"z x x\"
wrong 6 rule 3 swap 1 pair 'x' 'z' at 1
  tokens 'x' 'z'
  text \"x z\"
wrong 7 rule 4 drop 1 pair 'x' 'x' at 1
  tokens 'x' 'x' 'y'
  text \"x x y\"
end slips 27 none 16 large 0 again 2 long 0 sentences 2 wrong 7
";

// Empty right sides, and a rule that is its own.
const EMPTIES: &[u8] = b"%%
s : a b 'x' ;
a : | a | 'y' a ;
b : a | 'z' b ;
";

const EMPTIES_WRONG: &[u8] = b"conform wrong
wrong 1 empty pair <begin> <end> at 0
  tokens
  text \"\"
wrong 2 rule 1 double 3 pair 'x' 'x' at 1
  tokens 'x' 'x'
  text \"x x\"
end slips 23 none 0 large 0 again 16 long 0 sentences 5 wrong 2
";

// The empty text is a sentence.
const EMPTY: &[u8] = b"%%
s : | s 'x' ;
";

const EMPTY_WRONG: &[u8] = b"conform wrong
end slips 6 none 0 large 0 again 3 long 0 sentences 3 wrong 0
";

// Sizes above the limit, and lists of more than 2,000 tokens.
const DOUBLING: &[u8] = b"%%
x12 : x11 x11 ;
x11 : x10 x10 ;
x10 : x9 x9 ;
x9 : x8 x8 ;
x8 : x7 x7 ;
x7 : x6 x6 ;
x6 : x5 x5 ;
x5 : x4 x4 ;
x4 : x3 x3 ;
x3 : x2 x2 ;
x2 : x1 x1 ;
x1 : x0 x0 ;
x0 : 'x' ;
";

const DOUBLING_WRONG: &[u8] = b"conform wrong
wrong 1 empty pair <begin> <end> at 0
  tokens
  text \"\"
end slips 51 none 0 large 46 again 2 long 2 sentences 0 wrong 1
";

// Drops and swaps alone, without a separator.
const SUMS_SOME: &[u8] = b"conform wrong
wrong 1 empty pair <begin> <end> at 0
  tokens
  text \"\"
wrong 2 rule 1 drop 1 pair <begin> '+' at 0
  tokens '+' NUM
  text \"+0\"
wrong 3 rule 1 drop 2 pair NUM NUM at 1
  tokens NUM NUM
  no text scan 1
wrong 4 rule 1 drop 3 pair '+' <end> at 2
  tokens NUM '+'
  text \"0+\"
wrong 5 rule 1 swap 1 pair <begin> '+' at 0
  tokens '+' NUM NUM
  no text scan 2
wrong 6 rule 1 swap 2 pair NUM NUM at 1
  tokens NUM NUM '+'
  no text scan 1
wrong 7 rule 4 drop 1 outside
  tokens NUM ')'
  text \"0)\"
wrong 8 rule 4 drop 2 pair '(' ')' at 1
  tokens '(' ')'
  text \"()\"
wrong 9 rule 4 drop 3 outside
  tokens '(' NUM
  text \"(0\"
wrong 10 rule 4 swap 1 pair NUM '(' at 1
  tokens NUM '(' ')'
  text \"0()\"
wrong 11 rule 4 swap 2 pair '(' ')' at 1
  tokens '(' ')' NUM
  text \"()0\"
end slips 13 none 0 large 0 again 2 long 0 sentences 0 wrong 11
";

const ALL: Slips = Slips {
    drops: true,
    doubles: true,
    swaps: true,
};

const SOME: Slips = Slips {
    drops: true,
    doubles: false,
    swaps: true,
};

fn sink(alloc: Global, room: usize) -> Result<MemorySink, AllocError> {
    MemorySink::new(alloc, room, 7, Vec::new(alloc))
}

// Writes the text of `wrong`, nodes counted.
fn write<'f, R: Threads + Sync>(
    rt: &R,
    alloc: Global,
    yacc: &YaccFile,
    chosen: Slips,
    work: &'f RenderWork<'f>,
    out: &mut MemorySink,
) -> Result<Result<(), Halt>, AllocError>
    requires { HaveLexemes yacc.now work.now }
{
    let weights = Weights::nodes(alloc, yacc.grammar().tokens())?;
    let asked = Wrong {
        yacc,
        weights: &weights,
        weigh: Weigh::Nodes,
        chosen,
        work,
    };
    Ok(write_wrong(
        &Crew {
            rt,
            gate: &OpenGate,
        },
        alloc,
        &asked,
        out,
    ))
}

// The same by what was read of both files.
fn write_texts<R: Threads + Sync>(
    rt: &R,
    alloc: Global,
    yacc: &YaccFile,
    lex: &LexFile,
    separator: &[u8],
    chosen: Slips,
    out: &mut MemorySink,
) -> Result<Result<(), Halt>, Trouble> {
    let automaton = Automaton::new(alloc, lex.patterns())?;
    let scanner = Scanner {
        automaton: &automaton,
        kinds: lex.kinds(),
        literals: lex.literals(),
    };
    let lexemes = Lexemes::new(alloc, &scanner, yacc.grammar().tokens())?;
    let work = RenderWork {
        scanner: &scanner,
        lexemes: &lexemes,
        separator,
    };
    Ok(write(rt, alloc, yacc, chosen, &work, out)?)
}

#[test]
fn slips_of_small_files(rt: HostRuntime) -> Result<(), Fail> {
    let rows: [(&[u8], &[u8], &[u8]); 5] = [
        (SUMS, SCANNER, SUMS_WRONG),
        (APART, APART_SCANNER, APART_WRONG),
        (EMPTIES, APART_SCANNER, EMPTIES_WRONG),
        (EMPTY, APART_SCANNER, EMPTY_WRONG),
        (DOUBLING, APART_SCANNER, DOUBLING_WRONG),
    ];
    for (grammar, scanner, want) in rows {
        let (yacc, lex) = read_files(rt.alloc(), grammar, scanner)?;
        let mut out = sink(rt.alloc(), 4_000)?;
        assert_eq!(rt;
            write_texts(&rt, rt.alloc(), &yacc, &lex, b" ", ALL, &mut out)?,
            Ok(())
        );
        assert_eq!(rt; out.written(), want);
    }
    Ok(())
}

#[test]
fn chosen_slips_without_a_separator(rt: HostRuntime) -> Result<(), Fail> {
    let (yacc, lex) = read_files(rt.alloc(), SUMS, SCANNER)?;
    let mut out = sink(rt.alloc(), 4_000)?;
    assert_eq!(rt;
        write_texts(&rt, rt.alloc(), &yacc, &lex, b"", SOME, &mut out)?,
        Ok(())
    );
    assert_eq!(rt; out.written(), SUMS_SOME);
    Ok(())
}

// An output that is full after so many bytes has these, and the call says that it failed.
#[test]
fn output_that_is_full_has_a_front(rt: HostRuntime) -> Result<(), Fail> {
    let (yacc, lex) = read_files(rt.alloc(), SUMS, SCANNER)?;
    for room in [0, 1, 40, 400, 1_340] {
        let mut out = sink(rt.alloc(), room)?;
        assert_eq!(rt;
            write_texts(&rt, rt.alloc(), &yacc, &lex, b" ", ALL, &mut out)?,
            Err(Halt::Failed)
        );
        assert!(rt; SUMS_WRONG.starts_with(out.written()));
    }
    Ok(())
}
