// The texts of chains of small files, worked by hand: `docs/FORMATS.md` gives their lines.

ghost use Rattle.std.specs.Prelude.{◌≤◌, length};
ghost use Rattle.cs_chain.specs.Chains.Chains.{chains};
ghost use Rattle.cs_chain_text.specs.Progress.{HaveLexemes};
ghost use Rattle.cs_scanner.specs.Lexeme.Lexeme.{AreLexemes};
ghost use Rattle.cs_scanner.specs.Scan.Compared.{scanning};

use cs_chain::total;
use cs_chain_text::{Chained, write_chains};
use cs_choices::Weigh;
use cs_fan::{Crew, OpenGate};
use cs_grammar::Weights;
use cs_io::{Halt, MemorySink};
use cs_lex::LexFile;
use cs_sample_files::{Trouble, read_files, yacc_of};
use cs_samples::LETTER_SCANNER;
use cs_scanner::{Automaton, Lexemes, Scanner};
use cs_texts::RenderWork;
use cs_yacc::YaccFile;
use std::alloc::{AllocError, Global};
use std::test::Fail;
use std::thread::Threads;

const RECURSION: &[u8] = b"%%\na : a | 'x' ;\n";

const RECURSION_CHAINS: &[u8] = b"conform chains
token 1 'x'
rule 1 a : a
rule 2 a : 'x'
goal 1 chain 1 1 1 1 1 size 5
  derive 1 1 1 2
  tokens 'x'
goal 2 chain 1 1 1 1 2 size 4
  derive 1 1 2
  tokens 'x'
end goals 2 feasible 2 infeasible 0 large 0
";

const RECURSION_TEXTS: &[u8] = b"conform chains
token 1 'x'
rule 1 a : a
rule 2 a : 'x'
lexeme 'x' \"x\"
goal 1 chain 1 1 1 1 1 size 5
  derive 1 1 1 2
  tokens 'x'
  text \"x\"
goal 2 chain 1 1 1 1 2 size 4
  derive 1 1 2
  tokens 'x'
  text \"x\"
end goals 2 feasible 2 infeasible 0 large 0
";

// Rules that no sentence uses.
const APART: &[u8] = b"%%\ns : 'x' ;\na : a | 'x' ;\n";

const APART_CHAINS: &[u8] = b"conform chains
token 1 'x'
rule 1 s : 'x'
rule 2 a : a
rule 3 a : 'x'
goal 1 chain 2 1 2 1 2 infeasible
goal 2 chain 2 1 2 1 3 infeasible
end goals 2 feasible 0 infeasible 2 large 0
";

// Siblings before and behind, and a context. Goals that follow one another differ in the inner rule alone, or don't.
const NESTED: &[u8] = b"%%\ns : '(' e ')' ;\ne : e '+' e | 'x' ;\n";

const NESTED_CHAINS: &[u8] = b"conform chains
token 1 '('
token 2 ')'
token 3 '+'
token 4 'x'
rule 1 s : '(' e ')'
rule 2 e : e '+' e
rule 3 e : 'x'
goal 1 chain 1 2 2 1 2 size 13
  derive 1 2 2 3 3 3
  tokens '(' 'x' '+' 'x' '+' 'x' ')'
goal 2 chain 1 2 2 1 3 size 9
  derive 1 2 3 3
  tokens '(' 'x' '+' 'x' ')'
goal 3 chain 1 2 2 3 2 size 13
  derive 1 2 3 2 3 3
  tokens '(' 'x' '+' 'x' '+' 'x' ')'
goal 4 chain 1 2 2 3 3 size 9
  derive 1 2 3 3
  tokens '(' 'x' '+' 'x' ')'
goal 5 chain 2 1 2 1 2 size 17
  derive 1 2 2 2 3 3 3 3
  tokens '(' 'x' '+' 'x' '+' 'x' '+' 'x' ')'
goal 6 chain 2 1 2 1 3 size 13
  derive 1 2 2 3 3 3
  tokens '(' 'x' '+' 'x' '+' 'x' ')'
goal 7 chain 2 1 2 3 2 size 17
  derive 1 2 2 3 2 3 3 3
  tokens '(' 'x' '+' 'x' '+' 'x' '+' 'x' ')'
goal 8 chain 2 1 2 3 3 size 13
  derive 1 2 2 3 3 3
  tokens '(' 'x' '+' 'x' '+' 'x' ')'
goal 9 chain 2 3 2 1 2 size 17
  derive 1 2 3 2 2 3 3 3
  tokens '(' 'x' '+' 'x' '+' 'x' '+' 'x' ')'
goal 10 chain 2 3 2 1 3 size 13
  derive 1 2 3 2 3 3
  tokens '(' 'x' '+' 'x' '+' 'x' ')'
goal 11 chain 2 3 2 3 2 size 17
  derive 1 2 3 2 3 2 3 3
  tokens '(' 'x' '+' 'x' '+' 'x' '+' 'x' ')'
goal 12 chain 2 3 2 3 3 size 13
  derive 1 2 3 2 3 3
  tokens '(' 'x' '+' 'x' '+' 'x' ')'
end goals 12 feasible 12 infeasible 0 large 0
";

// Nothing under anything.
const ALONE: &[u8] = b"%%\ns : 'x' ;\n";

const ALONE_CHAINS: &[u8] = b"conform chains
token 1 'x'
rule 1 s : 'x'
end goals 0 feasible 0 infeasible 0 large 0
";

fn sink(alloc: Global, room: usize) -> Result<MemorySink, AllocError> {
    MemorySink::new(alloc, room, 7, Vec::new(alloc))
}

// Writes the chains of a yacc file, nodes counted.
fn write<'f, R: Threads + Sync>(
    rt: &R,
    alloc: Global,
    yacc: &YaccFile,
    work: Option<&'f RenderWork<'f>>,
    out: &mut MemorySink,
) -> Result<Result<(), Halt>, AllocError>
    requires work { HaveLexemes yacc.now work }
    requires few { length (chains yacc.now.grammar) ≤ 1000000 }
{
    let weights = Weights::nodes(alloc, yacc.grammar().tokens())?;
    let chained = Chained {
        yacc,
        weights: &weights,
        weigh: Weigh::Nodes,
        work,
    };
    Ok(write_chains(
        &Crew {
            rt,
            gate: &OpenGate,
        },
        alloc,
        &chained,
        out,
    ))
}

#[test]
fn chains_without_a_lex_file(rt: HostRuntime) -> Result<(), Fail> {
    let rows: [(&[u8], &[u8]); 4] = [
        (RECURSION, RECURSION_CHAINS),
        (NESTED, NESTED_CHAINS),
        (APART, APART_CHAINS),
        (ALONE, ALONE_CHAINS),
    ];
    for (bytes, want) in rows {
        let yacc = yacc_of(rt.alloc(), bytes)?;
        assert!(rt; total(rt.alloc(), yacc.grammar())? <= 1_000_000);
        let mut out = sink(rt.alloc(), 2_000)?;
        assert_eq!(rt; write(&rt, rt.alloc(), &yacc, None, &mut out)?, Ok(()));
        assert_eq!(rt; out.written(), want);
    }
    Ok(())
}

// The same with texts.
fn write_rendered<'f, R: Threads + Sync>(
    rt: &R,
    alloc: Global,
    yacc: &YaccFile,
    work: &'f RenderWork<'f>,
    out: &mut MemorySink,
) -> Result<Result<(), Halt>, AllocError>
    requires work { AreLexemes (scanning work.now.scanner.now) yacc.now.grammar.tokens
        work.now.lexemes.now }
    requires few { length (chains yacc.now.grammar) ≤ 1000000 }
{
    write(rt, alloc, yacc, Some(work), out)
}

// Writes the chains of a yacc file with the texts of a lex file.
fn write_texts<R: Threads + Sync>(
    rt: &R,
    alloc: Global,
    yacc: &YaccFile,
    lex: &LexFile,
    out: &mut MemorySink,
) -> Result<Result<(), Halt>, Trouble>
    requires { length (chains yacc.now.grammar) ≤ 1000000 }
{
    let automaton = Automaton::new(alloc, lex.patterns())?;
    let scanner = Scanner {
        automaton: &automaton,
        kinds: lex.kinds(),
        literals: lex.literals(),
    };
    let lexemes = Lexemes::new(alloc, &scanner, yacc.grammar().tokens())?;
    let work = RenderWork {
        scanner: &scanner,
        lexemes: &lexemes,
        separator: b" ",
    };
    Ok(write_rendered(rt, alloc, yacc, &work, out)?)
}

#[test]
fn chains_with_a_lex_file(rt: HostRuntime) -> Result<(), Fail> {
    let (yacc, lex) = read_files(rt.alloc(), RECURSION, LETTER_SCANNER)?;
    assert!(rt; total(rt.alloc(), yacc.grammar())? <= 1_000_000);
    let mut out = sink(rt.alloc(), 2_000)?;
    assert_eq!(rt;
        write_texts(&rt, rt.alloc(), &yacc, &lex, &mut out)?,
        Ok(())
    );
    assert_eq!(rt; out.written(), RECURSION_TEXTS);
    Ok(())
}

// An output that is full after so many bytes has these, and the call says that it failed.
#[test]
fn output_that_is_full_has_a_front(rt: HostRuntime) -> Result<(), Fail> {
    let yacc = yacc_of(rt.alloc(), RECURSION)?;
    assert!(rt; total(rt.alloc(), yacc.grammar())? <= 1_000_000);
    for room in [0, 1, 40, 100, 199] {
        let mut out = sink(rt.alloc(), room)?;
        assert_eq!(rt;
            write(&rt, rt.alloc(), &yacc, None, &mut out)?,
            Err(Halt::Failed)
        );
        assert!(rt; RECURSION_CHAINS.starts_with(out.written()));
    }
    Ok(())
}
