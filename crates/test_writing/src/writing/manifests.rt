// The whole manifests of `docs/FORMATS.md`, one in each format, by `write_out`.

ghost use Rattle.std.specs.Prelude.{◌≡◌, IfSome};
ghost use Rattle.cs_verdicts.specs.Closed.Closed.{AreClosedSets};
ghost use Rattle.cs_grammar.specs.Weights.{nodes};
ghost use Rattle.cs_writing.specs.Plan.Plans.{CanRender};

use crate::writing::writers::letter_counts;
use cs_choices::{Criteria, Format, Operators, Weigh};
use cs_fan::{Crew, OpenGate};
use cs_grammar::Weights;
use cs_io::{Halt, MemorySink};
use cs_manifest::Counts;
use cs_sample_files::{Trouble, read_files};
use cs_samples::{LETTER, LETTER_SCANNER, LETTER_SUITE_TWO, SCANNER, SUMS, SUMS_SUITE_ONE};
use cs_scanner::{Automaton, Lexemes, Scanner};
use cs_texts::RenderWork;
use cs_verdicts::{Closed, Positives, Tables};
use cs_words::Options;
use cs_writing::{Means, Mutation, Plan, PlanForm, write_out};
use cs_yacc::YaccFile;
use std::alloc::{AllocError, Global};
use std::test::Fail;
use std::thread::Threads;

// The page's manifest of the first format goes as `SUMS_SUITE_ONE` up to this line, and on as `SUMS_NEGATIVES`.
const SUMS_END: &str = "end goals 4 feasible 4 infeasible 0 large 0 negatives 0\n";

const SUMS_NEGATIVES: &[u8] = b"base 1 goal 1
negative 1 base 1 delete 0 pair <begin> '+' at 0
  tokens '+' NUM
  text \"+ 0\"
negative 2 base 1 delete 1 pair NUM NUM at 1
  tokens NUM NUM
  text \"0 0\"
negative 3 base 1 delete 2 pair '+' <end> at 2
  tokens NUM '+'
  text \"0 +\"
end goals 4 feasible 4 infeasible 0 large 0 negatives 3
";

// The page's manifest of the first format.
fn sums_whole(alloc: Global) -> Result<Vec<u8>, AllocError> {
    let mut whole = Vec::new(alloc);
    if let Some(front) = SUMS_SUITE_ONE.strip_suffix(SUMS_END) {
        whole.extend_from_slice(front.as_bytes())?;
    }
    whole.extend_from_slice(SUMS_NEGATIVES)?;
    Ok(whole)
}

// The options of the page's manifest of the first format.
fn first_options() -> Options {
    Options {
        criteria: Criteria {
            rule: true,
            cdrc: false,
            pair: false,
        },
        operators: Operators {
            delete: true,
            insert: false,
            replace: false,
            swap: false,
        },
        bases: 1,
        format: Format::One,
        ..Options::defaults()
    }
}

// Writes the manifest of a yacc file and a lex file.
fn write<R: Threads + Sync>(
    rt: &R,
    alloc: Global,
    files: (&[u8], &[u8]),
    options: &Options,
    out: &mut MemorySink,
) -> Result<Result<Counts, Halt>, Trouble> {
    let (yacc, lex) = read_files(alloc, files.0, files.1)?;
    let automaton = Automaton::new(alloc, lex.patterns())?;
    let scanner = Scanner {
        automaton: &automaton,
        kinds: lex.kinds(),
        literals: lex.literals(),
    };
    let lexemes = Lexemes::new(alloc, &scanner, yacc.grammar().tokens())?;
    let work = RenderWork {
        scanner: &scanner,
        lexemes: &lexemes,
        separator: b" ",
    };
    Ok(write_goals(rt, alloc, &yacc, &work, options, out)?)
}

// The same with these texts.
fn write_goals<'f, R: Threads + Sync>(
    rt: &R,
    alloc: Global,
    yacc: &'f YaccFile,
    work: &'f RenderWork<'f>,
    options: &Options,
    out: &mut MemorySink,
) -> Result<Result<Counts, Halt>, AllocError>
    requires { CanRender yacc.now work.now }
{
    let weights = Weights::nodes(alloc, yacc.grammar().tokens())?;
    let tables = Tables::new(alloc, yacc.grammar(), &weights)?;
    if options.format == Format::One {
        return Ok(write_plan(rt, alloc, yacc, work, &tables, None, options, out));
    }
    let closed = Closed::new(alloc, &tables)?;
    Ok(write_plan(rt, alloc, yacc, work, &tables, Some(&closed), options, out))
}

// The same by these tables, and in the second format by closed sets.
fn write_plan<'f, R: Threads + Sync>(
    rt: &R,
    alloc: Global,
    yacc: &'f YaccFile,
    work: &'f RenderWork<'f>,
    tables: &'f Tables<'f>,
    closed: Option<&'f Closed>,
    options: &Options,
    out: &mut MemorySink,
) -> Result<Counts, Halt>
    requires work { CanRender yacc.now work.now }
    requires grammar { tables.now.grammar ≡ yacc.now.grammar }
    requires weights { tables.now.weights ≡ nodes yacc.now.grammar.tokens }
    requires closed { IfSome closed (λ sets. AreClosedSets yacc.now.grammar sets.now) }
{
    let _named = yacc.grammar();
    let positives = Positives::new(tables, options.criteria);
    let means = Means {
        work,
        mutation: Mutation {
            pairs: tables.pairs(),
            operators: options.operators,
            most: options.bases as u32,
            first: None,
        },
        weigh: Weigh::Nodes,
    };
    match closed {
        None => {
            let plan = Plan {
                yacc,
                criteria: options.criteria,
                form: PlanForm::Suite(means),
            };
            write_out(
                &Crew {
                    rt,
                    gate: &OpenGate,
                },
                alloc,
                &plan,
                positives,
                out,
            )
        }
        Some(closed) => {
            let plan = Plan {
                yacc,
                criteria: options.criteria,
                form: PlanForm::Shared(means, closed),
            };
            write_out(
                &Crew {
                    rt,
                    gate: &OpenGate,
                },
                alloc,
                &plan,
                positives,
                out,
            )
        }
    }
}

#[test]
fn first_format(rt: HostRuntime) -> Result<(), Fail> {
    let alloc = rt.alloc();
    let mut out = MemorySink::new(alloc, 2_000, 7, Vec::new(alloc))?;
    let counts = write(&rt, alloc, (SUMS, SCANNER), &first_options(), &mut out)?;
    let whole = sums_whole(alloc)?;
    let wanted = Counts {
        goals: 4,
        feasible: 4,
        infeasible: 0,
        large: 0,
        negatives: 3,
        cases: None,
        bytes: whole.len() as u128,
    };
    assert_eq!(rt; counts, Ok(wanted));
    assert_eq!(rt; out.written(), whole.as_slice());
    Ok(())
}

#[test]
fn second_format(rt: HostRuntime) -> Result<(), Fail> {
    let alloc = rt.alloc();
    let mut out = MemorySink::new(alloc, 2_000, 7, Vec::new(alloc))?;
    let counts = write(
        &rt,
        alloc,
        (LETTER, LETTER_SCANNER),
        &Options::defaults(),
        &mut out,
    )?;
    assert_eq!(rt; counts, Ok(letter_counts()));
    assert_eq!(rt; out.written(), LETTER_SUITE_TWO);
    Ok(())
}
