// The lines of the second format: what is expected was written by hand from the page on formats.

ghost use Rattle.std.specs.Prelude.{◌≡◌, IfOk, OnOk, length};
ghost use Rattle.cs_verdicts.specs.Closed.Closed.{AreClosedSets};
ghost use Rattle.cs_manifest.specs.Output.Names.{AreNamedTokens, IsNamedMark};
ghost use Rattle.cs_manifest.specs.Manifest.Head.{IsNamedHead};
ghost use Rattle.cs_manifest.specs.Manifest.Named.{IsNamedGoal};

use crate::manifest::lines::DELETED;
use cs_choices::Weigh;
use cs_goals::Goal;
use cs_grammar::{Derivation, Mark, Weights};
use cs_io::{MemorySink, SinkError};
use cs_manifest::{Counts, Entry, Form, Head, Manifest, NumberedNegative, SharedVerdict};
use cs_mutate::{Edit, Negative};
use cs_sample_files::{Trouble, lexemes_of, read_files};
use cs_samples::{LETTER, LETTER_SCANNER, LETTER_SUITE_TWO, SCANNER, SUMS, SUMS_SUITE_TWO};
use cs_texts::{Rendered, RenderedParts};
use cs_verdicts::{Closed, Named, Tables};
use cs_yacc::YaccFile;
use std::alloc::{AllocError, Global};
use std::test::Fail;

// Empty trees of one nonterminal, a nonterminal that no sentence uses, and a pair that only it has.
const USELESS: &[u8] = b"%%\ns : a 'x' a ;\na : | 'y' ;\nu : 'y' 'y' ;\n";

const USELESS_SCANNER: &[u8] = b"%%\nx return 'x';\ny return 'y';\n";

const SETS: &[u8] = b"conform 2 suite
weigh bytes
token 1 'x'
token 2 'y'
rule 1 s : a 'x' a
rule 2 a :
rule 3 a : 'y'
rule 4 u : 'y' 'y'
lexeme 'x' \"x\"
lexeme 'y' \"y\"
closed productive s a u
closed reachable s a
closed empty a
closed first s : 'x' 'y'
closed first a : 'y'
closed first u : 'y'
closed last s : 'x' 'y'
closed last a : 'y'
closed last u : 'y'
closed next <begin> : 'x' 'y'
closed next 'x' : 'y' <end>
closed next 'y' : 'x' <end>
end goals 0 feasible 0 infeasible 0 large 0 negatives 0 cases 0
";

// The closed sets of the grammar of a file.
fn closed_of(alloc: Global, yacc: &YaccFile) -> Result<Closed, AllocError>
    ensures { IfOk result (AreClosedSets yacc.now.grammar) }
{
    let weights = Weights::nodes(alloc, yacc.grammar().tokens())?;
    let tables = Tables::new(alloc, yacc.grammar(), &weights)?;
    Closed::new(alloc, &tables)
}

// Writes what `write_lines` has for a yacc file and a lex file.
fn write(
    alloc: Global,
    files: (&[u8], &[u8]),
    weigh: Weigh,
    sink: &mut MemorySink,
) -> Result<Counts, Trouble> {
    let (yacc, lex) = read_files(alloc, files.0, files.1)?;
    let lexemes = lexemes_of(alloc, &yacc, &lex)?;
    let closed = closed_of(alloc, &yacc)?;
    let form = Form::Shared {
        lexemes: &lexemes,
        weigh,
        closed: &closed,
    };
    write_lines(alloc, &Head { yacc: &yacc, form }, sink)
}

// The files are told apart by how many tokens they have.
fn write_lines(alloc: Global, head: &Head<'_>, sink: &mut MemorySink) -> Result<Counts, Trouble>
    requires { IsNamedHead head.now }
{
    let mut manifest = Manifest::begin(sink, head)?;
    match head.yacc.token_names().len() {
        1 => {
            put_case(alloc, &mut manifest, sink, (1, 2), &[1], &[1], b"x")?;
            put_goals(&mut manifest, sink)?;
            put_mutants(alloc, &mut manifest, sink)?;
        }
        4 => put_rules(alloc, &mut manifest, sink)?,
        _ => {}
    }
    Ok(manifest.finish(sink)?)
}

fn put_case(
    alloc: Global,
    manifest: &mut Manifest<'_>,
    sink: &mut MemorySink,
    numbers: (u64, u32),
    code: &[u16],
    tokens: &[u16],
    text: &[u8],
) -> Result<(), Trouble>
    requires { AreNamedTokens manifest.old.file tokens.now }
    ensures { OnOk result (manifest.new.file ≡ manifest.old.file) }
{
    let (number, size) = numbers;
    let mut derivation = Derivation::new(alloc);
    derivation.extend_from_slice(code)?;
    let rendered = Rendered::Text(text.to_vec(alloc)?);
    let case = Entry::Case {
        number,
        size,
        derivation: &derivation,
        tokens,
        rendered: &rendered,
    };
    Ok(manifest.entry(sink, &case)?)
}

fn put_goal(
    manifest: &mut Manifest<'_>,
    sink: &mut MemorySink,
    number: u64,
    goal: Goal,
    verdict: SharedVerdict,
) -> Result<(), SinkError>
    requires { IsNamedGoal manifest.old.file goal }
    ensures { OnOk result (manifest.new.file ≡ manifest.old.file) }
{
    let goal = Entry::Shared {
        number,
        goal: &goal,
        verdict,
    };
    manifest.entry(sink, &goal)
}

fn feasible(size: u32, case: u64, first: u64) -> SharedVerdict {
    let named = Named {
        case,
        first,
        fresh: false,
    };
    SharedVerdict::Feasible { size, named }
}

fn put_rules(
    alloc: Global,
    manifest: &mut Manifest<'_>,
    sink: &mut MemorySink,
) -> Result<(), Trouble>
    requires { length manifest.old.file.token_names ≡ 4 }
{
    put_case(
        alloc,
        manifest,
        sink,
        (1, 7),
        &[1, 2, 3, 3],
        &[1, 2, 1],
        b"0 + 0",
    )?;
    put_goal(manifest, sink, 1, Goal::Rule(1), feasible(7, 1, 1))?;
    put_case(alloc, manifest, sink, (2, 3), &[2, 3], &[1], b"0")?;
    put_goal(manifest, sink, 2, Goal::Rule(2), feasible(3, 2, 1))?;
    put_goal(manifest, sink, 3, Goal::Rule(3), feasible(3, 2, 1))?;
    put_case(
        alloc,
        manifest,
        sink,
        (3, 7),
        &[2, 4, 2, 3],
        &[3, 1, 4],
        b"( 0 )",
    )?;
    Ok(put_goal(manifest, sink, 4, Goal::Rule(4), feasible(7, 3, 3))?)
}

fn put_pair(
    manifest: &mut Manifest<'_>,
    sink: &mut MemorySink,
    number: u64,
    left: Mark,
    right: Mark,
    verdict: SharedVerdict,
) -> Result<(), SinkError>
    requires left { IsNamedMark manifest.old.file left }
    requires right { IsNamedMark manifest.old.file right }
    ensures { OnOk result (manifest.new.file ≡ manifest.old.file) }
{
    put_goal(manifest, sink, number, Goal::Pair { left, right }, verdict)
}

fn put_goals(manifest: &mut Manifest<'_>, sink: &mut MemorySink) -> Result<(), SinkError>
    requires { length manifest.old.file.token_names ≡ 1 }
    ensures { OnOk result (manifest.new.file ≡ manifest.old.file) }
{
    let x = Mark::Token(1);
    let own = feasible(2, 1, 1);
    let none = SharedVerdict::Infeasible;
    put_goal(manifest, sink, 1, Goal::Rule(1), own)?;
    put_pair(manifest, sink, 2, Mark::Begin, x, own)?;
    put_pair(manifest, sink, 3, Mark::Begin, Mark::End, none)?;
    put_pair(manifest, sink, 4, x, x, none)?;
    put_pair(manifest, sink, 5, x, Mark::End, own)
}

fn put_mutants(
    alloc: Global,
    manifest: &mut Manifest<'_>,
    sink: &mut MemorySink,
) -> Result<(), Trouble>
    requires { length manifest.old.file.token_names ≡ 1 }
{
    manifest.entry(sink, &Entry::Base { number: 1, goal: 1 })?;
    put_deleted(manifest, sink)?;
    put_inserted(alloc, manifest, sink)
}

fn put_deleted(manifest: &mut Manifest<'_>, sink: &mut MemorySink) -> Result<(), Trouble>
    ensures { OnOk result (manifest.new.file ≡ manifest.old.file) }
{
    let negative = Entry::Negative(NumberedNegative {
        number: 1,
        base: 1,
        negative: DELETED,
        tokens: &[],
        rendered: RenderedParts::Text {
            front: &[],
            middle: &[],
            back: &[],
        },
    });
    Ok(manifest.entry(sink, &negative)?)
}

fn put_inserted(
    alloc: Global,
    manifest: &mut Manifest<'_>,
    sink: &mut MemorySink,
) -> Result<(), Trouble>
    requires { length manifest.old.file.token_names ≡ 1 }
{
    let rendered = Rendered::Text(b"x x".to_vec(alloc)?);
    let negative = Entry::Negative(NumberedNegative {
        number: 2,
        base: 1,
        negative: Negative {
            edit: Edit::Insert(0, 1),
            left: Mark::Token(1),
            right: Mark::Token(1),
            at: 1,
        },
        tokens: &[1, 1],
        rendered: rendered.parts(),
    });
    Ok(manifest.entry(sink, &negative)?)
}

#[test]
fn a_whole_manifest(rt: HostRuntime) -> Result<(), Fail> {
    let alloc = rt.alloc();
    let mut sink = MemorySink::new(alloc, LETTER_SUITE_TWO.len(), 7, Vec::new(alloc))?;
    let counts = write(alloc, (LETTER, LETTER_SCANNER), Weigh::Nodes, &mut sink)?;
    assert_eq!(rt; sink.written(), LETTER_SUITE_TWO);
    assert_eq!(rt; counts.cases, Some(1));
    assert_eq!(rt; counts.bytes, LETTER_SUITE_TWO.len() as u128);
    Ok(())
}

#[test]
fn rule_goals_that_share_cases(rt: HostRuntime) -> Result<(), Fail> {
    let alloc = rt.alloc();
    let whole = SUMS_SUITE_TWO.as_bytes();
    let mut sink = MemorySink::new(alloc, whole.len(), 7, Vec::new(alloc))?;
    let _counts = write(alloc, (SUMS, SCANNER), Weigh::Nodes, &mut sink)?;
    assert_eq!(rt; sink.written(), whole);
    Ok(())
}

#[test]
fn sets_over_all_trees_and_sentences(rt: HostRuntime) -> Result<(), Fail> {
    let alloc = rt.alloc();
    let mut sink = MemorySink::new(alloc, SETS.len(), 7, Vec::new(alloc))?;
    let _counts = write(alloc, (USELESS, USELESS_SCANNER), Weigh::Bytes, &mut sink)?;
    assert_eq!(rt; sink.written(), SETS);
    Ok(())
}
