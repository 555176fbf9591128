// The writer of `suite`.

ghost use Rattle.std.specs.Prelude.{◌≡◌, IfOk, IfSome, OnErr, OnOk};
ghost use Rattle.cs_choices.specs.declared.format.Format.TheVariants.{One};
ghost use Rattle.cs_grammar.specs.Weights.{IsMeasure};
ghost use Rattle.cs_writing.specs.Plan.Plans.{CanRender};
ghost use Rattle.cs_run.specs.Writer.Suite.{IsBy, IsSuiteBy, WritesManifest, form_by, format_with, means_by, measure_by, tables_by};
ghost use Rattle.cs_io.specs.declared.halt.Halt.TheVariants.{Failed};
ghost use Rattle.cs_writing.specs.Writing.Writing.{CountsOfAll, HasNoCases};
ghost use Rattle.cs_io.specs.Asked.{IsCalmForAll, MetFault, MetNone, Stopped, TookFront, TookOne};
ghost use Rattle.cs_scanner.specs.Scan.Compared.{scanning};
ghost use Rattle.cs_verdicts.specs.Closed.Closed.{AreClosedSets};
ghost use Rattle.cs_yacc.specs.Reading.File.{IsFile};

use crate::writer::weights::weights_of;
use cs_choices::Format;
use cs_fan::{Crew, Gate};
use cs_grammar::Weights;
use cs_io::{Halt, Sink};
use cs_manifest::Counts;
use cs_scanner::{Lexemes, Scanner};
use cs_texts::RenderWork;
use cs_verdicts::{Closed, Pairs, Positives, Tables};
use cs_words::Options;
use cs_writing::{Means, Mutation, Plan, PlanForm, write_out};
use cs_yacc::YaccFile;
use std::alloc::{AllocError, Global};
use std::thread::Threads;

/// Writes the manifest of a yacc file by what the options choose, with texts for this scanner, and
/// answers the counts of its end line and the length of all lines.
pub fn write_suite<R: Threads + Sync, O: Sink, G: Gate + Sync>(
    crew: &Crew<'_, R, G>,
    alloc: Global,
    yacc: &YaccFile,
    scanner: &Scanner<'_>,
    options: &Options,
    out: &mut O,
) -> Result<Counts, Halt>
    ensures ok { OnOk result
        (TookOne O.Sink (IsSuiteBy yacc.now (scanning scanner.now) options.now) out.old out.new) }
    ensures counts { IfOk result
        (CountsOfAll (IsSuiteBy yacc.now (scanning scanner.now) options.now)) }
    ensures first { options.now.format ≡ One → IfOk result HasNoCases }
    ensures part { OnErr result
        (TookFront O.Sink (IsSuiteBy yacc.now (scanning scanner.now) options.now) out.old out.new) }
    ensures no_fault { OnOk result (MetNone O.Sink out.old out.new) }
    ensures failed { Stopped Failed result → MetFault O.Sink out.old out.new }
    ensures room { IsCalmForAll O.Sink
        (IsSuiteBy yacc.now (scanning scanner.now) options.now) out.old out.new }
    ensures named { IsFile yacc.now }
{
    let tokens = yacc.grammar().tokens();
    let lexemes = Lexemes::new(alloc, scanner, tokens)?;
    let work = RenderWork {
        scanner,
        lexemes: &lexemes,
        separator: options.separator.bytes(),
    };
    let weights = weights_of(alloc, options.weigh, &lexemes, tokens)?;
    write_goals(crew, alloc, yacc, &weights, options, &work, out)
}

// The same by these texts and weights.
fn write_goals<R: Threads + Sync, O: Sink, G: Gate + Sync>(
    crew: &Crew<'_, R, G>,
    alloc: Global,
    file: &YaccFile,
    weights: &Weights,
    options: &Options,
    work: &RenderWork<'_>,
    out: &mut O,
) -> Result<Counts, Halt>
    requires weights { weights.now ≡ measure_by options.now file.now work.now }
    requires work { CanRender file.now work.now }
    ensures writes { WritesManifest O.Sink
        (IsBy work.now file.now options.now) options.now.format result out.old out.new }
{
    let tables = Tables::new(alloc, file.grammar(), weights)?;
    write_verdicts(crew, alloc, file, &tables, options, work, out)
}

// The same by these tables.
fn write_verdicts<'f, R: Threads + Sync, O: Sink, G: Gate + Sync>(
    crew: &Crew<'_, R, G>,
    alloc: Global,
    file: &'f YaccFile,
    tables: &'f Tables<'f>,
    options: &Options,
    work: &'f RenderWork<'f>,
    out: &mut O,
) -> Result<Counts, Halt>
    requires file { IsFile file.now }
    requires tables { tables.now ≡ tables_by options.now file.now work.now }
    requires measure { IsMeasure tables.now.weights }
    requires work { CanRender file.now work.now }
    ensures writes { WritesManifest O.Sink
        (IsBy work.now file.now options.now) options.now.format result out.old out.new }
{
    let closed = closed_for(alloc, options.format, tables)?;
    let plan = Plan {
        yacc: file,
        criteria: options.criteria,
        form: form_of(means_of(options, work, tables.pairs()), closed.as_ref()),
    };
    let positives = Positives::new(tables, options.criteria);
    write_out(crew, alloc, &plan, positives, out)
}

// The closed sets of a grammar, where the head of this format tells them.
fn closed_for(
    alloc: Global,
    format: Format,
    tables: &Tables<'_>,
) -> Result<Option<Closed>, AllocError>
    ensures sets { IfOk result (λ closed. IfSome closed (AreClosedSets tables.now.grammar)) }
    ensures told { IfOk result (λ closed. format_with closed ≡ format) }
{
    match format {
        Format::One => Ok(None),
        Format::Two => Ok(Some(Closed::new(alloc, tables)?)),
    }
}

// The form of a suite by these means, with closed sets where its head tells them.
fn form_of<'a>(means: Means<'a>, closed: Option<&'a Closed>) -> PlanForm<'a>
    ensures { result ≡ form_by means.entry closed.entry }
{
    match closed {
        None => PlanForm::Suite(means),
        Some(closed) => PlanForm::Shared(means, closed),
    }
}

/// What the options' suite is made by, with these texts and pairs.
pub(crate) fn means_of<'a>(
    options: &Options,
    work: &'a RenderWork<'a>,
    pairs: &'a Pairs<'a>,
) -> Means<'a>
    ensures { result ≡ means_by options.now work.entry pairs.entry }
{
    Means {
        work,
        mutation: Mutation {
            pairs,
            operators: options.operators,
            most: options.bases as u32,
            first: options.first,
        },
        weigh: options.weigh,
    }
}
