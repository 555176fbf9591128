// The lines of spellings.

ghost use Rattle.cs_manifest.specs.Output.Putting.{Puts};
ghost use Rattle.cs_manifest.specs.Output.Words.{with_numbers};
ghost use Rattle.cs_spell.specs.Writing.Counts.{end_of};
ghost use Rattle.cs_spell.specs.Telling.Lines as lines;
ghost use Rattle.cs_spell.specs.Writing.Putting.{AreNamed, IsNamed, IsNamedShown, spell_text_of, told_text};
ghost use Rattle.cs_spell.specs.Telling.Telling.{IsNamedWay};
ghost use Rattle.cs_spell.specs.Telling.Seen.{showing_of, told_of};

use crate::telling::{Shown, Told};
use crate::texts::Way;
use crate::writing::counting::Counts;
use cs_io::Sink;
use cs_manifest::{Output, put_count, put_derivation, put_rendered, put_spaced_token, put_yield};
use cs_yacc::YaccFile;

// ` goal G size S`
fn put_goal<S: Sink>(output: &mut Output<'_, S>, rule: u16, size: u32)
    ensures { Puts S.Sink (lines.goal_words rule size) output.old output.new }
{
    put_count(output, b" goal ", rule as u64);
    put_count(output, b" size ", size as u64);
}

// ` token NAME goal G size S at K` or ` skip goal G size S`
fn put_way<S: Sink>(output: &mut Output<'_, S>, file: &YaccFile, way: Way, rule: u16, size: u32)
    requires { IsNamedWay file.now way }
    ensures { Puts S.Sink (lines.way_words file.now way rule size) output.old output.new }
{
    match way {
        Way::Gives { token, place } => {
            output.put(b" token");
            put_spaced_token(output, file, token);
            put_goal(output, rule, size);
            put_count(output, b" at ", place as u64);
        }
        Way::Skips => {
            output.put(b" skip");
            put_goal(output, rule, size);
        }
    }
}

fn put_shown<S: Sink>(output: &mut Output<'_, S>, file: &YaccFile, shown: &Shown<'_>)
    requires { IsNamedShown file.now shown.now }
    ensures { Puts S.Sink (lines.showing_lines file.now (showing_of shown.now))
        output.old output.new }
{
    put_way(output, file, shown.way, shown.rule, shown.size);
    put_derivation(output, shown.derivation.rules());
    put_yield(output, file, shown.tokens);
    put_rendered(output, file, shown.rendered.parts());
}

fn put_told<S: Sink>(output: &mut Output<'_, S>, file: &YaccFile, told: &Told<'_>)
    requires { IsNamed file.now told.now }
    ensures { Puts S.Sink (lines.told_lines file.now (told_of told.now)) output.old output.new }
{
    match told {
        Told::Shadowed => output.put(b" shadowed\n"),
        Told::Foreign => output.put(b" foreign\n"),
        Told::Literal => output.put(b" literal\n"),
        Told::Infeasible => output.put(b" infeasible\n"),
        Told::Large => output.put(b" large\n"),
        Told::Shown(shown) => put_shown(output, file, shown),
    }
}

// `spelling R` and what is told of rule R.
fn put_spelling<S: Sink>(output: &mut Output<'_, S>, file: &YaccFile, number: u64, told: &Told<'_>)
    requires { IsNamed file.now told.now }
    ensures { Puts S.Sink (told_text file.now number told.now) output.old output.new }
{
    put_count(output, b"spelling ", number);
    put_told(output, file, told);
}

fn put_spellings<S: Sink>(output: &mut Output<'_, S>, file: &YaccFile, told: &[Told<'_>])
    requires { AreNamed file.now told.now }
    ensures { Puts S.Sink (with_numbers (told_text file.now) told.now) output.old output.new }
{
    for (place, told) in told.iter().enumerate() {
        put_spelling(output, file, place as u64 + 1, told);
    }
}

fn put_end<S: Sink>(output: &mut Output<'_, S>, counts: Counts)
    ensures { Puts S.Sink (end_of counts) output.old output.new }
{
    put_count(output, b"end rules ", counts.rules);
    put_count(output, b" spelled ", counts.shown);
    put_count(output, b" shadowed ", counts.shadowed);
    put_count(output, b" foreign ", counts.foreign);
    put_count(output, b" literal ", counts.literal);
    put_count(output, b" infeasible ", counts.infeasible);
    put_count(output, b" large ", counts.large);
    output.put(b"\n");
}

/// The whole text.
pub(crate) fn put_spell<S: Sink>(
    output: &mut Output<'_, S>,
    file: &YaccFile,
    told: &[Told<'_>],
    counts: Counts,
)
    requires { AreNamed file.now told.now }
    ensures { Puts S.Sink (spell_text_of file.now told.now counts) output.old output.new }
{
    output.put(b"conform spell\n");
    put_spellings(output, file, told);
    put_end(output, counts);
}
