// The lines of goals, of bases and negatives, and the end.

ghost use Rattle.std.specs.Prelude.{◌∷◌, decimal};
ghost use Rattle.cs_bytes.specs.Names.{space};
ghost use Rattle.cs_manifest.specs.Output.Names as names;
ghost use Rattle.cs_manifest.specs.Output.Putting.{Puts};
ghost use Rattle.cs_manifest.specs.Output.Words as words;
ghost use Rattle.cs_manifest.specs.Writer.Entry.{IsNamedEntry, IsNamedNumbered, lines_of, lines_of_filled, lines_of_numbered, rendering_of};
ghost use Rattle.cs_manifest.specs.Manifest.Counts.{end_of};
ghost use Rattle.cs_manifest.specs.Writer.Below as below;
ghost use Rattle.cs_manifest.specs.Writer.Below.{text_below, texts_below};
ghost use Rattle.cs_manifest.specs.Manifest.Lines as lines;
ghost use Rattle.cs_manifest.specs.Manifest.Named.{AreNamedRenderings, IsNamedEdit, IsNamedGoal, IsNamedNegative, IsNamedRendering};
ghost use Rattle.cs_manifest.specs.Manifest.SharedLines as shared;
ghost use Rattle.cs_texts.specs.Rendering.Rendering.{rendering_in};

use crate::manifest::{Counts, SharedVerdict};
use crate::output::{
    Output, put_count, put_spaced_mark, put_spaced_token, put_text_bytes, put_yield,
};
use crate::writer::{Entry, FilledNegative, NumberedNegative};
use cs_goals::Goal;
use cs_grammar::{Derivation, Mark};
use cs_io::Sink;
use cs_mutate::{Edit, Negative};
use cs_texts::{Rendered, RenderedParts};
use cs_verdicts::Verdict;
use cs_yacc::YaccFile;

/// The lines of an entry.
#[inline(always)]
pub(crate) fn put_entry<S: Sink>(output: &mut Output<'_, S>, file: &YaccFile, entry: &Entry<'_>)
    requires { IsNamedEntry file.now entry.now }
    ensures { Puts S.Sink (lines_of file.now entry.now) output.old output.new }
{
    match *entry {
        Entry::Goal {
            number,
            goal,
            verdict,
            tokens,
            rendered,
        } => {
            put_goal_words(output, file, number, goal);
            put_verdict(output, file, verdict, tokens);
            put_text_lines(output, file, rendered);
        }
        Entry::Case {
            number,
            size,
            derivation,
            tokens,
            rendered,
        } => {
            put_count(output, b"case ", number);
            put_tree(output, file, size, derivation, tokens);
            put_rendered(output, file, rendered.parts());
        }
        Entry::Shared {
            number,
            goal,
            verdict,
        } => {
            put_goal_words(output, file, number, goal);
            put_shared_verdict(output, verdict);
        }
        Entry::Base { number, goal } => put_base(output, number, goal),
        Entry::Negative(numbered) => put_negative(output, file, &numbered),
        Entry::Filled(filled) => put_filled(output, &filled),
    }
}

// `goal N GOAL`
#[inline(never)]
fn put_goal_words<S: Sink>(output: &mut Output<'_, S>, file: &YaccFile, number: u64, goal: &Goal)
    requires { IsNamedGoal file.now goal.now }
    ensures { Puts S.Sink (lines.goal_words file.now number goal.now) output.old output.new }
{
    put_count(output, b"goal ", number);
    put_spaced_goal(output, file, goal);
}

fn put_spaced_goal<S: Sink>(output: &mut Output<'_, S>, file: &YaccFile, goal: &Goal)
    requires { IsNamedGoal file.now goal.now }
    ensures { Puts S.Sink (space ∷ lines.goal_text file.now goal.now) output.old output.new }
{
    match *goal {
        Goal::Rule(rule) => put_count(output, b" rule ", rule as u64),
        Goal::Context {
            outer,
            place,
            inner,
        } => {
            put_count(output, b" context ", outer as u64);
            output.put_spaced_number(place as u64);
            output.put_spaced_number(inner as u64);
        }
        Goal::Pair { left, right } => {
            output.put(b" pair");
            put_pair(output, file, left, right);
        }
    }
}

// Two marks, each behind a space.
fn put_pair<S: Sink>(output: &mut Output<'_, S>, file: &YaccFile, left: Mark, right: Mark)
    requires left { names.IsNamedMark file.now left }
    requires right { names.IsNamedMark file.now right }
    ensures { Puts S.Sink (below.two_marks file.now left right) output.old output.new }
{
    put_spaced_mark(output, file, left);
    put_spaced_mark(output, file, right);
}

// A verdict's words and the lines below, without the last newline.
#[inline(never)]
fn put_verdict<S: Sink>(
    output: &mut Output<'_, S>,
    file: &YaccFile,
    verdict: &Verdict,
    tokens: &[u16],
)
    requires { names.AreNamedTokens file.now tokens.now }
    ensures { Puts S.Sink (below.verdict_words file.now verdict.now tokens.now)
        output.old output.new }
{
    match verdict {
        Verdict::Infeasible => output.put(b" infeasible"),
        Verdict::Large => output.put(b" large"),
        Verdict::Feasible { size, derivation } => put_tree(output, file, *size, derivation, tokens),
    }
}

// ` size S`, and the lines of a derivation and its tokens, without the last newline.
#[inline(never)]
fn put_tree<S: Sink>(
    output: &mut Output<'_, S>,
    file: &YaccFile,
    size: u32,
    code: &Derivation,
    tokens: &[u16],
)
    requires { names.AreNamedTokens file.now tokens.now }
    ensures { Puts S.Sink (below.tree_words file.now size code.now tokens.now)
        output.old output.new }
{
    put_count(output, b" size ", size as u64);
    put_derivation(output, code.rules());
    put_yield(output, file, tokens);
}

#[inline(never)]
fn put_shared_verdict<S: Sink>(output: &mut Output<'_, S>, verdict: SharedVerdict)
    ensures { Puts S.Sink (shared.shared_verdict_line verdict) output.old output.new }
{
    match verdict {
        SharedVerdict::Infeasible => output.put(b" infeasible\n"),
        SharedVerdict::Large => output.put(b" large\n"),
        SharedVerdict::Feasible { size, named } => {
            put_count(output, b" size ", size as u64);
            put_count(output, b" case ", named.case);
            put_count(output, b" first ", named.first);
            output.put(b"\n");
        }
    }
}

/// Puts the newline, and below it what came of the rendering of a list, where there is one.
#[inline(never)]
pub fn put_text_lines<S: Sink>(
    output: &mut Output<'_, S>,
    file: &YaccFile,
    rendered: Option<&Rendered>,
)
    requires { AreNamedRenderings file.now (rendering_of rendered) }
    ensures { Puts S.Sink (texts_below file.now (rendering_of rendered.entry))
        output.old output.new }
{
    match rendered {
        None => output.put(b"\n"),
        Some(rendered) => put_rendered(output, file, rendered.parts()),
    }
}

/// Puts the line of a derivation behind the newline above, without its own: its rules by their numbers.
pub fn put_derivation<S: Sink>(output: &mut Output<'_, S>, rules: &[u16])
    ensures { Puts S.Sink (below.derive_below rules.now) output.old output.new }
{
    output.put(b"\n  derive");
    put_numbers(output, rules);
}

fn put_numbers<S: Sink>(output: &mut Output<'_, S>, numbers: &[u16])
    ensures { Puts S.Sink (words.spaced decimal numbers.now) output.old output.new }
{
    for number in numbers {
        output.put_spaced_number(*number as u64);
    }
}

/// Puts the text line behind the newline above: the text, or why there is none.
#[inline(never)]
pub fn put_rendered<S: Sink>(
    output: &mut Output<'_, S>,
    file: &YaccFile,
    rendered: RenderedParts<'_>,
)
    requires { IsNamedRendering file.now (rendering_in rendered) }
    ensures { Puts S.Sink (text_below file.now (rendering_in rendered.entry))
        output.old output.new }
{
    match rendered {
        RenderedParts::Text {
            front,
            middle,
            back,
        } => put_text_line(output, front, middle, back),
        RenderedParts::NoLexeme(token) => {
            output.put(b"\n  no text lexeme");
            put_spaced_token(output, file, token);
            output.put(b"\n");
        }
        RenderedParts::Differs { after } => {
            put_count(output, b"\n  no text scan ", after as u64);
            output.put(b"\n");
        }
    }
}

// The line of a text in three parts.
fn put_text_line<S: Sink>(output: &mut Output<'_, S>, front: &[u8], middle: &[u8], back: &[u8])
    ensures { Puts S.Sink (below.parts_below front.now middle.now back.now)
        output.old output.new }
{
    output.put(b"\n  text \"");
    put_text_bytes(output, front);
    put_text_bytes(output, middle);
    put_text_bytes(output, back);
    output.put(b"\"\n");
}

#[inline(never)]
fn put_base<S: Sink>(output: &mut Output<'_, S>, number: u32, goal: u64)
    ensures { Puts S.Sink (lines.base_line number goal) output.old output.new }
{
    put_count(output, b"base ", number as u64);
    put_count(output, b" goal ", goal);
    output.put(b"\n");
}

#[inline(never)]
fn put_negative<S: Sink>(
    output: &mut Output<'_, S>,
    file: &YaccFile,
    numbered: &NumberedNegative<'_>,
)
    requires { IsNamedNumbered file.now numbered.now }
    ensures { Puts S.Sink (lines_of_numbered file.now numbered.now) output.old output.new }
{
    put_base_words(output, numbered.number, numbered.base);
    put_fault(output, file, &numbered.negative);
    put_yield(output, file, numbered.tokens);
    put_rendered(output, file, numbered.rendered);
}

#[inline(always)]
fn put_filled<S: Sink>(output: &mut Output<'_, S>, negative: &FilledNegative<'_>)
    ensures { Puts S.Sink (lines_of_filled negative.now) output.old output.new }
{
    let lines = negative.lines;
    output.put(b"negative ");
    output.put_numeral(negative.number);
    output.put_piece(&lines.head);
    output.put_piece(negative.name);
    output.put_piece(&lines.pair);
    output.put_piece(negative.name);
    output.put_piece(&lines.list);
    output.put_piece(negative.name);
    output.put_piece(&lines.text);
    output.put_piece(negative.lexeme);
    output.put_piece(&lines.end);
}

// `negative N base B`
fn put_base_words<S: Sink>(output: &mut Output<'_, S>, number: u64, base: u32)
    ensures { Puts S.Sink (lines.base_words number base) output.old output.new }
{
    put_count(output, b"negative ", number);
    put_count(output, b" base ", base as u64);
}

// ` EDIT pair A B at K`, without the newline.
fn put_fault<S: Sink>(output: &mut Output<'_, S>, file: &YaccFile, negative: &Negative)
    requires { IsNamedNegative file.now negative.now }
    ensures { Puts S.Sink (below.fault_words file.now negative.now) output.old output.new }
{
    put_edit(output, file, negative.edit);
    output.put(b" pair");
    put_pair(output, file, negative.left, negative.right);
    put_count(output, b" at ", negative.at as u64);
}

/// Puts an edit behind a space.
pub fn put_edit<S: Sink>(output: &mut Output<'_, S>, file: &YaccFile, edit: Edit)
    requires { IsNamedEdit file.now edit }
    ensures { Puts S.Sink (space ∷ lines.edit_text file.now edit) output.old output.new }
{
    match edit {
        Edit::Delete(place) => put_count(output, b" delete ", place as u64),
        Edit::Insert(place, token) => {
            put_count(output, b" insert ", place as u64);
            put_spaced_token(output, file, token);
        }
        Edit::Replace(place, token) => {
            put_count(output, b" replace ", place as u64);
            put_spaced_token(output, file, token);
        }
        Edit::Swap(place) => put_count(output, b" swap ", place as u64),
    }
}

/// The end line.
pub(crate) fn put_end<S: Sink>(output: &mut Output<'_, S>, counts: &Counts)
    ensures { Puts S.Sink (end_of counts.now) output.old output.new }
{
    put_count(output, b"end goals ", counts.goals);
    put_count(output, b" feasible ", counts.feasible);
    put_count(output, b" infeasible ", counts.infeasible);
    put_count(output, b" large ", counts.large);
    put_count(output, b" negatives ", counts.negatives);
    put_cases(output, counts.cases);
    output.put(b"\n");
}

// ` cases C`, where there are some.
fn put_cases<S: Sink>(output: &mut Output<'_, S>, cases: Option<u64>)
    ensures { Puts S.Sink (lines.cases_words cases) output.old output.new }
{
    match cases {
        None => {}
        Some(cases) => put_count(output, b" cases ", cases),
    }
}
