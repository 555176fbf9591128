// The manifest, written part by part.

ghost use Rattle.std.specs.Prelude.{◌≡◌, IfOk, OnErr, OnOk, option_map};
ghost use Rattle.cs_io.specs.Faults.{next_count};
ghost use Rattle.cs_manifest.specs.Manifest.Counts as spec;
ghost use Rattle.cs_manifest.specs.Manifest.Counts.{behind_end, end_of, with_shared_verdict, with_verdict};
ghost use Rattle.cs_manifest.specs.Writer.Entry.{IsNamedEntry};
ghost use Rattle.cs_manifest.specs.Manifest.Head.{IsNamedHead, first_cases, head_of, sharing_in};
ghost use Rattle.cs_manifest.specs.Writer.Progress.{TellsLines, begun, behind, lines_in, with_entry as counted};

use crate::manifest::{Counts, Form, Head, SharedVerdict};
use crate::output::{LINE_LENGTH, Output};
use crate::writer::Entry;
use crate::writer::put_entry::{put_end, put_entry};
use crate::writer::put_head::put_head;
use cs_io::{Sink, SinkError};
use cs_verdicts::Verdict;
use std::marker::Model;

/// A manifest whose lines go to a sink as they are made: the head, then the entries one by one, then the end.
///
/// It is seen as its head and the counts of what was written so far. After `SinkError::Failed` the sink has a prefix of the
/// lines of that call, and the manifest is as before. No call takes memory.
#[derive(Drop)]
pub struct Manifest<'a> {
    head: Head<'a>,
    counts: Counts,

    // Lent to the output of each entry; what it has between them means nothing.
    line: [u8; LINE_LENGTH],
}

impl<'a> Model for Manifest<'a> {
    ghost use Rattle.cs_manifest.specs.Writer.Progress.{Progress};

    ghost Value = { Progress };

    ghost use Rattle.cs_manifest.specs.Manifest.Head.{yacc_of, lexemes_of};

    ghost view = { λ m. record { file = yacc_of m.head; lexemes = lexemes_of m.head; counts = m.counts } };
}

impl<'a> Manifest<'a> {
    /// Writes the head. Lexemes are of as many tokens as the file has, and closed sets are those of its grammar.
    pub fn begin<S: Sink>(sink: &mut S, head: &Head<'a>) -> Result<Manifest<'a>, SinkError>
        requires { IsNamedHead head.now }
        ensures value { IfOk result (λ manifest. manifest ≡ begun head.now) }
        ensures lines { TellsLines S.Sink result (head_of head.now) sink.old sink.new }
    {
        let mut line = [0u8; LINE_LENGTH];
        let mut output = Output::new(sink, &mut line, 0);
        put_head(&mut output, head);
        let bytes = output.end()?;
        Ok(Manifest {
            head: *head,
            counts: first_counts(bytes, first_cases(head.form)),
            line,
        })
    }

    /// Writes an entry. Its numbers of tokens are of the head's file.
    #[inline(always)]
    pub fn entry<S: Sink>(&mut self, sink: &mut S, entry: &Entry<'_>) -> Result<(), SinkError>
        requires { IsNamedEntry self.old.file entry.now }
        ensures value { OnOk result (self.new ≡ behind self.old entry.now) }
        ensures unchanged { OnErr result (self.new ≡ self.old) }
        ensures lines { TellsLines S.Sink result (lines_in self.old entry.now) sink.old sink.new }
    {
        let mut output = Output::new(sink, &mut self.line, self.counts.bytes);
        put_entry(&mut output, self.head.yacc, entry);
        let bytes = output.end()?;
        count_entry(&mut self.counts, bytes, entry);
        Ok(())
    }

    /// Writes the end, with the counts of the entries, and answers these and the length of all lines.
    pub fn finish<S: Sink>(self, sink: &mut S) -> Result<Counts, SinkError>
        ensures counts { IfOk result (λ counts. counts ≡ behind_end self.entry.counts) }
        ensures lines { TellsLines S.Sink result (end_of self.entry.counts) sink.old sink.new }
    {
        let mut line = [0u8; LINE_LENGTH];
        let mut output = Output::new(sink, &mut line, self.counts.bytes);
        put_end(&mut output, &self.counts);
        let bytes = output.end()?;
        Ok(with_bytes(self.counts, bytes))
    }
}

// No entries, and so many bytes.
fn first_counts(bytes: u128, cases: Option<u64>) -> Counts
    ensures { result ≡ record (spec.first_counts bytes) { cases = cases } }
{
    Counts {
        goals: 0,
        feasible: 0,
        infeasible: 0,
        large: 0,
        negatives: 0,
        cases,
        bytes,
    }
}

// How many cases stand behind the head of a form that has cases.
fn first_cases(form: Form<'_>) -> Option<u64>
    ensures { result ≡ first_cases (sharing_in form.entry) }
{
    match form {
        Form::Rules | Form::Suite { .. } => None,
        Form::Shared { .. } => Some(0),
    }
}

// So many bytes.
fn with_bytes(counts: Counts, bytes: u128) -> Counts
    ensures { result ≡ record counts { bytes = bytes } }
{
    Counts { bytes, ..counts }
}

// Counts one more entry, and so many bytes.
#[inline(always)]
fn count_entry(counts: &mut Counts, bytes: u128, entry: &Entry<'_>)
    ensures { counts.new ≡ counted (record counts.old { bytes = bytes }) entry.now }
{
    counts.bytes = bytes;
    match entry {
        Entry::Goal { verdict, .. } => *counts = with_goal(*counts, verdict),
        Entry::Case { .. } => counts.cases = next_case(counts.cases),
        Entry::Shared { verdict, .. } => *counts = with_shared(*counts, *verdict),
        Entry::Base { .. } => {}
        Entry::Negative(_) | Entry::Filled(_) => {
            counts.negatives = counts.negatives.saturating_add(1);
        }
    }
}

// One more case, where there are some.
fn next_case(cases: Option<u64>) -> Option<u64>
    ensures { result ≡ option_map next_count cases }
{
    match cases {
        None => None,
        Some(cases) => Some(cases.saturating_add(1)),
    }
}

// One more goal.
fn with_goal(counts: Counts, verdict: &Verdict) -> Counts
    ensures { result ≡ with_verdict counts verdict.now }
{
    let goals = counts.goals.saturating_add(1);
    match verdict {
        Verdict::Feasible { .. } => Counts {
            goals,
            feasible: counts.feasible.saturating_add(1),
            ..counts
        },
        Verdict::Infeasible => Counts {
            goals,
            infeasible: counts.infeasible.saturating_add(1),
            ..counts
        },
        Verdict::Large => Counts {
            goals,
            large: counts.large.saturating_add(1),
            ..counts
        },
    }
}

// One more goal in the second format.
fn with_shared(counts: Counts, verdict: SharedVerdict) -> Counts
    ensures { result ≡ with_shared_verdict counts verdict }
{
    let goals = counts.goals.saturating_add(1);
    match verdict {
        SharedVerdict::Feasible { .. } => Counts {
            goals,
            feasible: counts.feasible.saturating_add(1),
            ..counts
        },
        SharedVerdict::Infeasible => Counts {
            goals,
            infeasible: counts.infeasible.saturating_add(1),
            ..counts
        },
        SharedVerdict::Large => Counts {
            goals,
            large: counts.large.saturating_add(1),
            ..counts
        },
    }
}
