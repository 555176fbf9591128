// The bases and their negatives, line by line.

ghost use Rattle.std.specs.Prelude.{◌≡◌, ◌+◌, ◌≤◌, All, OnOk, length};
ghost use Rattle.cs_grammar.specs.Grammar.{IsNumberOf};
ghost use Rattle.cs_io.specs.Faults.{greatest};
ghost use Rattle.cs_manifest.specs.Manifest.Manifest.{most_bases};
ghost use Rattle.cs_writing.specs.Mutants.Makers.{CanRender};
ghost use Rattle.cs_writing.specs.Plan.Plans.{IsPlan, choice_in};
ghost use Rattle.cs_writing.specs.Writing.Mutants.{CountsBases, CountsMade, IsBasesText, IsBegun, IsEditable, IsPut, TellsMade};
ghost use Rattle.cs_io.specs.Stops.{PutsOne};

use crate::bases::Bases;
use crate::mutants::{MadeNegative, Maker, Tools};
use crate::plan::Plan;
use cs_io::{Halt, Sink};
use cs_manifest::{Entry, Manifest, Numeral, one_text};
use cs_mutate::{Keeper, Negatives};
use std::alloc::Global;

/// Writes the bases, numbered from 1, and behind each its negatives, numbered from 1 through all
/// bases. Where nothing is mutated there are no bases.
pub(crate) fn write_bases<S: Sink>(
    alloc: Global,
    plan: &Plan<'_>,
    bases: &Bases,
    manifest: &mut Manifest<'_>,
    sink: &mut S,
) -> Result<(), Halt>
    requires plan { IsPlan plan.now }
    requires bases { All (IsEditable plan.now.yacc.now.grammar.tokens) bases.now.list }
    requires few { length bases.now.list ≤ most_bases (choice_in plan.now) }
    requires file { manifest.old.file ≡ plan.now.yacc.now }
    requires fresh { manifest.old.counts.negatives ≡ 0 }
    ensures lent { S.lent sink.new ≡ S.lent sink.old }
    ensures text { PutsOne S.Sink (IsBasesText plan.now bases.now) sink.old sink.new result }
    ensures counted { OnOk result (CountsBases plan.now bases.now manifest.old manifest.new) }
{
    one_text();
    let Some(means) = plan.form.means() else {
        return Ok(());
    };
    let tools = Tools::new(alloc, plan.yacc, means.work)?;
    let mutation = means.mutation;
    let mut keeper = Keeper::new(alloc, mutation.first, mutation.pairs.grammar().tokens())?;
    write_each(alloc, plan, &tools, bases, &mut keeper, manifest, sink)
}

// The same with what negatives are made by, and a keeper that has kept none.
fn write_each<'b, S: Sink>(
    alloc: Global,
    plan: &Plan<'_>,
    tools: &'b Tools<'b>,
    bases: &'b Bases,
    keeper: &mut Keeper,
    manifest: &mut Manifest<'_>,
    sink: &mut S,
) -> Result<(), Halt>
    requires plan { IsPlan plan.now }
    requires bases { All (IsEditable plan.now.yacc.now.grammar.tokens) bases.now.list }
    requires few { length bases.now.list ≤ most_bases (choice_in plan.now) }
    requires file { manifest.old.file ≡ plan.now.yacc.now }
    requires fresh { manifest.old.counts.negatives ≡ 0 }
    requires begun { IsBegun plan.now tools.now keeper.old }
    ensures lent { S.lent sink.new ≡ S.lent sink.old }
    ensures text { PutsOne S.Sink (IsBasesText plan.now bases.now) sink.old sink.new result }
    ensures counted { OnOk result (CountsBases plan.now bases.now manifest.old manifest.new) }
{
    one_text();
    let Some(means) = plan.form.means() else {
        return Ok(());
    };
    let mutation = means.mutation;
    let mut number = Numeral::new(0);
    for index in 0..bases.len() {
        let (goal, tokens) = bases.get(index);
        let maker = Maker::new(alloc, tools, index + 1, tokens)?;
        let line = Entry::Base {
            number: index + 1,
            goal,
        };
        manifest.entry(sink, &line)?;
        let search = Negatives::new(alloc, mutation.pairs, tokens, mutation.operators);
        write_negatives(alloc, &maker, search, keeper, &mut number, manifest, sink)?;
    }
    Ok(())
}

// Writes the negatives that a search gives of a base and that are kept. `number` is that of the last negative, before and then.
fn write_negatives<S: Sink>(
    alloc: Global,
    base: &Maker<'_>,
    mut search: Negatives<'_>,
    keeper: &mut Keeper,
    number: &mut Numeral,
    manifest: &mut Manifest<'_>,
    sink: &mut S,
) -> Result<(), Halt>
    requires work { CanRender base.now.tools.work search.grammar.tokens }
    requires base { search.base ≡ base.now.base }
    requires short { length base.now.base ≤ 1000000 }
    requires tokens { All (IsNumberOf search.grammar.tokens) base.now.base }
    requires keeper { keeper.old.tokens ≡ search.grammar.tokens }
    requires file { manifest.old.file ≡ base.now.tools.file }
    requires names { length manifest.old.file.token_names ≡ search.grammar.tokens }
    requires number { number.old ≡ manifest.old.counts.negatives }
    requires few { number.old + length search.edits ≤ greatest }
    ensures file { manifest.new.file ≡ manifest.old.file }
    ensures lent { S.lent sink.new ≡ S.lent sink.old }
    ensures number { OnOk result (number.new ≡ manifest.new.counts.negatives) }
    ensures first { keeper.new.first ≡ keeper.old.first }
    ensures tokens { keeper.new.tokens ≡ keeper.old.tokens }

    // Whichever negatives were kept before.
    ensures text { IsPut S.Sink keeper.old
        manifest.old base.now search.entry sink.old sink.new result }
    ensures adds { OnOk result
        (CountsMade keeper.old base.now search.entry manifest.old manifest.new) }
    ensures told { OnOk result (TellsMade base.now search.entry keeper.old keeper.new) }
{
    let mut made = MadeNegative::new(alloc, base);
    write_found(&mut search, &mut made, keeper, number, manifest, sink)
}

// The same where it is said in which memory each is made.
fn write_found<S: Sink>(
    search: &mut Negatives<'_>,
    made: &mut MadeNegative<'_>,
    keeper: &mut Keeper,
    number: &mut Numeral,
    manifest: &mut Manifest<'_>,
    sink: &mut S,
) -> Result<(), Halt>
    requires work { CanRender made.old.making.tools.work search.old.grammar.tokens }
    requires base { search.old.base ≡ made.old.making.base }
    requires short { length made.old.making.base ≤ 1000000 }
    requires tokens { All (IsNumberOf search.old.grammar.tokens) made.old.making.base }
    requires keeper { keeper.old.tokens ≡ search.old.grammar.tokens }
    requires file { manifest.old.file ≡ made.old.making.tools.file }
    requires names { length manifest.old.file.token_names ≡ search.old.grammar.tokens }
    requires number { number.old ≡ manifest.old.counts.negatives }
    requires few { number.old + length search.old.edits ≤ greatest }
    ensures file { manifest.new.file ≡ manifest.old.file }
    ensures lent { S.lent sink.new ≡ S.lent sink.old }
    ensures number { OnOk result (number.new ≡ manifest.new.counts.negatives) }
    ensures first { keeper.new.first ≡ keeper.old.first }
    ensures tokens { keeper.new.tokens ≡ keeper.old.tokens }
    ensures text { IsPut S.Sink keeper.old
        manifest.old made.old.making search.old sink.old sink.new result }
    ensures adds { OnOk result
        (CountsMade keeper.old made.old.making search.old manifest.old manifest.new) }
    ensures told { OnOk result
        (TellsMade made.old.making search.old keeper.old keeper.new) }
{
    one_text();
    'negatives: loop {
        match keeper.next(search)? {
            None => return Ok(()),
            Some(negative) => {
                made.make(&negative)?;
                number.advance();
                made.write(&*number, manifest, sink)?;
            }
        }
    }
}
