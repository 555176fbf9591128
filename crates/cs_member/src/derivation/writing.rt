// The derivation of a list, written from its end by the way back through the chart.

ghost use Rattle.std.specs.Prelude.{◌≡◌, ◌+◌, ◌++◌, None, Some, All, IfOk, OnOk, reverse};
ghost use Rattle.std.specs.Option.{option_to_list};
ghost use Rattle.cs_grammar.specs.Grammar.{IsNumberOf};
ghost use Rattle.cs_grammar.specs.declared.symbol.Symbol.TheVariants.{Nonterminal};
ghost use Rattle.cs_member.specs.declared.derivation.writing.Task.TheVariants.{Empty, Trees, Tree as TreeOf};
ghost use Rattle.cs_member.specs.Tables.Item.{IsItem};
ghost use Rattle.cs_member.specs.Tables.Whole.{IsTables};
ghost use Rattle.cs_member.specs.Tables.Tables.{HasEmpty};
ghost use Rattle.cs_member.specs.Derivation.Back.{IsAt, IsChild};
ghost use Rattle.cs_member.specs.Derivation.Writing.{IsTask, LeavesFront, empty_tasks};
ghost use Rattle.cs_member.specs.Chart.Asked.{IsChartOf};
ghost use Rattle.cs_member.specs.Derivation.Asked.{IsBackOf, WritesOf, Takes, TakesBack};

use crate::chart::{Position, Question};
use crate::derivation::back::{Sought, WayBack, find_by, find_way};
use crate::tables::Item;
use cs_grammar::{Derivation, Symbol};
use std::alloc::{AllocError, Global};

// What is still to be written.
#[derive(Clone, Copy, Debug)]
pub(crate) enum Task {
    // The number of a rule.
    Rule(u16),
    // An empty tree of a nonterminal.
    Empty(u16),
    // The rule of an item and trees of the symbols before its place, which yield the tokens between two positions.
    Trees { item: Item, from: u16, at: u16 },
    // A tree of the span of this number up to a position.
    Tree { number: usize, at: u16 },
}

// Leaves the empty trees of symbols.
fn leave_empties(tasks: &mut Vec<Task>, symbols: &[Symbol]) -> Result<(), AllocError>
    ensures { OnOk result (tasks.new.items ≡ tasks.old.items ++ empty_tasks symbols.now) }
{
    for symbol in symbols {
        if let Symbol::Nonterminal(nonterminal) = *symbol {
            tasks.push(Task::Empty(nonterminal))?;
        }
    }
    Ok(())
}

// Leaves the rule of an item and the empty trees of the symbols before its place.
fn leave_front(question: &Question, tasks: &mut Vec<Task>, item: Item) -> Result<(), AllocError>
    requires { IsItem question.now.grammar.now item }
    ensures { OnOk result (LeavesFront question.now.grammar.now item
        tasks.old.items tasks.new.items) }
{
    tasks.push(Task::Rule(item.rule))?;
    let right = question.grammar.rule(item.rule).right();
    leave_empties(tasks, &right[..item.place as usize])?;
    Ok(())
}

// Leaves what is on the way back from an item that is found.
fn leave_back(
    question: &Question,
    chart: &[Position],
    tasks: &mut Vec<Task>,
    from: u16,
    at: u16,
    way: WayBack,
) -> Result<(), AllocError>
    requires tables { IsTables question.now.grammar.now question.now.tables.now }
    requires back { IsBackOf question.now chart.now at from way.child way.back }
    ensures { OnOk result (TakesBack question.now chart.now from at way.child way.back
        tasks.old tasks.new) }
{
    let _well_formed = question.grammar.rules();
    tasks.push(Task::Trees {
        item: way.back.before,
        from,
        at: way.back.begin,
    })?;
    if let Some(number) = way.child {
        tasks.push(Task::Tree { number, at })?;
    }
    let right = question.grammar.rule(way.back.found.rule).right();
    let start = way.back.before.place as usize + 1;
    leave_empties(tasks, &right[start..way.back.found.place as usize])?;
    Ok(())
}

// Leaves what an empty tree is made of.
fn take_empty(
    question: &Question,
    chart: &[Position],
    tasks: &mut Vec<Task>,
    nonterminal: u16,
) -> Result<(), AllocError>
    requires tables { IsTables question.now.grammar.now question.now.tables.now }
    requires empty { HasEmpty question.now.tables.now.empties.items (Nonterminal nonterminal) }
    ensures { OnOk result (Takes question.now chart.now (Empty nonterminal) None
        tasks.old tasks.new) }
{
    let _well_formed = question.grammar.rules();
    let rule = question.tables.empties[nonterminal as usize];
    let place = question.grammar.rule(rule).right().len() as u16;
    leave_front(question, tasks, Item { rule, place })?;
    Ok(())
}

// Leaves what the trees before an item's place are made of.
fn take_trees(
    question: &Question,
    chart: &[Position],
    tasks: &mut Vec<Task>,
    item: Item,
    from: u16,
    at: u16,
) -> Result<(), AllocError>
    requires tables { IsTables question.now.grammar.now question.now.tables.now }
    requires tokens { All (IsNumberOf question.now.grammar.now.tokens) question.now.tokens.now }
    requires chart { IsChartOf question.now chart.now }
    requires item { IsAt question.now.grammar.now chart.now item from at }
    ensures { OnOk result (Takes question.now chart.now (Trees item from at) None
        tasks.old tasks.new) }
{
    let _well_formed = question.grammar.rules();
    if from == at {
        leave_front(question, tasks, item)?;
        return Ok(());
    }
    let way = find_way(question, chart, at, from, item);
    leave_back(question, chart, tasks, from, at, way)?;
    Ok(())
}

// The child that is a span's cause.
fn child_of(cause: Option<u32>) -> Option<usize>
    ensures { result ≡ cause }
{
    match cause {
        None => None,
        Some(number) => Some(number as usize),
    }
}

// Leaves what the tree of a span is made of.
fn take_tree(
    question: &Question,
    chart: &[Position],
    tasks: &mut Vec<Task>,
    number: usize,
    at: u16,
) -> Result<(), AllocError>
    requires tables { IsTables question.now.grammar.now question.now.tables.now }
    requires tokens { All (IsNumberOf question.now.grammar.now.tokens) question.now.tokens.now }
    requires chart { IsChartOf question.now chart.now }
    requires tree { IsChild chart.now at (Some number) }
    ensures { OnOk result (Takes question.now chart.now (TreeOf number at) None
        tasks.old tasks.new) }
{
    let _well_formed = question.grammar.rules();
    let span = chart[at as usize].spans[number];
    let child = child_of(span.cause);
    let sought = Sought::End(span.nonterminal);
    match find_by(question, chart, at, child, span.from, sought) {
        Some(back) => {
            let way = WayBack { child, back };
            leave_back(question, chart, tasks, span.from, at, way)?;
            Ok(())
        }
        None => unreachable!(),
    }
}

// Leaves what the task is made of; a rule is to be written at once.
fn take_on(
    question: &Question,
    chart: &[Position],
    tasks: &mut Vec<Task>,
    task: Task,
) -> Result<Option<u16>, AllocError>
    requires tables { IsTables question.now.grammar.now question.now.tables.now }
    requires tokens { All (IsNumberOf question.now.grammar.now.tokens) question.now.tokens.now }
    requires chart { IsChartOf question.now chart.now }
    requires task { IsTask question.now.grammar.now question.now.tables.now chart.now task }
    ensures { IfOk result (λ written.
        Takes question.now chart.now task written tasks.old tasks.new) }
{
    match task {
        Task::Rule(rule) => return Ok(Some(rule)),
        Task::Empty(nonterminal) => take_empty(question, chart, tasks, nonterminal)?,
        Task::Trees { item, from, at } => take_trees(question, chart, tasks, item, from, at)?,
        Task::Tree { number, at } => take_tree(question, chart, tasks, number, at)?,
    }
    Ok(None)
}

fn push_written(backwards: &mut Vec<u16>, written: Option<u16>) -> Result<(), AllocError>
    ensures { OnOk result (backwards.new.items
        ≡ backwards.old.items ++ option_to_list written) }
{
    if let Some(rule) = written {
        backwards.push(rule)?;
    }
    Ok(())
}

// The rule numbers of a task from the last to the first, with a stack in memory.
fn write_backwards(
    alloc: Global,
    question: &Question,
    chart: &[Position],
    task: Task,
) -> Result<Vec<u16>, AllocError>
    requires tables { IsTables question.now.grammar.now question.now.tables.now }
    requires tokens { All (IsNumberOf question.now.grammar.now.tokens) question.now.tokens.now }
    requires chart { IsChartOf question.now chart.now }
    requires task { IsTask question.now.grammar.now question.now.tables.now chart.now task }
    ensures { IfOk result (λ rules. WritesOf question.now chart.now task (reverse rules.items)) }
{
    let mut backwards = Vec::new(alloc);
    let mut tasks = vec![in alloc; task]?;
    while let Some(task) = tasks.pop() {
        let written = take_on(question, chart, &mut tasks, task)?;
        push_written(&mut backwards, written)?;
    }
    Ok(backwards)
}

// The rule numbers of a task.
pub(crate) fn write(
    alloc: Global,
    question: &Question,
    chart: &[Position],
    task: Task,
) -> Result<Derivation, AllocError>
    requires tables { IsTables question.now.grammar.now question.now.tables.now }
    requires tokens { All (IsNumberOf question.now.grammar.now.tokens) question.now.tokens.now }
    requires chart { IsChartOf question.now chart.now }
    requires task { IsTask question.now.grammar.now question.now.tables.now chart.now task }
    ensures { IfOk result (λ rules. WritesOf question.now chart.now task rules) }
{
    let mut rules = write_backwards(alloc, question, chart, task)?;
    rules.reverse();
    let mut derivation = Derivation::new(alloc);
    derivation.extend_from_slice(&rules)?;
    Ok(derivation)
}
