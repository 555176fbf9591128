// The steps of an automaton by the ranks of their bytes.

ghost use Rattle.std.specs.Prelude.{◌≡◌, ◌<◌, ◌↔◌, IsTrue, IfOk, length};
ghost use Rattle.cs_scanner.specs.Lexeme.Bytes.{AreByRank};
ghost use Rattle.cs_scanner.specs.Lexeme.Table.{IsTable};
ghost use Rattle.cs_scanner.specs.Lexeme.Steps.{AreNoted, AreRows, IsRow, LeadsTo, PutsStep, rows_of};

use crate::automaton::{Automaton, State};
use crate::lexeme::rank::bytes_by_rank;
use crate::scanning::Scanner;
use std::alloc::{AllocError, Global};

/// A step of a state, by the byte.
#[derive(Clone, Copy, Debug, PartialEq, Eq)]
pub(crate) struct Step {
    pub(crate) byte: u8,
    pub(crate) to: State,
}

/// Whether a step of the row leads to the state, by the places that are noted of such steps.
fn leads_to(row: &[Step], places: &[usize], to: State) -> bool
    requires within { to < length places.now }
    requires noted { AreNoted (length places.now) row.now places.now }
    ensures { IsTrue result ↔ LeadsTo row.now to }
{
    let place = places[to as usize];
    place < row.len() && row[place].to == to
}

/// Puts the step behind those of the row and notes its place, unless one of them leads to the same state.
fn put_step(row: &mut Vec<Step>, places: &mut [usize], step: Step) -> Result<(), AllocError>
    requires within { step.to < length places.old }
    requires noted { AreNoted (length places.old) row.old.items places.old }
    ensures puts { IfOk result (λ _. PutsStep row.old.items step row.new.items) }
    ensures noted { IfOk result (λ _. AreNoted (length places.old) row.new.items places.new) }
{
    if leads_to(row, places, step.to) {
        return Ok(());
    }
    places[step.to as usize] = row.len();
    row.push(step)?;
    Ok(())
}

/// The steps of the state by rank. Of bytes that lead to one state, the first by rank alone has a step. The places tell where in
/// the row the step to a state stands, and may tell anything at first.
fn row_of(
    alloc: Global,
    automaton: &Automaton<'_>,
    bytes: &[u8],
    places: &mut [usize],
    state: State,
) -> Result<Vec<Step>, AllocError>
    requires state { state < length automaton.now.sets }
    requires bytes { AreByRank 2048 bytes.now }
    requires places { length places.old ≡ length automaton.now.sets }
    ensures row { IfOk result (λ row. IsRow automaton.now state row.items) }
    ensures places { IfOk result (λ _. length places.new ≡ length automaton.now.sets) }
{
    let mut row = Vec::new(alloc);
    for i in 0..bytes.len() {
        let byte = bytes[i];
        if let Some(to) = automaton.step(state, byte) {
            put_step(&mut row, places, Step { byte, to })?;
        }
    }
    Ok(row)
}

/// The steps of each state.
pub(crate) fn all_steps(
    alloc: Global,
    automaton: &Automaton<'_>,
) -> Result<Vec<Vec<Step>>, AllocError>
    ensures { IfOk result (λ rows. AreRows automaton.now (rows_of rows.items)) }
{
    let bytes = bytes_by_rank(alloc)?;
    let mut places = vec![in alloc; 0; automaton.state_count()]?;
    let mut rows = Vec::new(alloc);
    for state in 0..automaton.state_count() {
        let row = row_of(alloc, automaton, &bytes, &mut places, state as State)?;
        rows.push(row)?;
    }
    Ok(rows)
}

/// An automaton and the steps of its states.
#[derive(Clone, Copy)]
pub(crate) struct Steps<'t> {
    pub(crate) automaton: &'t Automaton<'t>,
    pub(crate) rows: &'t [Vec<Step>],
}

/// A scanner with the steps of its automaton's states.
#[derive(Drop)]
pub(crate) struct StepTable<'a> {
    pub(crate) scanner: Scanner<'a>,
    pub(crate) rows: Vec<Vec<Step>>,
}

/// The scanner with the steps.
pub(crate) fn with_steps<'a>(
    alloc: Global,
    scanner: &Scanner<'a>,
) -> Result<StepTable<'a>, AllocError>
    ensures table { IfOk result IsTable }
    ensures scanner { IfOk result (λ t. t.scanner ≡ scanner.now) }
{
    let rows = all_steps(alloc, scanner.automaton)?;
    Ok(StepTable {
        scanner: *scanner,
        rows,
    })
}
