// The states, the steps between them, and the rules that match.

ghost use Rattle.std.specs.Prelude.{◌≡◌, ℕ, ◌+◌, ◌*◌, ◌<◌, ◌≤◌, IfOk, Err, length, slice_get, Some};
ghost use Rattle.cs_scanner.specs.Automaton.Built.{AddsStep, AddsSteps, AreLong, AreStates, HaveRules, IsBehind, WalksAll};
ghost use Rattle.cs_scanner.specs.Automaton.Counted.{TooMany, too_many};
ghost use Rattle.cs_scanner.specs.Automaton.Places.{all_letters};
ghost use Rattle.cs_scanner.specs.Automaton.Programs.{IsProgram, rules_of};
ghost use Rattle.cs_scanner.specs.Automaton.Sets.{lists};
ghost use Rattle.cs_scanner.specs.Automaton.States.{AreFull};
ghost use Rattle.cs_scanner.specs.Automaton.States as spec;

use crate::automaton::bits::{common, is_empty};
use crate::automaton::error::{AutomatonError, MOST_SETS, State};
use crate::automaton::program::Program;
use crate::automaton::running::walk;
use crate::automaton::sets::add;
use cs_grammar::number_of;
use indexmap::IndexSet;
use std::alloc::{AllocError, Global};

/// The sets of all states, the steps of each by column, and the rules that match its texts.
#[derive(Drop)]
pub(crate) struct States {
    pub(crate) sets: IndexSet<Vec<u64>>,
    pub(crate) steps: Vec<Vec<Option<State>>>,
    pub(crate) rules: Vec<Vec<u16>>,
}

/// What may come behind a set, and the rules that end there.
#[derive(Drop)]
struct Behind {
    next: Vec<u64>,
    rules: Vec<u16>,
}

/// Puts the rule at the index behind the others, where it ends.
fn note(ending: &mut Vec<u16>, ends: bool, index: usize) -> Result<(), AllocError>
    requires { index < 2048 }
    ensures { IfOk result (λ _. ending.new.items ≡ spec.noted ending.old.items ends index) }
{
    if ends {
        ending.push(number_of(index))?;
    }
    Ok(())
}

/// Puts what may come behind the set, and lists the rules that end there.
fn walk_all(
    alloc: Global,
    program: &Program<'_>,
    entered: bool,
    set: &[u64],
    next: &mut [u64],
) -> Result<Vec<u16>, AllocError>
    requires program { IsProgram program.now }
    requires few { length program.now.rules.items ≤ 2048 }
    ensures { IfOk result (λ v. WalksAll program.now entered set.now next.old next.new v.items) }
{
    let mut ending = Vec::new(alloc);
    for i in 0..program.rules.len() {
        let ends = walk(alloc, &program.rules[i], entered, set, next)?;
        note(&mut ending, ends, i)?;
    }
    Ok(ending)
}

/// What may come behind the set, entered or not, and the rules that end there.
fn follow(
    alloc: Global,
    program: &Program<'_>,
    entered: bool,
    set: &[u64],
) -> Result<Behind, AllocError>
    requires program { IsProgram program.now }
    requires few { length program.now.rules.items ≤ 2048 }
    ensures { IfOk result (λ b. IsBehind program.now entered set.now b) }
{
    let mut next = vec![in alloc; 0u64; set.len()]?;
    let rules = walk_all(alloc, program, entered, set, &mut next)?;
    Ok(Behind { next, rules })
}

/// The state behind any byte of the row, which is added where it is new.
fn step(
    alloc: Global,
    next: &[u64],
    row: &[u64],
    sets: &mut IndexSet<Vec<u64>>,
) -> Result<Option<State>, AllocError>
    requires long { length next.now ≡ length row.now }
    requires few { length sets.old.keys < 65000 }
    ensures step { IfOk result (λ to. AddsStep sets.old.keys sets.new.keys next.now row.now to) }
    ensures few { IfOk result (λ _. length sets.new.keys ≤ length sets.old.keys + 1) }
{
    let set = common(alloc, next, row)?;
    if is_empty(&set) {
        return Ok(None);
    }
    let state = add(sets, set)?;
    Ok(Some(state as State))
}

/// The steps of a state, one for each row.
fn steps_of(
    alloc: Global,
    next: &[u64],
    rows: &[Vec<u64>],
    sets: &mut IndexSet<Vec<u64>>,
) -> Result<Vec<Option<State>>, AllocError>
    requires long { AreLong (length next.now) (lists rows.now) }
    requires rows { length rows.now ≤ 256 }
    requires few { length sets.old.keys ≤ 16385 }
    ensures steps { IfOk result (λ v.
        AddsSteps sets.old.keys sets.new.keys next.now rows.now v.items) }
    ensures all { IfOk result (λ v. length v.items ≡ length rows.now) }
    ensures few { IfOk result (λ _. length sets.new.keys ≤ length sets.old.keys + 256) }
{
    let mut steps = Vec::with_capacity(alloc, rows.len())?;
    for column in 0..rows.len() {
        let to = step(alloc, next, &rows[column], sets)?;
        steps.push(to)?;
    }
    Ok(steps)
}

/// The start alone.
fn start_sets(alloc: Global, width: usize) -> Result<IndexSet<Vec<u64>>, AllocError>
    ensures start { IfOk result (λ sets. spec.IsStart width (lists sets.keys)) }
    ensures one { IfOk result (λ sets. length sets.keys ≤ 1) }
{
    let mut sets = IndexSet::new(alloc);
    let start = vec![in alloc; 0u64; width]?;
    add(&mut sets, start)?;
    Ok(sets)
}

/// The set of a state.
fn set_at(sets: &IndexSet<Vec<u64>>, state: usize) -> &[u64]
    requires { state < length sets.now.keys }
    ensures { slice_get (lists sets.now.keys) state ≡ Some result.now }
{
    &sets.as_slice()[state]
}

/// All states and their steps, or more states than the limit.
pub(crate) fn make_states(
    alloc: Global,
    program: &Program<'_>,
    rows: &[Vec<u64>],
    width: usize,
) -> Result<States, AutomatonError>
    requires program { IsProgram program.now }
    requires few { length program.now.rules.items ≤ 2048 }
    requires full { AreFull (rules_of program.now) }
    requires wide { all_letters (rules_of program.now) ≤ 64 * width }
    requires rows { length rows.now ≤ 256 }
    requires columns { spec.AreRowsOf (rules_of program.now) width (lists rows.now) }
    ensures built { IfOk result (λ s. AreStates program.now rows.now width s) }
    ensures rules { IfOk result (λ s. HaveRules program.now s) }
    ensures each { IfOk result (λ s. length s.rules.items ≡ length s.sets.keys) }
    ensures too_many { (most : ℕ)
        → result ≡ Err (too_many most) → TooMany (rules_of program.now) most }
{
    let mut sets = start_sets(alloc, width)?;
    let mut steps = Vec::new(alloc);
    let mut rules = Vec::new(alloc);
    'states: while steps.len() < sets.len() {
        if sets.len() > MOST_SETS as usize + 1 {
            return Err(AutomatonError::TooManyStates { most: MOST_SETS });
        }
        let state = steps.len();
        let Behind {
            next,
            rules: ending,
        } = follow(alloc, program, state == 0, set_at(&sets, state))?;
        let row = steps_of(alloc, &next, rows, &mut sets)?;
        steps.push(row)?;
        rules.push(ending)?;
    }
    Ok(States { sets, steps, rules })
}
