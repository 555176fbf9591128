// The states that texts lead to, each met by its least text.

ghost use Rattle.std.specs.Prelude.{◌≡◌, ◌+◌, ◌*◌, ◌<◌, ◌≤◌, [], ◌∷◌, IfOk, Some, length, slice_get};
ghost use Rattle.cs_scanner.specs.Lexeme.Kinds.{first_visit};
ghost use Rattle.cs_scanner.specs.Lexeme.Table.{AreMetIn, AreSteps, MeetsAll, step_rows};
ghost use Rattle.cs_scanner.specs.Lexeme.Visits.{AreEarlier, AreLight, AreMarked, AreVisits, AreWithin, Extends, IsClosed, Spells};

use crate::automaton::State;
use crate::lexeme::steps::{Step, Steps};
use std::alloc::{AllocError, Global};

/// The byte by which a state was met, behind the state that was met at the place.
#[derive(Clone, Copy, Debug, PartialEq, Eq)]
pub(crate) struct Origin {
    pub(crate) place: usize,
    pub(crate) byte: u8,
}

/// A state that was met. The start alone has no origin.
#[derive(Clone, Copy, Debug, PartialEq, Eq)]
pub(crate) struct Visit {
    pub(crate) state: State,
    pub(crate) origin: Option<Origin>,
}

/// The start alone, met by the empty text.
pub(crate) fn start_visit(alloc: Global, start: State) -> Result<Vec<Visit>, AllocError>
    ensures { IfOk result (λ visits. visits.items ≡ first_visit start ∷ []) }
{
    let mut visits = Vec::new(alloc);
    visits.push(Visit {
        state: start,
        origin: None,
    })?;
    Ok(visits)
}

/// Which of so many states were met.
fn marks(alloc: Global, count: usize, visits: &[Visit]) -> Result<Vec<bool>, AllocError>
    requires { AreWithin count visits.now }
    ensures { IfOk result (λ met. AreMarked count visits.now met.items) }
{
    let mut met = vec![in alloc; false; count]?;
    for i in 0..visits.len() {
        met[visits[i].state as usize] = true;
    }
    Ok(met)
}

/// The steps of the state.
fn row_at<'t>(steps: &Steps<'t>, state: usize) -> &'t [Step]
    requires steps { AreSteps steps.now }
    requires state { state < length steps.now.automaton.now.sets }
    ensures { slice_get (step_rows steps.now) state ≡ Some result.now }
{
    &steps.rows[state]
}

/// Meets each new state behind the one at the place, by the rank of the byte.
fn meet_behind(
    steps: &Steps<'_>,
    place: usize,
    visits: &mut Vec<Visit>,
    met: &mut [bool],
) -> Result<(), AllocError>
    requires steps { AreSteps steps.now }
    requires place { place < length visits.old.items }
    requires met { AreMetIn steps.now visits.old.items met.old }
    requires light { AreLight (4096 * place) visits.old.items }
    ensures met { IfOk result (λ _. AreMetIn steps.now visits.new.items met.new) }
    ensures light { IfOk result (λ _. AreLight (4096 * (place + 1)) visits.new.items) }
    ensures extends { IfOk result (λ _. Extends place visits.old.items visits.new.items) }
    ensures closed { IfOk result (λ _. IsClosed (step_rows steps.now) visits.new.items place) }
{
    let row = row_at(steps, visits[place].state as usize);
    for i in 0..row.len() {
        let Step { byte, to } = row[i];
        if !met[to as usize] {
            met[to as usize] = true;
            let origin = Some(Origin { place, byte });
            visits.push(Visit { state: to, origin })?;
        }
    }
    Ok(())
}

/// Meets all states behind those from the place on, breadth first.
pub(crate) fn meet_all(
    alloc: Global,
    steps: &Steps<'_>,
    visits: &mut Vec<Visit>,
    from: usize,
) -> Result<(), AllocError>
    requires steps { AreSteps steps.now }
    requires from { from ≤ length visits.old.items }
    requires visits { AreVisits steps.now.automaton.now visits.old.items }
    requires light { AreLight (4096 * from) visits.old.items }
    ensures { IfOk result (λ _. MeetsAll steps.now from visits.old.items visits.new.items) }
{
    let mut met = marks(alloc, steps.rows.len(), visits)?;
    let mut place = from;
    'places: while place < visits.len() {
        meet_behind(steps, place, visits, &mut met)?;
        place += 1;
    }
    Ok(())
}

/// The text by which the state at the place was met.
pub(crate) fn text_at(alloc: Global, visits: &[Visit], place: usize) -> Result<Vec<u8>, AllocError>
    requires earlier { AreEarlier visits.now }
    requires place { place < length visits.now }
    ensures { IfOk result (λ text. Spells visits.now place text.items) }
{
    let mut bytes = Vec::new(alloc);
    let mut at = place;
    'origins: while let Some(origin) = visits[at].origin {
        bytes.push(origin.byte)?;
        at = origin.place;
    }
    bytes.reverse();
    Ok(bytes)
}
