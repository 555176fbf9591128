// Goals that are placed among cases, before their tokens are rendered.

ghost use Rattle.std.specs.Prelude.{◌≡◌, ◌≤◌, [], length, IfOk};
ghost use Rattle.cs_manifest.specs.Manifest.Manifest.{AreTokensOf};
ghost use Rattle.cs_writing.specs.Plan.Entries.{AreStillLeft, IsSharedOf, IsSharedVerdictOf};
ghost use Rattle.cs_writing.specs.Plan.Made.{is_asked};
ghost use Rattle.cs_writing.specs.Plan.Placing.{HasDerivation, IsMetBy, IsPlacedAs, PlacesNext};

use cs_choices::Format;
use cs_goals::Goal;
use cs_grammar::{Grammar, yield_of};
use cs_manifest::SharedVerdict;
use cs_verdicts::{Cases, Positive, Positives, Verdict};
use std::alloc::{AllocError, Global};

// So many goals are placed at most.
const MOST: usize = 1_024;

/// A goal with its verdict, in the second format also its verdict there, and the tokens of its derivation, where it has
/// one.
#[derive(Drop)]
pub(crate) struct Placed {
    pub(crate) goal: Goal,
    pub(crate) verdict: Verdict,
    pub(crate) shared: Option<SharedVerdict>,
    pub(crate) tokens: Vec<u16>,
}

impl Placed {
    /// Whether the tokens are rendered: in the first format those of a feasible goal, in the second those of a new case.
    pub(crate) fn is_asked(&self) -> bool
        ensures { result ≡ is_asked self.now.verdict self.now.shared }
    {
        match (&self.verdict, &self.shared) {
            (_, Some(SharedVerdict::Feasible { named, .. })) => named.fresh,
            (Verdict::Feasible { .. }, None) => true,
            _ => false,
        }
    }
}

/// Takes the next goals, and in the second format places the derivations of feasible ones.
pub(crate) fn place_next(
    alloc: Global,
    grammar: &Grammar,
    format: Format,
    positives: &mut Positives<'_>,
    cases: &mut Cases<'_>,
) -> Result<Vec<Placed>, AllocError>
    requires positives { positives.old.tables.grammar ≡ grammar.now }
    requires cases { cases.old.grammar ≡ grammar.now }
    ensures placed { IfOk result
        (PlacesNext format positives.old cases.old positives.new cases.new) }
    ensures some { IfOk result (λ placed. placed.items ≡ [] → positives.old.goals ≡ []) }
    ensures few { IfOk result (λ placed. length placed.items ≤ 1024) }
    ensures tables { positives.new.tables ≡ positives.old.tables }
    ensures left { AreStillLeft positives.old positives.new }
    ensures grammar { cases.new.grammar ≡ cases.old.grammar }
{
    let mut goals = Vec::with_capacity(alloc, MOST)?;
    for _ in 0..MOST {
        let Some(positive) = positives.next(alloc)? else {
            return Ok(goals);
        };
        let placed = place(alloc, grammar, format, positive, cases)?;
        goals.push(placed)?;
    }
    Ok(goals)
}

fn place(
    alloc: Global,
    grammar: &Grammar,
    format: Format,
    positive: Positive,
    cases: &mut Cases<'_>,
) -> Result<Placed, AllocError>
    requires met { IsMetBy grammar.now positive.goal positive.verdict }
    requires cases { cases.old.grammar ≡ grammar.now }
    ensures placed { IfOk result
        (IsPlacedAs grammar.now format cases.old positive cases.new) }
    ensures grammar { cases.new.grammar ≡ cases.old.grammar }
{
    let tokens = tokens_of(alloc, grammar, &positive.verdict)?;
    let shared = shared_in(format, &positive, &tokens, cases)?;
    let Positive { goal, verdict } = positive;
    Ok(Placed {
        goal,
        verdict,
        shared,
        tokens,
    })
}

// The goal's verdict in the second format. The first has none.
fn shared_in(
    format: Format,
    positive: &Positive,
    tokens: &[u16],
    cases: &mut Cases<'_>,
) -> Result<Option<SharedVerdict>, AllocError>
    requires met { IsMetBy cases.old.grammar positive.now.goal positive.now.verdict }
    requires tokens { AreTokensOf cases.old.grammar positive.now.verdict tokens.now }
    ensures verdict { IfOk result (IsSharedOf format positive.now cases.old cases.new) }
    ensures grammar { cases.new.grammar ≡ cases.old.grammar }
{
    match format {
        Format::One => Ok(None),
        Format::Two => Ok(Some(shared_verdict(positive, tokens, cases)?)),
    }
}

// A feasible goal's derivation is placed.
fn shared_verdict(
    positive: &Positive,
    tokens: &[u16],
    cases: &mut Cases<'_>,
) -> Result<SharedVerdict, AllocError>
    requires met { IsMetBy cases.old.grammar positive.now.goal positive.now.verdict }
    requires tokens { AreTokensOf cases.old.grammar positive.now.verdict tokens.now }
    ensures verdict { IfOk result (IsSharedVerdictOf positive.now cases.old cases.new) }
    ensures grammar { cases.new.grammar ≡ cases.old.grammar }
{
    match &positive.verdict {
        Verdict::Feasible { size, derivation } => {
            let named = cases.place(&positive.goal, derivation, tokens)?;
            Ok(SharedVerdict::Feasible { size: *size, named })
        }
        Verdict::Infeasible => Ok(SharedVerdict::Infeasible),
        Verdict::Large => Ok(SharedVerdict::Large),
    }
}

// The tokens of a feasible goal's derivation; another goal has none.
fn tokens_of(alloc: Global, grammar: &Grammar, verdict: &Verdict) -> Result<Vec<u16>, AllocError>
    requires { HasDerivation grammar.now verdict.now }
    ensures { IfOk result (λ tokens. AreTokensOf grammar.now verdict.now tokens.items) }
{
    match verdict {
        Verdict::Feasible { derivation, .. } => yield_of(alloc, grammar, derivation),
        Verdict::Infeasible | Verdict::Large => Ok(Vec::new(alloc)),
    }
}
