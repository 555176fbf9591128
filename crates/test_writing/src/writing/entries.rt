// The entries of goals, batch by batch.

ghost use Rattle.std.specs.Prelude.{◌≡◌};
ghost use Rattle.cs_grammar.specs.Weights.{nodes};

use cs_choices::Criteria;
use cs_fan::{Crew, OpenGate};
use cs_grammar::Weights;
use cs_sample_files::{Trouble, sums};
use cs_verdicts::{Cases, Positives, Tables};
use cs_writing::{Made, Plan, PlanForm, next_entries};
use cs_yacc::YaccFile;
use std::alloc::{AllocError, Global};
use std::test::Fail;
use std::thread::Threads;

const RULE_GOALS: Criteria = Criteria {
    rule: true,
    cdrc: false,
    pair: false,
};

// Whether the entry at this place, from 0, has a sentence of these tokens.
fn has_tokens(entries: &[Made], at: usize, tokens: &[u16]) -> bool {
    let Some(made) = entries.get(at) else {
        return false;
    };
    match made.sentence() {
        Some(found) => found == tokens,
        None => false,
    }
}

// The first batches of entries of the rule goals of a file.
fn two_by<'f, R: Threads + Sync>(
    rt: &R,
    alloc: Global,
    yacc: &'f YaccFile,
    weights: &'f Weights,
) -> Result<(Vec<Made>, Vec<Made>), AllocError>
    requires { weights.now ≡ nodes yacc.now.grammar.tokens }
{
    let tables = Tables::new(alloc, yacc.grammar(), weights)?;
    let plan = Plan {
        yacc,
        criteria: RULE_GOALS,
        form: PlanForm::Rules,
    };
    let mut positives = Positives::new(&tables, RULE_GOALS);
    let mut cases = Cases::new(alloc, yacc.grammar());
    let crew = Crew {
        rt,
        gate: &OpenGate,
    };
    let first = next_entries(&crew, alloc, &plan, &mut positives, &mut cases)?;
    let second = next_entries(&crew, alloc, &plan, &mut positives, &mut cases)?;
    Ok((first, second))
}

// The same of the sums.
fn two_batches<R: Threads + Sync>(
    rt: &R,
    alloc: Global,
) -> Result<(Vec<Made>, Vec<Made>), Trouble> {
    let yacc = sums(alloc)?;
    let weights = Weights::nodes(alloc, yacc.grammar().tokens())?;
    Ok(two_by(rt, alloc, &yacc, &weights)?)
}

// The places of entries, and the tokens of their sentences: those of the first format's manifest in `docs/FORMATS.md`.
const TOKENS: &[(usize, &[u16])] = &[(0, &[1, 2, 1]), (1, &[1]), (2, &[1]), (3, &[3, 1, 4])];

// Behind the last entry comes an empty batch.
#[test]
fn entries_of_rule_goals(rt: HostRuntime) -> Result<(), Fail> {
    let (entries, none) = two_batches(&rt, rt.alloc())?;
    assert_eq!(rt; entries.len(), 4);
    for &(at, tokens) in TOKENS {
        assert!(rt; has_tokens(&entries, at, tokens), "{at}");
    }
    assert!(rt; none.is_empty());
    Ok(())
}
