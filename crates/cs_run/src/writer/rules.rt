// The writer of `rules`.

ghost use Rattle.std.specs.Prelude.{◌≡◌, OnErr, OnOk};
ghost use Rattle.cs_grammar.specs.Weights.{nodes};
ghost use Rattle.cs_run.specs.Writer.Suite.{IsRules};
ghost use Rattle.cs_io.specs.declared.halt.Halt.TheVariants.{Failed};
ghost use Rattle.cs_io.specs.Asked.{IsCalmForAll, MetFault, MetNone, Stopped, TookFront, TookOne};

use cs_choices::Criteria;
use cs_fan::{Crew, Gate};
use cs_grammar::Weights;
use cs_io::{Halt, Sink};
use cs_least::{Costs, Embeds};
use cs_verdicts::Positives;
use cs_writing::{Plan, PlanForm, write_out};
use cs_yacc::YaccFile;
use std::alloc::Global;
use std::thread::Threads;

// The form of `rules` has the rule goals alone.
const RULE_GOALS: Criteria = Criteria {
    rule: true,
    cdrc: false,
    pair: false,
};

/// Writes the manifest of a yacc file in the form of `rules`: its rule goals, without texts.
pub fn write_rules<R: Threads + Sync, O: Sink, G: Gate + Sync>(
    crew: &Crew<'_, R, G>,
    alloc: Global,
    file: &YaccFile,
    out: &mut O,
) -> Result<(), Halt>
    ensures ok { OnOk result (TookOne O.Sink (IsRules file.now) out.old out.new) }
    ensures part { OnErr result (TookFront O.Sink (IsRules file.now) out.old out.new) }
    ensures no_fault { OnOk result (MetNone O.Sink out.old out.new) }
    ensures failed { Stopped Failed result → MetFault O.Sink out.old out.new }
    ensures room { IsCalmForAll O.Sink (IsRules file.now) out.old out.new }
{
    let weights = Weights::nodes(alloc, file.grammar().tokens())?;
    write_rule_goals(crew, alloc, file, &weights, out)
}

// The same by weights that count nodes.
fn write_rule_goals<'f, R: Threads + Sync, O: Sink, G: Gate + Sync>(
    crew: &Crew<'_, R, G>,
    alloc: Global,
    file: &'f YaccFile,
    weights: &'f Weights,
    out: &mut O,
) -> Result<(), Halt>
    requires { weights.now ≡ nodes file.now.grammar.tokens }
    ensures ok { OnOk result (TookOne O.Sink (IsRules file.now) out.old out.new) }
    ensures part { OnErr result (TookFront O.Sink (IsRules file.now) out.old out.new) }
    ensures no_fault { OnOk result (MetNone O.Sink out.old out.new) }
    ensures failed { Stopped Failed result → MetFault O.Sink out.old out.new }
    ensures room { IsCalmForAll O.Sink (IsRules file.now) out.old out.new }
{
    let costs = Costs::new(alloc, file.grammar(), weights)?;
    let embeds = Embeds::new(alloc, costs)?;
    let plan = Plan {
        yacc: file,
        criteria: RULE_GOALS,
        form: PlanForm::Rules,
    };
    let positives = Positives::of_trees(&embeds, RULE_GOALS);
    write_out(crew, alloc, &plan, positives, out)?;
    Ok(())
}
