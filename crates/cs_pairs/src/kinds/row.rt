// Costs by number.

ghost use Rattle.std.specs.Prelude.{◌≡◌};

use cs_least::Cost;
use std::marker::Model;

/// A cost for each number from 1.
#[derive(Debug, Drop)]
pub struct Row {
    costs: Vec<Cost>,
}

impl Model for Row {
    ghost use Rattle.std.specs.Prelude.{List};
    ghost use Rattle.cs_least.specs.declared.cost.cost.Cost.{Cost};

    ghost Value = { List Cost };

    ghost view = { λ r. r.costs.items };
}

impl Row {
    /// The row of these costs, that of number 1 first.
    pub fn new(costs: Vec<Cost>) -> Row
        ensures { result ≡ costs.items }
    {
        Row { costs }
    }

    /// The costs, that of number 1 first.
    pub fn costs(&self) -> &[Cost]
        ensures { result.now ≡ self.now }
    {
        &self.costs
    }
}
