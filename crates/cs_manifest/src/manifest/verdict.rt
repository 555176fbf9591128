use cs_verdicts::Named;

/// A goal's verdict in the second format: a feasible goal names cases.
#[derive(Clone, Copy)]
pub enum SharedVerdict {
    Feasible { size: u32, named: Named },
    Infeasible,
    Large,
}
