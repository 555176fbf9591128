/// How many entries of each kind a manifest has, and how many bytes all its lines have. Counts stand still at their types' ends.
#[derive(Clone, Copy, Debug, PartialEq, Eq)]
pub struct Counts {
    pub goals: u64,
    pub feasible: u64,
    pub infeasible: u64,
    pub large: u64,
    pub negatives: u64,
    /// The first format has none.
    pub cases: Option<u64>,
    pub bytes: u128,
}
