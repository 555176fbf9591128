/// How a manifest tells of the derivations of feasible goals.
#[derive(Clone, Copy, Debug, PartialEq, Eq)]
pub enum Format {
    /// With each goal.
    One,
    /// Each once, as a case that goals name; closed sets of the grammar stand in the head.
    Two,
}
