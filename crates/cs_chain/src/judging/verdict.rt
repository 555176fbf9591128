// The verdict of a chain.

use cs_grammar::Derivation;

/// What is told of the trees of the start symbol that meet a chain.
#[derive(Debug, Drop)]
pub enum ChainVerdict {
    /// The least such tree has this size, and `derivation` is the code of the chosen one.
    Feasible { size: u32, derivation: Derivation },
    /// There is no such tree.
    Infeasible,
    /// There is such a tree, and each is larger than the limit.
    Large,
}
