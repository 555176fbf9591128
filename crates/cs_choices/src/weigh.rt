/// What sizes of derivations count.
#[derive(Clone, Copy, Debug, PartialEq, Eq)]
pub enum Weigh {
    /// Nodes, leaves counted.
    Nodes,
    /// Nodes, and for each leaf the bytes of its token's lexeme.
    Bytes,
}
