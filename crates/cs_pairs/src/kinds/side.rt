// The two sides of a yield, at which a token may stand.

// The side on which a token stands: it is the first of the yield, or the last.
#[derive(Clone, Copy, Debug, PartialEq, Eq)]
pub(crate) enum Side {
    First,
    Last,
}
