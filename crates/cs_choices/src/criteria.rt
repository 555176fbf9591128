/// The criteria of which goals are wanted: rule coverage, context-dependent rule coverage, pairs of neighbours.
#[derive(Clone, Copy, Debug, PartialEq, Eq)]
pub struct Criteria {
    pub rule: bool,
    pub cdrc: bool,
    pub pair: bool,
}
