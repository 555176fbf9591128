// What may be wrong with a line of a manifest.

/// A fault of a line. Of two faults of a line that one is told which stands first here.
#[derive(Clone, Copy, Debug, PartialEq, Eq)]
pub enum ClaimFault {
    /// The line is none that may stand there, or a line is missing at the end.
    Form,
    /// A line of the head isn't the yacc file's, or names what isn't there.
    Head,
    /// It is the last of the closed lines, and the sets aren't closed.
    Unclosed,
    /// The case's derivation is none of the start symbol.
    Derive,
    /// The case's size isn't that of its tree.
    Size,
    /// The tokens aren't those of the case or the negative.
    Yield,
    /// The text doesn't scan to the tokens.
    Scan,
    /// The goal isn't due, goals are missing, or a case that it names doesn't meet it.
    Goal,
    /// The sets don't exclude the goal.
    Infeasible,
    /// The base's goal isn't a feasible one above, or the negative's base isn't the last.
    Base,
    /// The edit doesn't fit the base.
    Edit,
    /// The pair doesn't stand there, or the sets don't exclude it.
    Pair,
    /// A number of the end line isn't the count.
    Totals,
}
