// What two lists have in common.

ghost use Rattle.std.specs.Prelude.{◌≤◌, length};
ghost use Rattle.cs_texts.specs.Splice.Lists.{IsSameBack, IsSameFront};

/// So many tokens that two lists have in common at their fronts: the most, which spares scans, though no clause says so.
pub(crate) fn same_front(tokens: &[u16], other: &[u16]) -> usize
    ensures { IsSameFront tokens.now other.now result }
{
    let most = tokens.len().min(other.len());
    for i in 0..most {
        if tokens[i] != other[i] {
            return i;
        }
    }
    most
}

/// So many tokens that two lists have in common at their backs, behind so many others: the most, as at their fronts.
pub(crate) fn same_back(tokens: &[u16], other: &[u16], others: usize) -> usize
    requires first { others ≤ length tokens.now }
    requires second { others ≤ length other.now }
    ensures { IsSameBack tokens.now other.now others result }
{
    let most = (tokens.len() - others).min(other.len() - others);
    for i in 0..most {
        if tokens[tokens.len() - 1 - i] != other[other.len() - 1 - i] {
            return i;
        }
    }
    most
}
