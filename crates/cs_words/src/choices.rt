// The values that choose criteria, operators, slips, what is weighed, and the format.

ghost use Rattle.std.specs.Prelude.{IfNone, IfSome};
ghost use Rattle.cs_words.specs.Choices.{IsCriteria, IsFormat, IsOperators, IsSlips, IsWeigh, MeansNothing};
ghost use Rattle.cs_words.specs.Choices.{has_criterion, has_operator, has_slip};
ghost use Rattle.cs_words.specs.Steps.{Adds, CannotAdd};

use cs_choices::{Criteria, Format, Operators, Slips, Weigh};

/// The criteria that the value names.
pub(crate) fn read_criteria(value: &str) -> Option<Criteria>
    ensures some { IfSome result (IsCriteria value.now) }
    ensures none { IfNone result (MeansNothing IsCriteria value.now) }
{
    let mut criteria = Criteria {
        rule: false,
        cdrc: false,
        pair: false,
    };
    for name in value.split(',') {
        criteria = with_criterion(criteria, name)?;
    }
    Some(criteria)
}

// The criteria with the one of this name, which isn't among them.
fn with_criterion(criteria: Criteria, name: &str) -> Option<Criteria>
    ensures some { IfSome result
        (λ more. Adds (has_criterion criteria) name.now (has_criterion more)) }
    ensures none { IfNone result (CannotAdd has_criterion criteria name.now) }
{
    if name == "rule" && !criteria.rule {
        return Some(Criteria {
            rule: true,
            ..criteria
        });
    }
    if name == "cdrc" && !criteria.cdrc {
        return Some(Criteria {
            cdrc: true,
            ..criteria
        });
    }
    if name == "pair" && !criteria.pair {
        return Some(Criteria {
            pair: true,
            ..criteria
        });
    }
    None
}

/// The operators that the value names; none of them where it is `none`.
pub(crate) fn read_operators(value: &str) -> Option<Operators>
    ensures some { IfSome result (IsOperators value.now) }
    ensures none { IfNone result (MeansNothing IsOperators value.now) }
{
    let mut operators = Operators {
        delete: false,
        insert: false,
        replace: false,
        swap: false,
    };
    if value == "none" {
        return Some(operators);
    }
    for name in value.split(',') {
        operators = with_operator(operators, name)?;
    }
    Some(operators)
}

// The operators with the one of this name, which isn't among them.
fn with_operator(operators: Operators, name: &str) -> Option<Operators>
    ensures some { IfSome result
        (λ more. Adds (has_operator operators) name.now (has_operator more)) }
    ensures none { IfNone result (CannotAdd has_operator operators name.now) }
{
    if name == "delete" && !operators.delete {
        return Some(Operators {
            delete: true,
            ..operators
        });
    }
    if name == "insert" && !operators.insert {
        return Some(Operators {
            insert: true,
            ..operators
        });
    }
    if name == "replace" && !operators.replace {
        return Some(Operators {
            replace: true,
            ..operators
        });
    }
    if name == "swap" && !operators.swap {
        return Some(Operators {
            swap: true,
            ..operators
        });
    }
    None
}

/// The slips that the value names.
pub(crate) fn read_slips(value: &str) -> Option<Slips>
    ensures some { IfSome result (IsSlips value.now) }
    ensures none { IfNone result (MeansNothing IsSlips value.now) }
{
    let mut slips = Slips {
        drops: false,
        doubles: false,
        swaps: false,
    };
    for name in value.split(',') {
        slips = with_slip(slips, name)?;
    }
    Some(slips)
}

// The slips with the one of this name, which isn't among them.
fn with_slip(slips: Slips, name: &str) -> Option<Slips>
    ensures some { IfSome result
        (λ more. Adds (has_slip slips) name.now (has_slip more)) }
    ensures none { IfNone result (CannotAdd has_slip slips name.now) }
{
    if name == "drop" && !slips.drops {
        return Some(Slips {
            drops: true,
            ..slips
        });
    }
    if name == "double" && !slips.doubles {
        return Some(Slips {
            doubles: true,
            ..slips
        });
    }
    if name == "swap" && !slips.swaps {
        return Some(Slips {
            swaps: true,
            ..slips
        });
    }
    None
}

/// What the value says that sizes count.
pub(crate) fn read_weigh(value: &str) -> Option<Weigh>
    ensures some { IfSome result (IsWeigh value.now) }
    ensures none { IfNone result (MeansNothing IsWeigh value.now) }
{
    if value == "nodes" {
        return Some(Weigh::Nodes);
    }
    if value == "bytes" {
        return Some(Weigh::Bytes);
    }
    None
}

/// The format that the value names.
pub(crate) fn read_format(value: &str) -> Option<Format>
    ensures some { IfSome result (IsFormat value.now) }
    ensures none { IfNone result (MeansNothing IsFormat value.now) }
{
    if value == "1" {
        return Some(Format::One);
    }
    if value == "2" {
        return Some(Format::Two);
    }
    None
}
