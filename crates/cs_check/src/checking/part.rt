// Which line may come behind which.

ghost use Rattle.std.specs.Prelude.{◌≡◌, ◌↔◌, IsTrue};
ghost use Rattle.std.specs.List.{Contains};
ghost use Rattle.cs_check.specs.Passing.Places as places;
ghost use Rattle.cs_check.specs.Passing.Told.{IsPartTold};

use cs_lines::Line;

/// What a line behind the head is a part of.
#[derive(Clone, Copy, Debug, PartialEq, Eq)]
pub(crate) enum Part {
    InHead,
    OfCase,
    OfDerivation,
    OfCaseTokens,
    OfCaseText,
    OfGoal,
    OfBase,
    OfNegative,
    OfNegativeTokens,
    OfNegativeText,
    OfEnd,
}

/// The part of a line behind a part.
pub(crate) fn part_of(before: Part, line: &Line<'_>) -> Part
    ensures { IsPartTold before line.now result }
{
    match line {
        Line::Case { .. } => Part::OfCase,
        Line::Derive(_) => Part::OfDerivation,
        Line::Tokens(_) => tokens_part(before),
        Line::Text(_) | Line::NoText => text_part(before),
        Line::Goal { .. } => Part::OfGoal,
        Line::Base { .. } => Part::OfBase,
        Line::Negative { .. } => Part::OfNegative,
        Line::End(_) => Part::OfEnd,
        _ => Part::InHead,
    }
}

// The part of tokens behind a part: those of a negative, and all others are of a case.
fn tokens_part(before: Part) -> Part
    ensures { result ≡ places.tokens_part before }
{
    match before {
        Part::OfNegative => Part::OfNegativeTokens,
        _ => Part::OfCaseTokens,
    }
}

// The same of a text.
fn text_part(before: Part) -> Part
    ensures { result ≡ places.text_part before }
{
    match before {
        Part::OfNegativeTokens => Part::OfNegativeText,
        _ => Part::OfCaseText,
    }
}

/// Whether a line of the one part may come behind one of the other.
pub(crate) fn may_follow(before: Part, part: Part) -> bool
    ensures { IsTrue result ↔ Contains (places.next_parts before) part }
{
    next_parts(before).contains(&part)
}

// What may come behind a part: at most one case stands before a goal, and behind each case there is one.
fn next_parts(before: Part) -> &'static [Part]
    ensures { result.now ≡ places.next_parts before }
{
    match before {
        Part::InHead | Part::OfGoal => &[Part::OfCase, Part::OfGoal, Part::OfBase, Part::OfEnd],
        Part::OfCase => &[Part::OfDerivation],
        Part::OfDerivation => &[Part::OfCaseTokens],
        Part::OfCaseTokens => &[Part::OfCaseText],
        Part::OfCaseText => &[Part::OfGoal],
        Part::OfBase | Part::OfNegativeText => &[Part::OfNegative, Part::OfBase, Part::OfEnd],
        Part::OfNegative => &[Part::OfNegativeTokens],
        Part::OfNegativeTokens => &[Part::OfNegativeText],
        Part::OfEnd => &[],
    }
}
