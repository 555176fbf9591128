// Lines behind the head that aren't indented.

ghost use Rattle.std.specs.Prelude.{◌∷◌, codes};
ghost use Rattle.cs_lines.specs.Lines.Taken.{words_in};
ghost use Rattle.cs_lines.specs.Lines.Read.{Answers};

use crate::lines::line::{Counts, Line};
use crate::lines::parts::{take_edit, take_goal, take_verdict};
use crate::lines::words::Words;

pub(crate) fn read_case(line: Words<'_>) -> Option<Line<'_>>
    ensures { Answers (codes "case" ∷ words_in line.entry) result }
{
    let two = line.two_numbers(b"size")?;
    Some(Line::Case {
        number: two.first,
        size: two.second,
    })
}

pub(crate) fn read_goal(line: Words<'_>) -> Option<Line<'_>>
    ensures { Answers (codes "goal" ∷ words_in line.entry) result }
{
    let mut words = line;
    let number = words.number()?;
    let goal = take_goal(&mut words)?;
    let verdict = take_verdict(&mut words)?;
    if words.is_done() {
        Some(Line::Goal {
            number,
            goal,
            verdict,
        })
    } else {
        None
    }
}

pub(crate) fn read_base(line: Words<'_>) -> Option<Line<'_>>
    ensures { Answers (codes "base" ∷ words_in line.entry) result }
{
    let two = line.two_numbers(b"goal")?;
    Some(Line::Base {
        number: two.first,
        goal: two.second,
    })
}

pub(crate) fn read_negative(line: Words<'_>) -> Option<Line<'_>>
    ensures { Answers (codes "negative" ∷ words_in line.entry) result }
{
    let mut words = line;
    let number = words.number()?;
    let base = words.counted(b"base")?;
    let edit = take_edit(&mut words)?;
    words.keyword(b"pair")?;
    let names = words.two_names()?;
    let at = words.counted(b"at")?;
    if words.is_done() {
        Some(Line::Negative {
            number,
            base,
            edit,
            left: names.left,
            right: names.right,
            at,
        })
    } else {
        None
    }
}

pub(crate) fn read_end(line: Words<'_>) -> Option<Line<'_>>
    ensures { Answers (codes "end" ∷ words_in line.entry) result }
{
    let mut words = line;
    let goals = words.counted(b"goals")?;
    let feasible = words.counted(b"feasible")?;
    let infeasible = words.counted(b"infeasible")?;
    let large = words.counted(b"large")?;
    let negatives = words.counted(b"negatives")?;
    let cases = words.counted(b"cases")?;
    if words.is_done() {
        Some(Line::End(Counts {
            goals,
            feasible,
            infeasible,
            large,
            negatives,
            cases,
        }))
    } else {
        None
    }
}
