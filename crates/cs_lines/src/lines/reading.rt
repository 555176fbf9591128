// What a line says, if it is of some form.

ghost use Rattle.std.specs.Prelude.{MatchOption};
ghost use Rattle.cs_lines.specs.Lines.Read.{IsReadAs, SaysNone};

use crate::lines::entries::{read_base, read_case, read_end, read_goal, read_negative};
use crate::lines::head::{
    read_closed, read_lexeme, read_opening, read_rule, read_token, read_weighing,
};
use crate::lines::indented::read_indented;
use crate::lines::keyword::{Keyword, keyword_of};
use crate::lines::line::Line;
use crate::lines::words::first_word;

/// What the line says; None where it is of no form. The line is given without its newline.
pub fn read_line(text: &[u8]) -> Option<Line<'_>>
    ensures { MatchOption result (SaysNone text.now) (IsReadAs text.now) }
{
    let first = first_word(text);
    let words = first.behind;
    match keyword_of(first.word)? {
        Keyword::Nothing => read_indented(words),
        Keyword::Negative => read_negative(words),
        Keyword::Goal => read_goal(words),
        Keyword::Case => read_case(words),
        Keyword::Base => read_base(words),
        Keyword::End => read_end(words),
        Keyword::Closed => read_closed(words),
        Keyword::Lexeme => read_lexeme(words),
        Keyword::Rule => read_rule(words),
        Keyword::Token => read_token(words),
        Keyword::Weigh => read_weighing(words),
        Keyword::Conform => read_opening(words),
    }
}
