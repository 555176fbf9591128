// Where the matches of tokens stand in a text, and how many of its bytes settle the scan up to their ends.

ghost use Rattle.std.specs.Prelude.{◌≡◌, ◌+◌, ◌^◌, ◌<◌, IfOk, IfSome, IsTrue, length};
ghost use Rattle.cs_scanner.specs.Scan.Compared.{scanning};
ghost use Rattle.cs_texts.specs.Rendering.Rendering.{AreTokens, IsRuleText};
ghost use Rattle.cs_texts.specs.Splice.Marks.{AreAligned, IfMarked};
ghost use Rattle.cs_texts.specs.Splice.Settled.{IsFurther};

use crate::splice::step::{GivenToken, counted, step_over};
use cs_scanner::{Lexemes, Scanner};
use std::alloc::{AllocError, Global};

/// A match that gives a token: where it starts and ends in the text, and how many bytes of the text settle the scan up to its
/// end. None where nothing but the end of the text does.
#[derive(Clone, Copy)]
pub(crate) struct TextMark {
    pub(crate) start: usize,
    pub(crate) end: usize,
    pub(crate) read: Option<usize>,
}

// How many bytes settle both what so many settle, and what so many from the place on do.
fn further(read: Option<usize>, at: usize, more: Option<usize>) -> Option<usize>
    requires { IfSome more (λ n. at + n < 2 ^ 64) }
    ensures { IsFurther read at more result }
{
    match (read, more) {
        (Some(read), Some(more)) => Some(read.max(at + more)),
        _ => None,
    }
}

/// The marks of the matches that give the tokens. None where the text doesn't scan to them.
pub(crate) fn marks_of(
    alloc: Global,
    scanner: &Scanner<'_>,
    text: &[u8],
    tokens: &[u16],
) -> Result<Option<Vec<TextMark>>, AllocError>
    ensures { IfOk result (IfMarked (scanning scanner.now) text.now tokens.now) }
{
    let mut marks = Vec::new(alloc);
    let mut at = 0;
    let mut read = Some(0);
    'matches: while at < text.len() {
        let Some(step) = step_over(scanner, &text[at..], &[]) else {
            return Ok(None);
        };
        let Some(_) = counted(tokens, marks.len(), step.given) else {
            return Ok(None);
        };
        read = further(read, at, step.read);
        let end = at + step.size;
        if let GivenToken::Token(_) = step.given {
            marks.push(TextMark {
                start: at,
                end,
                read,
            })?;
        }
        at = end;
    }
    if marks.len() == tokens.len() {
        Ok(Some(marks))
    } else {
        Ok(None)
    }
}

/// Whether the matches of the tokens are their lexemes, with the separator between them.
pub(crate) fn are_lexemes(
    lexemes: &Lexemes,
    separator: &[u8],
    tokens: &[u16],
    text: &[u8],
    marks: &[TextMark],
) -> bool
    requires tokens { AreTokens lexemes.now tokens.now }
    requires rule { IsRuleText lexemes.now separator.now tokens.now text.now }
    requires all { length marks.now ≡ length tokens.now }
    ensures { IsTrue result
        → AreAligned lexemes.now separator.now tokens.now text.now marks.now }
{
    let mut at = 0usize;
    for i in 0..tokens.len() {
        let Some(lexeme) = lexemes.get(tokens[i]) else {
            return false;
        };
        let mark = marks[i];
        if mark.start != at || mark.end < at || mark.end - at != lexeme.len() {
            return false;
        }
        at = mark.end.saturating_add(separator.len());
    }
    true
}
