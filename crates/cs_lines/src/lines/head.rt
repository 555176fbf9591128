// Lines of the head.

ghost use Rattle.std.specs.Prelude.{◌∷◌, MatchOption, codes};
ghost use Rattle.cs_lines.specs.Lines.Texts.{set_word, row_word};
ghost use Rattle.cs_lines.specs.Lines.Taken.{words_in, IsLexemeText, IsNoLexemeText};
ghost use Rattle.cs_lines.specs.Lines.Read.{set_kind, row_kind, Answers};

use crate::lines::line::{Line, RowKind, SetKind};
use crate::lines::names::Names;
use crate::lines::parts::{row_of, set_of, weigh_of};
use crate::lines::quoted::Quoted;
use crate::lines::word::same_word;
use crate::lines::words::Words;

pub(crate) fn read_opening(line: Words<'_>) -> Option<Line<'_>>
    ensures { Answers (codes "conform" ∷ words_in line.entry) result }
{
    let mut words = line;
    words.keyword(b"2")?;
    words.keyword(b"suite")?;
    if words.is_done() {
        Some(Line::Opening)
    } else {
        None
    }
}

pub(crate) fn read_weighing(line: Words<'_>) -> Option<Line<'_>>
    ensures { Answers (codes "weigh" ∷ words_in line.entry) result }
{
    let mut words = line;
    let word = words.next()?;
    let weigh = weigh_of(word)?;
    if words.is_done() {
        Some(Line::Weighing(weigh))
    } else {
        None
    }
}

pub(crate) fn read_token(line: Words<'_>) -> Option<Line<'_>>
    ensures { Answers (codes "token" ∷ words_in line.entry) result }
{
    let mut words = line;
    let number = words.number()?;
    let name = words.name()?;
    if words.is_done() {
        Some(Line::Token { number, name })
    } else {
        None
    }
}

pub(crate) fn read_rule(line: Words<'_>) -> Option<Line<'_>>
    ensures { Answers (codes "rule" ∷ words_in line.entry) result }
{
    let mut words = line;
    let number = words.number()?;
    let left = words.name()?;
    words.keyword(b":")?;
    let right = Names::new(words)?;
    Some(Line::Rule {
        number,
        left,
        right,
    })
}

// The text of a lexeme, or that there is none.
fn text_of(behind: &[u8]) -> Option<Option<Quoted<'_>>>
    ensures { MatchOption result (IsNoLexemeText behind.now) (IsLexemeText behind.now) }
{
    if same_word(behind, b"none") {
        return Some(None);
    }
    let text = Quoted::new(behind)?;
    Some(Some(text))
}

pub(crate) fn read_lexeme(line: Words<'_>) -> Option<Line<'_>>
    ensures { Answers (codes "lexeme" ∷ words_in line.entry) result }
{
    let mut words = line;
    let name = words.name()?;
    let behind = words.text()?;
    let text = text_of(behind)?;
    Some(Line::Lexeme { name, text })
}

// The line of a set of nonterminals, behind the word for it.
fn read_set<'m>(kind: SetKind, line: Words<'m>) -> Option<Line<'m>>
    ensures { Answers (codes "closed" ∷ set_word (set_kind kind) ∷ words_in line.entry) result }
{
    let names = Names::new(line)?;
    Some(Line::Set { kind, names })
}

// The line of what stands first, last or next, behind the word for it.
fn read_row<'m>(kind: RowKind, line: Words<'m>) -> Option<Line<'m>>
    ensures { Answers (codes "closed" ∷ row_word (row_kind kind) ∷ words_in line.entry) result }
{
    let mut words = line;
    let name = words.name()?;
    words.keyword(b":")?;
    let names = Names::new(words)?;
    Some(Line::Row { kind, name, names })
}

pub(crate) fn read_closed(line: Words<'_>) -> Option<Line<'_>>
    ensures { Answers (codes "closed" ∷ words_in line.entry) result }
{
    let mut words = line;
    let word = words.next()?;
    if let Some(set) = set_of(word) {
        return read_set(set, words);
    }
    let row = row_of(word)?;
    read_row(row, words)
}
