// Indented lines: of cases and negatives.

ghost use Rattle.std.specs.Prelude.{[], ◌∷◌, codes};
ghost use Rattle.cs_lines.specs.Lines.Taken.{words_in, no_text};
ghost use Rattle.cs_lines.specs.Lines.Read.{Answers};

use crate::lines::line::Line;
use crate::lines::names::Names;
use crate::lines::numbers::Numbers;
use crate::lines::quoted::Quoted;
use crate::lines::word::same_word;
use crate::lines::words::Words;

fn read_tokens(line: Words<'_>) -> Option<Line<'_>>
    ensures { Answers ([] ∷ [] ∷ codes "tokens" ∷ words_in line.entry) result }
{
    let names = Names::new(line)?;
    Some(Line::Tokens(names))
}

fn read_derivation(line: Words<'_>) -> Option<Line<'_>>
    ensures { Answers ([] ∷ [] ∷ codes "derive" ∷ words_in line.entry) result }
{
    let numbers = Numbers::new(line)?;
    Some(Line::Derive(numbers))
}

fn read_text(line: Words<'_>) -> Option<Line<'_>>
    ensures { Answers ([] ∷ [] ∷ codes "text" ∷ words_in line.entry) result }
{
    let behind = line.text()?;
    let text = Quoted::new(behind)?;
    Some(Line::Text(text))
}

fn read_no_lexeme(line: Words<'_>) -> Option<Line<'_>>
    ensures { Answers (no_text (codes "lexeme" ∷ words_in line.entry)) result }
{
    let mut words = line;
    let _name = words.name()?;
    if words.is_done() {
        Some(Line::NoText)
    } else {
        None
    }
}

fn read_no_scan(line: Words<'_>) -> Option<Line<'_>>
    ensures { Answers (no_text (codes "scan" ∷ words_in line.entry)) result }
{
    let mut words = line;
    let _after = words.number()?;
    if words.is_done() {
        Some(Line::NoText)
    } else {
        None
    }
}

fn read_no_text(line: Words<'_>) -> Option<Line<'_>>
    ensures { Answers ([] ∷ [] ∷ codes "no" ∷ words_in line.entry) result }
{
    let mut words = line;
    words.keyword(b"text")?;
    let word = words.next()?;
    if same_word(word, b"lexeme") {
        read_no_lexeme(words)
    } else if same_word(word, b"scan") {
        read_no_scan(words)
    } else {
        None
    }
}

pub(crate) fn read_indented(line: Words<'_>) -> Option<Line<'_>>
    ensures { Answers ([] ∷ words_in line.entry) result }
{
    let mut words = line;
    words.keyword(b"")?;
    let word = words.next()?;
    if same_word(word, b"tokens") {
        read_tokens(words)
    } else if same_word(word, b"text") {
        read_text(words)
    } else if same_word(word, b"derive") {
        read_derivation(words)
    } else if same_word(word, b"no") {
        read_no_text(words)
    } else {
        None
    }
}
