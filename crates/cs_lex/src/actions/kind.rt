// The kind of an action.

ghost use Rattle.std.specs.Prelude.{◌≡◌, false, IsTrue};
ghost use Rattle.cs_lex.specs.Actions.Kinds as spec;
ghost use Rattle.cs_lex.specs.Actions.Views.{named_of, kind_of, HasKindByWords};
ghost use Rattle.cs_lex.specs.Actions.MarkViews.{mark_of};

use crate::actions::gap::gap_size;
use crate::actions::mark::{ActionMark, first_mark};
use crate::actions::named::Named;
use crate::actions::returns::returned;
use crate::actions::sign::sign_size;
use crate::actions::words::{Words, words_of};
use cs_bytes::{ByteClass, from_offset};

/// What an action gives.
#[derive(Clone, Copy, Debug, PartialEq, Eq)]
pub enum ActionKind<'a> {
    /// The kind of the next rule.
    Bar,
    Skip,
    /// The token of the word, where it is in use.
    Word(&'a [u8]),
    /// The token of the byte, where it is in use.
    Literal(u8),
    /// The token of the byte that was read.
    OwnByte,
    /// What only C says.
    Foreign,
}

fn is_bar(action: &[u8]) -> bool
    ensures yes { IsTrue result → spec.IsBar action.now }
    ensures no { result ≡ false → ¬ spec.IsBar action.now }
{
    match sign_size(action, b'|', ByteClass::Blank) {
        Some(size) => {
            let rest = from_offset(action, size);
            gap_size(rest, ByteClass::Blank) == rest.len()
        }
        None => false,
    }
}

fn of_named(named: Named<'_>) -> ActionKind<'_>
    ensures { kind_of result ≡ spec.of_named (named_of named.entry) }
{
    match named {
        Named::Word(word) => ActionKind::Word(word),
        Named::Literal(byte) => ActionKind::Literal(byte),
        Named::OwnByte => ActionKind::OwnByte,
    }
}

fn of_mark(mark: ActionMark<'_>) -> ActionKind<'_>
    ensures { kind_of result ≡ spec.of_mark (mark_of mark.entry) }
{
    match mark {
        ActionMark::Skip => ActionKind::Skip,
        ActionMark::Word(word) => ActionKind::Word(word),
        ActionMark::Literal(byte) => ActionKind::Literal(byte),
    }
}

fn by_words(action: &[u8]) -> ActionKind<'_>
    ensures { HasKindByWords action.now (kind_of result) }
{
    match words_of(action) {
        Words::Foreign => ActionKind::Foreign,
        Words::Several => ActionKind::Foreign,
        Words::None => ActionKind::Skip,
        Words::One(to) => match returned(from_offset(action, to)) {
            Some(named) => of_named(named),
            None => ActionKind::Foreign,
        },
    }
}

/// The kind of the action. No C is run: its comments and C words decide, by the first row that applies of the table in
/// docs/FORMATS.md: `|` alone, a comment that says the kind, a word such as REJECT, no word `return`, one `return` with a name, a
/// literal or the match's first byte behind it, anything else.
///
/// Source: POSIX.1-2017, lex, "Actions in lex"; which C texts give which kind is this project's own table.
pub fn action_kind(action: &[u8]) -> ActionKind<'_>
    ensures { spec.IsKind action.now (kind_of result) }
{
    if is_bar(action) {
        return ActionKind::Bar;
    }
    match first_mark(action) {
        Some(mark) => of_mark(mark),
        None => by_words(action),
    }
}
