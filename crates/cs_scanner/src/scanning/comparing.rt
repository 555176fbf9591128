// Whether a text scans to a list of tokens.

ghost use Rattle.std.specs.Prelude.{◌≡◌, ◌↔◌, ◌<◌, ◌≤◌, length, slice_get, IsTrue};
ghost use Rattle.cs_scanner.specs.Scan.Compared.{scanning, IfDiffers, IsInCommon};
ghost use Rattle.cs_scanner.specs.Scan.Going.{tokens_of, IsNext};
ghost use Rattle.cs_scanner.specs.Scan.Scan.{given, Scans};

use crate::scanning::front::longest_front;
use crate::scanning::scanner::Scanner;
use cs_grammar::place_of;
use cs_pattern_parts::Kind;

/// Whether a text scans to a list of tokens; if not, how many tokens the list and the scan's own have in common.
#[derive(Clone, Copy, Debug, PartialEq, Eq)]
pub enum Agreement {
    Whole,
    Differs { after: u32 },
}

/// What a match gives.
#[derive(Clone, Copy, Debug, PartialEq, Eq)]
enum GivenOrStop {
    Nothing,
    Token(u16),
    Stop,
}

/// What the scan does at the front of a text.
#[derive(Clone, Copy, Debug, PartialEq, Eq)]
pub(crate) enum Next {
    Pass(usize),
    Give(usize, u16),
    Stop,
}

/// What a match of the kind at the front of the text gives.
fn give(kind: Kind, literals: &[u16], text: &[u8]) -> GivenOrStop
    requires literals { length literals.now ≡ 256 }
    requires some { 0 < length text.now }
    ensures { tokens_of result ≡ given literals.now kind text.now }
{
    match kind {
        Kind::Skip => GivenOrStop::Nothing,
        Kind::Token(token) => GivenOrStop::Token(token),
        Kind::Foreign => GivenOrStop::Stop,
        Kind::OwnByte => {
            let token = literals[text[0] as usize];
            if token > 0 {
                GivenOrStop::Token(token)
            } else {
                GivenOrStop::Stop
            }
        }
    }
}

/// What the scan does at the front of the text.
pub(crate) fn advance(scanner: &Scanner<'_>, text: &[u8]) -> Next
    requires some { 0 < length text.now }
    ensures { IsNext (scanning scanner.now) text.now result }
{
    let Some((rule, size)) = longest_front(scanner.automaton, text) else {
        return Next::Stop;
    };
    match give(scanner.kinds[place_of(rule)], scanner.literals, text) {
        GivenOrStop::Nothing => Next::Pass(size),
        GivenOrStop::Token(token) => Next::Give(size, token),
        GivenOrStop::Stop => Next::Stop,
    }
}

/// Whether the list has the token at the place.
fn is_at(tokens: &[u16], place: usize, token: u16) -> bool
    ensures { IsTrue result ↔ (slice_get tokens.now place ≡ Some token) }
{
    place < tokens.len() && tokens[place] == token
}

/// Whether the text scans to the tokens; if not, how many tokens the list and the scan's own have in common at their fronts,
/// before the scan ends or stops (POSIX lex). It takes no memory.
pub fn agrees(scanner: &Scanner<'_>, text: &[u8], tokens: &[u16]) -> Agreement
    requires few { length tokens.now ≤ 1000001 }
    ensures whole { result ≡ Agreement.Whole ↔ Scans (scanning scanner.now) text.now tokens.now }
    ensures after { IfDiffers result (IsInCommon (scanning scanner.now) text.now tokens.now) }
{
    let mut rest = text;
    let mut after = 0;
    'matches: while !rest.is_empty() {
        let size = match advance(scanner, rest) {
            Next::Pass(size) => size,
            Next::Give(size, token) => {
                if !is_at(tokens, after, token) {
                    return Agreement::Differs {
                        after: after as u32,
                    };
                }
                after += 1;
                size
            }
            Next::Stop => {
                return Agreement::Differs {
                    after: after as u32,
                };
            }
        };
        rest = &rest[size..];
    }
    if after == tokens.len() {
        Agreement::Whole
    } else {
        Agreement::Differs {
            after: after as u32,
        }
    }
}
