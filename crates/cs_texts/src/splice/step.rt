// What a scan does at the front of two texts, one behind the other, and how many bytes settle it.

ghost use Rattle.std.specs.Prelude.{◌≡◌, ◌+◌, ◌<◌, ◌≤◌, ◌++◌, IfSome, IsTrue, length, slice_index};
ghost use Rattle.cs_scanner.specs.Automaton.Machine.{patterns_of};
ghost use Rattle.cs_scanner.specs.Scan.Compared.{scanning};
ghost use Rattle.cs_texts.specs.Splice.Settled.{Arrives, IsCounted, IsGivenBy, IsLook, IsStep, tokens_of};

use cs_grammar::place_of;
use cs_pattern_parts::Kind;
use cs_scanner::{Automaton, Scanner};

/// The longest match at the front of a text, and how many of its bytes settle that. None where nothing but its end does.
#[derive(Clone, Copy)]
pub(crate) struct Look {
    pub(crate) found: Option<(u16, usize)>,
    pub(crate) read: Option<usize>,
}

/// What a match gives.
#[derive(Clone, Copy)]
pub(crate) enum GivenToken {
    Nothing,
    Token(u16),
}

/// A match that gives tokens, and how many bytes settle it. None where nothing but the end of the text does.
#[derive(Clone, Copy)]
pub(crate) struct Step {
    pub(crate) size: usize,
    pub(crate) given: GivenToken,
    pub(crate) read: Option<usize>,
}

// The byte at the place of two texts, one behind the other.
#[inline]
fn byte_at(near: &[u8], far: &[u8], place: usize) -> u8
    requires { place < length near.now + length far.now }
    ensures { result ≡ slice_index (near.now ++ far.now) place }
{
    if place < near.len() {
        near[place]
    } else {
        far[place - near.len()]
    }
}

// The longest match at the front of the two texts, one behind the other.
fn look_over(automaton: &Automaton<'_>, near: &[u8], far: &[u8]) -> Look
    ensures { IsLook (patterns_of automaton.now) (near.now ++ far.now) result }
{
    let mut state = automaton.start();
    let mut found = None;
    for i in 0..near.len() + far.len() {
        let Some(next) = automaton.step(state, byte_at(near, far, i)) else {
            return Look {
                found,
                read: Some(i + 1),
            };
        };
        state = next;
        if let Some(rule) = automaton.first_rule(state) {
            found = Some((rule, i + 1));
        }
    }
    Look { found, read: None }
}

// What a match of the kind gives at the front of a text that begins with the byte. None where the scan stops.
fn give(kind: Kind, literals: &[u16], first: u8) -> Option<GivenToken>
    requires literals { length literals.now ≡ 256 }
    ensures { IfSome result (IsGivenBy kind literals.now first) }
{
    match kind {
        Kind::Skip => Some(GivenToken::Nothing),
        Kind::Token(token) => Some(GivenToken::Token(token)),
        Kind::Foreign => None,
        Kind::OwnByte => {
            let token = literals[first as usize];
            if token > 0 {
                Some(GivenToken::Token(token))
            } else {
                None
            }
        }
    }
}

/// What the scan does at the front of the two texts, one behind the other. None where it stops.
pub(crate) fn step_over(scanner: &Scanner<'_>, near: &[u8], far: &[u8]) -> Option<Step>
    requires some { 0 < length near.now }
    ensures { IfSome result (IsStep (scanning scanner.now) (near.now ++ far.now)) }
{
    let Look { found, read } = look_over(scanner.automaton, near, far);
    let (rule, size) = found?;
    let given = give(scanner.kinds[place_of(rule)], scanner.literals, near[0])?;
    Some(Step { size, given, read })
}

/// How many tokens were given, of those that are wanted, where the match gives the next of them or none.
pub(crate) fn counted(wanted: &[u16], count: usize, given: GivenToken) -> Option<usize>
    requires { count ≤ length wanted.now }
    ensures { IfSome result (IsCounted wanted.now count (tokens_of given)) }
{
    match given {
        GivenToken::Nothing => Some(count),
        GivenToken::Token(token) => {
            if count < wanted.len() && wanted[count] == token {
                Some(count + 1)
            } else {
                None
            }
        }
    }
}

/// Whether the scan of the two texts, one behind the other, gives the tokens first, and then what the second gives.
pub(crate) fn arrives(scanner: &Scanner<'_>, near: &[u8], far: &[u8], tokens: &[u16]) -> bool
    ensures { IsTrue result
        → Arrives (scanning scanner.now) near.now far.now tokens.now }
{
    let mut rest = near;
    let mut count = 0;
    'matches: while !rest.is_empty() {
        let Some(step) = step_over(scanner, rest, far) else {
            return false;
        };
        let Some(next) = counted(tokens, count, step.given) else {
            return false;
        };
        if step.size > rest.len() {
            return false;
        }
        count = next;
        rest = &rest[step.size..];
    }
    count == tokens.len()
}
