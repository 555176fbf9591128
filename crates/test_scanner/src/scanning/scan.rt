// The longest match at a place, and the first rule that has it.

use crate::scanning::rules::rule;
use cs_scanner::{Automaton, longest};
use std::test::Fail;

// The longest match at a place of the text; None where there is no such place.
fn longest_at(automaton: &Automaton<'_>, text: &[u8], at: usize) -> Option<(u16, usize)> {
    if at > text.len() {
        return None;
    }
    longest(automaton, text, at)
}

// Worked by hand from POSIX lex: the most bytes count first, then the rule given first.
const LONGEST: &[(&str, usize, Option<(u16, usize)>)] = &[
    ("iffy", 0, Some((2, 4))),
    ("if", 0, Some((1, 2))),
    ("1", 0, None),
    ("", 0, None),
    ("i", 0, Some((2, 1))),
    ("if1", 0, Some((1, 2))),
    ("xif", 1, Some((1, 2))),
    ("if", 2, None),
];

#[test]
fn longest_matches_of_two_rules(rt: HostRuntime) -> Result<(), Fail> {
    let alloc = rt.alloc();
    let rules = [rule(alloc, "if")?, rule(alloc, "[a-z]+")?];
    let automaton = Automaton::new(alloc, &rules)?;
    for &(text, at, want) in LONGEST {
        assert_eq!(rt;
            longest_at(&automaton, text.as_bytes(), at),
            want,
            "{text} at {at}"
        );
    }
    Ok(())
}

// Worked by hand: a match has at least one byte, though the pattern matches the empty text too; and the last front that a rule
// matches counts, though a longer text begins with what was read.
const WITH_BYTES: &[(&str, Option<(u16, usize)>)] = &[
    ("b", None),
    ("aab", Some((1, 2))),
    ("aac", Some((1, 2))),
    ("aacd", Some((2, 4))),
];

#[test]
fn matches_have_bytes(rt: HostRuntime) -> Result<(), Fail> {
    let alloc = rt.alloc();
    let rules = [rule(alloc, "a*")?, rule(alloc, "a+cd")?];
    let automaton = Automaton::new(alloc, &rules)?;
    for &(text, want) in WITH_BYTES {
        assert_eq!(rt; longest_at(&automaton, text.as_bytes(), 0), want, "{text}");
    }
    Ok(())
}
