// The states of automata, and how many sets of positions there may be.

ghost use Rattle.std.specs.Prelude.{◌<◌, ◌≤◌, IfSome, length};

use crate::scanning::rules::rule;
use cs_pattern::PatternError;
use cs_scanner::{Automaton, State, StateTexts};
use std::alloc::{AllocError, Global};
use std::test::Fail;

// The state after the text. None where no rule matches a text that begins with it.
fn state_after(automaton: &Automaton<'_>, text: &[u8]) -> Option<State>
    ensures { IfSome result (λ state. state < length automaton.now.sets) }
{
    let mut state = automaton.start();
    for i in 0..text.len() {
        state = automaton.step(state, text[i])?;
    }
    Some(state)
}

// The first rule after the text, or 0 where no rule matches it; None where none matches a text that begins with it.
pub(crate) fn rule_after(automaton: &Automaton<'_>, text: &[u8]) -> Option<u16> {
    let state = state_after(automaton, text)?;
    Some(automaton.first_rule(state).unwrap_or(0))
}

// Worked by hand: `(ab)+` matches ab, abab and so on, and `a` the one letter.
const AFTER: &[(&str, Option<u16>)] = &[
    ("", Some(0)),
    ("a", Some(2)),
    ("ab", Some(1)),
    ("aba", Some(0)),
    ("abab", Some(1)),
    ("b", None),
    ("aa", None),
    ("abb", None),
];

#[test]
fn rules_after_texts(rt: HostRuntime) -> Result<(), Fail> {
    let alloc = rt.alloc();
    let rules = [rule(alloc, "(ab)+")?, rule(alloc, "a")?];
    let automaton = Automaton::new(alloc, &rules)?;
    for &(text, want) in AFTER {
        assert_eq!(rt; rule_after(&automaton, text.as_bytes()), want, "{text}");
    }
    Ok(())
}

// What making the automaton of one rule answers, with the first rule at the start, as text.
fn made(alloc: Global, text: &str) -> Result<String, PatternError> {
    let rules = [rule(alloc, text)?];
    match Automaton::new(alloc, &rules) {
        Ok(automaton) => {
            let first = automaton.first_rule(automaton.start());
            Ok(format!(in alloc; "{first:?}")?)
        }
        Err(error) => Ok(format!(in alloc; "{error:?}")?),
    }
}

// Worked by hand: which of the last n + 1 letters are an a is what `(a|b)*a(a|b){n}` has to know, so it has 2 to the power of
// n + 1 sets.
const STARTS: &[(&str, &str)] = &[
    ("a", "None"),
    ("a*", "Some(1)"),
    ("\"\"", "Some(1)"),
    ("(a|b)*a(a|b){13}", "None"),
    ("(a|b)*a(a|b){14}", "TooManyStates { most: 16384 }"),
];

#[test]
fn rules_at_the_start(rt: HostRuntime) -> Result<(), Fail> {
    let alloc = rt.alloc();
    for &(text, want) in STARTS {
        let found = made(alloc, text)?;
        assert_eq!(rt; found.as_str(), want, "{text}");
    }
    Ok(())
}

// The rules of so many that match the text, by the automaton's list of them, and by each alone.
fn rules_after(
    alloc: Global,
    automaton: &Automaton<'_>,
    rules: u16,
    text: &[u8],
) -> Result<Option<String>, AllocError>
    requires { rules ≤ length automaton.now.patterns }
{
    let Some(state) = state_after(automaton, text) else {
        return Ok(None);
    };
    let mut shown = format!(in alloc; "{:?}", automaton.rules_at(state))?;
    for rule in 1..=rules {
        let mark = if automaton.matches(state, rule) {
            " yes"
        } else {
            " no"
        };
        shown.push_str(mark)?;
    }
    Ok(Some(shown))
}

// Worked by hand.
const ALL_AFTER: &[(&str, &str)] = &[
    ("", "[2] no yes"),
    ("a", "[1, 2] yes yes"),
    ("aa", "[1, 2] yes yes"),
    ("aaa", "[2] no yes"),
];

#[test]
fn all_rules_after_texts(rt: HostRuntime) -> Result<(), Fail> {
    let alloc = rt.alloc();
    let rules = [rule(alloc, "a{1,2}")?, rule(alloc, "a*")?];
    let automaton = Automaton::new(alloc, &rules)?;
    for &(text, want) in ALL_AFTER {
        let found = rules_after(alloc, &automaton, 2, text.as_bytes())?;
        assert_eq!(rt; found.as_deref(), Some(want), "{text}");
    }
    Ok(())
}

// The least text to each state, with the first rule there, or 0.
fn texts_of(alloc: Global, automaton: &Automaton<'_>) -> Result<String, AllocError> {
    let texts = StateTexts::new(alloc, automaton)?;
    let mut shown = String::new(alloc);
    for place in 0..texts.count() {
        let text = texts.text(alloc, place)?;
        let first = rule_after(automaton, &text).unwrap_or(0);
        write!(shown, "{} {first}\n", text.escape_ascii())?;
    }
    Ok(shown)
}

// Worked by hand: behind `i` an `f` makes the keyword. `x+` is `x` and `x*`, so a second letter leads to another set than the
// first.
#[test]
fn least_texts_of_states(rt: HostRuntime) -> Result<(), Fail> {
    let alloc = rt.alloc();
    let rules = [rule(alloc, "if")?, rule(alloc, "[a-z]+")?];
    let automaton = Automaton::new(alloc, &rules)?;
    let found = texts_of(alloc, &automaton)?;
    assert_eq!(rt; found.as_str(), "a 2\ni 2\naa 2\nif 1\n");
    Ok(())
}
