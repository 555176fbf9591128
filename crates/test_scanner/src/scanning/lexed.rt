// Automata and scans of whole lex files.

use crate::scanning::automaton::rule_after;
use cs_lex::LexFile;
use cs_sample_files::{Trouble, read_files};
use cs_samples::SUMS;
use cs_scanner::{Agreement, Automaton, AutomatonError, Scanner, agrees};
use std::alloc::{AllocError, Global};
use std::test::Fail;

const LEXEMES: &[u8] =
    b"%%\n[0-9]+ return NUM;\n[-+*/()] return yytext[0];\n[ \\t\\n]+ ;\n~ return f();\n";

// A lex file beside the yacc file of sums.
fn lex_file(alloc: Global, lex: &[u8]) -> Result<LexFile, Trouble> {
    let (_, file) = read_files(alloc, SUMS, lex)?;
    Ok(file)
}

fn compared(
    alloc: Global,
    file: &LexFile,
    text: &str,
    tokens: &[u16],
) -> Result<Agreement, AutomatonError> {
    let automaton = Automaton::new(alloc, file.patterns())?;
    let scanner = Scanner {
        automaton: &automaton,
        kinds: file.kinds(),
        literals: file.literals(),
    };
    if tokens.len() > 1_000 {
        return Ok(Agreement::Differs { after: 0 });
    }
    Ok(agrees(&scanner, text.as_bytes(), tokens))
}

// Worked by hand from POSIX lex: the digits that stand together are one number, `*` is no literal in use, what `~` gives isn't
// known, and nothing matches `x`.
const TEXTS: &[(&str, &[u16], Agreement)] = &[
    ("", &[], Agreement::Whole),
    (" ", &[], Agreement::Whole),
    ("", &[1], Agreement::Differs { after: 0 }),
    ("0 + 0", &[1, 2, 1], Agreement::Whole),
    ("0+0", &[1, 2, 1], Agreement::Whole),
    ("00", &[1, 1], Agreement::Differs { after: 1 }),
    ("00", &[1], Agreement::Whole),
    ("(0)", &[3, 1], Agreement::Differs { after: 2 }),
    ("(0)", &[3, 2, 4], Agreement::Differs { after: 1 }),
    ("0 * 0", &[1, 1], Agreement::Differs { after: 1 }),
    ("0 ~ 0", &[1, 1], Agreement::Differs { after: 1 }),
    ("0 x", &[1], Agreement::Differs { after: 1 }),
];

#[test]
fn texts_and_tokens(rt: HostRuntime) -> Result<(), Fail> {
    let alloc = rt.alloc();
    let file = lex_file(alloc, LEXEMES)?;
    for &(text, tokens, want) in TEXTS {
        assert_eq!(rt; compared(alloc, &file, text, tokens)?, want, "{text}");
    }
    Ok(())
}

// 2,048 rules: `r1` to `r2048`.
fn numbered_rules(alloc: Global) -> Result<String, AllocError> {
    let mut text = String::new(alloc);
    text.push_str("%%\n")?;
    for number in 1..=2048u32 {
        write!(text, "r{number} ;\n")?;
    }
    Ok(text)
}

// Two rules of 8,192 times `a` between bars: all 16,384 classes are in the set of `a`.
fn wide_rules(alloc: Global) -> Result<String, AllocError> {
    let mut text = String::new(alloc);
    text.push_str("%%\n")?;
    for _ in 0..2 {
        for _ in 0..8191 {
            text.push_str("a|")?;
        }
        text.push_str("a ;\n")?;
    }
    Ok(text)
}

// 200 groups around `c`, each an either of `a` and a join of `b` and the group: 400 eithers and joins stand around `c`.
fn deep_rule(alloc: Global) -> Result<String, AllocError> {
    let mut text = String::new(alloc);
    text.push_str("%%\n")?;
    for _ in 0..200 {
        text.push_str("(a|b")?;
    }
    text.push_str("c")?;
    for _ in 0..200 {
        text.push_str(")")?;
    }
    text.push_str(" ;\n")?;
    Ok(text)
}

// So many times `b`, and the end.
fn bs(alloc: Global, count: usize, end: &str) -> Result<String, AllocError> {
    let mut text = String::new(alloc);
    for _ in 0..count {
        text.push_str("b")?;
    }
    text.push_str(end)?;
    Ok(text)
}

// The first rule of the lex file after the text, as `rule_after` has it.
fn rule_in(alloc: Global, lex: &str, text: &str) -> Result<Option<u16>, Trouble> {
    let file = lex_file(alloc, lex.as_bytes())?;
    let automaton = Automaton::new(alloc, file.patterns())?;
    Ok(rule_after(&automaton, text.as_bytes()))
}

// Worked by hand, as the two below.
const NUMBERED: &[(&str, Option<u16>)] = &[
    ("r", Some(0)),
    ("r1", Some(1)),
    ("r2048", Some(2048)),
    ("r2049", None),
];

#[test]
fn as_many_rules_as_may_be(rt: HostRuntime) -> Result<(), Fail> {
    let alloc = rt.alloc();
    let lex = numbered_rules(alloc)?;
    for &(text, want) in NUMBERED {
        assert_eq!(rt; rule_in(alloc, lex.as_str(), text)?, want, "{text}");
    }
    Ok(())
}

const WIDE: &[(&str, Option<u16>)] = &[("a", Some(1)), ("aa", None)];

#[test]
fn all_leaves_in_one_set(rt: HostRuntime) -> Result<(), Fail> {
    let alloc = rt.alloc();
    let lex = wide_rules(alloc)?;
    for &(text, want) in WIDE {
        assert_eq!(rt; rule_in(alloc, lex.as_str(), text)?, want, "{text}");
    }
    Ok(())
}

const DEEP: &[(usize, &str, Option<u16>)] = &[
    (199, "a", Some(1)),
    (200, "", Some(0)),
    (200, "c", Some(1)),
    (200, "a", None),
    (199, "c", None),
];

#[test]
fn a_pattern_400_parts_deep(rt: HostRuntime) -> Result<(), Fail> {
    let alloc = rt.alloc();
    let lex = deep_rule(alloc)?;
    for &(count, end, want) in DEEP {
        let text = bs(alloc, count, end)?;
        assert_eq!(rt;
            rule_in(alloc, lex.as_str(), text.as_str())?,
            want,
            "{count} {end}"
        );
    }
    Ok(())
}
