//! Lex files beside a yacc file, worked by hand from POSIX.1-2017, lex, and the profile of docs/FORMATS.md.

use cs_lex::{Kind, LexError, LexFile, LexLimit, MOST_BYTES, PatternFault, read_lex};
use cs_sample_files::{Trouble, read_files, sums};
use cs_samples::{C_SCANNER, SUMS};
use cs_yacc::YaccFile;
use std::alloc::{AllocError, Global};
use std::test::Fail;

// The kinds of the rules of a file beside a yacc file, or why it is refused.
fn kinds_beside(alloc: Global, text: &[u8], yacc: &YaccFile) -> Result<Vec<Kind>, LexError> {
    if text.len() > MOST_BYTES {
        return Err(LexError::Memory);
    }
    let file = read_lex(alloc, text, yacc)?;
    Ok(Vec::from_slice(alloc, file.kinds())?)
}

// The kinds of the rules of a file beside the yacc file of sums, or why it is refused.
fn kinds(alloc: Global, text: &[u8]) -> Result<Vec<Kind>, LexError> {
    match sums(alloc) {
        Ok(yacc) => kinds_beside(alloc, text, &yacc),
        Err(_) => Err(LexError::Memory),
    }
}

fn refusal(alloc: Global, text: &[u8]) -> Option<LexError> {
    kinds(alloc, text).err()
}

fn with_action(alloc: Global, action: &[u8]) -> Result<Vec<u8>, AllocError> {
    let mut text = Vec::from_slice(alloc, b"%%\nx ")?;
    text.extend_from_slice(action)?;
    text.push(b'\n')?;
    Ok(text)
}

const RULES: &[(&[u8], Kind)] = &[
    (b"{ n++; return(NUM); }", Kind::Token(1)),
    (b"return '+';", Kind::Token(2)),
    (b"return yytext[0];", Kind::OwnByte),
    (b"return *yytext;", Kind::OwnByte),
    (b"/*@skip*/ return NUM;", Kind::Skip),
    (b"/*@token '('*/ return f();", Kind::Token(3)),
    (b"return f();", Kind::Foreign),
    (b"yymore();", Kind::Foreign),
    (b"/*@token ID*/", Kind::Foreign),
    (b"return '\\051';", Kind::Token(4)),
    (b"return '-';", Kind::Foreign),
    (b"return e;", Kind::Foreign),
    (b";", Kind::Skip),
    (b"", Kind::Skip),
];

#[test]
fn kinds_of_rules(rt: HostRuntime) -> Result<(), Fail> {
    let alloc = rt.alloc();
    for &(action, want) in RULES {
        let text = with_action(alloc, action)?;
        let found = kinds(alloc, &text)?;
        assert_eq!(rt; found.as_slice(), &[want][..], "{action:?}");
    }
    Ok(())
}

#[test]
fn bars_take_the_kind_of_the_next_rule(rt: HostRuntime) -> Result<(), Fail> {
    let alloc = rt.alloc();
    let text: &[u8] = b"%%\na |\nb | /* c */\nc return NUM;\nd |\n int x;\ne ;\nf\tECHO;\n";
    let found = kinds(alloc, text)?;
    let want = [
        Kind::Token(1),
        Kind::Token(1),
        Kind::Token(1),
        Kind::Skip,
        Kind::Skip,
        Kind::Skip,
    ];
    assert_eq!(rt; found.as_slice(), &want[..]);
    Ok(())
}

const FILES: &[(&[u8], &[Kind])] = &[
    (
        b"%{\n#include \"y.tab.h\"\nint n; /* %% */\n%}\n%option noyywrap yylineno\nD [0-9] /* digits */\n%%\n{D}+ {\n  n = atoi(yytext); /* } */\n  return NUM;\n}\n[+()] return *yytext;\n[ \\t\\n]+ ;\n. { ECHO; printf(\"}\"); }\n%%\nint main() { return yylex(); }\n\"\n",
        &[Kind::Token(1), Kind::OwnByte, Kind::Skip, Kind::Skip],
    ),
    (
        b"D [0-9]\r\n%%\r\n{D} return NUM;\r\n[+]\treturn '+' ;\r\n",
        &[Kind::Token(1), Kind::Token(2)],
    ),
    (
        b"%%\n\"a b\" return '(';\n\\ ;\nx",
        &[Kind::Token(3), Kind::Skip, Kind::Skip],
    ),
    (
        b"%%\n%{\n  int x;\n%}\n[a b]x /* c\n d */ return NUM; // {\n",
        &[Kind::Token(1)],
    ),
];

#[test]
fn files_as_people_write_them(rt: HostRuntime) -> Result<(), Fail> {
    let alloc = rt.alloc();
    for &(text, want) in FILES {
        let found = kinds(alloc, text)?;
        assert_eq!(rt; found.as_slice(), want, "{text:?}");
    }
    Ok(())
}

// Files, and why they are refused, where it isn't for a pattern.
const REFUSED: &[(&[u8], LexError)] = &[
    (b"", LexError::Layout { at: 0 }),
    (b"%%\n", LexError::NoRules),
    (b"%%\na |\n", LexError::DanglingBar { at: 3 }),
    (b"%%\na ;\nb |\n", LexError::DanglingBar { at: 7 }),
    (b"%s X\n%%\n", LexError::StartCondition { at: 0 }),
    (
        b"%option case-insensitive\n",
        LexError::UnknownOption { at: 8 },
    ),
    (b"%{ x\n", LexError::Unended { at: 0 }),
    (b"%%\na { /* x\n", LexError::Unended { at: 5 }),
    (b"%foo\n", LexError::UnknownDirective { at: 0 }),
    (b"%\n", LexError::UnknownDirective { at: 0 }),
    (b"D a\nD b\n%%\na ;\n", LexError::Layout { at: 4 }),
    (b"D a\n", LexError::Layout { at: 4 }),
    (b"D\n%%\na ;\n", LexError::Layout { at: 0 }),
    (b"%%\n^a |\n", LexError::DanglingBar { at: 3 }),
    (b"D [b-a]\n%%\n", LexError::NoRules),
    (
        b"%%\na{1000}{8} ;\na{1000}{8} ;\na{1000}{8} ;\n",
        LexError::Limit {
            which: LexLimit::Positions,
            found: 24_000,
            most: 16_384,
        },
    ),
];

// Files with a pattern that is refused, where it begins, and why.
const REFUSED_PATTERNS: &[(&[u8], u32, PatternFault)] = &[
    (
        b"%%\nab/cd return NUM;\n",
        3,
        PatternFault::Trailing { at: 2 },
    ),
    (b"D [b-a]\n%%\n^a ;\n", 2, PatternFault::Syntax { at: 0 }),
    (
        b"A {B}\nB {A}\n%%\na ;\n",
        2,
        PatternFault::DefinitionCycle { at: 0 },
    ),
    (b"A <a\n%%\n^ ;\n", 2, PatternFault::Condition { at: 0 }),
    (
        b"%%\na ;\n^b ;\n<X>c ;\n",
        7,
        PatternFault::Anchor { at: 0 },
    ),
    (
        b"%%\na ;\nb/c^ ;\n^d ;\n",
        7,
        PatternFault::Trailing { at: 1 },
    ),
    (
        b"%%\na {x}\n{D} ;\n",
        9,
        PatternFault::UndefinedName { at: 0 },
    ),
    (b"%%\n[[.a.]] ;\n", 3, PatternFault::Collation { at: 0 }),
    (
        b"A {B}\n%%\n[a b ;\n",
        2,
        PatternFault::UndefinedName { at: 0 },
    ),
    (b"%%\n\"a b ;\n", 3, PatternFault::Syntax { at: 0 }),
    (b"%%\na{0} ;\n", 3, PatternFault::Syntax { at: 1 }),
    (
        b"%%\na{1000}{8} ;\na{1000}{8} ;\na{1000}{8} ;\n^ ;\n",
        42,
        PatternFault::Anchor { at: 0 },
    ),
];

#[test]
fn why_files_are_refused(rt: HostRuntime) {
    for &(text, want) in REFUSED {
        assert_eq!(rt; refusal(rt.alloc(), text), Some(want), "{text:?}");
    }
}

#[test]
fn why_patterns_are_refused(rt: HostRuntime) {
    for &(text, at, fault) in REFUSED_PATTERNS {
        let want = LexError::Pattern { at, fault };
        assert_eq!(rt; refusal(rt.alloc(), text), Some(want), "{text:?}");
    }
}

fn push_all(text: &mut Vec<u8>, piece: &[u8], times: u32) -> Result<(), AllocError> {
    for _ in 0..times {
        text.extend_from_slice(piece)?;
    }
    Ok(())
}

#[test]
fn rules_up_to_the_limit(rt: HostRuntime) -> Result<(), Fail> {
    let alloc = rt.alloc();
    let mut text = Vec::from_slice(alloc, b"%%\n")?;
    push_all(&mut text, b"a |\n", 2047)?;
    text.extend_from_slice(b"a return NUM;\n")?;
    let found = kinds(alloc, &text)?;
    assert_eq!(rt; found.len(), 2048);
    assert!(rt; found.iter().all(|kind| *kind == Kind::Token(1)));
    text.extend_from_slice(b"^ ;\n")?;
    let want = LexError::Limit {
        which: LexLimit::Rules,
        found: 2049,
        most: 2048,
    };
    assert_eq!(rt; refusal(alloc, &text), Some(want));
    Ok(())
}

#[test]
fn open_brackets_in_numbers(rt: HostRuntime) -> Result<(), Fail> {
    let alloc = rt.alloc();
    let mut text = Vec::from_slice(alloc, b"%%\n")?;
    push_all(&mut text, b"(", 300_000)?;
    text.push(b'a')?;
    push_all(&mut text, b")", 300_000)?;
    text.extend_from_slice(b" ;")?;
    let fault = PatternFault::TooDeep {
        found: 300_000,
        most: 200,
    };
    assert_eq!(rt;
        refusal(alloc, &text),
        Some(LexError::Pattern { at: 3, fault })
    );
    Ok(())
}

#[test]
fn doubled_definitions(rt: HostRuntime) -> Result<(), Fail> {
    let alloc = rt.alloc();
    let text: &[u8] =
        b"D0 aa\nD1 {D0}{D0}\nD2 {D1}{D1}\nD3 {D2}{D2}\nD4 {D3}{D3}\nD5 {D4}{D4}\nD6 {D5}{D5}\nD7 {D6}{D6}\nD8 {D7}{D7}\nD9 {D8}{D8}\nD10 {D9}{D9}\nD11 {D10}{D10}\nD12 {D11}{D11}\nD13 {D12}{D12}\n%%\na ;\n";
    let fault = PatternFault::TooManyPositions { most: 8192 };
    assert_eq!(rt;
        refusal(alloc, text),
        Some(LexError::Pattern { at: 161, fault })
    );
    Ok(())
}

// The bytes that have a token, each with it.
fn entries(alloc: Global, literals: &[u16]) -> Result<Vec<(usize, u16)>, AllocError> {
    let mut entries = Vec::new(alloc);
    for (byte, token) in literals.iter().enumerate() {
        if *token > 0 {
            entries.push((byte, *token))?;
        }
    }
    Ok(entries)
}

// The lex file of C expressions beside the yacc file of sums.
fn c_expressions(alloc: Global) -> Result<LexFile, Trouble> {
    let (_, file) = read_files(alloc, SUMS, C_SCANNER)?;
    Ok(file)
}

#[test]
fn parts_of_the_file_of_c_expressions(rt: HostRuntime) -> Result<(), Fail> {
    let file = c_expressions(rt.alloc())?;
    assert!(rt; file.patterns().len() == 30 && file.kinds().len() == 30);
    assert!(rt; file.literals().len() == 256);
    let found = entries(rt.alloc(), file.literals())?;
    assert!(rt; found.as_slice() == [(40, 3), (41, 4), (43, 2)].as_slice());
    Ok(())
}
