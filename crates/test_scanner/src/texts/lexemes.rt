//! Lexemes, worked by hand from the order of lexemes in docs/DEFINITIONS.md and from POSIX lex.

use crate::texts::files::lexemes;
use cs_samples::{LETTER, NUMBER, SUMS};
use std::test::Fail;

const WORDS: &[u8] = b"%token IF ID\n%%\ns : IF | ID ;\n";

const TWO: &[u8] = b"%token A B\n%%\ns : A | B ;\n";

const A: &[u8] = b"%%\ns : 'a' ;\n";

const ROWS: &[(&[u8], &str, &str)] = &[
    (
        SUMS,
        "%%\n[0-9]+ return NUM;\n[-+*/()] return yytext[0];\n[ \\t\\n]+ ;\n",
        "NUM 0\n'+' +\n'(' (\n')' )\n",
    ),
    (
        WORDS,
        "%%\n[a-z]+ return ID;\nif return IF;\n",
        "IF none\nID a\n",
    ),
    (
        WORDS,
        "%%\nif return IF;\n[a-z]+ return ID;\n",
        "IF if\nID a\n",
    ),
    (
        NUMBER,
        "%%\n(a|b)*a(a|b){13} return NUM;\n",
        "NUM aaaaaaaaaaaaaa\n",
    ),
    (NUMBER, "%%\n\\\\[0-7]{1,3} return NUM;\n", "NUM \\\\0\n"),
    (TWO, "%%\na+ return A;\naa return B;\n", "A a\nB none\n"),
    (TWO, "%%\na return A;\na+ return B;\n", "A a\nB aa\n"),
    (LETTER, "%%\na* return 'x';\nx return 'x';\n", "'x' a\n"),
    (A, "%%\n\"ab\" return yytext[0];\n", "'a' ab\n"),
    // The class of a byte counts before its value, and the length before both.
    (NUMBER, "%%\n[A-Z0-9\\t!] return NUM;\n", "NUM 0\n"),
    (NUMBER, "%%\n\\ |\\x01|\\n|\\t return NUM;\n", "NUM  \n"),
    (NUMBER, "%%\n(zz|\\{) return NUM;\n", "NUM {\n"),
    // An own byte and a kind that is named give one token: the lesser text counts, whichever it is.
    (A, "%%\nab return yytext[0];\n0 return 'a';\n", "'a' 0\n"),
    (A, "%%\na return yytext[0];\nb return 'a';\n", "'a' a\n"),
    // A rule that matches the empty text gives a token by its bytes alone.
    (NUMBER, "%%\n(bb)? return NUM;\n", "NUM bb\n"),
];

#[test]
fn lexemes_of_tokens(rt: HostRuntime) -> Result<(), Fail> {
    let alloc = rt.alloc();
    for &(yacc, lex, want) in ROWS {
        let found = lexemes(alloc, yacc, lex.as_bytes())?;
        assert_eq!(rt; found.as_str(), want, "{lex}");
    }
    Ok(())
}
