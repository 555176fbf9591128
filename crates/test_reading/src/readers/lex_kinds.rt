//! The kinds of actions, worked by hand from the table of docs/FORMATS.md.

use cs_lex::{ActionKind, action_kind};

const KINDS: &[(&[u8], ActionKind<'_>)] = &[
    (b"{ n++; return(NUM); }", ActionKind::Word(b"NUM")),
    (b"return '+';", ActionKind::Literal(b'+')),
    (b"return yytext[0];", ActionKind::OwnByte),
    (b"/*@skip*/ return NUM;", ActionKind::Skip),
    (b"/*@token '('*/ return f();", ActionKind::Literal(b'(')),
    (b"return f();", ActionKind::Foreign),
    (b"yymore();", ActionKind::Foreign),
    (b"/*@token ID*/", ActionKind::Word(b"ID")),
    (b";", ActionKind::Skip),
    (b"", ActionKind::Skip),
    (b"|", ActionKind::Bar),
    (b"  | /* a */ \r", ActionKind::Bar),
    (b"/*@skip*/ |", ActionKind::Bar),
    (b"/* a\nb */|", ActionKind::Bar),
    (b"|\n", ActionKind::Skip),
    (b"| ;", ActionKind::Skip),
    (b"|| // a", ActionKind::Skip),
    (b"return *yytext;", ActionKind::OwnByte),
    (b"return * yytext;", ActionKind::Foreign),
    (b"return yytext [0];", ActionKind::Foreign),
    (b"return yytext;", ActionKind::Word(b"yytext")),
    (b"return ((/* a */ ( A )\n) );", ActionKind::Word(b"A")),
    (b"return ((A);", ActionKind::Foreign),
    (b"return (A));", ActionKind::Foreign),
    (b"return A", ActionKind::Foreign),
    (b"return A; f();", ActionKind::Word(b"A")),
    (b"if (x) return A; return B;", ActionKind::Foreign),
    (b"\"return\" 'return'", ActionKind::Skip),
    (b"return A; \"return\"", ActionKind::Word(b"A")),
    (b"returns A;", ActionKind::Skip),
    (b"1return A;", ActionKind::Skip),
    (b"\"/*@skip*/\" return A;", ActionKind::Word(b"A")),
    (b"/* @skip*/ return A;", ActionKind::Word(b"A")),
    (b"/*@token  a.b*/", ActionKind::Word(b"a.b")),
    (b"/*@token\r\tA*/ return B;", ActionKind::Word(b"A")),
    (b"/*@tokenA*/ return B;", ActionKind::Word(b"B")),
    (b"/*@token A */ return B;", ActionKind::Word(b"B")),
    (b"/*@token '*'*/", ActionKind::Literal(b'*')),
    (b"/*@token A*/ /*@skip*/", ActionKind::Word(b"A")),
    (b"/*@token 1a*/ return '\\x41';", ActionKind::Literal(b'A')),
    (b"input(); return A;", ActionKind::Foreign),
    (b"inputs(); return A;", ActionKind::Word(b"A")),
    (b"return '';", ActionKind::Foreign),
];

#[test]
fn kinds_of_actions(rt: HostRuntime) {
    for &(text, want) in KINDS {
        assert_eq!(rt; action_kind(text), want, "{text:?}");
    }
}
