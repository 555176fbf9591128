//! Files and what they mean, worked by hand from the grammar file of POSIX yacc.

ghost use Rattle.std.specs.Prelude.{◌≤◌, length};
ghost use Rattle.cs_bytes.specs.Limits.{most_bytes};

use cs_grammar::{Grammar, Rule, Symbol};
use cs_samples::{SUMS, repeated};
use cs_yacc::{MOST_BYTES, Name, TokenName, YaccError, YaccFile, YaccLimit, read_yacc};
use std::alloc::{AllocError, Global};
use std::test::Fail;

// Whether these are the rules: of each the left side and the right side.
fn are_rules(rules: &[Rule], want: &[(u16, &[Symbol])]) -> bool {
    rules.len() == want.len()
        && rules.iter().zip(want).all(|(rule, want)| rule.left() == want.0
            && rule.right() == want.1)
}

// Whether a grammar has so many tokens and nonterminals, this start, and these rules.
fn is_grammar(grammar: &Grammar, sizes: (u16, u16, u16), rules: &[(u16, &[Symbol])]) -> bool {
    grammar.tokens() == sizes.0
        && grammar.nonterminals() == sizes.1
        && grammar.start() == sizes.2
        && are_rules(grammar.rules(), rules)
}

// Whether a file has such a grammar.
fn has_grammar(
    alloc: Global,
    text: &[u8],
    sizes: (u16, u16, u16),
    rules: &[(u16, &[Symbol])],
) -> Result<bool, YaccError>
    requires { length text.now ≤ most_bytes }
{
    let file = read_yacc(alloc, text)?;
    Ok(is_grammar(file.grammar(), sizes, rules))
}

// NUM 1, '+' 2, '(' 3, ')' 4; e 1, t 2.
const SUMS_RULES: &[(u16, &[Symbol])] = &[
    (
        1,
        &[
            Symbol::Nonterminal(1),
            Symbol::Token(2),
            Symbol::Nonterminal(2),
        ],
    ),
    (1, &[Symbol::Nonterminal(2)]),
    (2, &[Symbol::Token(1)]),
    (
        2,
        &[Symbol::Token(3), Symbol::Nonterminal(1), Symbol::Token(4)],
    ),
];

#[test]
fn grammar_of_sums(rt: HostRuntime) {
    assert!(rt; SUMS.len() <= MOST_BYTES);
    assert!(rt; has_grammar(rt.alloc(), SUMS, (4, 2, 1), SUMS_RULES) == Ok(true));
}

// Whether these are the names of the tokens of sums.
fn are_tokens_of_sums(names: &[TokenName]) -> bool {
    match names {
        [
            TokenName::Word(number),
            TokenName::Byte(b'+'),
            TokenName::Byte(b'('),
            TokenName::Byte(b')'),
        ] => number.bytes() == b"NUM".as_slice(),
        _ => false,
    }
}

fn are_nonterminals_of_sums(names: &[Name]) -> bool {
    match names {
        [e, t] => e.bytes() == b"e".as_slice() && t.bytes() == b"t".as_slice(),
        _ => false,
    }
}

#[test]
fn names_of_sums(rt: HostRuntime) -> Result<(), Fail> {
    assert!(rt; SUMS.len() <= MOST_BYTES);
    let file = read_yacc(rt.alloc(), SUMS).ok().ok_or("plain")?;
    assert!(rt; are_tokens_of_sums(file.token_names()));
    assert!(rt; are_nonterminals_of_sums(file.nonterminal_names()));
    Ok(())
}

// How many tokens, nonterminals and rules the text has.
fn counts(alloc: Global, text: &[u8]) -> Result<(u16, u16, usize), YaccError>
    requires { length text.now ≤ most_bytes }
{
    let file = read_yacc(alloc, text)?;
    let grammar = file.grammar();
    Ok((
        grammar.tokens(),
        grammar.nonterminals(),
        grammar.rules().len(),
    ))
}

const EDGES: &[(&[u8], Result<(u16, u16, usize), YaccError>)] = &[
    (b"%%\ns : t ;", Err(YaccError::Undefined { at: 7 })),
    (b"%%\ns : { x } ;", Ok((0, 1, 1))),
    (b"%%s:||;", Ok((0, 1, 3))),
    (b"%%\ns : ' ' '\x7F' ;", Ok((2, 1, 1))),
    (b"%token A A\n%token A\n%%\ns : A ;", Ok((1, 1, 1))),
    (
        b"%token A\n%%\ns : a A b ;",
        Err(YaccError::Undefined { at: 16 }),
    ),
    (b"%%\ns : error ;", Ok((0, 1, 0))),
    (b"%%\ns : 'a'", Ok((1, 1, 1))),
    (b"%%\na : b b : 'x'", Ok((1, 2, 2))),
    (b"%%\na : 'x' ; | 'y' ;", Ok((2, 1, 2))),
    (b"%%\ns : 'x' | error ';' ;", Ok((1, 1, 1))),
    (b"%token error A\n%%\ns : A %prec error ;", Ok((1, 1, 1))),
    (b"%%\ns : ; %% 'open", Ok((0, 1, 1))),
    (b"%token A\r\n%%\r\ns : A\r\n | s A ;\r\n", Ok((1, 1, 2))),
    (
        b"%left <t> '+' 300, '-' 301\n%right <t> NEG 302\n%%\ns : '-' s %prec NEG | s '+' s | 'x' ;",
        Ok((3, 1, 3)),
    ),
    (b"%%\ns : { a(); } 'x' { b(); } t\nt : 'y'", Ok((2, 2, 2))),
    (
        b"/* a */ %token // b\nA /* c */ %% /* d */ s /* e */ : /* f */ A // g\n; /* h */",
        Ok((1, 1, 1)),
    ),
    (
        b"%{ \"%}\" %}\n%%\ns : ;",
        Err(YaccError::BadItem { at: 6 }),
    ),
];

#[test]
fn texts_at_the_edges(rt: HostRuntime) {
    for &(text, want) in EDGES {
        assert!(rt; text.len() <= MOST_BYTES);
        assert_eq!(rt; counts(rt.alloc(), text), want, "{text:?}");
    }
}

const REFUSALS: &[(&[u8], YaccError)] = &[
    (b"", YaccError::Syntax { at: 0 }),
    (b"%%\na : 'x' ; b\n", YaccError::Syntax { at: 15 }),
    (
        b"%token A B\n%%\nA : 'x' ;",
        YaccError::TokenOnLeft { at: 14 },
    ),
    (b"%%\nerror : 'x' ;", YaccError::TokenOnLeft { at: 3 }),
    (
        b"%start s\n%start t\n%%\ns : ;",
        YaccError::SecondStart { at: 9 },
    ),
    (
        b"%start t\n%%\ns : 'x' ;",
        YaccError::StartNotNonterminal { at: 7 },
    ),
    (
        b"%start error\n%%\ns : 'x' ;",
        YaccError::StartNotNonterminal { at: 7 },
    ),
    (b"%%\ns : error t ;", YaccError::Undefined { at: 13 }),
    (b"%code {x}", YaccError::UnknownDirective { at: 0 }),
    (b"%%\na : \"x\" ;", YaccError::BadItem { at: 7 }),
    (
        b"%token NUM\n%%\ne : e '+' t | t ; t : NUM { x",
        YaccError::Unended { at: 40 },
    ),
    (
        b"%token\n%%\ns : t ; %- ",
        YaccError::UnknownDirective { at: 18 },
    ),
];

#[test]
fn refusals_by_place(rt: HostRuntime) {
    for &(text, want) in REFUSALS {
        assert!(rt; text.len() <= MOST_BYTES);
        assert_eq!(rt; counts(rt.alloc(), text).err(), Some(want), "{text:?}");
    }
}

// A file as people write them.
const CALCULATOR: &[u8] =
    b"%{\n#include \"x.h\" /* 1 */\n%}\r\n%union { struct { int a; } b; char c; }\n\
%token <b> NUM 258, NAME /* names */ ';'\n%left '+' '-' // low\n%right NEG 300\n%type <b> line term\n\
%expect 1\n%start line\n;\n%%\nextra : NAME\nline // all\n : term { $$ = $1; /* } */ } term '\\n'\n | error ';'\n | %empty\n ;\n\
term : '-' term %prec NEG { c = '}'; }\n | NUM\n%%\nint main() { return 'a; }\n";

// NUM 1, NAME 2, '-' 3, newline 4; extra 1, line 2, term 3.
const CALCULATOR_RULES: &[(u16, &[Symbol])] = &[
    (1, &[Symbol::Token(2)]),
    (
        2,
        &[
            Symbol::Nonterminal(3),
            Symbol::Nonterminal(3),
            Symbol::Token(4),
        ],
    ),
    (2, &[]),
    (3, &[Symbol::Token(3), Symbol::Nonterminal(3)]),
    (3, &[Symbol::Token(1)]),
];

#[test]
fn file_as_people_write_it(rt: HostRuntime) {
    assert!(rt; CALCULATOR.len() <= MOST_BYTES);
    let found = has_grammar(rt.alloc(), CALCULATOR, (4, 3, 2), CALCULATOR_RULES);
    assert!(rt; found == Ok(true));
}

const NEWLINES: &[u8] = b"%%\ns : '\\n' '\\12' '\\x0a' ;";

// Whether there is one rule, of the one token three times.
fn are_newlines(file: &YaccFile) -> bool {
    let newline = Symbol::Token(1);
    are_rules(file.grammar().rules(), &[(1, &[newline, newline, newline])])
        && matches!(file.token_names(), [TokenName::Byte(10)])
}

#[test]
fn spellings_of_one_byte(rt: HostRuntime) -> Result<(), Fail> {
    assert!(rt; NEWLINES.len() <= MOST_BYTES);
    let file = read_yacc(rt.alloc(), NEWLINES).ok().ok_or("accepted")?;
    assert!(rt; are_newlines(&file));
    Ok(())
}

// NUM 1, ID 2, '+' 3, newline 4; UNUSED stands in no rule, '!' only in one that isn't kept.
const LOOKED_UP: &[u8] =
    b"%token NUM ID UNUSED '?'\n%%\ne : e '+' NUM | ID '\\n' | '\\12' | error '!' ;\n";

const TOKENS: &[(&[u8], Option<u16>)] = &[
    (b"NUM", Some(1)),
    (b"ID", Some(2)),
    (b"UNUSED", None),
    (b"e", None),
    (b"error", None),
    (b"+", None),
    (b"NU", None),
    (b"", None),
];

const LITERALS: &[(u8, Option<u16>)] = &[
    (b'+', Some(3)),
    (b'\n', Some(4)),
    (b'!', None),
    (b'?', None),
];

fn looked_up(alloc: Global) -> Option<YaccFile> {
    if LOOKED_UP.len() > MOST_BYTES {
        return None;
    }
    read_yacc(alloc, LOOKED_UP).ok()
}

// The first name that has another token.
fn wrong_name(file: &YaccFile) -> Option<&'static [u8]> {
    for &(name, want) in TOKENS {
        if file.token(name) != want {
            return Some(name);
        }
    }
    None
}

// The first literal that has another token.
fn wrong_literal(file: &YaccFile) -> Option<u8> {
    for &(byte, want) in LITERALS {
        if file.literal(byte) != want {
            return Some(byte);
        }
    }
    None
}

#[test]
fn tokens_by_name(rt: HostRuntime) -> Result<(), Fail> {
    let file = looked_up(rt.alloc()).ok_or("accepted")?;
    assert_eq!(rt; wrong_name(&file), None);
    assert_eq!(rt; wrong_literal(&file), None);
    Ok(())
}

// The front, the piece with each number below the count, and the end.
fn counted(
    alloc: Global,
    front: &str,
    piece: &str,
    count: u16,
    end: &str,
) -> Result<String, AllocError> {
    let mut text = String::from_str(alloc, front)?;
    for number in 0..count {
        text.push_str(format!(in alloc; "{piece}{number}")?.as_str())?;
    }
    text.push_str(end)?;
    Ok(text)
}

// A text with so many of these and one more.
fn text_with(alloc: Global, which: YaccLimit, count: u16) -> Result<String, AllocError> {
    match which {
        YaccLimit::Tokens => {
            let mut text = counted(alloc, "%token T", " T", count, " %% s : T")?;
            text.push_str(counted(alloc, "", " | T", count, " ;")?.as_str())?;
            Ok(text)
        }
        YaccLimit::Nonterminals => counted(alloc, "%% s", " : ; n", count, " : ;"),
        YaccLimit::Rules => repeated(alloc, "%% s :", " |", u32::from(count), " ;"),
        YaccLimit::RightSide => repeated(alloc, "%% s : 'x'", " 'x'", u32::from(count), " ;"),
    }
}

const LIMITS: &[(YaccLimit, u16)] = &[
    (YaccLimit::Tokens, 512),
    (YaccLimit::Nonterminals, 1024),
    (YaccLimit::Rules, 8192),
    (YaccLimit::RightSide, 128),
];

#[test]
fn limits(rt: HostRuntime) -> Result<(), Fail> {
    for &(which, most) in LIMITS {
        let fits = text_with(rt.alloc(), which, most - 1)?;
        let above = text_with(rt.alloc(), which, most)?;
        assert!(rt; fits.len() <= MOST_BYTES && above.len() <= MOST_BYTES);
        let most = u32::from(most);
        let want = YaccError::Limit {
            which,
            found: most + 1,
            most,
        };
        assert!(rt; counts(rt.alloc(), fits.as_bytes()).is_ok(), "{which:?}");
        assert_eq!(rt; counts(rt.alloc(), above.as_bytes()).err(), Some(want));
    }
    Ok(())
}

// By the limits of docs/FORMATS.md: of 601 declared tokens one is in use, and of 1,025 left sides all but the last have a
// rule that is left out.
#[test]
fn what_the_limits_count(rt: HostRuntime) -> Result<(), Fail> {
    let declared = counted(rt.alloc(), "%token T", " T", 600, " %% s : T ;")?;
    let left_out = counted(rt.alloc(), "%% s", " : error ; n", 1024, " : ;")?;
    assert!(rt; declared.len() <= MOST_BYTES && left_out.len() <= MOST_BYTES);
    let want = YaccError::Limit {
        which: YaccLimit::Nonterminals,
        found: 1025,
        most: 1024,
    };
    assert_eq!(rt; counts(rt.alloc(), declared.as_bytes()), Ok((1, 1, 1)));
    assert_eq!(rt; counts(rt.alloc(), left_out.as_bytes()).err(), Some(want));
    Ok(())
}
