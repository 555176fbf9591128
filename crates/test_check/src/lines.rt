use cs_lines::{Line, read_line};
use std::alloc::AllocError;
use std::test::Fail;

// What a line is of.
#[derive(Clone, Copy, PartialEq, Eq)]
enum Form {
    Opening,
    Weighing,
    Token,
    Rule,
    Lexeme,
    Set,
    Row,
    Case,
    Derive,
    Tokens,
    Text,
    NoText,
    Goal,
    Base,
    Negative,
    End,
}

fn form_of(line: &Line<'_>) -> Form {
    match line {
        Line::Opening => Form::Opening,
        Line::Weighing(_) => Form::Weighing,
        Line::Token { .. } => Form::Token,
        Line::Rule { .. } => Form::Rule,
        Line::Lexeme { .. } => Form::Lexeme,
        Line::Set { .. } => Form::Set,
        Line::Row { .. } => Form::Row,
        Line::Case { .. } => Form::Case,
        Line::Derive(_) => Form::Derive,
        Line::Tokens(_) => Form::Tokens,
        Line::Text(_) => Form::Text,
        Line::NoText => Form::NoText,
        Line::Goal { .. } => Form::Goal,
        Line::Base { .. } => Form::Base,
        Line::Negative { .. } => Form::Negative,
        Line::End(_) => Form::End,
    }
}

// Lines of each form, as the formats write them.
const SAID: &[(&[u8], Form)] = &[
    (b"conform 2 suite", Form::Opening),
    (b"weigh nodes", Form::Weighing),
    (b"weigh bytes", Form::Weighing),
    (b"token 1 NUMBER", Form::Token),
    (b"token 4 '\\x27'", Form::Token),
    (b"rule 7 members : members ',' value", Form::Rule),
    (b"rule 4 items :", Form::Rule),
    (b"lexeme NAME \"a\"", Form::Lexeme),
    (b"lexeme OTHER none", Form::Lexeme),
    (b"closed productive value items members", Form::Set),
    (b"closed reachable value", Form::Set),
    (b"closed empty", Form::Set),
    (b"closed first value : NUMBER NAME", Form::Row),
    (b"closed last items :", Form::Row),
    (b"closed next <begin> : NAME <end>", Form::Row),
    (b"case 9 size 11", Form::Case),
    (b"  derive 3 5 7 6 1 2", Form::Derive),
    (b"  tokens '[' NUMBER ',' NAME ']'", Form::Tokens),
    (b"  tokens", Form::Tokens),
    (b"  text \"[ 0 , a ]\"", Form::Text),
    (b"  text \"\"", Form::Text),
    (b"  text \"\\x22\\x0a\\xff\"", Form::Text),
    (b"  no text lexeme OTHER", Form::NoText),
    (b"  no text scan 0", Form::NoText),
    (b"goal 1 rule 1 size 2 case 1 first 1", Form::Goal),
    (b"goal 18 context 7 3 2 infeasible", Form::Goal),
    (b"goal 53 pair ',' <end> large", Form::Goal),
    (b"base 4 goal 21", Form::Base),
    (
        b"negative 1 base 1 delete 0 pair <begin> b at 0",
        Form::Negative,
    ),
    (
        b"negative 49 base 4 insert 2 ',' pair ',' ']' at 3",
        Form::Negative,
    ),
    (
        b"negative 2 base 1 replace 1 a pair a b at 1",
        Form::Negative,
    ),
    (b"negative 3 base 1 swap 0 pair b a at 1", Form::Negative),
    (
        b"end goals 3 feasible 1 infeasible 1 large 1 negatives 2 cases 1",
        Form::End,
    ),
];

// Each differs in one thing from a line.
const UNSAID: &[&[u8]] = &[
    b"",
    b" ",
    b"conform 1 suite",
    b"conform 2 suite ",
    b"weigh node",
    b"weigh",
    b"token 01 NUMBER",
    b"token -1 NUMBER",
    b"token NUMBER",
    b"token 1",
    b"token 1 ",
    b"token  1 NUMBER",
    b"token 1 NUMBER ",
    b"token 1 NUMBER NAME",
    b"Token 1 NUMBER",
    b" token 1 NUMBER",
    b"token\t1 NUMBER",
    b"token 1 NUM\tBER",
    b"token 1 NUMBER\n",
    b"rule 4 items",
    b"rule 4 items:",
    b"rule 4 items : ",
    b"rule 7 members : members  value",
    b"lexeme NAME a",
    b"lexeme NAME",
    b"lexeme NAME \"",
    b"lexeme NAME \"a\" ",
    b"lexeme NAME \"\"\"",
    b"lexeme NAME \"\\\"",
    b"lexeme NAME \"\\x61\"",
    b"lexeme NAME \"\\x0A\"",
    b"lexeme NAME \"\\x0\"",
    b"lexeme NAME \"\x80\"",
    b"closed full value",
    b"closed productive ",
    b"closed first value",
    b"closed first : NAME",
    b"closed next <begin> NAME",
    b"case 9",
    b"case 9 size",
    b"case 9 size 1 1",
    b"  derive 3 05",
    b"  derive 3 a",
    b" derive 3",
    b"   derive 3",
    b"  tokens  a",
    b"  tokens ",
    b"  text",
    b"  text a",
    b"  no text",
    b"  no text lexeme",
    b"  no text scan",
    b"  no text scan a",
    b"  no lexeme a",
    b"  none",
    b"goal 1 rule 1",
    b"goal 1 rule 1 feasible",
    b"goal 1 rule 1 size 2 case 1",
    b"goal 1 rule 1 infeasible 1",
    b"goal 18 context 7 3 infeasible",
    b"goal 53 pair ',' large",
    b"base 4 goal",
    b"base 4",
    b"negative 1 base 1 delete pair <begin> b at 0",
    b"negative 1 base 1 delete 0 b pair <begin> b at 0",
    b"negative 2 base 1 replace 1 pair a b at 1",
    b"negative 3 base 1 swap 0 pair b a",
    b"negative 3 base 1 move 0 pair b a at 1",
    b"end goals 3 feasible 1 infeasible 1 large 1 negatives 2",
    b"end",
];

#[test]
fn lines_of_each_form(rt: HostRuntime) {
    for (text, form) in SAID {
        match read_line(text) {
            Some(line) => assert!(rt; form_of(&line) == *form),
            None => panic!(rt; "no line"),
        }
    }
}

#[test]
fn lines_of_no_form(rt: HostRuntime) {
    for text in UNSAID {
        assert!(rt; read_line(text).is_none());
    }
}
