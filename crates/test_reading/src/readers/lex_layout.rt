//! The layout of lex files, worked by hand from POSIX.1-2017, lex, and the profile of docs/FORMATS.md.

ghost use Rattle.std.specs.Prelude.{◌≤◌, length};

use cs_lex::{Definition, LayoutError, MOST_BYTES, Part, Rule, read_layout};
use cs_samples::C_SCANNER;
use std::alloc::Global;
use std::test::Fail;

fn is_part(bytes: &[u8], part: Part, want: &[u8]) -> bool {
    bytes.get(part.from..part.to) == Some(want)
}

fn put(shown: &mut Vec<u8>, bytes: &[u8], part: Part) -> Result<(), LayoutError> {
    for byte in bytes.get(part.from..part.to).unwrap_or(b"?") {
        shown.push(*byte)?;
    }
    shown.push(b'~')?;
    Ok(())
}

// The parts of the text, each with `~` behind it, and `%` between the definitions and the rules.
fn shown(alloc: Global, text: &[u8]) -> Result<Vec<u8>, LayoutError>
    requires { length text.now ≤ 1048576 }
{
    let layout = read_layout(alloc, text)?;
    let mut shown = Vec::new(alloc);
    for definition in &layout.definitions {
        put(&mut shown, text, definition.name)?;
        put(&mut shown, text, definition.substitute)?;
    }
    shown.push(b'%')?;
    for rule in &layout.rules {
        put(&mut shown, text, rule.pattern)?;
        put(&mut shown, text, rule.action)?;
    }
    Ok(shown)
}

const PARTS: &[(&[u8], &[u8])] = &[
    (b"%%\n", b"%"),
    (b"%%", b"%"),
    (b"%% x y\na\tb c ", b"%a~b c ~"),
    (b"%%\na |\n", b"%a~|~"),
    (
        b"D [0-9]\nL\t\t[a z]x \r\n%%\n{D} ;\n%%\nb ;",
        b"D~[0-9]~L~[a z]x~%{D}~;~",
    ),
    (b"a-b_1 x/*c*/ // d\n%%\n", b"a-b_1~x/*c*/~%"),
    (b"A x /* c */ \n_ y // c /*\n%%\n", b"A~x~_~y~%"),
    (
        b"%{ %}\nint x; \"\n%} z\n%option debug 8bit \r\n%option\n%p 3000\n%array\n\n /* a\n b */ c\n// /*\n%%\n",
        b"%",
    ),
    (
        b"%%\n%{\n%%\n%}\n  int x;\n/* a\n */ \n\n'a' { if (x) {\n '}' /* } */ } }\n",
        b"%'a'~{ if (x) {\n '}' /* } */ } }~",
    ),
    (
        b"%%\n\"a b\" x\n\"a b x\nq y\n",
        b"%\"a b\"~x~\"a b x~~q~y~",
    ),
    (b"%%\n\\ a b\n\\\n\"\\\n", b"%\\ a~b~\\~~\"\\~~"),
    (b"%%\n[^] ] b\n[]^] b\n[] b\n", b"%[^] ]~b~[]^]~b~[] b~~"),
    (
        b"%%\n[[:] ] b\n[[: ]:] b\n[ [:x :] ] b\n",
        b"%[[:]~] b~[[: ]:]~b~[ [:x :] ]~b~",
    ),
    (
        b"%%\n[\\] ] b\n[[.].] c\n[[=x=]] d\n",
        b"%[\\] ]~b~[[.].]~c~[[=x=]]~d~",
    ),
    (b"%%\na } b\nc '{' \"}\nd\\\n", b"%a~} b~c~'{' \"}~d\\~~"),
    (
        b"%%\na ' {\n}\nb \"\\\n{\" c\n",
        b"%a~' {\n}~b~\"\\\n{\" c~",
    ),
    (
        b"%%\na /* x\ny */ z\nb // {\nc x",
        b"%a~/* x\ny */ z~b~// {~c~x~",
    ),
    (b"%%\r\na\r\nb \r c\r\n", b"%a~~b~c\r~"),
    (b"%%\na\x0cb c\n", b"%a\x0cb~c~"),
    (b"%%\na\x0bb c\n", b"%a\x0bb~c~"),
    (b"%%\n[a\\\nb c\n", b"%[a\\~~b~c~"),
    (b"%%\n%x a\n%", b"%%x~a~%~~"),
    (b"A {B}\nB x\n%%\n", b"A~{B}~B~x~%"),
    (b" 'a /* \n */ x'\n \"/*\" \n%%\n", b"%"),
    (b"%{foo\n%}bar\n%%foo\na ;\n%%baz\nb {", b"%a~;~"),
];

#[test]
fn parts_of_files(rt: HostRuntime) -> Result<(), Fail> {
    for &(text, want) in PARTS {
        assert!(rt; text.len() <= MOST_BYTES);
        let found = shown(rt.alloc(), text).ok().ok_or("read")?;
        assert_eq!(rt; found.as_slice(), want, "{text:?}");
    }
    Ok(())
}

const STOPS: &[(&[u8], LayoutError)] = &[
    (b"A x/* c */\n%%\n", LayoutError::Layout { at: 0 }),
    (b"", LayoutError::Layout { at: 0 }),
    (b"%s X\n%%\n", LayoutError::StartCondition { at: 0 }),
    (
        b"%option case-insensitive\n",
        LayoutError::UnknownOption { at: 8 },
    ),
    (b"\n", LayoutError::Layout { at: 1 }),
    (b"A x\nA y\n%%\n", LayoutError::Layout { at: 4 }),
    (b"A x\nB y\nA x\n%s\n", LayoutError::Layout { at: 8 }),
    (b"A\n%%\n", LayoutError::Layout { at: 0 }),
    (b"A  \n%%\n", LayoutError::Layout { at: 0 }),
    (b"A+ x\n%%\n", LayoutError::Layout { at: 0 }),
    (b"A x y\n%%\n", LayoutError::Layout { at: 0 }),
    (b"A x /* a */ /* b */\n%%\n", LayoutError::Layout { at: 0 }),
    (b"A x /* a\n*/\n%%\n", LayoutError::Layout { at: 0 }),
    (b"\n-a x\n", LayoutError::Layout { at: 1 }),
    (b"1a x\n", LayoutError::Layout { at: 0 }),
    (b"/a\n", LayoutError::Layout { at: 0 }),
    (b"\x0c\n", LayoutError::Layout { at: 0 }),
    (b"%\n%%\n", LayoutError::UnknownDirective { at: 0 }),
    (b"%-s\n%%\n", LayoutError::UnknownDirective { at: 0 }),
    (b"%pp\n", LayoutError::UnknownDirective { at: 0 }),
    (b"%options\n", LayoutError::UnknownDirective { at: 0 }),
    (b"%Xa\n", LayoutError::StartCondition { at: 0 }),
    (b"%start A\n", LayoutError::StartCondition { at: 0 }),
    (b"\n%x-y A\n", LayoutError::StartCondition { at: 1 }),
    (
        b"%option warn /* a */\n",
        LayoutError::UnknownOption { at: 13 },
    ),
    (b"%option=x\n", LayoutError::UnknownOption { at: 7 }),
    (
        b"%option warn\tdebugx\n",
        LayoutError::UnknownOption { at: 13 },
    ),
    (b"%{\n %}\n", LayoutError::Unended { at: 0 }),
    (b"%{ %}\n%%\n", LayoutError::Unended { at: 0 }),
    (b"A x\n /* a\n%%\n", LayoutError::Unended { at: 5 }),
    (b"\n/*/\n%%\n", LayoutError::Unended { at: 1 }),
    (b"%%\n%{\n", LayoutError::Unended { at: 3 }),
    (b"%%\n x /* a\n", LayoutError::Unended { at: 6 }),
    (b"%%\na { { } \n", LayoutError::Unended { at: 5 }),
    (b"%%\na { /* } \n", LayoutError::Unended { at: 5 }),
    (b"%%\na { { /* } } \n", LayoutError::Unended { at: 5 }),
    (b"%%\na x /* } \n", LayoutError::Unended { at: 7 }),
    (b"%%\na {} {\n'}' // }\n", LayoutError::Unended { at: 8 }),
    (b"%option", LayoutError::Layout { at: 7 }),
    (b"A x", LayoutError::Layout { at: 3 }),
    (b"A \"x y\n%%\nb {", LayoutError::Unended { at: 12 }),
    (b"%{\n%}", LayoutError::Layout { at: 5 }),
];

#[test]
fn where_layout_stops(rt: HostRuntime) {
    for &(text, want) in STOPS {
        assert!(rt; text.len() <= MOST_BYTES);
        assert_eq!(rt; read_layout(rt.alloc(), text).err(), Some(want), "{text:?}");
    }
}

// Whether these are the definitions of the file of C expressions: D and L.
fn are_definitions(text: &[u8], definitions: &[Definition]) -> bool {
    let [digit, letter] = definitions else {
        return false;
    };
    is_part(text, digit.substitute, b"[0-9]") && is_part(text, letter.name, b"L")
}

// Whether these are its rules: the first and the last three.
fn are_rules(text: &[u8], rules: &[Rule]) -> bool {
    let [int, .., classes, space, other] = rules else {
        return false;
    };
    is_part(text, int.pattern, b"\"int\"")
        && is_part(text, int.action, b"{ count(); return(INT); }")
        && is_part(text, classes.action, b"return *yytext;")
        && is_part(text, space.pattern, b"[ \\t\\v\\n\\f]+")
        && is_part(text, other.pattern, b".")
        && is_part(text, other.action, b";")
}

#[test]
fn parts_of_c_expressions(rt: HostRuntime) -> Result<(), Fail> {
    assert!(rt; C_SCANNER.len() <= MOST_BYTES);
    let layout = read_layout(rt.alloc(), C_SCANNER).ok().ok_or("read")?;
    assert!(rt; are_definitions(C_SCANNER, &layout.definitions));
    assert!(rt; layout.rules.len() == 30);
    assert!(rt; are_rules(C_SCANNER, &layout.rules));
    Ok(())
}
