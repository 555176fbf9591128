// Patterns as people write them, with and without definitions: what is expected was worked by hand from POSIX lex and from
// "Patterns of a lex file" in docs/FORMATS.md.

ghost use Rattle.std.specs.Prelude.{◌+◌, ◌≤◌, IfOk};
ghost use Rattle.cs_pattern.specs.Operations.Definitions.{total_bytes};

use crate::scanning::sets::show_set;
use cs_pattern::{
    CheckError, Checked, DefinitionError, Definitions, MOST_BYTES, Pattern, PatternError,
    PatternFault, read_pattern,
};
use std::alloc::{AllocError, Global};
use std::test::Fail;

#[cycle(show)]
fn show(out: &mut String, pattern: &Pattern) -> Result<(), AllocError> {
    match pattern {
        Pattern::Empty => out.push_str("e")?,
        Pattern::Class(set) => {
            out.push_str("<")?;
            show_set(out, set)?;
            out.push_str(" >")?;
        }
        Pattern::Join(parts) => show_all(out, "J(", parts)?,
        Pattern::Either(parts) => show_all(out, "E(", parts)?,
        Pattern::Many(part) => {
            out.push_str("M(")?;
            show(out, part)?;
            out.push_str(")")?;
        }
    }
    Ok(())
}

#[cycle(show)]
fn show_all(out: &mut String, begin: &str, parts: &[Pattern]) -> Result<(), AllocError> {
    out.push_str(begin)?;
    for i in 0..parts.len() {
        show(out, &parts[i])?;
    }
    out.push_str(")")
}

// What reading answers, as text.
fn answer(alloc: Global, bytes: &[u8], definitions: &Checked) -> Result<String, AllocError> {
    if bytes.len() > MOST_BYTES {
        return format!(in alloc; "long");
    }
    match read_pattern(alloc, bytes, definitions) {
        Ok(pattern) => {
            let mut out = String::new(alloc);
            show(&mut out, &pattern)?;
            Ok(out)
        }
        Err(PatternError::Fault(fault)) => format!(in alloc; "{fault:?}"),
        Err(PatternError::Memory) => Err(AllocError),
    }
}

// A text and what reading it answers, separated by a tab.
const ROWS: &str = "\
a\t< 61 >\n\
ab\tJ(< 61 >< 62 >)\n\
a|bc\tE(< 61 >J(< 62 >< 63 >))\n\
ab*\tJ(< 61 >M(< 62 >))\n\
(ab)*\tM(J(< 61 >< 62 >))\n\
a+\tJ(< 61 >M(< 61 >))\n\
a?\tE(< 61 >e)\n\
a{1}\tJ(< 61 >)\n\
a{2,}\tJ(< 61 >< 61 >M(< 61 >))\n\
a{0,}\tM(< 61 >)\n\
a{1,3}\tJ(< 61 >E(< 61 >e)E(< 61 >e))\n\
a{0,1}\tJ(E(< 61 >e))\n\
ab{2}\tJ(< 61 >J(< 62 >< 62 >))\n\
a{002}\tJ(< 61 >< 61 >)\n\
a{1001}\tSyntax { at: 1 }\n\
a{0}\tSyntax { at: 1 }\n\
a{0,0}\tSyntax { at: 1 }\n\
a{2,1}\tSyntax { at: 1 }\n\
a{4294967298}\tSyntax { at: 1 }\n\
a{}\tSyntax { at: 1 }\n\
a{2,3\tSyntax { at: 1 }\n\
a**\tM(M(< 61 >))\n\
*a\tSyntax { at: 0 }\n\
a||b\tSyntax { at: 2 }\n\
a|\tSyntax { at: 2 }\n\
()\tSyntax { at: 1 }\n\
(a\tSyntax { at: 2 }\n\
a)\tSyntax { at: 1 }\n\
\tSyntax { at: 0 }\n\
(a|b)c\tJ(E(< 61 >< 62 >)< 63 >)\n\
((a))\t< 61 >\n\
^ab\tAnchor { at: 0 }\n\
ab$\tAnchor { at: 2 }\n\
a/b\tTrailing { at: 1 }\n\
<S>a\tCondition { at: 0 }\n\
a<\tJ(< 61 >< 3c >)\n\
a b\tSyntax { at: 1 }\n\
]}\tJ(< 5d >< 7d >)\n\
\\n\\a\tJ(< 0a >< 07 >)\n\
\\x41\t< 41 >\n\
\\x4g\tJ(< 04 >< 67 >)\n\
\\x414\tJ(< 41 >< 34 >)\n\
\\x\t< 78 >\n\
\\xg\tJ(< 78 >< 67 >)\n\
\\1011\tJ(< 41 >< 31 >)\n\
\\08\tJ(< 00 >< 38 >)\n\
\\8\t< 38 >\n\
\\377\t< ff >\n\
\\400\tSyntax { at: 0 }\n\
\\^\\ \tJ(< 5e >< 20 >)\n\
\\\tSyntax { at: 0 }\n\
.\t< 00-09 0b-ff >\n\
\"\"\te\n\
\"a\"\tJ(< 61 >)\n\
\"a.\"*\tM(J(< 61 >< 2e >))\n\
\"a\\\"\\x41\"\tJ(< 61 >< 22 >< 41 >)\n\
a\"b\tSyntax { at: 1 }\n\
\"\\400\"\tSyntax { at: 0 }\n\
[]a]\t< 5d 61 >\n\
[^a]\t< 00-60 62-ff >\n\
[^]]\t< 00-5c 5e-ff >\n\
[a^]\t< 5e 61 >\n\
[a-c]\t< 61-63 >\n\
[a-a]\t< 61 >\n\
[b-a]\tSyntax { at: 0 }\n\
[a-]\t< 2d 61 >\n\
[-a]\t< 2d 61 >\n\
[--a]\t< 2d-61 >\n\
[a-c-e]\t< 2d 61-63 65 >\n\
[a\\-c]\t< 2d 61 63 >\n\
[\\]-a]\t< 5d-61 >\n\
[\\t ]\t< 09 20 >\n\
[[:digit:]-]\t< 2d 30-39 >\n\
[[:digit:]-z]\tSyntax { at: 0 }\n\
[a-[:digit:]]\tSyntax { at: 0 }\n\
[[:foo:]]\tSyntax { at: 0 }\n\
[[:punct:][:blank:]]\t< 09 20-2f 3a-40 5b-60 7b-7e >\n\
[[:a]\t< 3a 5b 61 >\n\
[[:]\t< 3a 5b >\n\
[[.a.]]\tCollation { at: 0 }\n\
a[[=b=]]\tCollation { at: 1 }\n\
[[.a.]b-a]\tCollation { at: 0 }\n\
[[.a.]\tSyntax { at: 0 }\n\
[a\tSyntax { at: 0 }\n\
[]\tSyntax { at: 0 }\n\
[\\400]\tSyntax { at: 0 }\n\
[^\\0-\\377]\tSyntax { at: 0 }\n\
{x}\tUndefinedName { at: 0 }\n\
a{x-1}\tUndefinedName { at: 1 }\n\
{1x}\tSyntax { at: 0 }\n\
{-x}\tSyntax { at: 0 }\n\
{x\tSyntax { at: 0 }\n\
a{1000}{9}\tTooManyPositions { most: 8192 }\n\
(a{2}|b)?\tE(E(J(< 61 >< 61 >)< 62 >)e)\n\
a{x}^\tAnchor { at: 4 }\n\
";

#[test]
fn texts_without_definitions(rt: HostRuntime) -> Result<(), Fail> {
    let alloc = rt.alloc();
    let none = Definitions::new(alloc).check()?;
    let mut count = 0u32;
    for row in ROWS.lines() {
        if let Some((text, want)) = row.split_once('\t') {
            let found = answer(alloc, text.as_bytes(), &none)?;
            assert_eq!(rt; found.as_str(), want, "{text}");
            count = count.wrapping_add(1);
        }
    }
    assert!(rt; count == 95);
    Ok(())
}

#[test]
fn texts_with_bytes_that_end_rows(rt: HostRuntime) -> Result<(), Fail> {
    let alloc = rt.alloc();
    let none = Definitions::new(alloc).check()?;
    let texts: [&[u8]; 2] = [b"a\t", b"a\\\n"];
    for text in texts {
        let found = answer(alloc, text, &none)?;
        assert_eq!(rt; found.as_str(), "Syntax { at: 1 }");
    }
    Ok(())
}

// Adds a definition, where so many bytes are free. How many are free then.
fn add_within(
    definitions: &mut Definitions,
    free: usize,
    name: &[u8],
    text: &[u8],
) -> Result<usize, DefinitionError>
    requires { total_bytes definitions.old + free ≤ 1048576 }
    ensures { IfOk result (λ left. total_bytes definitions.new + left ≤ 1048576) }
{
    let size = name.len() + text.len();
    if free < size {
        return Err(DefinitionError::Memory);
    }
    definitions.add(name, text)?;
    Ok(free - size)
}

fn define(alloc: Global, texts: &[(&[u8], &[u8])]) -> Result<Definitions, DefinitionError> {
    let mut definitions = Definitions::new(alloc);
    let mut free = MOST_BYTES;
    for (name, text) in texts {
        free = add_within(&mut definitions, free, name, text)?;
    }
    Ok(definitions)
}

const CHECKED: &[(&[(&[u8], &[u8])], &str)] = &[
    (
        &[(b"A", b"{B}"), (b"B", b"{A}")],
        "Some(Fault { index: 0, fault: DefinitionCycle { at: 0 } })",
    ),
    (
        &[(b"A", b"{B}"), (b"B", b"c{C}"), (b"C", b"x{B}")],
        "Some(Fault { index: 1, fault: DefinitionCycle { at: 1 } })",
    ),
    (
        &[(b"A", b"{A}"), (b"B", b"{C}")],
        "Some(Fault { index: 1, fault: UndefinedName { at: 0 } })",
    ),
    (
        &[(b"A", b"{C}"), (b"B", b"a)")],
        "Some(Fault { index: 1, fault: Syntax { at: 1 } })",
    ),
    (
        &[(b"A", b"<a"), (b"B", b"^")],
        "Some(Fault { index: 0, fault: Condition { at: 0 } })",
    ),
    (
        &[(b"A", b"{B}{9}"), (b"B", b"a{1000}")],
        "Some(Fault { index: 0, fault: TooManyPositions { most: 8192 } })",
    ),
    (
        // C leads into the cycle of D and E, and is on none itself.
        &[(b"C", b"{D}"), (b"D", b"a{E}"), (b"E", b"b|{D}")],
        "Some(Fault { index: 1, fault: DefinitionCycle { at: 1 } })",
    ),
    (
        // M is between the cycle of Q and R and that of P, and on none itself.
        &[
            (b"M", b"a{P}"),
            (b"P", b"{P}"),
            (b"Q", b"{R}"),
            (b"R", b"{Q}{M}"),
        ],
        "Some(Fault { index: 1, fault: DefinitionCycle { at: 0 } })",
    ),
    (
        &[(b"A", b"b{B}{A}"), (b"B", b"c")],
        "Some(Fault { index: 0, fault: DefinitionCycle { at: 4 } })",
    ),
    (
        &[(b"A", b"{B}"), (b"B", b"{A}{C}")],
        "Some(Fault { index: 1, fault: UndefinedName { at: 3 } })",
    ),
    (
        &[(b"A", b"{B}"), (b"B", b"")],
        "Some(Fault { index: 1, fault: Syntax { at: 0 } })",
    ),
    (
        &[
            (b"A", b"{B}{D}"),
            (b"B", b"b"),
            (b"D", b"{E}{B}"),
            (b"E", b"e|f"),
        ],
        "None",
    ),
];

#[test]
fn definitions_are_checked_in_order(rt: HostRuntime) -> Result<(), Fail> {
    let alloc = rt.alloc();
    for &(texts, want) in CHECKED {
        let found = define(alloc, texts)?.check().err();
        let found = format!(in alloc; "{found:?}")?;
        assert_eq!(rt; found.as_str(), want);
    }
    Ok(())
}

#[test]
fn names_are_put_in_as_trees(rt: HostRuntime) -> Result<(), Fail> {
    let alloc = rt.alloc();
    let definitions = define(alloc, &[(b"p", b"{q}{r}"), (b"q", b"a|b"), (b"r", b"{q}c")])?;
    let checked = definitions.check()?;
    let found = answer(alloc, b"{q}*{p}", &checked)?;
    assert_eq!(rt;
        found.as_str(),
        "J(M(E(< 61 >< 62 >))J(E(< 61 >< 62 >)J(E(< 61 >< 62 >)< 63 >)))"
    );
    Ok(())
}

#[test]
fn a_name_added_twice(rt: HostRuntime) -> Result<(), Fail> {
    let mut definitions = Definitions::new(rt.alloc());
    let free = add_within(&mut definitions, MOST_BYTES, b"A", b"a")?;
    let free = add_within(&mut definitions, free, b"B", b"b")?;
    let refused = add_within(&mut definitions, free, b"A", b"b").err();
    assert_eq!(rt; refused, Some(DefinitionError::Twice));
    Ok(())
}

// Fourteen definitions, each of which uses the one before twice.
fn doubled(alloc: Global) -> Result<Definitions, DefinitionError> {
    let mut definitions = Definitions::new(alloc);
    let mut free = add_within(&mut definitions, MOST_BYTES, b"a", b"xx")?;
    for letter in b'b'..=b'n' {
        let before = letter.wrapping_sub(1);
        let text = [b'{', before, b'}', b'{', before, b'}'];
        free = add_within(&mut definitions, free, &[letter], &text)?;
    }
    Ok(definitions)
}

#[test]
fn doubled_definitions_are_refused_by_their_leaves(rt: HostRuntime) -> Result<(), Fail> {
    let fault = PatternFault::TooManyPositions { most: 8192 };
    let refused = doubled(rt.alloc())?.check().err();
    assert_eq!(rt; refused, Some(CheckError::Fault { index: 13, fault }));
    Ok(())
}

fn push_all(text: &mut Vec<u8>, byte: u8, times: u32) -> Result<(), AllocError> {
    for _ in 0..times {
        text.push(byte)?;
    }
    Ok(())
}

// So many groups around `a`.
fn nested(alloc: Global, groups: u32) -> Result<Vec<u8>, AllocError> {
    let mut text = Vec::new(alloc);
    push_all(&mut text, b'(', groups)?;
    text.push(b'a')?;
    push_all(&mut text, b')', groups)?;
    Ok(text)
}

const TOO_DEEP: &[(u32, &str)] = &[
    (300_000, "TooDeep { found: 300000, most: 200 }"),
    (201, "TooDeep { found: 201, most: 200 }"),
];

#[test]
fn the_depth_is_told(rt: HostRuntime) -> Result<(), Fail> {
    let alloc = rt.alloc();
    let none = Definitions::new(alloc).check()?;
    for &(groups, want) in TOO_DEEP {
        let text = nested(alloc, groups)?;
        let found = answer(alloc, &text, &none)?;
        assert_eq!(rt; found.as_str(), want);
    }
    Ok(())
}

#[test]
fn the_depth_counts_the_name(rt: HostRuntime) -> Result<(), Fail> {
    let alloc = rt.alloc();
    let body = nested(alloc, 200)?;
    let named = define(alloc, &[(b"A", &body)])?.check()?;
    let found = answer(alloc, b"{A}", &named)?;
    assert_eq!(rt; found.as_str(), "TooDeep { found: 201, most: 200 }");
    Ok(())
}
