// Files that are refused. Each line of the error output was worked by hand from the rules of docs/FORMATS.md: the offset
// where reading stops, or the number that is above its limit.

use crate::ending::is_refused;
use cs_samples::{NUMBER, SCANNER, SUMS, repeated};
use std::alloc::{AllocError, Global};
use std::test::Fail;
use std::thread::Threads;

// A yacc file, a lex file, and the line.
const FILES: [(&[u8], &[u8], &str); 14] = [
    (b"%token A /* x", SCANNER, "conform: yacc: Unended at 9\n"),
    (b"%{ x", SCANNER, "conform: yacc: Unended at 0\n"),
    (
        b"%%\ns : 'x' { \"}\" ;",
        SCANNER,
        "conform: yacc: Unended at 11\n",
    ),
    (b"%%\ns : '\\0' ;", SCANNER, "conform: yacc: BadItem at 7\n"),
    (b"%", SCANNER, "conform: yacc: BadItem at 0\n"),
    (SUMS, b"%", "conform: lex: UnknownDirective at 0\n"),
    (b"\n\n%", SCANNER, "conform: yacc: BadItem at 2\n"),
    (SUMS, b"\n\n%", "conform: lex: UnknownDirective at 2\n"),
    (
        SUMS,
        b"A {B}\nB {A}\n%%\na ;\n",
        "conform: lex: Pattern at 2: DefinitionCycle at 0\n",
    ),
    (
        SUMS,
        b"%%\na{1000}{8} ;\na{1000}{8} ;\na{1000}{8} ;\n",
        "conform: lex: Limit Positions 24000 of 16384\n",
    ),
    (
        SUMS,
        b"%%\na{1000}{1000}{1000}{1000}{1000} ;\n",
        "conform: lex: Pattern at 3: TooManyPositions above 8192\n",
    ),
    (
        NUMBER,
        b"%%\n(a|b)*a(a|b){14} return NUM;\n",
        "conform: lex: States above 16384\n",
    ),
    (
        b"// a line that ends the file\r%%\rs : 'x' ;\r",
        SCANNER,
        "conform: yacc: Syntax at 42\n",
    ),
    (SUMS, b"%%\r[0-9]+ return NUM;\r", "conform: lex: NoRules\n"),
];

#[test]
fn short_files(rt: HostRuntime) -> Result<(), Fail> {
    for (yacc, lex, line) in FILES {
        assert!(rt; is_refused(&rt, rt.alloc(), yacc, lex, line)?, "{line}");
    }
    Ok(())
}

// A front, a piece, how often it stands, a back, and the line.
type Row = (&'static str, &'static str, u32, &'static str, &'static str);

const LONG_YACC: [Row; 4] = [
    (
        "%%\ns :",
        " 'x'",
        129,
        " ;\n",
        "conform: yacc: Limit RightSide 129 of 128\n",
    ),
    (
        "%%\ns : ",
        "a",
        1_000_000,
        " ;\n",
        "conform: yacc: Undefined at 7\n",
    ),
    ("", "%", 1_048_576, "", "conform: yacc: Syntax at 2\n"),
    (
        "%%\ns : ",
        "{",
        1_000_000,
        "",
        "conform: yacc: Unended at 7\n",
    ),
];

#[test]
fn long_yacc_files(rt: HostRuntime) -> Result<(), Fail> {
    for (front, piece, times, back, line) in LONG_YACC {
        let yacc = repeated(rt.alloc(), front, piece, times, back)?;
        let is_told = is_refused(&rt, rt.alloc(), yacc.as_bytes(), SCANNER, line)?;
        assert!(rt; is_told, "{line}");
    }
    Ok(())
}

#[test]
fn files_of_one_byte_alone(rt: HostRuntime) -> Result<(), Fail> {
    for byte in [0u8, 255] {
        let file = vec![in rt.alloc(); byte; 1_048_576]?;
        let yacc = "conform: yacc: BadItem at 0\n";
        assert!(rt;
            is_refused(&rt, rt.alloc(), &file, SCANNER, yacc)?,
            "{byte}"
        );
        let lex = "conform: lex: Layout at 0\n";
        assert!(rt; is_refused(&rt, rt.alloc(), SUMS, &file, lex)?, "{byte}");
    }
    Ok(())
}

// `%token`, the names t1 to t513, and a rule for each of them.
fn many_tokens(alloc: Global) -> Result<String, AllocError> {
    let mut text = String::from_str(alloc, "%token")?;
    for number in 1..514u32 {
        write!(text, " t{number}")?;
    }
    text.push_str("\n%%\ns : t1")?;
    for number in 2..514u32 {
        write!(text, " | t{number}")?;
    }
    text.push_str(" ;\n")?;
    Ok(text)
}

#[test]
fn too_many_tokens(rt: HostRuntime) -> Result<(), Fail> {
    let yacc = many_tokens(rt.alloc())?;
    let line = "conform: yacc: Limit Tokens 513 of 512\n";
    assert!(rt; is_refused(&rt, rt.alloc(), yacc.as_bytes(), SCANNER, line)?);
    Ok(())
}

const LONG_LEX: [Row; 4] = [
    (
        "%%\na",
        "*",
        1_000_000,
        " ;\n",
        "conform: lex: Pattern at 3: TooDeep 1000000 of 200\n",
    ),
    (
        "D ",
        "a",
        1_000_000,
        "\n%%\na ;\n",
        "conform: lex: Pattern at 2: TooManyPositions above 8192\n",
    ),
    ("", "%", 1_048_576, "", "conform: lex: NoRules\n"),
    (
        "%%\n",
        "(",
        100_000,
        " ;\n",
        "conform: lex: Pattern at 3: Syntax at 100000\n",
    ),
];

#[test]
fn lex_files_of_a_million_bytes(rt: HostRuntime) -> Result<(), Fail> {
    for (front, piece, times, back, line) in LONG_LEX {
        let lex = repeated(rt.alloc(), front, piece, times, back)?;
        assert!(rt;
            is_refused(&rt, rt.alloc(), SUMS, lex.as_bytes(), line)?,
            "{line}"
        );
    }
    Ok(())
}

// `D0 aa`, and thirteen definitions that are each twice the one before.
fn doubled(alloc: Global) -> Result<String, AllocError> {
    let mut text = String::from_str(alloc, "D0 aa\n")?;
    for number in 1..14u32 {
        let before = number - 1;
        write!(text, "D{number} {{D{before}}}{{D{before}}}\n")?;
    }
    text.push_str("%%\na ;\n")?;
    Ok(text)
}

// `D0 {D1}` and so on, each the next, to a definition with this text.
fn chained(alloc: Global, last: &str) -> Result<String, AllocError> {
    let mut text = String::new(alloc);
    for number in 0..20_000u32 {
        let next = number + 1;
        write!(text, "D{number} {{D{next}}}\n")?;
    }
    write!(text, "D20000 {last}\n%%\na ;\n")?;
    Ok(text)
}

// Groups within one another.
fn groups(alloc: Global) -> Result<String, AllocError> {
    let mut text = repeated(alloc, "%%\n", "(", 300_000, "a")?;
    text.push_str(repeated(alloc, "", ")", 300_000, " ;\n")?.as_str())?;
    Ok(text)
}

fn refuses_lex<R: Threads + Sync>(
    rt: &R,
    alloc: Global,
    lex: String,
    line: &str,
) -> Result<bool, AllocError> {
    is_refused(rt, alloc, SUMS, lex.as_bytes(), line)
}

#[test]
fn deep_patterns(rt: HostRuntime) -> Result<(), Fail> {
    let groups = groups(rt.alloc())?;
    let line = "conform: lex: Pattern at 3: TooDeep 300000 of 200\n";
    assert!(rt; refuses_lex(&rt, rt.alloc(), groups, line)?);
    let doubled = doubled(rt.alloc())?;
    let line = "conform: lex: Pattern at 161: TooManyPositions above 8192\n";
    assert!(rt; refuses_lex(&rt, rt.alloc(), doubled, line)?);
    let chain = chained(rt.alloc(), "a")?;
    let line = "conform: lex: Pattern at 3: TooDeep 20000 of 200\n";
    assert!(rt; refuses_lex(&rt, rt.alloc(), chain, line)?);
    let cycle = chained(rt.alloc(), "{D0}")?;
    let line = "conform: lex: Pattern at 3: DefinitionCycle at 0\n";
    assert!(rt; refuses_lex(&rt, rt.alloc(), cycle, line)?);
    Ok(())
}
