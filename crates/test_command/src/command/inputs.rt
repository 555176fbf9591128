// The files of a command. What is expected was worked by hand from the order of the causes and from the lines that
// docs/FORMATS.md gives.

use cs_run::{Refusal, Stop, line, read_files};
use cs_sample_files::desk;
use cs_samples::{SCANNER, SUMS, words};
use cs_words::{Role, read_words};
use std::alloc::{AllocError, Global};
use std::test::Fail;

// What is said of a yacc file `y` and a lex file `l`, each where there is one.
fn said(alloc: Global, yacc: Option<&[u8]>, lex: Option<&[u8]>) -> Result<String, AllocError> {
    let mut desk = desk(alloc, yacc, lex)?;
    let words = words(alloc, &["suite", "y", "l"])?;
    let Ok(request) = read_words(&words) else {
        return String::from_str(alloc, "bad words");
    };
    match read_files(alloc, &request, &mut desk) {
        Ok(_) => String::from_str(alloc, "read"),
        Err(Stop::NoFile(Role::Yacc)) => String::from_str(alloc, "no yacc file"),
        Err(Stop::NoFile(Role::Lex)) => String::from_str(alloc, "no lex file"),
        Err(Stop::NoFile(Role::Text)) => String::from_str(alloc, "no text"),
        Err(Stop::NoFile(Role::Manifest)) => String::from_str(alloc, "no manifest"),
        Err(Stop::Refused(refusal)) => line(alloc, refusal),
        Err(Stop::Memory) => String::from_str(alloc, "no memory"),
    }
}

// A yacc file, a lex file, and what is said.
type Row = (Option<&'static [u8]>, Option<&'static [u8]>, &'static str);

const CAUSES: [Row; 6] = [
    (Some(SUMS), Some(SCANNER), "read"),
    (None, Some(SCANNER), "no yacc file"),
    (Some(b""), None, "no lex file"),
    (Some(b""), Some(b""), "conform: yacc: Syntax at 0\n"),
    (Some(SUMS), Some(b""), "conform: lex: Layout at 0\n"),
    (Some(SUMS), Some(b"%%\n"), "conform: lex: NoRules\n"),
];

#[test]
fn causes_in_their_order(rt: HostRuntime) -> Result<(), Fail> {
    for (yacc, lex, want) in CAUSES {
        let got = said(rt.alloc(), yacc, lex)?;
        assert!(rt; got.as_str() == want);
    }
    Ok(())
}

// The length of the yacc file is judged first, and that of the lex file before what the yacc file holds.
#[test]
fn long_files_in_their_order(rt: HostRuntime) -> Result<(), Fail> {
    let long = vec![in rt.alloc(); b'x'; 1_048_577]?;
    let empty: &[u8] = b"";
    let rows: [(&[u8], &[u8], &str); 3] = [
        (&long, &long, "conform: yacc: Length above 1048576\n"),
        (&long, empty, "conform: yacc: Length above 1048576\n"),
        (empty, &long, "conform: lex: Length above 1048576\n"),
    ];
    for (yacc, lex, want) in rows {
        let got = said(rt.alloc(), Some(yacc), Some(lex))?;
        assert!(rt; got.as_str() == want);
    }
    Ok(())
}

const LINES: [(&[u8], &str); 9] = [
    (b"%%\na return NUM; /*\n", "conform: lex: Unended at 17\n"),
    (b"%q\n%%\na ;\n", "conform: lex: UnknownDirective at 0\n"),
    (
        b"%option yywrap\n%%\na ;\n",
        "conform: lex: UnknownOption at 8\n",
    ),
    (b"%s A\n%%\na ;\n", "conform: lex: StartCondition at 0\n"),
    (b"%%\na |\n", "conform: lex: DanglingBar at 3\n"),
    (
        b"%%\nab/cd return NUM;\n",
        "conform: lex: Pattern at 3: Trailing at 2\n",
    ),
    (
        b"%%\n{A} ;\n",
        "conform: lex: Pattern at 3: UndefinedName at 0\n",
    ),
    (
        b"A {B}\nB {A}\n%%\na ;\n",
        "conform: lex: Pattern at 2: DefinitionCycle at 0\n",
    ),
    (
        b"%%\n((a{1000}){1000}) ;\n",
        "conform: lex: Pattern at 3: TooManyPositions above 8192\n",
    ),
];

#[test]
fn lines_on_lex_files(rt: HostRuntime) -> Result<(), Fail> {
    for (lex, want) in LINES {
        let got = said(rt.alloc(), Some(SUMS), Some(lex))?;
        assert!(rt; got.as_str() == want);
    }
    Ok(())
}

#[test]
fn the_line_on_states(rt: HostRuntime) -> Result<(), Fail> {
    let states = line(rt.alloc(), Refusal::States)?;
    assert!(rt; states.as_str() == "conform: lex: States above 16384\n");
    Ok(())
}
