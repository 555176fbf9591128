// What the commands beside `rules`, `suite` and `gen` write, and how they end, by `run`. What is expected was worked by hand from
// docs/FORMATS.md and docs/DEFINITIONS.md.

use cs_fan::OpenGate;
use cs_io::{MemoryDesk, MemorySink};
use cs_run::run;
use cs_samples::{SCANNER, SUMS, words};
use std::alloc::{AllocError, Global};
use std::test::Fail;
use std::thread::Threads;

// A desk with the files `y`, `l` and `t`.
pub(crate) fn desk(
    alloc: Global,
    yacc: &[u8],
    lex: &[u8],
    text: &[u8],
) -> Result<MemoryDesk, AllocError> {
    let mut files = Vec::new(alloc);
    files.push((String::from_str(alloc, "y")?, yacc.to_vec(alloc)?))?;
    files.push((String::from_str(alloc, "l")?, lex.to_vec(alloc)?))?;
    files.push((String::from_str(alloc, "t")?, text.to_vec(alloc)?))?;
    MemoryDesk::new(files, Vec::new(alloc))
}

// Words, a text, a status, the output and the error output.
pub(crate) type Row = (
    &'static [&'static str],
    &'static [u8],
    u8,
    &'static [u8],
    &'static [u8],
);

// Whether the run of a row on these files ends as it says.
pub(crate) fn is_ended<R: Threads + Sync>(
    rt: &R,
    alloc: Global,
    yacc: &[u8],
    lex: &[u8],
    row: &Row,
) -> Result<bool, AllocError> {
    let words = words(alloc, row.0)?;
    let mut desk = desk(alloc, yacc, lex, row.1)?;
    let mut out = MemorySink::new(alloc, 4096, 7, Vec::new(alloc))?;
    let mut err = MemorySink::new(alloc, 99, 99, Vec::new(alloc))?;
    let status = run(rt, alloc, &words, &mut desk, &mut out, &mut err, &OpenGate);
    Ok(status == row.2 && out.written() == row.3 && err.written() == row.4)
}

const LEXICAL: &[u8] = b"conform lexical
rule 1 token NUM wins \"0\"
rule 2 literal wins \"(\"
rule 3 skip wins \" \"
end rules 3 shadowed 0 overlaps 0 disjoint 3
";

const ON_SUMS: [Row; 12] = [
    (&["lexical", "y", "l"], b"", 0, LEXICAL, b""),
    (
        &["member", "y", "l", "t"],
        b"( 0 + 0 )",
        0,
        b"inside\n  derive 2 4 1 2 3 3\n",
        b"",
    ),
    (&["member", "y", "l", "t"], b"( 0", 0, b"outside\n", b""),
    (&["member", "y", "l", "t"], b"", 0, b"outside\n", b""),
    (
        &["member", "y", "l", "t"],
        b"0 x",
        1,
        b"",
        b"conform: text: Stops at 2\n",
    ),
    (
        &["lexical", "y", "l", "--bases=1"],
        b"",
        2,
        b"",
        b"conform: usage: word 3\n",
    ),
    (
        &["member", "y", "l"],
        b"",
        2,
        b"",
        b"conform: usage: word 3\n",
    ),
    (
        &["member", "y", "l", "u"],
        b"",
        3,
        b"",
        b"conform: read fault: text\n",
    ),
    (&["chains"], b"", 2, b"", b"conform: usage: word 1\n"),
    (
        &["chains", "y", "--weigh=bytes"],
        b"",
        2,
        b"",
        b"conform: usage: word 2\n",
    ),
    (
        &["chains", "y", "u"],
        b"",
        3,
        b"",
        b"conform: read fault: lex\n",
    ),
    (
        &["chains", "u"],
        b"",
        3,
        b"",
        b"conform: read fault: yacc\n",
    ),
];

#[test]
fn reports_on_sums(rt: HostRuntime) -> Result<(), Fail> {
    for row in &ON_SUMS {
        assert!(rt; is_ended(&rt, rt.alloc(), SUMS, SCANNER, row)?);
    }
    Ok(())
}

// The text is too long by its bytes and by its tokens, and within both.
#[test]
fn texts_about_the_limits(rt: HostRuntime) -> Result<(), Fail> {
    let rows: [(u8, usize, u8, &[u8], &[u8]); 4] = [
        (b' ', 65_536, 0, b"outside\n", b""),
        (b' ', 65_537, 1, b"", b"conform: text: Length above 65536\n"),
        (b'(', 2_000, 0, b"outside\n", b""),
        (b'(', 2_001, 1, b"", b"conform: text: Tokens 2001 of 2000\n"),
    ];
    for (byte, length, status, written, said) in rows {
        let text = vec![in rt.alloc(); byte; length]?;
        let words = words(rt.alloc(), &["member", "y", "l", "t"])?;
        let mut desk = desk(rt.alloc(), SUMS, SCANNER, &text)?;
        let mut out = MemorySink::new(rt.alloc(), 99, 99, Vec::new(rt.alloc()))?;
        let mut err = MemorySink::new(rt.alloc(), 99, 99, Vec::new(rt.alloc()))?;
        let got = run(
            &rt,
            rt.alloc(),
            &words,
            &mut desk,
            &mut out,
            &mut err,
            &OpenGate,
        );
        assert!(rt; got == status && out.written() == written && err.written() == said);
    }
    Ok(())
}

const TEXTS_OF_CHAINS: Row = (
    &["chains", "y", "l", "--weigh=bytes"],
    b"",
    0,
    b"conform chains
token 1 'x'
rule 1 a : a
rule 2 a : 'x'
lexeme 'x' \"x\"
goal 1 chain 1 1 1 1 1 size 21
  derive 1 1 1 2
  tokens 'x'
  text \"x\"
goal 2 chain 1 1 1 1 2 size 20
  derive 1 1 2
  tokens 'x'
  text \"x\"
end goals 2 feasible 2 infeasible 0 large 0
",
    b"",
);

const CHAINS: Row = (
    &["chains", "y"],
    b"",
    0,
    b"conform chains
token 1 'x'
rule 1 a : a
rule 2 a : 'x'
goal 1 chain 1 1 1 1 1 size 5
  derive 1 1 1 2
  tokens 'x'
goal 2 chain 1 1 1 1 2 size 4
  derive 1 1 2
  tokens 'x'
end goals 2 feasible 2 infeasible 0 large 0
",
    b"",
);

#[test]
fn chains_of_a_cycle(rt: HostRuntime) -> Result<(), Fail> {
    let cycle = b"%%\na : a | 'x' ;\n";
    let scanner = b"%%\nx return 'x';\n";
    assert!(rt; is_ended(&rt, rt.alloc(), cycle, scanner, &CHAINS)?);
    assert!(rt; is_ended(&rt, rt.alloc(), cycle, scanner, &TEXTS_OF_CHAINS)?);
    Ok(())
}
