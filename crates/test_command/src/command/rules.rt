// Manifests of `rules`, and how its runs end, by `run`. What is expected was worked by hand from the grammar file of POSIX yacc
// and from docs/FORMATS.md, which has the lines, the statuses and the order of the refusals.

use cs_fan::OpenGate;
use cs_io::{MemoryDesk, MemorySink};
use cs_run::run;
use cs_samples::{SUMS, words};
use std::alloc::{AllocError, Global};
use std::test::Fail;
use std::thread::Threads;

const RULES: &[&str] = &["rules", "g1.y"];

const SILENT: &[u8] = b"";

// A status, an output and an error output.
type Want<'w> = (u8, &'w [u8], &'w [u8]);

// A fresh desk with the file `g1.y`.
fn desk(alloc: Global, file: &[u8]) -> Result<MemoryDesk, AllocError> {
    let mut files = Vec::new(alloc);
    files.push((String::from_str(alloc, "g1.y")?, file.to_vec(alloc)?))?;
    MemoryDesk::new(files, Vec::new(alloc))
}

// Whether a run of these words on the file has this status, output and error output.
fn is_ended<R: Threads + Sync>(
    rt: &R,
    alloc: Global,
    texts: &[&str],
    file: &[u8],
    (status, written, said): Want<'_>,
) -> Result<bool, AllocError> {
    let words = words(alloc, texts)?;
    let mut desk = desk(alloc, file)?;
    let mut out = MemorySink::new(alloc, 4096, 7, Vec::new(alloc))?;
    let mut err = MemorySink::new(alloc, 99, 99, Vec::new(alloc))?;
    let ended = run(rt, alloc, &words, &mut desk, &mut out, &mut err, &OpenGate);
    Ok(ended == status && out.written() == written && err.written() == said)
}

const CYCLE: &[u8] = b"conform 1 rules
token 1 'x'
rule 1 a : a
rule 2 a : 'x'
goal 1 rule 1 size 3
  derive 1 2
  tokens 'x'
goal 2 rule 2 size 2
  derive 2
  tokens 'x'
end goals 2 feasible 2 infeasible 0 large 0 negatives 0
";

const LOOSE: &[u8] = b"conform 1 rules
token 1 'x'
token 2 'y'
token 3 'z'
rule 1 s :
rule 2 s : t 'x'
rule 3 t : t 'y'
rule 4 u : 'z'
goal 1 rule 1 size 1
  derive 1
  tokens
goal 2 rule 2 infeasible
goal 3 rule 3 infeasible
goal 4 rule 4 infeasible
end goals 4 feasible 1 infeasible 3 large 0 negatives 0
";

const EMPTY: &[u8] = b"conform 1 rules
rule 1 s :
goal 1 rule 1 size 1
  derive 1
  tokens
end goals 1 feasible 1 infeasible 0 large 0 negatives 0
";

// A file, the status, the output and the error output.
const FILES: [(&[u8], u8, &[u8], &[u8]); 7] = [
    (b"%%\na : a | 'x' ;\n", 0, CYCLE, b""),
    (
        b"%%\ns : | t 'x' ;\nt : t 'y' ;\nu : 'z' ;\n",
        0,
        LOOSE,
        b"",
    ),
    (b"", 1, b"", b"conform: yacc: Syntax at 0\n"),
    (b"%%\ns : t ;", 1, b"", b"conform: yacc: Undefined at 7\n"),
    (b"%%\ns : { x } ;", 0, EMPTY, b""),
    (b"\0\xff%%", 1, b"", b"conform: yacc: BadItem at 0\n"),
    (
        b"%token NUM\n%%\ne : e '+' t | t ; t : NUM { x",
        1,
        b"",
        b"conform: yacc: Unended at 40\n",
    ),
];

#[test]
fn rules_of_files(rt: HostRuntime) -> Result<(), Fail> {
    for (file, status, written, said) in FILES {
        let want = (status, written, said);
        assert!(rt; is_ended(&rt, rt.alloc(), RULES, file, want)?);
    }
    Ok(())
}

const BAD: [(&[&str], u8, &[u8]); 8] = [
    (&[], 2, b"conform: usage: word 0\n"),
    (&["suite", "g1.y", "l1.l"], 3, b"conform: read fault: lex\n"),
    (&["rules"], 2, b"conform: usage: word 1\n"),
    (&["rules", ""], 2, b"conform: usage: word 1\n"),
    (&["rules", "-g"], 2, b"conform: usage: word 1\n"),
    (&["rules", "g1.y", "g1.y"], 2, b"conform: usage: word 2\n"),
    (&["--help"], 2, b"conform: usage: word 0\n"),
    (&["rules", "g2.y"], 3, b"conform: read fault: yacc\n"),
];

#[test]
fn bad_words_and_missing_files(rt: HostRuntime) -> Result<(), Fail> {
    for (texts, status, said) in BAD {
        let want = (status, SILENT, said);
        assert!(rt; is_ended(&rt, rt.alloc(), texts, SUMS, want)?);
    }
    Ok(())
}

#[test]
fn files_about_the_most_bytes(rt: HostRuntime) -> Result<(), Fail> {
    let rows: [(usize, &[u8]); 2] = [
        (1_048_576, b"conform: yacc: Syntax at 1048576\n"),
        (1_048_577, b"conform: yacc: Length above 1048576\n"),
    ];
    for (length, said) in rows {
        let file = vec![in rt.alloc(); b' '; length]?;
        let want = (1, SILENT, said);
        assert!(rt; is_ended(&rt, rt.alloc(), RULES, &file, want)?);
    }
    Ok(())
}
