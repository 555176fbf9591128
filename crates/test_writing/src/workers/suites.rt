// Suites whose goals, or cases, wait for each other: worked by hand from the definitions, as docs/FORMATS.md lays them out.

use crate::workers::meeting::Meeting;
use crate::workers::two_flags::TwoFlags;
use cs_fan::Gate;
use cs_io::MemorySink;
use cs_run::run;
use cs_sample_files::{desk, suite_words};
use cs_samples::{LETTER_SCANNER, SCANNER, SUMS, SUMS_SUITE_ONE, words};
use std::alloc::{AllocError, Global};
use std::test::Fail;
use std::thread::Threads;

const CHOICE: &[u8] = b"%%\na : a | 'x' ;\n";

// The symbol a stands six times on right sides, each time for four rules: it has 6 * 6 * 4 chains.
const REPEATED: &[u8] = b"%%\na : a a a | a a | a | 'x' ;\n";

// Each of these has a tree.
const CHAINS_END: &[u8] = b"\nend goals 144 feasible 144 infeasible 0 large 0\n";

// The suite of `CHOICE` by rules alone.
const CHOICE_RULES: &[u8] = b"conform 1 suite
token 1 'x'
rule 1 a : a
rule 2 a : 'x'
lexeme 'x' \"x\"
goal 1 rule 1 size 3
  derive 1 2
  tokens 'x'
  text \"x\"
goal 2 rule 2 size 2
  derive 2
  tokens 'x'
  text \"x\"
end goals 2 feasible 2 infeasible 0 large 0 negatives 0
";

// The same in the second format: rule 2 is in the first case too.
const CHOICE_CASES: &[u8] = b"conform 2 suite
weigh nodes
token 1 'x'
rule 1 a : a
rule 2 a : 'x'
lexeme 'x' \"x\"
closed productive a
closed reachable a
closed empty
closed first a : 'x'
closed last a : 'x'
closed next <begin> : 'x'
closed next 'x' : <end>
case 1 size 3
  derive 1 2
  tokens 'x'
  text \"x\"
goal 1 rule 1 size 3 case 1 first 1
case 2 size 2
  derive 2
  tokens 'x'
  text \"x\"
goal 2 rule 2 size 2 case 2 first 1
end goals 2 feasible 2 infeasible 0 large 0 negatives 0 cases 2
";

// How a run of these words on two files ends, whose workers enter this gate, and what it writes.
fn ran<R: Threads + Sync, G: Gate + Sync>(
    rt: &R,
    alloc: Global,
    words: &[String],
    files: (&[u8], &[u8]),
    gate: &G,
) -> Result<(u8, MemorySink), AllocError> {
    let mut desk = desk(alloc, Some(files.0), Some(files.1))?;
    let mut out = MemorySink::new(alloc, 20_000, 20_000, Vec::new(alloc))?;
    let mut err = MemorySink::new(alloc, 99, 99, Vec::new(alloc))?;
    let status = run(rt, alloc, words, &mut desk, &mut out, &mut err, gate);
    Ok((status, out))
}

// Whether two workers are at work at once on the suite of `CHOICE` by rules, in this format, and write it.
fn two_meet<R: Threads + Sync>(
    rt: &R,
    alloc: Global,
    format: &str,
    whole: &[u8],
) -> Result<bool, AllocError> {
    let gate = TwoFlags::new();
    let words = suite_words(alloc, &["--mutate=none", "--criteria=rule", format])?;
    let (status, out) = ran(rt, alloc, &words, (CHOICE, LETTER_SCANNER), &gate)?;
    Ok(status == 0 && gate.have_met() && out.written() == whole)
}

// The two goals are one batch, and so are the two cases.
#[test]
fn two_goals_meet(rt: HostRuntime) -> Result<(), Fail> {
    let alloc = rt.alloc();
    assert!(rt; two_meet(&rt, alloc, "--format=1", CHOICE_RULES)?);
    assert!(rt; two_meet(&rt, alloc, "--format=2", CHOICE_CASES)?);
    Ok(())
}

// The four goals of sums are one batch, and each has a worker.
#[test]
fn four_goals_meet(rt: HostRuntime) -> Result<(), Fail> {
    let gate = Meeting::of(4);
    let options = ["--mutate=none", "--criteria=rule", "--format=1"];
    let words = suite_words(rt.alloc(), &options)?;
    let (status, out) = ran(&rt, rt.alloc(), &words, (SUMS, SCANNER), &gate)?;
    assert!(rt; status == 0 && gate.have_met());
    assert!(rt; out.written() == SUMS_SUITE_ONE.as_bytes());
    Ok(())
}

// The chains are one batch, which workers share.
#[test]
fn two_chains_meet(rt: HostRuntime) -> Result<(), Fail> {
    let gate = Meeting::of(2);
    let words = words(rt.alloc(), &["chains", "y", "l"])?;
    let (status, out) = ran(&rt, rt.alloc(), &words, (REPEATED, LETTER_SCANNER), &gate)?;
    assert!(rt; status == 0 && gate.have_met());
    assert!(rt; out.written().ends_with(CHAINS_END));
    Ok(())
}
