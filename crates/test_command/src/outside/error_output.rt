// The error output fails, at each call or for want of room: the status stays, and of the line the bytes before are there. The
// lines are those of docs/FORMATS.md.

use crate::outside::failing::desk;
use cs_fan::OpenGate;
use cs_io::MemorySink;
use cs_run::run;
use cs_samples::words;
use std::alloc::{AllocError, Global};
use std::test::Fail;
use std::thread::Threads;

// Whether a run of these words, the first read of which fails and which has no output, says so much of its line by this error
// output.
fn says<R: Threads + Sync>(
    rt: &R,
    alloc: Global,
    texts: &[&str],
    failing: &[u32],
    mut err: MemorySink,
    want: (u8, &[u8]),
) -> Result<bool, AllocError> {
    let words = words(alloc, texts)?;
    let mut desk = desk(alloc, failing)?;
    let mut out = MemorySink::new(alloc, 0, 1, Vec::new(alloc))?;
    let status = run(rt, alloc, &words, &mut desk, &mut out, &mut err, &OpenGate);
    Ok(status == want.0 && err.written() == want.1)
}

#[test]
fn the_error_output_fails_at_each_byte(rt: HostRuntime) -> Result<(), Fail> {
    let alloc = rt.alloc();
    // The words, the calls of the desk that fail, the status, and the line.
    let rows: [(&[&str], &[u32], u8, &[u8]); 4] = [
        (&[], &[], 2, b"conform: usage: word 0\n"),
        (&["rules", "l1.l"], &[], 1, b"conform: yacc: BadItem at 3\n"),
        (&["rules", "g1.y"], &[0], 3, b"conform: read fault: yacc\n"),
        (&["rules", "g1.y"], &[], 4, b"conform: write fault\n"),
    ];
    for (texts, failing, status, line) in rows {
        for at in 0..line.len() {
            let want = (status, &line[..at]);
            let fails = [at as u32].to_vec(alloc)?;
            let broken = MemorySink::new(alloc, 99, 1, fails)?;
            assert!(rt; says(&rt, alloc, texts, failing, broken, want)?);
            let full = MemorySink::new(alloc, at, 7, Vec::new(alloc))?;
            assert!(rt; says(&rt, alloc, texts, failing, full, want)?);
        }
    }
    Ok(())
}
