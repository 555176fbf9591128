// How a run of `suite` on a yacc file and a lex file ends.

use cs_fan::OpenGate;
use cs_io::MemorySink;
use cs_run::run;
use cs_sample_files::desk;
use cs_samples::words;
use std::alloc::{AllocError, Global};
use std::thread::Threads;

/// A run: its status, its output and its error output.
#[derive(Drop)]
pub(crate) struct Ended {
    pub(crate) status: u8,
    pub(crate) out: MemorySink,
    pub(crate) err: MemorySink,
}

/// The words of a suite of the first format.
pub(crate) const FIRST: &[&str] = &["suite", "y", "l", "--format=1"];

/// A run of these words, on the files `y` and `l`.
pub(crate) fn suite<R: Threads + Sync>(
    rt: &R,
    alloc: Global,
    texts: &[&str],
    yacc: &[u8],
    lex: &[u8],
) -> Result<Ended, AllocError> {
    let words = words(alloc, texts)?;
    let mut desk = desk(alloc, Some(yacc), Some(lex))?;
    let mut out = MemorySink::new(alloc, 4_000_000, 4_000_000, Vec::new(alloc))?;
    let mut err = MemorySink::new(alloc, 99, 99, Vec::new(alloc))?;
    let status = run(rt, alloc, &words, &mut desk, &mut out, &mut err, &OpenGate);
    Ok(Ended { status, out, err })
}

/// Whether the files are refused with this line, without output.
pub(crate) fn is_refused<R: Threads + Sync>(
    rt: &R,
    alloc: Global,
    yacc: &[u8],
    lex: &[u8],
    line: &str,
) -> Result<bool, AllocError> {
    let ended = suite(rt, alloc, &["suite", "y", "l"], yacc, lex)?;
    let is_told = ended.err.written() == line.as_bytes();
    Ok(ended.status == 1 && ended.out.written().is_empty() && is_told)
}

/// Whether the files are accepted, and their suite of the first format ends so.
pub(crate) fn is_written<R: Threads + Sync>(
    rt: &R,
    alloc: Global,
    yacc: &[u8],
    lex: &[u8],
    end: &[u8],
) -> Result<bool, AllocError> {
    let ended = suite(rt, alloc, FIRST, yacc, lex)?;
    let is_silent = ended.err.written().is_empty();
    Ok(ended.status == 0 && ended.out.written().ends_with(end) && is_silent)
}
