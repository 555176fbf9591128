// How a run of `suite` on a yacc file and a lex file ends.

use cs_fan::OpenGate;
use cs_io::MemorySink;
use cs_run::run;
use cs_sample_files::{desk, suite_words};
use std::alloc::{AllocError, Global};
use std::thread::Threads;

/// A run: its status, its output and its error output.
#[derive(Drop)]
pub(crate) struct Ended {
    pub(crate) status: u8,
    pub(crate) out: MemorySink,
    pub(crate) err: MemorySink,
}

/// A yacc file and a lex file, each where there is one.
pub(crate) type Files<'f> = (Option<&'f [u8]>, Option<&'f [u8]>);

/// A run of these options, whose output goes to this sink.
pub(crate) fn suite<R: Threads + Sync>(
    rt: &R,
    alloc: Global,
    files: Files<'_>,
    options: &[&str],
    mut out: MemorySink,
) -> Result<Ended, AllocError> {
    let words = suite_words(alloc, options)?;
    let mut desk = desk(alloc, files.0, files.1)?;
    let mut err = MemorySink::new(alloc, 99, 99, Vec::new(alloc))?;
    let status = run(rt, alloc, &words, &mut desk, &mut out, &mut err, &OpenGate);
    Ok(Ended { status, out, err })
}

/// The text that a run of these options writes, where it ends well and says nothing.
pub(crate) fn written<R: Threads + Sync>(
    rt: &R,
    alloc: Global,
    yacc: &[u8],
    lex: &[u8],
    options: &[&str],
) -> Result<Option<MemorySink>, AllocError> {
    let out = MemorySink::new(alloc, 100_000, 100_000, Vec::new(alloc))?;
    let ended = suite(rt, alloc, (Some(yacc), Some(lex)), options, out)?;
    let Ended { status, out, err } = ended;
    if status == 0 && err.written().is_empty() {
        Ok(Some(out))
    } else {
        Ok(None)
    }
}
