// Runs of the command over an outside that fails at one call, each call in turn, and what has to come of them: the status, the
// line, and of the output the bytes that were taken before.

use cs_fan::OpenGate;
use cs_io::{MemoryDesk, MemorySink};
use cs_run::run;
use cs_samples::{SCANNER, SUMS};
use std::alloc::{AllocError, Global};
use std::thread::Threads;

/// Sums and their scanner, `g1.y` and `l1.l`, of whose reads these fail.
pub(crate) fn desk(alloc: Global, failing: &[u32]) -> Result<MemoryDesk, AllocError> {
    let mut files = Vec::new(alloc);
    files.push((String::from_str(alloc, "g1.y")?, SUMS.to_vec(alloc)?))?;
    files.push((String::from_str(alloc, "l1.l")?, SCANNER.to_vec(alloc)?))?;
    MemoryDesk::new(files, failing.to_vec(alloc)?)
}

/// Whether a run ends with this status and line, and these bytes of the output.
pub(crate) fn ends<R: Threads + Sync>(
    rt: &R,
    alloc: Global,
    words: &[String],
    mut desk: MemoryDesk,
    mut out: MemorySink,
    want: (u8, &str, &[u8]),
) -> Result<bool, AllocError> {
    let mut err = MemorySink::new(alloc, 99, 99, Vec::new(alloc))?;
    let status = run(rt, alloc, words, &mut desk, &mut out, &mut err, &OpenGate);
    let is_told = err.written() == want.1.as_bytes();
    Ok(status == want.0 && is_told && out.written() == want.2)
}

/// Whether the whole output is written where nothing fails and just that room is there.
pub(crate) fn has_room<R: Threads + Sync>(
    rt: &R,
    alloc: Global,
    words: &[String],
    whole: &[u8],
    step: usize,
) -> Result<bool, AllocError> {
    if step == 0 {
        return Ok(false);
    }
    let desk = desk(alloc, &[])?;
    let out = MemorySink::new(alloc, whole.len(), step, Vec::new(alloc))?;
    ends(rt, alloc, words, desk, out, (0, "", whole))
}

/// Whether a read that fails ends the run with this line; none does that isn't asked for.
pub(crate) fn stops_at_read<R: Threads + Sync>(
    rt: &R,
    alloc: Global,
    words: &[String],
    call: u32,
    line: &str,
) -> Result<bool, AllocError> {
    let desk = desk(alloc, &[call])?;
    let out = MemorySink::new(alloc, 9, 9, Vec::new(alloc))?;
    ends(rt, alloc, words, desk, out, (3, line, b""))
}

/// The first room below the whole output with which a run ends otherwise than it has to.
pub(crate) fn wrong_room<R: Threads + Sync>(
    rt: &R,
    alloc: Global,
    words: &[String],
    whole: &[u8],
) -> Result<Option<usize>, AllocError> {
    for room in 0..whole.len() {
        let desk = desk(alloc, &[])?;
        let out = MemorySink::new(alloc, room, 1, Vec::new(alloc))?;
        let want = (4, "conform: write fault\n", &whole[..room]);
        if !ends(rt, alloc, words, desk, out, want)? {
            return Ok(Some(room));
        }
    }
    Ok(None)
}

/// The first place in the whole output at which, where the call of an output of this step fails that would write on there, a run
/// ends otherwise than it has to.
pub(crate) fn wrong_call<R: Threads + Sync>(
    rt: &R,
    alloc: Global,
    words: &[String],
    whole: &[u8],
    step: usize,
) -> Result<Option<usize>, AllocError> {
    if step == 0 {
        return Ok(Some(0));
    }
    for front in (0..whole.len()).step_by(step) {
        let Ok(call) = u32::try_from(front / step) else {
            return Ok(Some(front));
        };
        let desk = desk(alloc, &[])?;
        let out = MemorySink::new(alloc, whole.len(), step, [call].to_vec(alloc)?)?;
        let want = (4, "conform: write fault\n", &whole[..front]);
        if !ends(rt, alloc, words, desk, out, want)? {
            return Ok(Some(front));
        }
    }
    Ok(None)
}
