// The summaries of numbers, by `run`. The line of 1 is that of "The generated files" in docs/FORMATS.md. The lengths of files, the
// goals and how many are feasible come from a reckoning in Python; of the negatives and the bytes only that they stay is looked at:
// they are the program's own.

use cs_fan::OpenGate;
use cs_io::{Desk, DeskError, MemoryDesk, MemorySink};
use cs_run::run;
use cs_samples::words;
use std::alloc::{AllocError, Global};
use std::test::Fail;
use std::thread::Threads;

const LINE: &[u8] =
    b"gen 1 yacc 1240 lex 378 goals 968 feasible 862 infeasible 106 large 0 negatives 1442 bytes 315463\n";

// A desk with one file, whose first call fails.
fn desk(alloc: Global) -> Result<MemoryDesk, AllocError> {
    let mut files = Vec::new(alloc);
    files.push((String::from_str(alloc, "1")?, b"%%\n".to_vec(alloc)?))?;
    MemoryDesk::new(files, [0].to_vec(alloc)?)
}

// The status of a run of `gen` and this word, what was written, and what was said.
fn summary<R: Threads + Sync>(
    rt: &R,
    alloc: Global,
    seed: &str,
    mut out: MemorySink,
) -> Result<(u8, MemorySink, MemorySink), AllocError> {
    let words = words(alloc, &["gen", seed])?;
    let mut desk = desk(alloc)?;
    let mut err = MemorySink::new(alloc, 99, 99, Vec::new(alloc))?;
    let status = run(rt, alloc, &words, &mut desk, &mut out, &mut err, &OpenGate);
    Ok((status, out, err))
}

fn ample(alloc: Global) -> Result<MemorySink, AllocError> {
    MemorySink::new(alloc, 999, 7, Vec::new(alloc))
}

#[test]
fn the_summary_of_one_twice(rt: HostRuntime) -> Result<(), Fail> {
    let alloc = rt.alloc();
    for _ in 0..2 {
        let (status, out, err) = summary(&rt, alloc, "1", ample(alloc)?)?;
        assert_eq!(rt; status, 0);
        assert_eq!(rt; out.written(), LINE);
        assert_eq!(rt; err.written(), b"".as_slice());
    }
    Ok(())
}

#[test]
fn numbers_are_written_without_leading_zeros(rt: HostRuntime) -> Result<(), Fail> {
    let alloc = rt.alloc();
    let rows: [(&str, &[u8]); 4] = [
        ("0", b"gen 0 yacc 1378 lex 378 goals "),
        ("007", b"gen 7 yacc 1358 lex 378 goals "),
        ("00000000000000000001", LINE),
        (
            "18446744073709551615",
            b"gen 18446744073709551615 yacc 1259 lex 378 goals ",
        ),
    ];
    for (seed, begin) in rows {
        let (status, out, _) = summary(&rt, alloc, seed, ample(alloc)?)?;
        assert_eq!(rt; status, 0);
        assert!(rt; out.written().starts_with(begin), "{seed}");
        assert!(rt; out.written().ends_with(b"\n"), "{seed}");
    }
    Ok(())
}

#[test]
fn words_that_are_no_number(rt: HostRuntime) -> Result<(), Fail> {
    let alloc = rt.alloc();
    for seed in ["18446744073709551616", "000000000000000000001", "", "-1"] {
        let (status, out, err) = summary(&rt, alloc, seed, ample(alloc)?)?;
        assert_eq!(rt; status, 2);
        assert_eq!(rt; out.written(), b"".as_slice());
        assert_eq!(rt; err.written(), b"conform: usage: word 1\n".as_slice());
    }
    Ok(())
}

// The desk's first call fails, and it is still to come.
#[test]
fn no_file_is_asked_for(rt: HostRuntime) -> Result<(), Fail> {
    let alloc = rt.alloc();
    let words = words(alloc, &["gen", "1"])?;
    let mut desk = desk(alloc)?;
    let mut out = ample(alloc)?;
    let mut err = ample(alloc)?;
    assert_eq!(rt;
        run(&rt, alloc, &words, &mut desk, &mut out, &mut err, &OpenGate),
        0
    );
    match desk.read(alloc, "1", 9) {
        Err(error) => assert_eq!(rt; error, DeskError::Failed),
        Ok(_) => assert!(rt; false),
    }
    match desk.read(alloc, "1", 9) {
        Err(_) => assert!(rt; false),
        Ok(bytes) => assert_eq!(rt; bytes.as_slice(), b"%%\n".as_slice()),
    }
    Ok(())
}

#[test]
fn the_output_fails_at_each_byte_and_call(rt: HostRuntime) -> Result<(), Fail> {
    let alloc = rt.alloc();
    for at in 0..LINE.len() {
        let rows: [(&[u32], usize); 2] = [(&[at as u32], LINE.len()), (&[], at)];
        for (failing, room) in rows {
            let out = MemorySink::new(alloc, room, 1, failing.to_vec(alloc)?)?;
            let (status, out, err) = summary(&rt, alloc, "1", out)?;
            assert_eq!(rt; status, 4);
            assert_eq!(rt; out.written(), &LINE[..at]);
            assert_eq!(rt; err.written(), b"conform: write fault\n".as_slice());
        }
    }
    Ok(())
}
