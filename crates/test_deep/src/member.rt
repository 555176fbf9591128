// The text of `member` for lists of the grammar of sums.

use cs_deep::write_member;
use cs_io::{Halt, MemorySink};
use cs_samples::grammar_of_sums;
use std::alloc::{AllocError, Global};
use std::test::Fail;

// An empty output for so many bytes, which takes at most 7 in a call.
fn output(alloc: Global, room: usize) -> Result<MemorySink, AllocError> {
    MemorySink::new(alloc, room, 7, Vec::new(alloc))
}

// Each has one derivation at most, which was worked out by hand. Tokens are NUM, '+', '(' and ')'.
const ROWS: [(&[u16], &[u8]); 4] = [
    (&[3, 1, 2, 1, 4], b"inside\n  derive 2 4 1 2 3 3\n"),
    (&[1], b"inside\n  derive 2 3\n"),
    (&[3, 1], b"outside\n"),
    (&[], b"outside\n"),
];

#[test]
fn lists_of_sums(rt: HostRuntime) -> Result<(), Fail> {
    let grammar = grammar_of_sums(rt.alloc())?;
    for (list, text) in ROWS {
        let mut out = output(rt.alloc(), 999)?;
        let answer = write_member(rt.alloc(), &grammar, list, &mut out);
        assert!(rt; answer == Ok(()), "{list:?}");
        assert!(rt; out.written() == text, "{list:?}");
    }
    Ok(())
}

#[test]
fn full_outputs(rt: HostRuntime) -> Result<(), Fail> {
    let grammar = grammar_of_sums(rt.alloc())?;
    for (list, text) in ROWS {
        let mut out = output(rt.alloc(), 5)?;
        let answer = write_member(rt.alloc(), &grammar, list, &mut out);
        assert!(rt; answer == Err(Halt::Failed), "{list:?}");
        assert!(rt;
            out.written().len() == 5 && text.starts_with(out.written()),
            "{list:?}"
        );
    }
    Ok(())
}
