// The summary of the number 1, as "The generated files" in docs/FORMATS.md gives it (crates/test_command/src/command says where its numbers
// come from): a run asks for no file, and its output is one line.

use crate::outside::failing::{desk, ends, has_room, wrong_call, wrong_room};
use cs_io::MemorySink;
use cs_samples::words;
use std::test::Fail;

const SUMMARY: &[u8] =
    b"gen 1 yacc 1240 lex 378 goals 968 feasible 862 infeasible 106 large 0 negatives 1442 bytes 315463\n";

#[test]
fn no_file_is_asked_for(rt: HostRuntime) -> Result<(), Fail> {
    let alloc = rt.alloc();
    let words = words(alloc, &["gen", "1"])?;
    let desk = desk(alloc, &[0, 1])?;
    let out = MemorySink::new(alloc, SUMMARY.len(), 7, Vec::new(alloc))?;
    assert!(rt; ends(&rt, alloc, &words, desk, out, (0, "", SUMMARY))?);
    Ok(())
}

#[test]
fn the_output_fails_at_each_byte(rt: HostRuntime) -> Result<(), Fail> {
    let alloc = rt.alloc();
    let words = words(alloc, &["gen", "1"])?;
    assert_eq!(rt; wrong_room(&rt, alloc, &words, SUMMARY)?, None);
    for step in [1, 7] {
        assert!(rt; has_room(&rt, alloc, &words, SUMMARY, step)?);
        assert_eq!(rt; wrong_call(&rt, alloc, &words, SUMMARY, step)?, None);
    }
    Ok(())
}
