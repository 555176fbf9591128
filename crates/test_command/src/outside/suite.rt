// The suite of the rules of sums: `docs/FORMATS.md` gives its lines, and what they tell was worked by hand.

use crate::outside::failing::{desk, ends, has_room, stops_at_read, wrong_call, wrong_room};
use cs_io::MemorySink;
use cs_samples::{SUMS_SUITE_ONE, words};
use std::alloc::{AllocError, Global};
use std::test::Fail;

fn suite_words(alloc: Global) -> Result<Vec<String>, AllocError> {
    let options = ["--criteria=rule", "--mutate=none", "--format=1"];
    words(
        alloc,
        &["suite", "g1.y", "l1.l", options[0], options[1], options[2]],
    )
}

// A read that isn't asked for fails nothing.
#[test]
fn each_read_fails(rt: HostRuntime) -> Result<(), Fail> {
    let alloc = rt.alloc();
    let words = suite_words(alloc)?;
    let yacc = "conform: read fault: yacc\n";
    let lex = "conform: read fault: lex\n";
    assert!(rt; stops_at_read(&rt, alloc, &words, 0, yacc)?);
    assert!(rt; stops_at_read(&rt, alloc, &words, 1, lex)?);
    let desk = desk(alloc, &[2])?;
    let whole = SUMS_SUITE_ONE.as_bytes();
    let out = MemorySink::new(alloc, whole.len(), 7, Vec::new(alloc))?;
    assert!(rt; ends(&rt, alloc, &words, desk, out, (0, "", whole))?);
    Ok(())
}

#[test]
fn the_output_is_full_at_each_byte(rt: HostRuntime) -> Result<(), Fail> {
    let alloc = rt.alloc();
    let words = suite_words(alloc)?;
    assert_eq!(rt;
        wrong_room(&rt, alloc, &words, SUMS_SUITE_ONE.as_bytes())?,
        None
    );
    Ok(())
}

#[test]
fn each_call_of_the_output_fails(rt: HostRuntime) -> Result<(), Fail> {
    let alloc = rt.alloc();
    let words = suite_words(alloc)?;
    let whole = SUMS_SUITE_ONE.as_bytes();
    for step in [1, 7] {
        assert!(rt; has_room(&rt, alloc, &words, whole, step)?);
        assert_eq!(rt; wrong_call(&rt, alloc, &words, whole, step)?, None);
    }
    Ok(())
}
