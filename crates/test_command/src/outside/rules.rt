// The manifest of the rules of sums: `docs/FORMATS.md` gives its lines, and what they tell was worked by hand.

use crate::outside::failing::{desk, ends, has_room, stops_at_read, wrong_call, wrong_room};
use cs_io::MemorySink;
use cs_samples::{SUMS_RULES, words};
use std::test::Fail;

#[test]
fn the_read_fails(rt: HostRuntime) -> Result<(), Fail> {
    let alloc = rt.alloc();
    let words = words(alloc, &["rules", "g1.y"])?;
    let line = "conform: read fault: yacc\n";
    assert!(rt; stops_at_read(&rt, alloc, &words, 0, line)?);
    Ok(())
}

// A read that isn't asked for fails nothing.
#[test]
fn the_file_is_read_once(rt: HostRuntime) -> Result<(), Fail> {
    let alloc = rt.alloc();
    let words = words(alloc, &["rules", "g1.y"])?;
    let desk = desk(alloc, &[1])?;
    let whole = SUMS_RULES.as_bytes();
    let out = MemorySink::new(alloc, whole.len(), 7, Vec::new(alloc))?;
    assert!(rt; ends(&rt, alloc, &words, desk, out, (0, "", whole))?);
    Ok(())
}

#[test]
fn the_output_fails_at_each_byte(rt: HostRuntime) -> Result<(), Fail> {
    let alloc = rt.alloc();
    let words = words(alloc, &["rules", "g1.y"])?;
    let whole = SUMS_RULES.as_bytes();
    assert_eq!(rt; wrong_room(&rt, alloc, &words, whole)?, None);
    for step in [1, 7] {
        assert!(rt; has_room(&rt, alloc, &words, whole, step)?);
        assert_eq!(rt; wrong_call(&rt, alloc, &words, whole, step)?, None);
    }
    Ok(())
}
