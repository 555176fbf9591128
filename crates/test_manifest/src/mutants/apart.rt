//! Which tokens stand apart in texts, by hand.

use crate::mutants::work::with_work;
use cs_sample_files::Trouble;
use cs_samples::{SCANNER, SUMS};
use cs_texts::Apart;
use std::alloc::Global;
use std::test::Fail;

// Whether these tokens of sums stand apart with this between two lexemes, and those beside them don't.
fn stand_apart(alloc: Global, separator: &[u8], tokens: &[u16]) -> Result<bool, Trouble> {
    with_work(alloc, (SUMS, SCANNER), separator, |_yacc, work, most| {
        let apart = Apart::new(alloc, work, most)?;
        Ok((0..10).all(|token| apart.has(token) == tokens.contains(&token)))
    })
}

// NUM is 1, '+' is 2, '(' is 3 and ')' is 4. A blank ends each match and gives nothing; a sum's sign gives a token, a question
// mark stops the scan, and behind a digit without anything more digits may follow.
#[test]
fn tokens_of_sums(rt: HostRuntime) -> Result<(), Fail> {
    let alloc = rt.alloc();
    assert!(rt; stand_apart(alloc, b" ", &[1, 2, 3, 4])?);
    assert!(rt; stand_apart(alloc, b"\n ", &[1, 2, 3, 4])?);
    assert!(rt; stand_apart(alloc, b"", &[])?);
    assert!(rt; stand_apart(alloc, b"+", &[])?);
    assert!(rt; stand_apart(alloc, b"?", &[])?);
    Ok(())
}
