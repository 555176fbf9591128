//! Each list that is near a short one: the answer is its rendering, and each text is cut from the short one's, where that has one.

use crate::mutants::compared::compare_near;
use cs_samples::{SCANNER, SUMS};
use std::test::Fail;

const PAIRS: &[u8] = b"%token PAIR LONG\n%%\ns : 'a' 'b' PAIR LONG ;\n";

// A blank stands in a token: `a b` is one, and so is `a b b a`.
const PAIRS_LEX: &[u8] =
    b"%%\na return 'a';\nb return 'b';\n\"a b\" return PAIR;\n\"a b b a\" return LONG;\n[ ]+ ;\n";

// NUM is 1, '+' is 2, '(' is 3 and ')' is 4.
#[test]
fn sums(rt: HostRuntime) -> Result<(), Fail> {
    let alloc = rt.alloc();
    let rows: [(&[u8], &[u16]); 7] = [
        (b" ", &[1, 2, 1]),
        (b" ", &[1, 2, 3, 1, 4]),
        (b" ", &[1]),
        (b" ", &[]),
        (b"", &[1, 2, 1]),
        (b"", &[3, 1, 2, 1, 4]),
        (b"\n \n", &[1, 2, 1, 2]),
    ];
    for (separator, tokens) in rows {
        let counts = compare_near(alloc, SUMS, SCANNER, separator, tokens)?;
        assert!(rt; counts.are_cut(), "{tokens:?} {counts:?}");
    }
    assert!(rt; compare_near(alloc, SUMS, SCANNER, b"+", &[1, 1])?.are_whole());
    Ok(())
}

// PAIR is 1, LONG is 2, 'a' is 3 and 'b' is 4.
#[test]
fn tokens_with_blanks(rt: HostRuntime) -> Result<(), Fail> {
    let alloc = rt.alloc();
    let rows: [&[u16]; 3] = [&[4, 3], &[1, 4, 4, 3], &[4, 4, 1, 4]];
    for tokens in rows {
        let counts = compare_near(alloc, PAIRS, PAIRS_LEX, b" ", tokens)?;
        assert!(rt; counts.are_cut(), "{tokens:?} {counts:?}");
    }
    assert!(rt; compare_near(alloc, PAIRS, PAIRS_LEX, b" ", &[3, 3, 4])?.are_whole());
    Ok(())
}
