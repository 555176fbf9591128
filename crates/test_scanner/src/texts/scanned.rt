//! The tokens of texts, or where their scans stop.

use crate::texts::files::scanned;
use cs_samples::{SCANNER, SUMS};
use std::test::Fail;

// Worked by hand: NUM is token 1, and '+', '(' and ')' are 2 to 4. No token has `*`, and no rule matches `x`.
const SCANS: &[(&str, &str)] = &[
    ("( 0 + 0 )", "Tokens([3, 1, 2, 1, 4])"),
    ("", "Tokens([])"),
    (" \n", "Tokens([])"),
    ("12+3 ", "Tokens([1, 2, 1])"),
    ("0 x", "Stops { at: 2 }"),
    ("x", "Stops { at: 0 }"),
    ("00*0", "Stops { at: 2 }"),
];

#[test]
fn scans_of_texts(rt: HostRuntime) -> Result<(), Fail> {
    let alloc = rt.alloc();
    for &(text, want) in SCANS {
        let found = scanned(alloc, SUMS, SCANNER, text.as_bytes())?;
        assert_eq!(rt; found.as_str(), want, "{text}");
    }
    Ok(())
}
