// Sets of bytes, as text.

use cs_pattern_parts::ByteSet;
use std::alloc::AllocError;

/// Puts the runs of a set's members, in hexadecimal.
pub(crate) fn show_set(out: &mut String, set: &ByteSet) -> Result<(), AllocError> {
    let mut before = false;
    for byte in 0..=255 {
        let after = byte < 255 && set.contains(byte + 1);
        if set.contains(byte) {
            if !before {
                write!(out, " {byte:02x}")?;
            }
            if before && !after {
                write!(out, "-{byte:02x}")?;
            }
        }
        before = set.contains(byte);
    }
    Ok(())
}
