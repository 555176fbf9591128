// How a run ends.

use crate::input::Refusal;
use cs_io::Halt;
use cs_words::Role;

/// How a run ends.
#[derive(Clone, Copy, Debug, PartialEq, Eq)]
pub enum Ending {
    /// The whole output was written.
    Written,
    /// The whole output was written, and says no: the manifest that is checked has a line with a fault.
    Denied,
    /// The files are refused.
    Refused(Refusal),
    /// The words are not accepted; this one, from 0, can't stand where it stands.
    BadWord { at: usize },
    /// The file could not be read.
    NoFile(Role),
    /// A write of the output failed, or memory ran out.
    Halted(Halt),
}
