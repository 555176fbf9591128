ghost use Rattle.std.specs.Prelude.{◌≡◌, ◌≤◌, Bool, IfOk, IsErrOf, IsTrue, Option, ℕ, length};
ghost use Rattle.cs_io.specs.Desk.{Files, IsBeginning, IsMissing};
ghost use Rattle.cs_io.specs.Faults.{Rose};

use std::alloc::Global;
use thiserror::Error;

/// Why a read answers no bytes.
#[derive(Clone, Copy, Debug, PartialEq, Eq, Error)]
pub enum DeskError {
    /// The desk tells its files, and none has that name. This is no fault.
    #[error("no such file")]
    Missing,
    /// The read failed. This is a fault.
    #[error("the read failed")]
    Failed,
    /// There is no memory for the bytes. This is no fault.
    #[error("out of memory")]
    Memory,
}

/// A place from which files are read by their names.
///
/// Contracts know three things of a desk: the `files` that it holds, where it tells them; how many
/// `faults` it has met; and whether it is `steady`. No call changes the first or the last.
pub trait Desk {
    /// The name and the bytes of each file, or `None` for a desk that doesn't tell them. Of the
    /// files of one name the first counts.
    ghost files: { Self → Option Files };

    /// How many calls have failed. The count never falls, and at the greatest u64 it stands still.
    ghost faults: { Self → ℕ };

    /// Whether no call adds to `faults`.
    ghost steady: { Self → Bool };

    /// The first `most` bytes of the file of that name, or all of them where it is shorter.
    ///
    /// Want of memory, `DeskError::Memory`, may come in place of any answer.
    fn read(&mut self, alloc: Global, name: &str, most: usize) -> Result<Vec<u8>, DeskError>
        ensures bytes { IfOk result (λ read.
            IsBeginning (files self.old) name.now most read.items) }
        ensures within { IfOk result (λ read. length read.items ≤ most) }
        ensures missing { IsErrOf result DeskError.Missing → IsMissing (files self.old) name.now }

        // Which answers are faults: `Failed` alone.
        ensures fault { IsErrOf result DeskError.Failed
            → Rose (faults self.old) (faults self.new) }
        ensures no_fault { ¬ IsErrOf result DeskError.Failed
            → faults self.new ≡ faults self.old }
        ensures faults_never_fall { faults self.old ≤ faults self.new }
        ensures steady { IsTrue (steady self.old) → faults self.new ≡ faults self.old }

        // What stays.
        ensures same_files { files self.new ≡ files self.old }
        ensures same_steady { steady self.new ≡ steady self.old };
}
