ghost use Rattle.std.specs.Prelude.{◌≡◌, ◌≤◌, false, IfOk, IsErrOf, None, length};
ghost use Rattle.cs_io.specs.Faults.{next_count};

use crate::{Desk, DeskError};
use std::alloc::Global;
use std::io::Read;
use std::marker::Model;
use std::rt::Files;
use std::{fs, io};

/// The files of the current folder, read through the runtime.
///
/// A name is a path: a relative one begins at the current folder. The desk tells no files, so a name
/// that isn't there is a fault. Contracts see the desk as its count of faults.
pub struct FolderDesk<'r, R: Files> {
    rt: &'r R,
    faults: u64,
}

impl<'r, R: Files> Model for FolderDesk<'r, R> {
    ghost use Rattle.std.specs.Prelude.{ℕ};

    ghost Value = { ℕ };

    ghost view = { λ desk. desk.faults };
}

impl<'r, R: Files> Drop for FolderDesk<'r, R> {
    fn drop(self) {
        let FolderDesk { rt: _, faults: _ } = self;
    }
}

impl<'r, R: Files> FolderDesk<'r, R> {
    /// A desk that has met no fault. It takes no memory.
    pub fn new(rt: &'r R) -> FolderDesk<'r, R>
        ensures { result ≡ 0 }
    {
        FolderDesk { rt, faults: 0 }
    }
}

// Opens the file and reads at most that many bytes of it.
fn read_file<R: Files>(rt: &R, alloc: Global, name: &str, most: usize) -> io::Result<Vec<u8>>
    ensures { IfOk result (λ read. length read.items ≤ most) }
{
    let mut bytes = Vec::new(alloc);
    let file = fs::File::open(rt, name)?;
    file.take(most as u64).read_to_end(&mut bytes)?;
    // For the proof alone: `take` has cut already, but no clause of it says so of a file.
    bytes.truncate(most);
    Ok(bytes)
}

impl<'r, R: Files> Desk for FolderDesk<'r, R> {
    ghost files = { λ _. None };

    ghost faults = { λ desk. desk };

    ghost steady = { λ _. false };

    fn read(&mut self, alloc: Global, name: &str, most: usize) -> Result<Vec<u8>, DeskError>
        ensures within { IfOk result (λ read. length read.items ≤ most) }
        ensures never_missing { ¬ IsErrOf result DeskError.Missing }
        ensures fault { IsErrOf result DeskError.Failed → self.new ≡ next_count self.old }
        ensures no_fault { ¬ IsErrOf result DeskError.Failed → self.new ≡ self.old }
        ensures faults_never_fall { self.old ≤ self.new }
    {
        match read_file(self.rt, alloc, name, most) {
            Ok(bytes) => Ok(bytes),
            Err(error) if error.kind() == io::ErrorKind::OutOfMemory => Err(DeskError::Memory),
            Err(_) => {
                self.faults = self.faults.saturating_add(1);
                Err(DeskError::Failed)
            }
        }
    }
}
