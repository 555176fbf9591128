ghost use Rattle.std.specs.Prelude.{◌≡◌, ◌≤◌, ◌↔◌, ◌⊎◌, IfOk, IsErrOf, IsOk, IsTrue, None, Some, length, nat_eq, option_map};
ghost use Rattle.cs_io.specs.Desk.{IsBeginning, file_named};
ghost use Rattle.cs_io.specs.Faults.{next_count};
ghost use Rattle.cs_io.specs.MemoryDesk.{Finds, Lacks, fails_next, new_desk, stored};

use crate::failing::is_failing;
use crate::{Desk, DeskError};
use std::alloc::{AllocError, Global};
use std::marker::Model;

/// Files in memory, of which chosen reads fail.
///
/// It tells its files, and is steady exactly where no call is chosen to fail.
#[derive(Debug, Drop)]
pub struct MemoryDesk {
    files: Vec<(String, Vec<u8>)>,
    failing: Vec<u32>,
    calls: u64,
    faults: u64,
}

impl Model for MemoryDesk {
    ghost use Rattle.cs_io.specs.MemoryDesk.{DeskState, stored};

    ghost Value = { DeskState };

    ghost view = { λ desk. record {
      files = stored desk.files.items;
      failing = desk.failing.items;
      calls = desk.calls;
      faults = desk.faults;
    } };
}

impl MemoryDesk {
    /// A desk with these files, names and bytes. Of the files of one name the first counts. It takes
    /// no memory.
    ///
    /// `failing` has the numbers, from 0, of the calls of `read` that are to fail.
    pub fn new(files: Vec<(String, Vec<u8>)>, failing: Vec<u32>) -> Result<MemoryDesk, AllocError>
        ensures ok { IsOk result }
        ensures desk { IfOk result (λ desk. desk ≡ new_desk (stored files.items) failing.items) }
    {
        Ok(MemoryDesk {
            files,
            failing,
            calls: 0,
            faults: 0,
        })
    }
}

// The bytes of the first file of that name.
fn find<'f>(files: &'f [(String, Vec<u8>)], name: &str) -> Option<&'f [u8]>
    ensures { option_map (λ bytes. bytes.now) result ≡ file_named (stored files.now) name.now }
{
    for file in files {
        if file.0.as_str() == name {
            return Some(file.1.as_slice());
        }
    }
    None
}

impl Desk for MemoryDesk {
    ghost files = { λ desk. Some desk.files };

    ghost faults = { λ desk. desk.faults };

    ghost steady = { λ desk. nat_eq (length desk.failing) 0 };

    /// As every desk. Want of memory may come only where the bytes of a file are to be answered.
    fn read(&mut self, alloc: Global, name: &str, most: usize) -> Result<Vec<u8>, DeskError>
        ensures bytes { IfOk result (λ read.
            IsBeginning (Some self.old.files) name.now most read.items) }
        ensures within { IfOk result (λ read. length read.items ≤ most) }

        // Each answer comes exactly where it is due, but for want of memory.
        ensures failed { IsErrOf result DeskError.Failed ↔ IsTrue (fails_next self.old) }
        ensures missing { IsErrOf result DeskError.Missing ↔ Lacks self.old name.now }
        ensures ok_or_memory { (IsOk result ⊎ IsErrOf result DeskError.Memory)
            ↔ Finds self.old name.now }

        // The counts.
        ensures fault { IsErrOf result DeskError.Failed
            → self.new.faults ≡ next_count self.old.faults }
        ensures no_fault { ¬ IsErrOf result DeskError.Failed
            → self.new.faults ≡ self.old.faults }
        ensures faults_never_fall { self.old.faults ≤ self.new.faults }
        ensures calls { self.new.calls ≡ next_count self.old.calls }

        // What stays.
        ensures same_files { self.new.files ≡ self.old.files }
        ensures same_failing { self.new.failing ≡ self.old.failing }
    {
        let call = self.calls;
        self.calls = self.calls.saturating_add(1);
        if is_failing(&self.failing, call) {
            self.faults = self.faults.saturating_add(1);
            return Err(DeskError::Failed);
        }
        let whole = find(&self.files, name).ok_or(DeskError::Missing)?;
        let len = whole.len().min(most);
        whole[..len].to_vec(alloc).map_err(|_| DeskError::Memory)
    }
}
