//! A storage over a file of the system.
//!
//! It keeps nothing of the file in memory, whatever its size. So nothing is proved of what the file holds: that reads
//! give what was written, that a sync keeps it, and that nobody else writes there is the system's matter.

ghost use Rattle.std.specs.Prelude.{◌≡◌, ◌≤◌, IfOk};
ghost use Rattle.leaf_ledger.specs.Device.{HasRisen};

use crate::storage::Storage;
use leaf_ledger::DeviceError;
use std::fs::{File, OpenOptions};
use std::io;
use std::os::unix::fs::FileExt;

/// Where each file ends at last: offsets of files are signed.
const END: usize = 1 << 63;

/// A storage over a file of the system, which nobody else may write to.
#[derive(Drop)]
pub struct FileStorage {
    file: File,
    faults: u64,
}

impl FileStorage {
    /// The storage over the file at a path in a folder, which is made where there is none. File and folder are synced
    /// first, so that what the file holds stays, and that it is there.
    pub fn open(rt: &HostRuntime, folder: &str, path: &str) -> io::Result<FileStorage>
        ensures { IfOk result (λ storage. storage.faults ≡ 0) }
    {
        let file = OpenOptions::new()
            .read(true)
            .write(true)
            .create(true)
            .open(rt, path)?;
        file.sync_all()?;
        File::open(rt, folder)?.sync_all()?;
        Ok(FileStorage { file, faults: 0 })
    }

    /// The storage over a file that is open for reads and writes.
    pub fn over(file: File) -> FileStorage
        ensures { result.faults ≡ 0 }
    {
        FileStorage { file, faults: 0 }
    }
}

/// Counts a fault.
fn fault(faults: &mut u64) -> DeviceError
    ensures later { faults.old ≤ faults.new }
    ensures rose { HasRisen faults.old faults.new }
{
    *faults = faults.saturating_add(1);
    DeviceError
}

/// It tells nothing of what the file holds.
impl Storage for FileStorage {
    ghost use Rattle.std.specs.Prelude.{false, []};
    ghost use Rattle.leaf_ledger.specs.Device.{started};

    ghost tells = { false };

    ghost history = { λ _. started [] };

    ghost fault_count = { λ f. f.faults };

    fn faults(&self) -> u64 {
        self.faults
    }

    fn len(&mut self) -> Result<usize, DeviceError> {
        match self.file.metadata() {
            Ok(found) if found.len() < END as u64 => Ok(found.len() as usize),
            _ => Err(fault(&mut self.faults)),
        }
    }

    fn read(&mut self, at: usize, out: &mut [u8]) -> Result<(), DeviceError> {
        match self.file.read_exact_at(out, at as u64) {
            Ok(()) => Ok(()),
            Err(_) => Err(fault(&mut self.faults)),
        }
    }

    fn write_at(&mut self, at: usize, bytes: &[u8]) -> Result<(), DeviceError> {
        let size = bytes.len();
        if at >= END || size >= END - at || self.file.write_all_at(bytes, at as u64).is_err() {
            return Err(fault(&mut self.faults));
        }
        Ok(())
    }

    // The file's times aren't waited for: a read needs its bytes and its length alone.
    fn sync(&mut self) -> Result<(), DeviceError> {
        match self.file.sync_data() {
            Ok(()) => Ok(()),
            Err(_) => Err(fault(&mut self.faults)),
        }
    }
}
