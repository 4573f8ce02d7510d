//! Disks in memory of which no contract knows what they hold. So a test may write files of any kind on them, and owes no call what they stand for.
ghost use Rattle.std.specs.Prelude.{◌≡◌};

use rdf_disk::{Disk, DiskFault, MemDisk, Tear};
use std::alloc::Global;

/// A disk in memory. It looks at the length of a file before each write.
#[derive(Drop)]
pub struct Untold {
    disk: MemDisk,
}

impl Untold {
    /// A disk without files.
    pub fn blank(alloc: Global) -> Untold {
        Untold {
            disk: MemDisk::blank(alloc, Vec::new(alloc)),
        }
    }
}

impl Disk for Untold {
    ghost tells = { ⊥ };

    ghost files = { λ d. ⟦<MemDisk as Disk>⟧.files d.disk };

    ghost counts = { λ d. ⟦<MemDisk as Disk>⟧.counts d.disk };

    ghost none_last = { λ never d. absurd never };

    fn faults(&self) -> u64 {
        self.disk.faults()
    }

    fn stops(&self) -> u64 {
        self.disk.stops()
    }

    fn fuses(&self) -> u64 {
        self.disk.fuses()
    }

    fn is_off(&self) -> bool {
        self.disk.is_off()
    }

    fn span(&mut self) -> Result<(u32, u32), DiskFault> {
        self.disk.span()
    }

    fn len(&mut self, file: u32) -> Result<Option<u64>, DiskFault> {
        self.disk.len(file)
    }

    fn read(&mut self, file: u32, at: u64, into: &mut [u8]) -> Result<usize, DiskFault> {
        self.disk.read(file, at, into)
    }

    fn write(&mut self, file: u32, at: u64, bytes: &[u8]) -> Result<(), DiskFault> {
        match self.disk.len(file) {
            Ok(len) => {
                if at > len.unwrap_or(0) {
                    return Err(DiskFault::NoMemory);
                }
                self.disk.write(file, at, bytes)
            }
            Err(fault) => Err(fault),
        }
    }

    fn remove(&mut self, file: u32) -> Result<(), DiskFault> {
        self.disk.remove(file)
    }

    fn sync(&mut self) -> Result<(), DiskFault> {
        self.disk.sync()
    }

    fn cut(&mut self) {
        self.disk.cut();
    }

    fn restart(&mut self) -> Result<(), DiskFault> {
        self.disk.restart()
    }

    fn fuse(&mut self, calls: u32, tear: Tear) {
        self.disk.fuse(calls, tear);
    }
}
