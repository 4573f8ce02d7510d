//! A disk that counts its reads.
ghost use Rattle.std.specs.Prelude.{◌≡◌};

use rdf_disk::{Disk, DiskFault, Tear};
use std::cell::Cell;

/// A disk, and how often it was read, which is told beside it. The count stays at its type's end.
#[derive(Drop)]
pub struct CountedDisk<'a, D> {
    disk: D,
    reads: &'a Cell<u64>,
}

impl<'a, D> CountedDisk<'a, D> {
    /// The disk, with a count that goes up by one at each of its reads.
    pub fn of(disk: D, reads: &'a Cell<u64>) -> CountedDisk<'a, D>
        ensures { result.disk ≡ disk }
    {
        CountedDisk { disk, reads }
    }
}

/// What it holds, and how often it failed, stopped and was given a fuse, is what the disk tells.
impl<'a, D: Disk> Disk for CountedDisk<'a, D> {
    ghost tells = { D.tells };

    ghost files = { λ d. D.files d.disk };

    ghost counts = { λ d. D.counts d.disk };

    ghost none_last = { λ tells d. D.none_last tells d.disk };

    fn write(&mut self, file: u32, at: u64, bytes: &[u8]) -> Result<(), DiskFault> {
        self.disk.write(file, at, bytes)
    }

    fn sync(&mut self) -> Result<(), DiskFault> {
        self.disk.sync()
    }

    fn faults(&self) -> u64 {
        self.disk.faults()
    }

    fn stops(&self) -> u64 {
        self.disk.stops()
    }

    fn fuses(&self) -> u64 {
        self.disk.fuses()
    }

    fn is_off(&self) -> bool {
        self.disk.is_off()
    }

    fn span(&mut self) -> Result<(u32, u32), DiskFault> {
        self.disk.span()
    }

    fn len(&mut self, file: u32) -> Result<Option<u64>, DiskFault> {
        self.disk.len(file)
    }

    fn read(&mut self, file: u32, at: u64, into: &mut [u8]) -> Result<usize, DiskFault> {
        self.reads.set(self.reads.get().saturating_add(1));
        self.disk.read(file, at, into)
    }

    fn remove(&mut self, file: u32) -> Result<(), DiskFault> {
        self.disk.remove(file)
    }

    fn cut(&mut self) {
        self.disk.cut();
    }

    fn restart(&mut self) -> Result<(), DiskFault> {
        self.disk.restart()
    }

    fn fuse(&mut self, calls: u32, tear: Tear) {
        self.disk.fuse(calls, tear);
    }
}
