//! A disk in memory that counts its writes and syncs.

use rdf_run::{Disk, DiskFault, MemDisk, Tear};
use std::alloc::Global;

/// A disk in memory, and how often it was written and synced. The counts stay at their type's end.
#[derive(Drop)]
pub struct CountingDisk {
    disk: MemDisk,
    writes: u64,
    syncs: u64,
}

impl CountingDisk {
    /// A disk without files, of which nothing was asked.
    pub fn blank(alloc: Global) -> CountingDisk {
        CountingDisk {
            disk: MemDisk::blank(alloc, Vec::new(alloc)),
            writes: 0,
            syncs: 0,
        }
    }

    /// How often it was written.
    pub fn writes(&self) -> u64 {
        self.writes
    }

    /// How often it was synced.
    pub fn syncs(&self) -> u64 {
        self.syncs
    }
}

/// What it holds, and how often it failed, stopped and was given a fuse, is what the disk in memory tells.
impl Disk for CountingDisk {
    ghost use Rattle.rdf_disk.specs.MemoryFiles.{told_none};

    ghost tells = { ⟦<MemDisk as Disk>⟧.tells };

    ghost files = { λ d. ⟦<MemDisk as Disk>⟧.files d.disk };

    ghost counts = { λ d. ⟦<MemDisk as Disk>⟧.counts d.disk };

    ghost none_last = { λ _ d. told_none _ d.disk.files.none };

    fn write(&mut self, file: u32, at: u64, bytes: &[u8]) -> Result<(), DiskFault> {
        self.writes = self.writes.saturating_add(1);
        self.disk.write(file, at, bytes)
    }

    fn sync(&mut self) -> Result<(), DiskFault> {
        self.syncs = self.syncs.saturating_add(1);
        self.disk.sync()
    }

    fn faults(&self) -> u64 {
        self.disk.faults()
    }

    fn stops(&self) -> u64 {
        self.disk.stops()
    }

    fn fuses(&self) -> u64 {
        self.disk.fuses()
    }

    fn is_off(&self) -> bool {
        self.disk.is_off()
    }

    fn span(&mut self) -> Result<(u32, u32), DiskFault> {
        self.disk.span()
    }

    fn len(&mut self, file: u32) -> Result<Option<u64>, DiskFault> {
        self.disk.len(file)
    }

    fn read(&mut self, file: u32, at: u64, into: &mut [u8]) -> Result<usize, DiskFault> {
        self.disk.read(file, at, into)
    }

    fn remove(&mut self, file: u32) -> Result<(), DiskFault> {
        self.disk.remove(file)
    }

    fn cut(&mut self) {
        self.disk.cut();
    }

    fn restart(&mut self) -> Result<(), DiskFault> {
        self.disk.restart()
    }

    fn fuse(&mut self, calls: u32, tear: Tear) {
        self.disk.fuse(calls, tear);
    }
}
