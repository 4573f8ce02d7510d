//! Appends of blocks of 50 bytes to a file of a disk in memory, with a sync after each.
use rdf_disk::{Disk, DiskFault, MemDisk};
use std::alloc::Global;

const BLOCK: [u8; 50] = [7; 50];

/// The length of the file after that many appends.
pub fn appended(alloc: Global, count: u32) -> Result<u64, DiskFault> {
    let mut disk = MemDisk::blank(alloc, Vec::new(alloc));
    for _ in 0..count {
        append(&mut disk)?;
    }
    Ok(disk.len(0)?.unwrap_or(0))
}

fn append(disk: &mut MemDisk) -> Result<(), DiskFault> {
    let at = disk.len(0)?.unwrap_or(0);
    disk.write(0, at, &BLOCK)?;
    disk.sync()
}
