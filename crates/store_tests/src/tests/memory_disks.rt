//! What each tear leaves, by values worked out by hand.
use rdf_disk::{Disk, DiskFault, MemDisk, Tear};
use std::alloc::Global;
use std::test::Fail;

/// Looks how long the file is, and writes where the place is within it. Elsewhere it answers want of memory, which no row has.
fn put(disk: &mut MemDisk, file: u32, at: u64, bytes: &[u8]) -> Result<(), DiskFault> {
    let len = disk.len(file)?.unwrap_or(0);
    if at > len || file == u32::MAX {
        return Err(DiskFault::NoMemory);
    }
    disk.write(file, at, bytes)
}

/// Whether a file has these bytes, or isn't there.
fn holds(disk: &mut MemDisk, file: u32, want: Option<&[u8]>) -> Result<bool, DiskFault> {
    let mut into = [0u8; 16];
    let n = disk.read(file, 0, &mut into)?;
    match (disk.len(file)?, want) {
        (None, None) => Ok(n == 0),
        (Some(len), Some(bytes)) => Ok(len == bytes.len() as u64 && &into[..n] == bytes),
        _ => Ok(false),
    }
}

/// A disk with files 0 and 1, and a fuse that stops the fifteenth of the calls that follow, which is the write of the sixth `put`.
fn synced(alloc: Global, tear: Tear) -> Result<MemDisk, DiskFault> {
    let mut disk = MemDisk::blank(alloc, Vec::new(alloc));
    put(&mut disk, 0, 0, b"abcdef")?;
    put(&mut disk, 1, 0, b"xy")?;
    disk.sync()?;
    disk.fuse(14, tear);
    Ok(disk)
}

/// Changes 0 to 6. The second removal of file 1 is no change.
fn change(disk: &mut MemDisk) -> Result<(), DiskFault> {
    put(disk, 0, 4, b"ABCD")?;
    put(disk, 0, 8, b"EFGHI")?;
    disk.remove(1)?;
    disk.remove(1)?;
    put(disk, 2, 0, b"pqr")?;
    put(disk, 2, 3, b"st")?;
    disk.remove(0)?;
    put(disk, 0, 0, b"Z")
}

/// As a call is bounded that hands its disk to another thread.
fn stops_of<D: Disk + Send>(disk: &D) -> u64 {
    disk.stops()
}

/// A disk that stopped before it wrote file 3.
fn stopped(alloc: Global, tear: Tear) -> Result<MemDisk, DiskFault> {
    let mut disk = synced(alloc, tear)?;
    change(&mut disk)?;
    Ok(disk)
}

/// Whether the disk stops, and is off from then on.
fn stops(disk: &mut MemDisk) -> bool {
    put(disk, 3, 0, b"m") == Err(DiskFault::Stopped)
        && disk.sync() == Err(DiskFault::Stopped)
        && disk.is_off()
}

/// Whether files 0 to 3 have these bytes.
fn all_hold(disk: &mut MemDisk, files: &[Option<&[u8]>; 4]) -> Result<bool, DiskFault> {
    for (file, want) in files.iter().enumerate() {
        if !holds(disk, file as u32, *want)? {
            return Ok(false);
        }
    }
    Ok(true)
}

fn has_counts(disk: &MemDisk, stops: u64, faults: u64, fuses: u64) -> bool {
    stops_of(disk) == stops && disk.faults() == faults && disk.fuses() == fuses
}

/// Whether a tear leaves these files, and this span of them.
fn leaves(
    alloc: Global,
    tear: Tear,
    files: &[Option<&[u8]>; 4],
    span: (u32, u32),
) -> Result<bool, DiskFault> {
    let mut disk = stopped(alloc, tear)?;
    let stops = stops(&mut disk);
    disk.restart()?;
    Ok(stops && all_hold(&mut disk, files)? && disk.span()? == span && has_counts(&disk, 1, 0, 1))
}

fn lost() -> &'static [Option<&'static [u8]>; 4] {
    &[Some(b"abcdef"), Some(b"xy"), None, None]
}

fn kept() -> &'static [Option<&'static [u8]>; 4] {
    &[Some(b"Z"), None, Some(b"pqrst"), Some(b"m")]
}

fn mixed() -> &'static [Option<&'static [u8]>; 4] {
    &[Some(b"ZbcdABCDEF"), None, Some(b"p\0\0st"), None]
}

#[test]
fn tears(rt: HostRuntime) -> Result<(), Fail> {
    assert!(rt; leaves(rt.alloc(), Tear::Lose, lost(), (0, 2))?);
    assert!(rt; leaves(rt.alloc(), Tear::Keep, kept(), (0, 4))?);
    assert!(rt; leaves(rt.alloc(), Tear::Mix, mixed(), (0, 3))?);
    Ok(())
}

/// Whether the calls 3 and 5 fail, and change nothing.
fn fails_twice(disk: &mut MemDisk) -> Result<bool, DiskFault> {
    put(disk, 0, 0, b"ab")?;
    let write = put(disk, 0, 1, b"XY");
    disk.sync()?;
    let remove = disk.remove(0);
    let failed = write == Err(DiskFault::Failed) && remove == Err(DiskFault::Failed);
    Ok(failed && holds(disk, 0, Some(b"ab"))?)
}

/// Whether a cut takes back what is pending.
fn is_taken_back(disk: &mut MemDisk) -> Result<bool, DiskFault> {
    put(disk, 0, 0, b"Q")?;
    let changed = holds(disk, 0, Some(b"Qb"))?;
    disk.cut();
    let stopped = disk.span() == Err(DiskFault::Stopped);
    disk.restart()?;
    Ok(changed && stopped && holds(disk, 0, Some(b"ab"))?)
}

#[test]
fn failing_calls_and_a_cut(rt: HostRuntime) -> Result<(), Fail> {
    let mut disk = MemDisk::blank(rt.alloc(), vec![in rt.alloc(); 3, 5]?);
    assert!(rt; fails_twice(&mut disk)?);
    assert!(rt; is_taken_back(&mut disk)?);
    assert!(rt; has_counts(&disk, 0, 2, 0));
    Ok(())
}
