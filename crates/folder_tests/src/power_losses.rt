//! The power goes at each call of a folder in memory, with each loss: every append that was acknowledged is there again.
use folder_disk::{FolderDisk, FolderFault};
use memory_folder::{Loss, MemFolder};
use rdf_disk::{Disk, DiskFault};
use std::alloc::{AllocError, Global};
use std::test::Fail;

/// More than the calls of a whole run.
const CALLS: u64 = 80;

const LOSSES: [Loss; 4] = [
    Loss::Keep,
    Loss::Lose,
    Loss::Mix { newest: false },
    Loss::Mix { newest: true },
];

const FAULTS: [FolderFault; 3] = [
    FolderFault::Failed,
    FolderFault::Refused,
    FolderFault::Interrupted,
];

#[derive(Clone, Copy)]
enum Change {
    /// Bytes behind the end.
    Append(&'static [u8]),
    /// Another first byte, as a gate that is opened.
    First(u8),
    Remove,
}

/// What is done, one after the other, each with a sync behind it.
const STEPS: [(u32, Change); 11] = [
    (0, Change::Append(b"first")),
    (1, Change::Append(b"gone")),
    (0, Change::First(b'F')),
    (0, Change::Append(b"2nd")),
    (1, Change::Remove),
    (2, Change::Append(b"new")),
    (1, Change::Append(b"again")),
    (1, Change::First(b'A')),
    (2, Change::Remove),
    (0, Change::Append(b"the third")),
    (0, Change::First(b'G')),
];

/// Writes behind the end of a file.
fn append<D: Disk>(disk: &mut D, file: u32, bytes: &[u8]) -> Result<(), DiskFault> {
    let at = disk.len(file)?.unwrap_or(0);
    if file == u32::MAX {
        return Ok(());
    }
    disk.write(file, at, bytes)
}

fn perform<D: Disk>(disk: &mut D, file: u32, change: Change) -> Result<(), DiskFault> {
    match change {
        Change::Append(bytes) => append(disk, file, bytes)?,
        Change::First(byte) => put_first(disk, file, byte)?,
        Change::Remove => disk.remove(file)?,
    }
    disk.sync()
}

fn put_first<D: Disk>(disk: &mut D, file: u32, byte: u8) -> Result<(), DiskFault> {
    if file == u32::MAX {
        return Ok(());
    }
    disk.write(file, 0, &[byte])
}

/// How many steps were acknowledged.
fn run<D: Disk>(disk: &mut D) -> usize {
    for step in 0..STEPS.len() {
        let (file, change) = STEPS[step];
        if perform(disk, file, change).is_err() {
            return step;
        }
    }
    STEPS.len()
}

/// The bytes of a file after so many steps.
fn bytes_after(alloc: Global, file: u32, steps: usize) -> Result<Vec<u8>, AllocError> {
    let mut bytes = Vec::new(alloc);
    for step in 0..steps.min(STEPS.len()) {
        let (changed, change) = STEPS[step];
        if changed == file {
            apply(&mut bytes, change)?;
        }
    }
    Ok(bytes)
}

fn apply(bytes: &mut Vec<u8>, change: Change) -> Result<(), AllocError> {
    match change {
        Change::Append(more) => return bytes.extend_from_slice(more),
        Change::First(byte) if !bytes.is_empty() => bytes[0] = byte,
        Change::First(_) => {}
        Change::Remove => bytes.clear(),
    }
    Ok(())
}

/// Whether so many steps left this of the file, and the one that was broken off a part of it or none.
fn may_be_left(want: &[u8], found: &[u8], file: u32, done: usize) -> bool {
    if done < STEPS.len() && STEPS[done].0 == file {
        return may_be_broken_off(want, found, STEPS[done].1);
    }
    found == want
}

fn may_be_broken_off(want: &[u8], found: &[u8], change: Change) -> bool {
    match change {
        Change::Append(_) => found.starts_with(want),
        Change::First(byte) => found == want || is_first(want, found, byte),
        Change::Remove => found == want || found.is_empty(),
    }
}

/// Whether the first byte is that one, and the others are those.
fn is_first(want: &[u8], found: &[u8], byte: u8) -> bool {
    match found {
        [first, ..] => *first == byte && found.get(1..) == want.get(1..),
        [] => false,
    }
}

/// Whether what was acknowledged of a file is there.
fn is_kept<D: Disk>(
    alloc: Global,
    disk: &mut D,
    file: u32,
    done: usize,
) -> Result<bool, DiskFault> {
    let want = bytes_after(alloc, file, done)?;
    let mut into = [0u8; 32];
    let n = disk.read(file, 0, &mut into)?;
    Ok(may_be_left(&want, &into[..n], file, done))
}

/// A disk over a folder that refuses one call, and moves at most four bytes at once.
fn refusing(
    alloc: Global,
    call: u64,
    fault: FolderFault,
) -> Result<FolderDisk<MemFolder>, AllocError> {
    let mut refused = Vec::new(alloc);
    refused.push((call, fault))?;
    Ok(FolderDisk::at(alloc, MemFolder::blank(alloc, refused, 4)))
}

/// A disk over what is left of a folder.
fn again(alloc: Global, disk: FolderDisk<MemFolder>, loss: Loss) -> FolderDisk<MemFolder> {
    let mut folder = disk.into_folder();
    folder.lose_power(loss);
    folder.plan(Vec::new(alloc));
    FolderDisk::at(alloc, folder)
}

/// Runs until a call is refused, loses power, and looks at each file.
fn survives(alloc: Global, call: u64, fault: FolderFault, loss: Loss) -> Result<bool, DiskFault> {
    let mut disk = refusing(alloc, call, fault)?;
    let done = run(&mut disk);
    let mut disk = again(alloc, disk, loss);
    let first = is_kept(alloc, &mut disk, 0, done)?;
    let second = is_kept(alloc, &mut disk, 1, done)?;
    Ok(first && second && is_kept(alloc, &mut disk, 2, done)?)
}

#[test]
fn power_lost_at_each_call(rt: HostRuntime) -> Result<(), Fail> {
    for call in 0..CALLS {
        for fault in FAULTS {
            for loss in LOSSES {
                assert!(rt;
                    survives(rt.alloc(), call, fault, loss)?,
                    "{call} {fault:?} {loss:?}"
                );
            }
        }
    }
    Ok(())
}

/// A run in which no call is refused has fewer calls than the table.
#[test]
fn whole_run(rt: HostRuntime) -> Result<(), Fail> {
    let mut disk = refusing(rt.alloc(), CALLS, FolderFault::Failed)?;
    assert!(rt; run(&mut disk) == STEPS.len());
    let folder = disk.into_folder();
    assert!(rt; folder.calls() < CALLS);
    assert!(rt; survives(rt.alloc(), CALLS, FolderFault::Failed, Loss::Lose)?);
    Ok(())
}
