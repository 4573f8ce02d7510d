//! Folders of the system that hold what the disk did not put there.
use rdf_disk::{Disk, DiskFault};
use std::fs;
use std::fs::OpenFile;
use std::os::unix::fs::PermissionsExt;
use std::test::Fail;
use system_folder::{DirDisk, dir_disk};

const FAILED: DiskFault = DiskFault::Failed;

/// The length of a file that has no bytes of its own on the device.
const SPARSE: u64 = 1 << 42;

/// More than stay open.
const MANY: u32 = 20;

fn disk_in(rt: HostRuntime, name: &str) -> Result<DirDisk<HostRuntime>, Fail> {
    Ok(dir_disk(rt, String::from_str(rt.alloc(), name)?)?)
}

/// The access that a file or a folder gives.
fn mode_of(rt: HostRuntime, name: &str) -> Result<u32, Fail> {
    Ok(fs::metadata(&rt, name)?.permissions().mode() & 0o777)
}

/// Files that others put there cost no memory, whatever their number and their length.
#[test]
fn strange_files(rt: HostRuntime) -> Result<(), Fail> {
    fs::create_dir_all(&rt, "F/b1")?;
    fs::write(&rt, "F/b1/0", "stray")?;
    let sparse = fs::create(&rt, "F/b1/4000000000")?;
    sparse.set_len(SPARSE)?;
    let mut disk = disk_in(rt, "F/b1")?;
    assert!(rt; disk.span() == Ok((0, 4_000_000_001)));
    assert!(rt; disk.len(4_000_000_000) == Ok(Some(SPARSE)));
    let mut into = *b"....";
    assert!(rt; disk.read(4_000_000_000, SPARSE - 2, &mut into) == Ok(2));
    assert!(rt; into == *b"\0\0..");
    assert!(rt; disk.sync() == Ok(()));
    Ok(())
}

/// What is no regular file is refused, and none is opened.
#[test]
fn no_regular_file(rt: HostRuntime) -> Result<(), Fail> {
    fs::create_dir_all(&rt, "G/b1/3")?;
    let mut disk = disk_in(rt, "G/b1")?;
    assert!(rt; disk.span() == Ok((3, 4)));
    assert!(rt; disk.len(3) == Err(FAILED));
    assert!(rt; disk.write(3, 0, b"no") == Err(FAILED));
    assert!(rt; disk.sync() == Err(FAILED));
    assert!(rt; disk.faults() == 3);
    Ok(())
}

/// A second disk over a folder finds it held, until the first is gone.
#[test]
fn one_at_a_time(rt: HostRuntime) -> Result<(), Fail> {
    let mut first = disk_in(rt, "H/b1")?;
    assert!(rt; first.write(0, 0, b"held") == Ok(()));
    let mut second = disk_in(rt, "H/b1")?;
    assert!(rt; second.len(0) == Err(FAILED));
    drop(first);
    assert!(rt; second.len(0) == Ok(Some(4)));
    Ok(())
}

/// A folder in which a sync was refused is not taken again.
#[test]
fn refused_before(rt: HostRuntime) -> Result<(), Fail> {
    fs::create_dir_all(&rt, "I/b1")?;
    fs::write(&rt, "I/b1/refused", "")?;
    let mut disk = disk_in(rt, "I/b1")?;
    assert!(rt; disk.span() == Err(FAILED));
    fs::remove_file(&rt, "I/b1/refused")?;
    assert!(rt; disk.span() == Ok((0, 0)));
    Ok(())
}

/// Folders and files are for their owner alone.
#[test]
fn owner_alone(rt: HostRuntime) -> Result<(), Fail> {
    let mut disk = disk_in(rt, "J/b1")?;
    assert!(rt; disk.write(0, 0, b"own") == Ok(()));
    assert!(rt; mode_of(rt, "J")? == 0o700);
    assert!(rt; mode_of(rt, "J/b1")? == 0o700);
    assert!(rt; mode_of(rt, "J/b1/0")? == 0o600);
    Ok(())
}

/// Writes to each of some files, with a sync behind each.
fn write_all(disk: &mut DirDisk<HostRuntime>, at: u64, bytes: &[u8]) -> Result<(), DiskFault> {
    for file in 0..MANY {
        disk.write(file, at, bytes)?;
        disk.sync()?;
    }
    Ok(())
}

fn is_in_all(disk: &mut DirDisk<HostRuntime>, want: [u8; 4]) -> Result<bool, DiskFault> {
    for file in 0..MANY {
        let mut into = *b"....";
        if disk.read(file, 0, &mut into)? != 4 || into != want {
            return Ok(false);
        }
    }
    Ok(true)
}

/// More files than stay open: each is found again, and one that is made anew is not the one that was removed.
#[test]
fn many_files(rt: HostRuntime) -> Result<(), Fail> {
    let mut disk = disk_in(rt, "K/b1")?;
    assert!(rt; write_all(&mut disk, 0, b"ab") == Ok(()));
    assert!(rt; write_all(&mut disk, 2, b"cd") == Ok(()));
    assert!(rt; is_in_all(&mut disk, *b"abcd") == Ok(true));
    assert!(rt; write_all(&mut disk, 1, b"B") == Ok(()));
    assert!(rt; is_in_all(&mut disk, *b"aBcd") == Ok(true));
    assert!(rt; disk.remove(MANY - 1) == Ok(()));
    assert!(rt; disk.write(MANY - 1, 0, b"new") == Ok(()));
    assert!(rt; disk.sync() == Ok(()));
    assert!(rt; disk.len(MANY - 1) == Ok(Some(3)));
    let text = fs::read_to_string(&rt, "K/b1/19")?;
    assert!(rt; text.as_str() == "new");
    Ok(())
}
