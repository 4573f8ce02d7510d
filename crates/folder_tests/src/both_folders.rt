//! Folders as disks, by values worked out by hand.
use folder_disk::FolderDisk;
use memory_folder::MemFolder;
use rdf_disk::{Disk, DiskFault, Tear};
use std::fs;
use std::process::Abort;
use std::test::Fail;
use system_folder::dir_disk;

#[derive(Clone, Copy)]
enum Call {
    Span,
    Len(u32),
    Read(u32, u64),
    Write(u32, u64, &'static [u8]),
    Remove(u32),
    Sync,
    Cut,
    Restart,
    Fuse(u32),
    Counts,
}

#[derive(Clone, Copy, PartialEq)]
enum Answer {
    Done,
    Span(u32, u32),
    Len(Option<u64>),
    Bytes(usize, [u8; 4]),
    Counts(u64, u64, u64, bool),
    Fault(DiskFault),
}

fn perform<D: Disk>(disk: &mut D, call: Call) -> Result<Answer, DiskFault> {
    match call {
        Call::Span => {
            let span = disk.span()?;
            Ok(Answer::Span(span.0, span.1))
        }
        Call::Len(file) => Ok(Answer::Len(disk.len(file)?)),
        Call::Read(file, at) => {
            let mut into = *b"....";
            let n = disk.read(file, at, &mut into)?;
            Ok(Answer::Bytes(n, into))
        }
        Call::Counts => Ok(Answer::Counts(
            disk.faults(),
            disk.stops(),
            disk.fuses(),
            disk.is_off(),
        )),
        _ => changed(disk, call),
    }
}

/// Looks how long the file is, and writes where the place is within it. Elsewhere it answers want of memory, which no row has.
fn put<D: Disk>(disk: &mut D, file: u32, at: u64, bytes: &[u8]) -> Result<(), DiskFault> {
    let len = disk.len(file)?.unwrap_or(0);
    if at > len || file == u32::MAX {
        return Err(DiskFault::NoMemory);
    }
    disk.write(file, at, bytes)
}

fn changed<D: Disk>(disk: &mut D, call: Call) -> Result<Answer, DiskFault> {
    match call {
        Call::Write(file, at, bytes) => put(disk, file, at, bytes)?,
        Call::Remove(file) => disk.remove(file)?,
        Call::Sync => disk.sync()?,
        Call::Restart => disk.restart()?,
        Call::Fuse(calls) => disk.fuse(calls, Tear::Lose),
        _ => disk.cut(),
    }
    Ok(Answer::Done)
}

fn meets<D: Disk>(rt: &impl Abort, disk: &mut D, rows: &[(Call, Answer)]) {
    for (call, want) in rows {
        let got = perform(disk, *call).unwrap_or_else(Answer::Fault);
        assert!(rt; got == *want);
    }
}

fn is_sent<D: Disk + Send>(_disk: &D) {}

fn writes() -> [(Call, Answer); 5] {
    [
        (Call::Span, Answer::Span(0, 0)),
        (Call::Write(2, 0, b"abcdef"), Answer::Done),
        (Call::Write(7, 0, b"xy"), Answer::Done),
        (Call::Write(2, 4, b"EFGH"), Answer::Done),
        (Call::Sync, Answer::Done),
    ]
}

fn looks() -> [(Call, Answer); 14] {
    [
        (Call::Span, Answer::Span(2, 8)),
        (Call::Len(2), Answer::Len(Some(8))),
        (Call::Len(3), Answer::Len(None)),
        (Call::Read(2, 2), Answer::Bytes(4, *b"cdEF")),
        (Call::Read(2, 6), Answer::Bytes(2, *b"GH..")),
        (Call::Read(2, 8), Answer::Bytes(0, *b"....")),
        (Call::Read(2, u64::MAX), Answer::Bytes(0, *b"....")),
        (Call::Read(3, 0), Answer::Bytes(0, *b"....")),
        (Call::Len(u32::MAX), Answer::Len(None)),
        (Call::Remove(7), Answer::Done),
        (Call::Remove(7), Answer::Done),
        (Call::Sync, Answer::Done),
        (Call::Span, Answer::Span(2, 3)),
        (Call::Counts, Answer::Counts(0, 0, 0, false)),
    ]
}

fn stops() -> [(Call, Answer); 12] {
    [
        (Call::Fuse(2), Answer::Done),
        (Call::Write(2, 8, b"kept"), Answer::Done),
        (Call::Remove(2), Answer::Fault(DiskFault::Stopped)),
        (Call::Remove(2), Answer::Fault(DiskFault::Stopped)),
        (Call::Counts, Answer::Counts(0, 1, 1, true)),
        (Call::Restart, Answer::Done),
        (Call::Len(2), Answer::Len(Some(12))),
        (Call::Cut, Answer::Done),
        (Call::Sync, Answer::Fault(DiskFault::Stopped)),
        (Call::Counts, Answer::Counts(0, 1, 1, true)),
        (Call::Restart, Answer::Done),
        (Call::Sync, Answer::Done),
    ]
}

fn looked_at_again() -> [(Call, Answer); 3] {
    [
        (Call::Sync, Answer::Done),
        (Call::Read(2, 9), Answer::Bytes(3, *b"ept.")),
        (Call::Counts, Answer::Counts(0, 0, 0, false)),
    ]
}

fn refused() -> [(Call, Answer); 3] {
    [
        (Call::Span, Answer::Fault(DiskFault::Failed)),
        (Call::Sync, Answer::Fault(DiskFault::Failed)),
        (Call::Counts, Answer::Counts(2, 0, 0, false)),
    ]
}

#[test]
fn folder_of_the_system(rt: HostRuntime) -> Result<(), Fail> {
    let mut disk = dir_disk(rt, String::from_str(rt.alloc(), "D/b1")?)?;
    is_sent(&disk);
    assert!(rt; !fs::exists(&rt, "D")?);
    meets(&rt, &mut disk, &writes());
    let text = fs::read_to_string(&rt, "D/b1/2")?;
    assert!(rt; text.as_str() == "abcdEFGH");
    fs::write(&rt, "D/b1/01", "no number")?;
    fs::write(&rt, "D/b1/4294967295", "past the last file")?;
    meets(&rt, &mut disk, &looks());
    meets(&rt, &mut disk, &stops());
    Ok(())
}

/// What an earlier disk left is there, a place past the end is refused, and so is a folder that is a file.
#[test]
fn folder_again(rt: HostRuntime) -> Result<(), Fail> {
    fs::create_dir_all(&rt, "E/b1")?;
    fs::write(&rt, "E/b1/2", "abcdEFGHkept")?;
    let mut again = dir_disk(rt, String::from_str(rt.alloc(), "E/b1")?)?;
    meets(&rt, &mut again, &looked_at_again());
    assert!(rt; again.write(2, 13, b"past") == Err(DiskFault::Failed));
    assert!(rt; again.write(3, 1, b"past") == Err(DiskFault::Failed));
    assert!(rt; !fs::exists(&rt, "E/b1/3")?);
    let mut under = dir_disk(rt, String::from_str(rt.alloc(), "E/b1/2/d")?)?;
    meets(&rt, &mut under, &refused());
    Ok(())
}

#[test]
fn folder_in_memory(rt: HostRuntime) -> Result<(), Fail> {
    let alloc = rt.alloc();
    let folder = MemFolder::blank(alloc, Vec::new(alloc), 3);
    let mut disk = FolderDisk::at(alloc, folder);
    is_sent(&disk);
    meets(&rt, &mut disk, &writes());
    meets(&rt, &mut disk, &looks());
    meets(&rt, &mut disk, &stops());
    Ok(())
}
