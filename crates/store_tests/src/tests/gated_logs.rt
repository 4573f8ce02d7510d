//! The bytes of a log, what a stop leaves of it, and files that are no log.
ghost use Rattle.std.specs.Prelude.{◌≡◌, ℕ, List, None, IfOk};
ghost use Rattle.rdf_disk.specs.Files.{settled};
ghost use Rattle.rdf_gatelog.specs.Log.{IsAtRest};

use super::fixtures::{COMMIT, IMAGE};
use rdf_disk::{Disk, MemDisk, Tear};
use rdf_gatelog::{LogFault, LogFile};
use std::alloc::Global;
use std::test::Fail;

fn is_list(found: &[Vec<u8>], want: &[&[u8]]) -> bool {
    found.len() == want.len() && found.iter().zip(want).all(|(f, w)| f.as_slice() == *w)
}

/// A log of the image alone, in file 0 of a disk that hasn't it.
fn with_image<D: Disk>(alloc: Global, disk: &mut D) -> Result<LogFile, LogFault>
    requires { D.tells → D.files disk.old 0 ≡ settled None }
    ensures { D.tells → IfOk result (λ log. (payloads : List (List ℕ)) × IsAtRest log.file log.end payloads (D.files disk.new)) }
{
    let mut log = LogFile::create(alloc, disk, 0)?;
    log.append(disk, &IMAGE)?;
    Ok(log)
}

/// Stops an append at one of its calls, mounts again, and tells how the append ended and what the log has.
fn append_stopped(
    alloc: Global,
    calls: u32,
    tear: Tear,
) -> Result<(Result<u64, LogFault>, Vec<Vec<u8>>), Fail> {
    let mut disk = MemDisk::blank(alloc, Vec::new(alloc));
    let mut log = with_image(alloc, &mut disk)?;
    disk.fuse(calls, tear);
    let ended = log.append(&mut disk, &COMMIT);
    disk.cut();
    disk.restart()?;
    let (_, found) = LogFile::mount(alloc, &mut disk, 0)?;
    Ok((ended, found))
}

/// Whether these are the image, and behind it the commit or nothing.
fn is_log(found: &[Vec<u8>], committed: bool) -> bool {
    if committed {
        is_list(found, &[&IMAGE, &COMMIT])
    } else {
        is_list(found, &[&IMAGE])
    }
}

/// Whether an append that stops opens its gate just where it should.
fn is_opened_in_time(alloc: Global, calls: u32, tear: Tear) -> Result<bool, Fail> {
    let (ended, found) = append_stopped(alloc, calls, tear)?;
    // The gate is the first pending change, and only the tear `Lose` takes it back.
    let opened = calls >= 2 && tear != Tear::Lose;
    Ok(ended == Err(LogFault::Stopped) && is_log(&found, opened))
}

#[test]
fn stop_in_an_append(rt: HostRuntime) -> Result<(), Fail> {
    for calls in 0..4 {
        for tear in [Tear::Lose, Tear::Keep, Tear::Mix] {
            assert!(rt;
                is_opened_in_time(rt.alloc(), calls, tear)?,
                "{tear:?} at {calls}"
            );
        }
    }
    Ok(())
}

#[test]
fn stop_behind_an_append(rt: HostRuntime) -> Result<(), Fail> {
    let (ended, found) = append_stopped(rt.alloc(), 1_000, Tear::Lose)?;
    assert!(rt; ended == Ok(21));
    assert!(rt; is_log(&found, true));
    Ok(())
}

/// Stops the making of a log at one of its calls, and tells how many payloads a mount then finds.
fn create_stopped(alloc: Global, calls: u32, tear: Tear) -> Result<usize, LogFault> {
    let mut disk = MemDisk::blank(alloc, Vec::new(alloc));
    disk.fuse(calls, tear);
    let _ = LogFile::create(alloc, &mut disk, 0);
    disk.restart()?;
    let (_, found) = LogFile::mount(alloc, &mut disk, 0)?;
    Ok(found.len())
}

#[test]
fn stop_in_a_create(rt: HostRuntime) {
    let absent = Err(LogFault::Damaged { file: 0, at: 0 });
    for calls in 0..2 {
        assert!(rt; create_stopped(rt.alloc(), calls, Tear::Lose) == absent);
        assert!(rt; create_stopped(rt.alloc(), calls, Tear::Keep) == Ok(0));
        assert!(rt; create_stopped(rt.alloc(), calls, Tear::Mix) == Ok(0));
    }
}

/// What a mount answers of a file with these bytes: all its payloads in a row.
fn mounted(alloc: Global, bytes: &[u8]) -> Result<Vec<u8>, LogFault> {
    let mut disk = MemDisk::blank(alloc, Vec::new(alloc));
    disk.write(3, 0, bytes)?;
    let (_, found) = LogFile::mount(alloc, &mut disk, 3)?;
    let mut all = Vec::new(alloc);
    for payload in &found {
        all.extend_from_slice(payload)?;
    }
    Ok(all)
}

fn whole() -> &'static [(&'static [u8], &'static [u8])] {
    &[
        (&[], &[]),
        (&[1], &[]),
        (&[0, 9], &[]),
        (&[1, 0, 0, 0, 1, 9, 2], &[9]),
        (&[1, 0, 0, 0, 1, 9, 0, 1, 0], &[9]),
        (&[1, 0, 0, 0, 1, 9, 1, 0, 0, 0, 2, 7, 8, 0], &[9, 7, 8]),
    ]
}

fn damaged() -> &'static [(&'static [u8], u64)] {
    &[
        (&[1, 0], 0),
        (&[1, 0, 0, 0, 0, 0], 0),
        (&[1, 0, 1, 0, 1, 5, 5, 5], 0),
        (&[1, 0, 0, 0, 1, 9], 0),
        (&[1, 0, 0, 0, 1, 9, 1], 6),
        (&[1, 0, 0, 0, 1, 9, 1, 0, 0, 0, 2, 8], 6),
    ]
}

#[test]
fn whole_logs(rt: HostRuntime) -> Result<(), Fail> {
    for (bytes, want) in whole() {
        assert!(rt;
            mounted(rt.alloc(), bytes)?.as_slice() == *want,
            "{bytes:?}"
        );
    }
    Ok(())
}

fn is_damaged<T>(mounted: &Result<T, LogFault>, at: u64) -> bool {
    matches!(mounted, Err(LogFault::Damaged { file: 3, at: place }) if *place == at)
}

#[test]
fn damaged_logs(rt: HostRuntime) {
    for (bytes, at) in damaged() {
        assert!(rt; is_damaged(&mounted(rt.alloc(), bytes), *at), "{bytes:?}");
    }
}

#[test]
fn a_log_that_is_not_there(rt: HostRuntime) {
    let mut disk = MemDisk::blank(rt.alloc(), Vec::new(rt.alloc()));
    assert!(rt; is_damaged(&LogFile::mount(rt.alloc(), &mut disk, 3), 0));
}
