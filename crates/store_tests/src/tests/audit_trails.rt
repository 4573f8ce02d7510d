//! What a stop leaves of a trail, and disks that are damaged.
ghost use Rattle.std.specs.Prelude.{IfOk};
ghost use Rattle.audit_trail.specs.InUse.{disk_of, IsInUse};

use super::fixtures::{both, image};
use audit_trail::AuditTrail;
use fault_tables::{Row, Stop, rows};
use rdf_disk::{Disk, MemDisk, Tear};
use rdf_gatelog::LogFault;
use rdf_types::names::NameFault;
use rdf_types::records::{Record, TxnId};
use std::alloc::Global;
use std::test::Fail;

/// A trail of nothing.
fn blank(alloc: Global) -> Result<AuditTrail<MemDisk>, LogFault>
    ensures { IfOk result (λ a. IsInUse a (⟦<MemDisk as Disk>⟧.files (disk_of a))) }
{
    match AuditTrail::format(alloc, MemDisk::blank(alloc, Vec::new(alloc))) {
        Ok(trail) => Ok(trail),
        Err(shut) => Err(shut.fault),
    }
}

/// A trail of the image alone.
fn with_image(alloc: Global) -> Result<AuditTrail<MemDisk>, Fail>
    ensures { IfOk result (λ a. IsInUse a (⟦<MemDisk as Disk>⟧.files (disk_of a))) }
{
    let mut trail = blank(alloc)?;
    trail.append(&image(alloc)?)?;
    Ok(trail)
}

/// The trail of a disk.
fn mounted(alloc: Global, disk: MemDisk) -> Result<AuditTrail<MemDisk>, LogFault> {
    match AuditTrail::mount(alloc, disk) {
        Ok(trail) => Ok(trail),
        Err(shut) => Err(shut.fault),
    }
}

/// The disk behind a mount that stops.
fn mount_stopped(alloc: Global, mut disk: MemDisk, stop: Stop) -> Result<MemDisk, Fail> {
    disk.fuse(stop.calls, stop.tear);
    match AuditTrail::mount(alloc, disk) {
        Ok(_) => return Err(Fail::new("it did not stop")),
        Err(shut) => disk = shut.disk,
    }
    disk.restart()?;
    Ok(disk)
}

/// How an append of the commit ends that stops at one of its calls, and the disk behind it.
fn append_stopped(alloc: Global, stop: Stop) -> Result<(Result<(), LogFault>, MemDisk), Fail> {
    let mut trail = with_image(alloc)?;
    trail.fuse(stop.calls, stop.tear);
    let ended = trail.append(&Record::Commit { txn: TxnId(1) });
    let mut disk = trail.close();
    disk.cut();
    disk.restart()?;
    Ok((ended, disk))
}

fn is_commit(rec: &Record) -> bool {
    *rec == Record::Commit { txn: TxnId(1) }
}

/// Whether the records are the image, and behind it the commit or nothing.
fn are_left(alloc: Global, records: &[Record], committed: bool) -> Result<bool, NameFault> {
    let first = image(alloc)?;
    Ok(match records {
        [only] => !committed && *only == first,
        [one, two] => committed && *one == first && is_commit(two),
        _ => false,
    })
}

/// Whether a mount, which may stop once, finds what the stop of an append has to leave.
fn is_found(alloc: Global, row: &Row) -> Result<bool, Fail> {
    let (ended, mut disk) = append_stopped(alloc, row.step)?;
    if let Some(stop) = row.restart {
        disk = mount_stopped(alloc, disk, stop)?;
    }
    let trail = mounted(alloc, disk)?;
    // The gate is the first pending change, and only the tear `Lose` takes it back.
    let committed = row.step.calls >= 2 && row.step.tear != Tear::Lose;
    Ok(ended == Err(LogFault::Stopped) && are_left(alloc, trail.records(), committed)?)
}

#[test]
fn stop_in_an_append(rt: HostRuntime) -> Result<(), Fail> {
    for row in &rows(rt.alloc(), 4, 4)? {
        assert!(rt; is_found(rt.alloc(), row)?, "{row:?}");
    }
    Ok(())
}

/// What a mount answers of a disk with one file: the number of records, or what is wrong.
fn mount_of(alloc: Global, file: u8, bytes: &[u8]) -> Result<u64, LogFault> {
    let mut disk = MemDisk::blank(alloc, Vec::new(alloc));
    disk.write(u32::from(file), 0, bytes)?;
    Ok(mounted(alloc, disk)?.len())
}

fn mounts() -> &'static [(u8, &'static [u8], Result<u64, LogFault>)] {
    &[
        (0, &[], Ok(0)),
        (0, &[1, 0], Err(LogFault::Damaged { file: 0, at: 0 })),
        (
            0,
            &[1, 0, 0, 0, 1, 9, 0],
            Err(LogFault::Damaged { file: 0, at: 0 }),
        ),
        (0, &[1, 0, 0, 0, 5, 3, 0, 0, 0, 1, 0], Ok(1)),
        (
            0,
            &[
                1, 0, 0, 0, 5, 3, 0, 0, 0, 1, 1, 0, 0, 0, 6, 3, 0, 0, 0, 1, 0, 0,
            ],
            Err(LogFault::Damaged { file: 0, at: 10 }),
        ),
        (
            0,
            &[1, 0, 0, 0, 5, 3, 0, 0, 0, 1, 1, 0, 0, 0, 4, 3, 0, 0, 0, 0],
            Err(LogFault::Damaged { file: 0, at: 10 }),
        ),
    ]
}

#[test]
fn whole_and_damaged(rt: HostRuntime) {
    assert!(rt; mount_of(rt.alloc(), 0, both()) == Ok(2));
    let other = Err(LogFault::Damaged { file: 3, at: 0 });
    assert!(rt; mount_of(rt.alloc(), 3, both()) == other);
    for (file, bytes, want) in mounts() {
        assert!(rt; mount_of(rt.alloc(), *file, bytes) == *want, "{bytes:?}");
    }
}
