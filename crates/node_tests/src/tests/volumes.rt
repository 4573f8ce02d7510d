//! Stops in a batch and in a checkpoint, and a disk without a volume.
ghost use Rattle.std.specs.Prelude.{◌≡◌, IfOk};
ghost use Rattle.rdf_volume.specs.Views.{file_of};

use super::fixtures::FAR;
use fault_tables::{Row as Stops, Stop, Untold, rows as stops_of};
use rdf_disk::{Disk, DiskFault, Tear};
use rdf_gatelog::LogFault;
use rdf_types::names::{FileName, Key, NameFault, Value};
use rdf_types::records::{Change, Row};
use rdf_volume::{VolShut, Volume};
use std::alloc::{AllocError, Global};
use std::test::Fail;

/// Sets the key of file `f`, or empties it where the value is empty.
fn change(alloc: Global, key: &[u8], value: &[u8]) -> Result<Change, NameFault> {
    let file = FileName::read(alloc, b"f")?;
    let key = Key::read(alloc, key)?;
    if value.is_empty() {
        return Ok(Change {
            file,
            key,
            after: None,
        });
    }
    let after = Some(Value::read(alloc, value)?);
    Ok(Change { file, key, after })
}

/// The keys and values of rows, with a space after each.
fn text_of(alloc: Global, rows: &[Row]) -> Result<Vec<u8>, AllocError> {
    let mut text = Vec::new(alloc);
    for row in rows {
        text.extend_from_slice(row.key.bytes())?;
        text.push(b' ')?;
        text.extend_from_slice(row.value.bytes())?;
        text.push(b' ')?;
    }
    Ok(text)
}

/// A volume with the rows `a 1` and `b 2`, and restart point 3.
fn filled(alloc: Global) -> Result<Volume<Untold>, Fail>
    ensures { IfOk result (λ volume. file_of volume ≡ 0) }
{
    let b = change(alloc, b"b", b"2")?;
    let a = change(alloc, b"a", b"1")?;
    match Volume::format(alloc, Untold::blank(alloc)) {
        Ok(mut volume) => {
            volume.apply(&[b, a], 3)?;
            Ok(volume)
        }
        Err(shut) => Err(shut.fault)?,
    }
}

/// The rows and the restart point of a volume.
fn shown(alloc: Global, volume: &mut Volume<Untold>) -> Result<(Vec<u8>, u64), Fail> {
    let rows = volume.scan()?;
    Ok((text_of(alloc, &rows)?, volume.restart_point()))
}

/// Opens a volume and gives it up again.
fn looked_at(alloc: Global, disk: Untold) -> Untold {
    match Volume::mount(alloc, disk) {
        Ok(volume) => volume.close(),
        Err(VolShut { disk, fault: _ }) => disk,
    }
}

fn mounted(alloc: Global, disk: Untold) -> Result<Volume<Untold>, LogFault> {
    match Volume::mount(alloc, disk) {
        Ok(volume) => Ok(volume),
        Err(shut) => Err(shut.fault),
    }
}

/// Cuts a disk, turns it on and gives it a fuse.
fn restarted(mut disk: Untold, stop: Stop) -> Result<Untold, DiskFault> {
    disk.cut();
    disk.restart()?;
    disk.fuse(stop.calls, stop.tear);
    Ok(disk)
}

/// Opens the volume of a disk that is cut and turned on, once with that stop and then again.
fn reopened(alloc: Global, volume: Volume<Untold>, stop: Stop) -> Result<Volume<Untold>, Fail> {
    let cut = restarted(volume.close(), stop)?;
    let again = restarted(looked_at(alloc, cut), FAR)?;
    Ok(mounted(alloc, again)?)
}

#[test]
fn no_volume_on_a_blank_disk(rt: HostRuntime) -> Result<(), Fail> {
    let alloc = rt.alloc();
    let shut = Volume::mount(alloc, Untold::blank(alloc)).err();
    assert!(rt; shut.is_some_and(|shut| shut.fault == LogFault::Damaged { file: 0, at: 0 }));
    Ok(())
}

/// Stops a batch, and perhaps the opening after it, and tells what the volume shows then.
fn apply_stopped(
    alloc: Global,
    stops: &Stops,
) -> Result<(Result<(), LogFault>, Vec<u8>, u64), Fail> {
    let mut volume = filled(alloc)?;
    let removal = change(alloc, b"a", b"")?;
    let other = change(alloc, b"c", b"3")?;
    volume.fuse(stops.step.calls, stops.step.tear);
    let ended = volume.apply(&[removal, other], 5);
    let mut volume = reopened(alloc, volume, stops.restart.unwrap_or(FAR))?;
    let (text, restart) = shown(alloc, &mut volume)?;
    Ok((ended, text, restart))
}

#[test]
fn stop_in_a_batch(rt: HostRuntime) -> Result<(), Fail> {
    let alloc = rt.alloc();
    for stops in &stops_of(alloc, 6, 12)? {
        let (ended, text, restart) = apply_stopped(alloc, stops)?;
        assert_eq!(rt; ended, Err(LogFault::Stopped));
        // The disk looks at a length before each write, so the gate is written by the fifth call. It is then the first pending change, and only
        // the tear `Lose` takes it back.
        let opened = stops.step.calls >= 4 && stops.step.tear != Tear::Lose;
        let before = text.as_slice() == b"a 1 b 2 ".as_slice() && restart == 3;
        let after = text.as_slice() == b"b 2 c 3 ".as_slice() && restart == 5;
        assert!(rt; if opened { after } else { before }, "{stops:?}");
    }
    Ok(())
}

/// Stops a checkpoint, and perhaps the opening after it, and tells what the volume shows then.
fn checkpoint_stopped(
    alloc: Global,
    stops: &Stops,
) -> Result<(Result<(), LogFault>, Vec<u8>, u64), Fail> {
    let mut volume = filled(alloc)?;
    volume.fuse(stops.step.calls, stops.step.tear);
    let ended = volume.checkpoint();
    let mut volume = reopened(alloc, volume, stops.restart.unwrap_or(FAR))?;
    let (text, restart) = shown(alloc, &mut volume)?;
    Ok((ended, text, restart))
}

#[test]
fn stop_in_a_checkpoint(rt: HostRuntime) -> Result<(), Fail> {
    let alloc = rt.alloc();
    for stops in &stops_of(alloc, 15, 16)? {
        let (ended, text, restart) = checkpoint_stopped(alloc, stops)?;
        assert_eq!(rt; ended, Err(LogFault::Stopped));
        assert_eq!(rt; text.as_slice(), b"a 1 b 2 ".as_slice(), "{stops:?}");
        assert_eq!(rt; restart, 3, "{stops:?}");
    }
    Ok(())
}
