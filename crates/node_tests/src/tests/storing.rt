//! A backup's image trails: stops, damage, and the records of one trail.
ghost use Rattle.std.specs.Prelude.{◌≡◌, ◌<◌, ◌≤◌, ◌+◌, IfOk};
ghost use Rattle.rdf_codec.specs.Ships.{HasShipSpelling};

use super::fixtures::{FAR, two_volumes};
use fault_tables::{Row as Stops, Stop, Untold, rows as stops_of};
use image_trails::{ImageShut, ImageTrails};
use rdf_codec::entries::Entries;
use rdf_codec::ships::Ship;
use rdf_disk::Disk;
use rdf_gatelog::LogFault;
use rdf_types::names::{FileName, Key, Value};
use rdf_types::records::{Pos, Record, Stamped, TxnId, VolNo};
use receiver::on_ship;
use std::alloc::Global;
use std::test::Fail;

/// The image of an insert, at a position.
fn image(alloc: Global, pos: Pos, vol: VolNo) -> Result<Stamped, Fail>
    ensures { IfOk result (λ stamped. stamped.pos ≡ pos) }
{
    let file = FileName::read(alloc, b"f")?;
    let key = Key::read(alloc, b"k")?;
    let value = Value::read(alloc, b"1")?;
    Ok(Stamped {
        pos,
        rec: Record::Image {
            txn: TxnId(1),
            vol,
            file,
            key,
            before: None,
            after: Some(value),
        },
    })
}

/// A shipment with an image of volume 0 and one of volume 1, at its first positions.
fn shipment(alloc: Global, from: Pos, to: Pos) -> Result<Ship, Fail>
    requires some { from + 1 < to }
    requires few { to ≤ from + 64 }
    ensures spelled { IfOk result HasShipSpelling }
{
    let mut part = Vec::new(alloc);
    part.push(image(alloc, from, VolNo(0))?)?;
    part.push(image(alloc, from + 1, VolNo(1))?)?;
    Ok(Ship {
        from,
        to,
        part: Entries::new(part),
    })
}

/// New image trails.
fn formatted(alloc: Global) -> Result<ImageTrails<Untold>, Fail> {
    match ImageTrails::format(alloc, Untold::blank(alloc), &two_volumes(alloc)?) {
        Ok(trails) => Ok(trails),
        Err(ImageShut { disk: _, fault }) => Err(fault)?,
    }
}

/// The image trails of a disk that is cut and turned on.
fn reopened(alloc: Global, mut disk: Untold) -> Result<ImageTrails<Untold>, Fail> {
    disk.cut();
    disk.restart()?;
    disk.fuse(FAR.calls, FAR.tear);
    match ImageTrails::mount(alloc, disk, &two_volumes(alloc)?) {
        Ok(trails) => Ok(trails),
        Err(ImageShut { disk: _, fault }) => Err(fault)?,
    }
}

/// The disk of image trails that an opening with a stop in it leaves.
fn looked_at(alloc: Global, mut disk: Untold, stop: Stop) -> Result<Untold, Fail> {
    disk.cut();
    disk.restart()?;
    disk.fuse(stop.calls, stop.tear);
    match ImageTrails::mount(alloc, disk, &two_volumes(alloc)?) {
        Ok(trails) => Ok(trails.close()),
        Err(ImageShut { disk, fault: _ }) => Ok(disk),
    }
}

/// Image trails with a shipment on the positions 0 to 3, which fill a generation.
fn filled(alloc: Global) -> Result<ImageTrails<Untold>, Fail> {
    let mut trails = formatted(alloc)?;
    on_ship(&mut trails, &shipment(alloc, 0, 4)?)?;
    Ok(trails)
}

/// Stores a shipment with a stop in it, and perhaps one in the opening after it, and tells what is received then.
fn store_stopped(alloc: Global, stops: &Stops) -> Result<(bool, Pos), Fail> {
    let mut trails = filled(alloc)?;
    trails.fuse(stops.step.calls, stops.step.tear);
    let ended = on_ship(&mut trails, &shipment(alloc, 4, 6)?);
    let disk = looked_at(alloc, trails.close(), stops.restart.unwrap_or(FAR))?;
    let trails = reopened(alloc, disk)?;
    Ok((ended.is_ok(), trails.received()))
}

#[test]
fn stop_while_storing(rt: HostRuntime) -> Result<(), Fail> {
    let alloc = rt.alloc();
    for stops in &stops_of(alloc, 24, 12)? {
        let (stored, received) = store_stopped(alloc, stops)?;
        let before = received == 4 && !stored;
        assert!(rt; before || received == 6, "{stops:?}");
    }
    Ok(())
}

/// Drops the first of two generations with a stop in it, and perhaps one in the opening after it, and tells what is kept then.
fn drop_stopped(alloc: Global, stops: &Stops) -> Result<(bool, Pos, Pos), Fail> {
    let mut trails = filled(alloc)?;
    on_ship(&mut trails, &shipment(alloc, 4, 6)?)?;
    if trails.generations() < 2 {
        return Err("one generation")?;
    }
    trails.fuse(stops.step.calls, stops.step.tear);
    let ended = trails.drop_first();
    let disk = looked_at(alloc, trails.close(), stops.restart.unwrap_or(FAR))?;
    let trails = reopened(alloc, disk)?;
    Ok((ended.is_ok(), trails.kept(), trails.received()))
}

#[test]
fn stop_while_dropping(rt: HostRuntime) -> Result<(), Fail> {
    let alloc = rt.alloc();
    for stops in &stops_of(alloc, 6, 12)? {
        let (dropped, kept, received) = drop_stopped(alloc, stops)?;
        let before = kept == 0 && !dropped;
        assert!(rt; before || kept == 4, "{stops:?}");
        assert_eq!(rt; received, 6, "{stops:?}");
    }
    Ok(())
}

/// Why image trails aren't opened without a file.
fn fault_without(alloc: Global, mut disk: Untold, file: u32) -> Result<LogFault, Fail> {
    disk.remove(file)?;
    match ImageTrails::mount(alloc, disk, &two_volumes(alloc)?) {
        Ok(trails) => {
            let _ = trails.close();
            Err("opened")?
        }
        Err(ImageShut { disk: _, fault }) => Ok(fault),
    }
}

#[test]
fn damaged_disks(rt: HostRuntime) -> Result<(), Fail> {
    let alloc = rt.alloc();
    let none = fault_without(alloc, Untold::blank(alloc), 0)?;
    assert_eq!(rt; none, LogFault::Damaged { file: 0, at: 0 });
    let master = filled(alloc)?.close();
    let lost = fault_without(alloc, master, 0)?;
    assert_eq!(rt; lost, LogFault::Damaged { file: 1, at: 0 });
    let second = filled(alloc)?.close();
    let short = fault_without(alloc, second, 1)?;
    assert_eq!(rt; short, LogFault::Damaged { file: 1, at: 0 });
    Ok(())
}

/// Volume 0 is on the master, and volume 1 on the first secondary.
#[test]
fn records_of_each_trail(rt: HostRuntime) -> Result<(), Fail> {
    let alloc = rt.alloc();
    let trails = filled(alloc)?;
    assert_eq!(rt; trails.records(0, 0, 9)?.len(), 1);
    assert_eq!(rt; trails.records(1, 0, 9)?.len(), 1);
    assert_eq!(rt; trails.records(1, 2, 9)?.len(), 0);
    Ok(())
}
