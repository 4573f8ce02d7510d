//! Sessions of two volumes: both updaters apply at the same time, and reads between fit their positions.
ghost use Rattle.std.specs.Prelude.{◌≡◌, false, IfOk};
ghost use Rattle.thread_tests.specs.Visits.{IsVisited, MayVisit, AreTwo};

use crate::fixtures::{formatted, image, images};
use crate::meeting::Meeting;
use rdf_disk::{Disk, MemDisk};
use rdf_ports::{Gate, NoGate};
use rdf_types::names::{FileName, Key, Value};
use rdf_types::records::{Pos, RecKey, Stamped, VolNo};
use rdf_volume::VolFault;
use std::alloc::Global;
use std::process::Abort;
use std::sync::Wait;
use std::test::*;
use std::thread::Threads;
use volume_sessions::{Inside, Left, Placed, Watch, in_session};

/// Publishes a third image of volume 0, asks until all three are noted, and reads its row.
#[derive(Drop)]
struct Visit<'a, R: Wait> {
    rt: &'a R,
    more: Stamped,
    key: RecKey,
    room: Vec<Stamped>,
}

impl<'a, R: Wait, D: Disk> Inside<D> for Visit<'a, R> {
    ghost use Rattle.thread_tests.specs.Visits.{MayVisit};

    type Out = bool;

    ghost ready = { λ v s. MayVisit v.more.pos v.key.vol v.room s };

    ghost drives = { λ v opened fit closed. Unit {0} };

    fn drive(self, watch: &mut Option<Watch<'_, D>>) -> bool {
        let Visit {
            rt,
            more,
            key,
            room,
        } = self;
        match watch {
            Some(watch) => drive(rt, watch, more, &key, room),
            None => unreachable!(),
        }
    }
}

/// Publishes the image, asks until all are noted, and reads the row until all are applied.
fn drive<R: Wait, D: Disk>(
    rt: &R,
    watch: &mut Watch<'_, D>,
    more: Stamped,
    key: &RecKey,
    mut part: Vec<Stamped>,
) -> bool
    requires open { watch.old.lent ≡ false }
    requires ready { MayVisit more.pos key.now.vol part watch.old }
    ensures open { watch.new.lent ≡ false }
    ensures same { watch.new.key ≡ watch.old.key }
{
    match watch.reserve(rt, 1) {
        Ok(room) => {
            part.push_reserved(more);
            watch.publish(room, part, 5);
        }
        Err(_) => return false,
    }
    ask_until(rt, watch) && read_all(rt, watch, key)
}

/// Asks until all images of volume 0 are noted as applied, and goes on from there. Whether no position fell.
fn ask_until<R: Wait, D: Disk>(rt: &R, watch: &mut Watch<'_, D>) -> bool
    requires open { watch.old.lent ≡ false }
    requires visited { IsVisited watch.old }
    ensures open { watch.new.lent ≡ false }
    ensures same { watch.new.key ≡ watch.old.key }
    ensures visited { IsVisited watch.new }
{
    let mut last = watch.point(0);
    for _ in rt.forever() {
        watch.ask(rt);
        let noted = watch.noted(0);
        if noted < last {
            return false;
        }
        if noted == 5 {
            watch.accept();
            return watch.point(0) == 5;
        }
        last = noted;
    }
    unreachable!()
}

/// Reads the row of volume 0 until all its images are applied. Whether each value was that of its position, and no position
/// fell.
fn read_all<R: Wait, D: Disk>(rt: &R, watch: &mut Watch<'_, D>, key: &RecKey) -> bool
    requires open { watch.old.lent ≡ false }
    requires key { key.now.vol ≡ 0 }
    requires visited { IsVisited watch.old }
    ensures open { watch.new.lent ≡ false }
    ensures same { watch.new.key ≡ watch.old.key }
{
    let mut last = 0;
    for _ in rt.forever() {
        let (value, point) = match read_once(rt, watch, key) {
            Some(row) => row,
            None => return false,
        };
        if point < last || !fits(point, value) {
            return false;
        }
        if point == 5 {
            return true;
        }
        last = point;
    }
    unreachable!()
}

/// The row of volume 0, and the position that it has.
fn read_once<R: Wait, D: Disk>(
    rt: &R,
    watch: &mut Watch<'_, D>,
    key: &RecKey,
) -> Option<(Option<Value>, Pos)>
    requires open { watch.old.lent ≡ false }
    requires key { key.now.vol ≡ 0 }
    requires visited { IsVisited watch.old }
    ensures open { watch.new.lent ≡ false }
    ensures same { watch.new.key ≡ watch.old.key }
    ensures visited { IsVisited watch.new }
{
    match watch.read(rt, 0, key) {
        Ok(value) => Some((value, watch.point(0))),
        Err(_) => None,
    }
}

/// Whether the row has this value behind the images of volume 0 below the position, which are at 0, 2 and 4.
fn fits(point: Pos, value: Option<Value>) -> bool {
    match point {
        0 => value.is_none(),
        1 | 2 => is_value(value, b"1"),
        3 | 4 => is_value(value, b"2"),
        _ => is_value(value, b"4"),
    }
}

fn is_value(found: Option<Value>, value: &[u8]) -> bool {
    match found {
        Some(found) => found.bytes() == value,
        None => false,
    }
}

/// Volumes 0 and 1 without rows. The disk of volume 1 stops after so many calls, or not at all.
fn two(alloc: Global, fuse: Option<u32>) -> Result<Vec<Placed<MemDisk>>, Fail>
    ensures { IfOk result (λ volumes. AreTwo ⟦<MemDisk as Disk>⟧.tells ⟦<MemDisk as Disk>⟧.files volumes.items) }
{
    let mut volumes = Vec::new(alloc);
    volumes.push(Placed {
        vol: VolNo(0),
        volume: formatted(alloc, None)?,
    })?;
    volumes.push(Placed {
        vol: VolNo(1),
        volume: formatted(alloc, fuse)?,
    })?;
    Ok(volumes)
}

/// A session of both, in which three images are published of volume 0 and one of volume 1. All reads in it fit.
fn session_of_both<R: Threads + Wait + Abort + Sync, D: Disk + Drop + Send, G: Gate + Sync>(
    rt: &R,
    alloc: Global,
    gate: &G,
    volumes: Vec<Placed<D>>,
) -> Result<Vec<Left<D>>, Fail>
    requires { AreTwo D.tells D.files volumes.items }
{
    let part = images(alloc)?;
    let file = FileName::read(alloc, b"f")?;
    let key = Key::read(alloc, b"k")?;
    let vol = VolNo(0);
    let inside = Visit {
        rt,
        more: image(alloc, 4, vol, b"4")?,
        key: RecKey { vol, file, key },
        room: Vec::with_capacity(alloc, 1)?,
    };
    match in_session(rt, alloc, gate, volumes, 0, part, 4, inside) {
        Ok((left, fit)) => {
            assert!(rt; fit);
            Ok(left)
        }
        Err(_) => Err(Fail::new("no memory")),
    }
}

/// Whether volume 0 has come to the end, and volume 1 has that answer and that restart point.
fn have_ended(mut left: Vec<Left<MemDisk>>, answer: Result<(), VolFault>, point: Pos) -> bool {
    let second = match left.pop() {
        Some(second) => second,
        None => return false,
    };
    let first = match left.pop() {
        Some(first) => first,
        None => return false,
    };
    left.is_empty() && has_ended(&first, Ok(()), 5) && has_ended(&second, answer, point)
}

fn has_ended(left: &Left<MemDisk>, answer: Result<(), VolFault>, point: Pos) -> bool {
    left.answer == answer && left.volume.restart_point() == point
}

fn meet<R: Threads + Wait + Abort + Sync>(rt: &R, alloc: Global) -> Result<(), Fail> {
    let gate = Meeting::new();
    let left = session_of_both(rt, alloc, &gate, two(alloc, None)?)?;
    assert!(rt; gate.was_held());
    assert!(rt; have_ended(left, Ok(()), 5));
    Ok(())
}

/// A disk that stops is told of its volume alone, and the other volume comes to the end.
fn stop<R: Threads + Wait + Abort + Sync>(rt: &R, alloc: Global) -> Result<(), Fail> {
    let left = session_of_both(rt, alloc, &NoGate, two(alloc, Some(0))?)?;
    assert!(rt; have_ended(left, Err(VolFault::Stopped), 0));
    Ok(())
}

#[test]
fn updaters_of_a_session_meet(rt: HostRuntime) -> Result<(), Fail> {
    meet(&rt, rt.alloc())
}

#[test]
fn session_with_a_stopped_disk(rt: HostRuntime) -> Result<(), Fail> {
    stop(&rt, rt.alloc())
}
