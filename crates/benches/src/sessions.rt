//! The work of an updater.
ghost use Rattle.std.specs.Prelude.{◌≡◌, ◌<◌, [], length, true, false, IfOk};
ghost use Rattle.rdf_types.specs.Entries.{Rises};
ghost use Rattle.seated_lock.specs.Stories.{untold};
ghost use Rattle.seated_lock.specs.Passes.{makers_pass};
ghost use Rattle.rdf_volume.specs.Views.{restart_of, InUse};
ghost use Rattle.updaters.specs.Rising.{IsNoteOf};

use crate::boards::entries;
use image_board::{Board, Remembered};
use rdf_disk::{Disk, MemDisk};
use rdf_ports::NoGate;
use rdf_types::records::{Stamped, VolNo};
use rdf_volume::Volume;
use seated_lock::{Pass, SeatedLock, Turn};
use std::alloc::Global;
use std::io;
use std::sync::Wait;
use std::time::{Clock, Instant};
use updaters::{SeenVolume, UpdaterEnd, VolumeNote, VolumeSeat, updater_loop};

type BenchBoard = Board<VolumeNote<MemDisk>>;

/// Publishes the entries, and that nothing more comes.
fn fill(board: &mut BenchBoard, part: Vec<Stamped>, count: u32)
    requires empty { (board.old.start ≡ 0) × (board.old.items ≡ []) × (board.old.end ≡ 0) × (board.old.finished ≡ false) }
    requires part { Rises 0 part.items count × (length part.items ≡ count) }
    ensures { (board.new.start ≡ 0) × (board.new.firsts ≡ board.old.firsts) × Rises 0 board.new.items board.new.end }
{
    if board.reserve(count).is_ok() {
        board.publish(part, u64::from(count));
    }
    board.finish();
}

/// Ends the turn.
fn give_filled<D: Disk>(board: &SeatedLock<Board<VolumeNote<D>>>, turn: Turn<Board<VolumeNote<D>>>)
    requires lock { turn.hold.lock ≡ board.now.id }
    requires empty { (board.now.first.start ≡ 0) × (board.now.first.items ≡ []) × (turn.hold.story ≡ untold 0) }
    requires value { (turn.value.start ≡ 0) × (turn.value.firsts ≡ board.now.first.firsts) × Rises 0 turn.value.items turn.value.end }
    requires writes { turn.hold.writes ≡ true }
{
    board.give(turn);
}

/// A volume without rows.
fn formatted(alloc: Global) -> io::Result<Volume<MemDisk>>
    ensures { IfOk result (λ volume. (restart_of volume ≡ 0) × InUse ⟦<MemDisk as Disk>⟧.files volume) }
{
    match Volume::format(alloc, MemDisk::blank(alloc, Vec::new(alloc))) {
        Ok(volume) => Ok(volume),
        Err(_) => Err(io::ErrorKind::OutOfMemory)?,
    }
}

/// A note of volume 0 as it is.
fn noted(volume: &Volume<MemDisk>) -> VolumeNote<MemDisk>
    ensures { IsNoteOf 0 volume.now result }
{
    let seen = SeenVolume {
        volume: Remembered::of(volume),
        point: volume.restart_point(),
    };
    VolumeNote {
        vol: VolNo(0),
        seen: Some(seen),
    }
}

/// Volume 0 in its lock.
fn seated(
    alloc: Global,
    volume: Volume<MemDisk>,
    board: Pass,
) -> io::Result<(SeatedLock<VolumeSeat<MemDisk>>, Pass)>
    requires volume { (restart_of volume ≡ 0) × InUse ⟦<MemDisk as Disk>⟧.files volume }
    requires board { (board.seats ≡ 1) × (board.writes ≡ false) × (board.story ≡ untold 0) }
    ensures seat { IfOk result (λ made. (made.0.first.vol ≡ 0) × (made.0.first.board.lock ≡ board.lock) × (made.0.first.volume ≡ volume)) }
    ensures pass { IfOk result (λ made. made.1 ≡ makers_pass made.0.id 0 1) }
{
    let (stops_before, faults_before) = (volume.stops(), volume.faults());
    let seat = VolumeSeat {
        vol: VolNo(0),
        volume,
        failed: None,
        stops_before,
        faults_before,
        board,
    };
    match SeatedLock::make(alloc, seat, 1) {
        Ok(made) => Ok(made),
        Err(_) => Err(io::ErrorKind::OutOfMemory)?,
    }
}

/// The nanoseconds that each entry of a board costs an updater of one of four volumes, from the first to the last.
pub(crate) fn session<R: Wait + Clock>(rt: &R, alloc: Global, count: u32) -> io::Result<u128>
    requires { 0 < count }
{
    let part = entries(alloc, u64::from(count))?;
    let volume = formatted(alloc)?;
    let mut notes = Vec::new(alloc);
    notes.push(noted(&volume))?;
    let empty = Board::start(alloc, Vec::new(alloc), 0, 0, notes);
    let Ok((board, mut pass)) = SeatedLock::make(alloc, empty, 4) else {
        return Err(io::ErrorKind::OutOfMemory)?;
    };
    let (seat, updater) = seated(alloc, volume, board.split(&mut pass))?;
    let one = board.split(&mut pass);
    let other = board.split(&mut pass);
    let lent = board.join(one, other);
    let mut turn = board.take(rt, pass);
    fill(turn.value(), part, count);
    give_filled(&board, turn);
    let start = Instant::now(rt)?;
    let ended = updater_loop(
        rt,
        alloc,
        &board,
        &seat,
        lent,
        updater,
        VolNo(0),
        0,
        &NoGate,
    );
    let elapsed = start.elapsed(rt)?;
    if ended.end != UpdaterEnd::Drained {
        return Err(io::Error::other("the updater met a fault"));
    }
    Ok(elapsed.as_nanos() / u128::from(count))
}
