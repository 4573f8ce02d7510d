//! Reads of a volume beside its updater.
ghost use Rattle.std.specs.Prelude.{◌≡◌, true, None, IfOk};
ghost use Rattle.rdf_types.specs.Entries.{Rises};
ghost use Rattle.rdf_volume.specs.Views.{rows_of, restart_of};
ghost use Rattle.updaters.specs.Seats.{row_at};
ghost use Rattle.updaters.specs.Turns.{LendsBoard, ComesToSeat, IsLater, IsFit, HasSeen, IsShown};

use crate::note::VolumeNote;
use crate::seat::VolumeSeat;
use crate::turns::has_failed;
use image_board::{Board, Remembered};
use rdf_disk::Disk;
use rdf_types::names::Value;
use rdf_types::records::{Pos, RecKey};
use rdf_volume::{VolFault, Volume};
use seated_lock::{Pass, SeatedLock, Turn};
use std::mem::replace;
use std::sync::Wait;

/// What a turn of a reader found, with the passes that it took, and the volume as the turn left it, with its restart point.
#[derive(Drop)]
pub struct RowRead<D: Disk> {
    pub board_pass: Pass,
    pub vol_pass: Pass,
    pub value: Result<Option<Value>, VolFault>,
    pub volume: Remembered<Volume<D>>,
    pub point: Pos,
}

/// A turn on the volume that reads a row, by a pass that does not write and the pass that writes the board. The value is the
/// row as the images make it that `vol_pass` has then seen: all those of the volume up to the number of its story. An `Err`
/// is the fault that the seat keeps, or one that this turn met, which it keeps from then on.
pub fn read_row<R: Wait, D: Disk>(
    rt: &R,
    board: &SeatedLock<Board<VolumeNote<D>>>,
    seat: &SeatedLock<VolumeSeat<D>>,
    board_pass: Pass,
    vol_pass: Pass,
    key: &RecKey,
) -> RowRead<D>
    requires board { LendsBoard board.now board_pass }
    requires writer { board_pass.writes ≡ true }
    requires rises { Rises board.now.first.start board_pass.story.entries board_pass.story.number }
    requires seat { ComesToSeat board.now seat.now key.now.vol vol_pass }
    ensures board { result.board_pass ≡ board_pass }
    ensures seat { IsLater vol_pass result.vol_pass }
    ensures seen { IfOk result.value (λ value. HasSeen seat.now.first board_pass.story result.vol_pass.story) }
    ensures volume { IfOk result.value (λ value. IsShown D.tells D.files D.counts seat.now.first result.vol_pass.story result.volume.value) }
    ensures point { result.point ≡ restart_of result.volume.value }
    ensures value { D.tells → IfOk result.value (λ value. value ≡ row_at (rows_of seat.now.first.volume) result.vol_pass.story.entries key.now) }
{
    let mut turn = seat.take(rt, vol_pass);
    match has_failed(&mut turn) {
        Some(fault) => {
            let (volume, point) = volume_in(&mut turn);
            let vol_pass = seat.give(turn);
            RowRead {
                board_pass,
                vol_pass,
                value: Err(fault),
                volume,
                point,
            }
        }
        None => read_in(board, seat, board_pass, turn, key),
    }
}

/// The turn on a volume that has not failed.
fn read_in<D: Disk>(
    board: &SeatedLock<Board<VolumeNote<D>>>,
    seat: &SeatedLock<VolumeSeat<D>>,
    mut board_pass: Pass,
    mut turn: Turn<VolumeSeat<D>>,
    key: &RecKey,
) -> RowRead<D>
    requires board { LendsBoard board.now board_pass }
    requires writer { board_pass.writes ≡ true }
    requires rises { Rises board.now.first.start board_pass.story.entries board_pass.story.number }
    requires seat { ComesToSeat board.now seat.now key.now.vol turn.hold }
    requires stands { IsFit D.tells D.files D.counts seat.now.first turn.hold.story turn.value }
    ensures board { result.board_pass ≡ board_pass }
    ensures seat { result.vol_pass ≡ turn.hold }
    ensures seen { HasSeen seat.now.first board_pass.story turn.hold.story }
    ensures volume { IfOk result.value (λ value. IsShown D.tells D.files D.counts seat.now.first turn.hold.story result.volume.value) }
    ensures point { result.point ≡ restart_of result.volume.value }
    ensures value { D.tells → IfOk result.value (λ value. value ≡ row_at (rows_of seat.now.first.volume) turn.hold.story.entries key.now) }
{
    let place = turn.value();
    let value = place.look_up(&key.file, &key.key);
    let volume = Remembered::of(&place.volume);
    let point = place.volume.restart_point();
    let new = board.split(&mut board_pass);
    let old = replace(&mut place.board, new);
    let board_pass = board.join(board_pass, old);
    let vol_pass = seat.give(turn);
    RowRead {
        board_pass,
        vol_pass,
        value,
        volume,
        point,
    }
}

/// The volume as it stands in a turn, and its restart point.
fn volume_in<D: Disk>(turn: &mut Turn<VolumeSeat<D>>) -> (Remembered<Volume<D>>, Pos)
    ensures same { turn.new ≡ turn.old }
    ensures point { result.1 ≡ restart_of result.0.value }
{
    let volume = &turn.value().volume;
    (Remembered::of(volume), volume.restart_point())
}
