//! Turns of an updater on the seat of its volume.
ghost use Rattle.std.specs.Prelude.{◌≡◌, Some, None, IfSome};
ghost use Rattle.rdf_types.specs.Entries.{Rises};
ghost use Rattle.updaters.specs.Rising.{IsAhead, IsSeen};
ghost use Rattle.updaters.specs.Turns.{IsLater, LendsBoard, ComesToSeat, Writes, StaysWriter, IsGiven, IsFit, Added, fault_of};

use crate::note::{SeenVolume, VolumeNote};
use crate::seat::VolumeSeat;
use image_board::{Board, Remembered};
use rdf_disk::Disk;
use rdf_types::records::{Pos, Stamped, VolNo};
use rdf_volume::{VolFault, Volume};
use seated_lock::{Pass, SeatedLock, Turn};
use std::alloc::Global;
use std::mem::replace;
use std::sync::Wait;

/// What a turn left, with the volume where it met no fault.
#[derive(Drop)]
pub(crate) struct Turned<D: Disk> {
    pub(crate) board_pass: Pass,
    pub(crate) vol_pass: Pass,
    pub(crate) seen: Option<SeenVolume<D>>,
    pub(crate) fault: Option<VolFault>,
}

/// A turn on the volume that applies a few images. It puts a split of the board's pass into the seat, and joins the seat's old one into its own.
pub(crate) fn apply<R: Wait, D: Disk>(
    rt: &R,
    alloc: Global,
    board: &SeatedLock<Board<VolumeNote<D>>>,
    seat: &SeatedLock<VolumeSeat<D>>,
    mut board_pass: Pass,
    vol_pass: Pass,
    vol: VolNo,
    images: &[Stamped],
    upto: Pos,
) -> Turned<D>
    requires board { LendsBoard board.now board_pass }
    requires rises { Rises board.now.first.start board_pass.story.entries board_pass.story.number }
    requires seat { ComesToSeat board.now seat.now vol vol_pass }
    requires writer { Writes vol_pass }
    requires given { IsGiven vol board_pass.story vol_pass.story images.now upto }
    ensures board { IsLater board_pass result.board_pass }
    ensures seat { StaysWriter vol_pass result.vol_pass }
    ensures adds { Added result.fault vol_pass.story images.now upto result.vol_pass.story }
    ensures seen { IfSome result.seen
        (IsAhead D.tells D.files D.counts vol seat.now.first.volume result.board_pass.story.entries result.board_pass.story.number) }
{
    let mut turn = seat.take(rt, vol_pass);
    match has_failed(&mut turn) {
        Some(fault) => {
            let vol_pass = seat.give(turn);
            Turned {
                board_pass,
                vol_pass,
                seen: None,
                fault: Some(fault),
            }
        }
        None => advance(alloc, board, seat, board_pass, turn, vol, images, upto),
    }
}

/// The fault that the seat keeps.
pub(crate) fn has_failed<D: Disk>(turn: &mut Turn<VolumeSeat<D>>) -> Option<VolFault>
    ensures same { turn.new ≡ turn.old }
    ensures fault { result ≡ turn.old.value.failed }
{
    turn.value().failed
}

/// The fault of an answer.
fn fault_in(done: Result<(), VolFault>) -> Option<VolFault>
    ensures { result ≡ fault_of done }
{
    match done {
        Ok(()) => None,
        Err(fault) => Some(fault),
    }
}

/// The volume as a call with this answer left it, if that met no fault.
fn seen_in<D: Disk>(volume: &Volume<D>, done: Result<(), VolFault>) -> Option<SeenVolume<D>>
    ensures { IfSome result (λ seen. (fault_of done ≡ None) × IsSeen volume.now seen) }
{
    match done {
        Ok(()) => Some(SeenVolume {
            volume: Remembered::of(volume),
            point: volume.restart_point(),
        }),
        Err(_) => None,
    }
}

/// The turn on a volume that has not failed.
fn advance<D: Disk>(
    alloc: Global,
    board: &SeatedLock<Board<VolumeNote<D>>>,
    seat: &SeatedLock<VolumeSeat<D>>,
    mut board_pass: Pass,
    mut turn: Turn<VolumeSeat<D>>,
    vol: VolNo,
    images: &[Stamped],
    upto: Pos,
) -> Turned<D>
    requires board { LendsBoard board.now board_pass }
    requires rises { Rises board.now.first.start board_pass.story.entries board_pass.story.number }
    requires seat { ComesToSeat board.now seat.now vol turn.hold × Writes turn.hold }
    requires stands { IsFit D.tells D.files D.counts seat.now.first turn.hold.story turn.value }
    requires given { IsGiven vol board_pass.story turn.hold.story images.now upto }
    ensures board { IsLater board_pass result.board_pass }
    ensures seat { StaysWriter turn.hold result.vol_pass }
    ensures adds { Added result.fault turn.hold.story images.now upto result.vol_pass.story }
    ensures seen { IfSome result.seen
        (IsAhead D.tells D.files D.counts vol seat.now.first.volume result.board_pass.story.entries result.board_pass.story.number) }
{
    let value = turn.value();
    let done = value.advance(alloc, images, upto);
    let seen = seen_in(&value.volume, done);
    let new = board.split(&mut board_pass);
    let old = replace(&mut value.board, new);
    let board_pass = board.join(board_pass, old);
    let vol_pass = seat.give(turn);
    Turned {
        board_pass,
        vol_pass,
        seen,
        fault: fault_in(done),
    }
}
