//! The loop of an updater.
ghost use Rattle.std.specs.Prelude.{◌≡◌, ◌≤◌, true, Some, None, IfSome};
ghost use Rattle.rdf_types.specs.Entries.{Rises};
ghost use Rattle.updaters.specs.Rising.{IsAhead, IsNotedAt};
ghost use Rattle.updaters.specs.Turns.{IsLater, LendsBoard, ComesToSeat, Writes, IsDrained, HasApplied};

use crate::looks::{Looked, look};
use crate::note::{SeenVolume, VolumeNote};
use crate::seat::VolumeSeat;
use crate::turns::{Turned, apply};
use image_board::Board;
use rdf_disk::Disk;
use rdf_ports::Gate;
use rdf_types::records::{Pos, VolNo};
use rdf_volume::VolFault;
use seated_lock::{Pass, SeatedLock};
use std::alloc::Global;
use std::sync::Wait;

/// Why an updater ended: all was applied that the board, which is finished, has of its volume, or a fault was met.
#[derive(Clone, Copy, Debug, PartialEq, Eq)]
pub enum UpdaterEnd {
    Drained,
    Stopped,
    Failed,
    NoMemory,
    Damaged { file: u32, at: u64 },
}

/// How an updater ended, with its passes.
#[derive(Drop)]
pub struct LoopEnd {
    pub end: UpdaterEnd,
    pub board_pass: Pass,
    pub vol_pass: Pass,
}

/// Applies what is published of the volume's images, a few in a turn and in their order, until the board is finished and all
/// are applied, or a fault is met. The gate is told of each turn that applies images. What a turn has made of the volume is
/// noted at its place on the board in the next look there. The passes come back; the seat keeps a fault of the volume.
pub fn updater_loop<R: Wait, D: Disk, G: Gate>(
    rt: &R,
    alloc: Global,
    board: &SeatedLock<Board<VolumeNote<D>>>,
    seat: &SeatedLock<VolumeSeat<D>>,
    mut board_pass: Pass,
    mut vol_pass: Pass,
    vol: VolNo,
    place: usize,
    gate: &G,
) -> LoopEnd
    requires board { LendsBoard board.now board_pass }
    requires seat { ComesToSeat board.now seat.now vol vol_pass }
    requires writer { Writes vol_pass }
    requires from { (board.now.first.start ≤ vol_pass.story.number) × (vol_pass.story.number ≤ board_pass.story.number) }
    requires noted { IsNotedAt board.now.first.firsts place vol seat.now.first.volume }
    ensures board { IsLater board_pass result.board_pass }
    ensures applied { HasApplied vol result.board_pass.story vol_pass result.vol_pass }
    ensures drained { result.end ≡ UpdaterEnd.Drained → IsDrained result.board_pass.story result.vol_pass.story }
{
    let mut from = seat.number(&mut vol_pass);
    let mut seen = None;
    for _ in rt.forever() {
        let Round {
            board_pass: later_board,
            vol_pass: later_vol,
            from: reached,
            seen: left,
            end,
        } = take_round(
            rt, alloc, board, seat, board_pass, vol_pass, vol, place, from, seen, gate,
        );
        board_pass = later_board;
        vol_pass = later_vol;
        from = reached;
        seen = left;
        match end {
            None => {}
            Some(end) => {
                return LoopEnd {
                    end,
                    board_pass,
                    vol_pass,
                };
            }
        }
    }
    unreachable!()
}

/// What a round left: the passes, the number that the volume's story then has, what is to be noted of it, and the end, if it
/// was the last one.
#[derive(Drop)]
struct Round<D: Disk> {
    board_pass: Pass,
    vol_pass: Pass,
    from: Pos,
    seen: Option<SeenVolume<D>>,
    end: Option<UpdaterEnd>,
}

/// A look at the board, and a turn on the volume where something new stands there. Where nothing does and more may come, it
/// sleeps until something is announced.
fn take_round<R: Wait, D: Disk, G: Gate>(
    rt: &R,
    alloc: Global,
    board: &SeatedLock<Board<VolumeNote<D>>>,
    seat: &SeatedLock<VolumeSeat<D>>,
    board_pass: Pass,
    vol_pass: Pass,
    vol: VolNo,
    place: usize,
    from: Pos,
    seen: Option<SeenVolume<D>>,
    gate: &G,
) -> Round<D>
    requires board { LendsBoard board.now board_pass }
    requires seat { ComesToSeat board.now seat.now vol vol_pass }
    requires writer { Writes vol_pass }
    requires from { (board.now.first.start ≤ from) × (from ≤ board_pass.story.number) × (from ≡ vol_pass.story.number) }
    requires noted { IsNotedAt board.now.first.firsts place vol seat.now.first.volume }
    requires seen { IfSome seen (IsAhead D.tells D.files D.counts vol seat.now.first.volume board_pass.story.entries board_pass.story.number) }
    ensures board { IsLater board_pass result.board_pass }
    ensures rises { Rises board.now.first.start result.board_pass.story.entries result.board_pass.story.number }
    ensures applied { HasApplied vol result.board_pass.story vol_pass result.vol_pass }
    ensures from { result.end ≡ None → result.from ≡ result.vol_pass.story.number }
    ensures seen { IfSome result.seen
        (IsAhead D.tells D.files D.counts vol seat.now.first.volume result.board_pass.story.entries result.board_pass.story.number) }
    ensures drained { result.end ≡ Some UpdaterEnd.Drained → IsDrained result.board_pass.story result.vol_pass.story }
{
    let announced = board.announced();
    let Looked { pass, piece: found } = look(rt, board, board_pass, vol, place, seen, from);
    let piece = match found {
        Ok(piece) => piece,
        Err(_) => {
            return Round {
                board_pass: pass,
                vol_pass,
                from,
                seen: None,
                end: Some(UpdaterEnd::NoMemory),
            };
        }
    };
    if piece.upto == from {
        return Round {
            board_pass: pass,
            vol_pass,
            from,
            seen: None,
            end: drained_or_rested(rt, board, announced, piece.ended),
        };
    }
    if !piece.images.is_empty() {
        gate.before_apply(vol);
    }
    let Turned {
        board_pass,
        vol_pass,
        seen,
        fault,
    } = apply(
        rt,
        alloc,
        board,
        seat,
        pass,
        vol_pass,
        vol,
        &piece.images,
        piece.upto,
    );
    Round {
        board_pass,
        vol_pass,
        from: piece.upto,
        seen,
        end: end_in(fault),
    }
}

/// The end of an updater that has applied all that there is, where nothing more will come. Else it sleeps until something is
/// announced since the count.
fn drained_or_rested<R: Wait, D: Disk>(
    rt: &R,
    board: &SeatedLock<Board<VolumeNote<D>>>,
    announced: u64,
    ended: bool,
) -> Option<UpdaterEnd>
    ensures { result ≡ Some UpdaterEnd.Drained → ended ≡ true }
{
    if ended {
        return Some(UpdaterEnd::Drained);
    }
    board.rest(rt, announced);
    None
}

/// The end of an updater whose turn met the fault.
fn end_in(fault: Option<VolFault>) -> Option<UpdaterEnd>
    ensures none { result ≡ None → fault ≡ None }
    ensures undrained { result ≡ Some UpdaterEnd.Drained → ⊥ }
{
    match fault {
        None => None,
        Some(VolFault::Stopped) => Some(UpdaterEnd::Stopped),
        Some(VolFault::Failed) => Some(UpdaterEnd::Failed),
        Some(VolFault::NoMemory) => Some(UpdaterEnd::NoMemory),
        Some(VolFault::Damaged { file, at }) => Some(UpdaterEnd::Damaged { file, at }),
    }
}
