//! Looks at the board.
ghost use Rattle.std.specs.Prelude.{◌≡◌, ◌≤◌, IfOk, IfSome};
ghost use Rattle.rdf_types.specs.Entries.{Rises};
ghost use Rattle.seated_lock.specs.Rules.{StandsFor};
ghost use Rattle.image_board.specs.Boards.{Shows};
ghost use Rattle.updaters.specs.Rising.{MayFollow};
ghost use Rattle.updaters.specs.Turns.{IsLater, LendsBoard, IsFound};

use crate::note::{SeenVolume, VolumeNote};
use image_board::{Board, Piece};
use rdf_disk::Disk;
use rdf_types::records::{Pos, VolNo};
use seated_lock::{Pass, SeatedLock, Turn};
use std::alloc::AllocError;
use std::sync::Wait;

/// How many images a turn applies at the most.
const MOST: u32 = 16;

/// What a look found.
#[derive(Drop)]
pub(crate) struct Looked {
    pub(crate) pass: Pass,
    pub(crate) piece: Result<Piece, AllocError>,
}

/// A turn on the board: what was seen of the volume is noted at its place, and the first images of the volume from the
/// position on are found.
pub(crate) fn look<R: Wait, D: Disk>(
    rt: &R,
    board: &SeatedLock<Board<VolumeNote<D>>>,
    pass: Pass,
    vol: VolNo,
    place: usize,
    seen: Option<SeenVolume<D>>,
    from: Pos,
) -> Looked
    requires board { LendsBoard board.now pass }
    requires from { (board.now.first.start ≤ from) × (from ≤ pass.story.number) }
    requires seen { IfSome seen (MayFollow D.tells D.files D.counts board.now.first.firsts place vol pass.story.entries pass.story.number) }
    ensures pass { IsLater pass result.pass }
    ensures rises { Rises board.now.first.start result.pass.story.entries result.pass.story.number }
    ensures found { IfOk result.piece (IsFound vol from result.pass.story) }
{
    let mut turn = board.take(rt, pass);
    let value = turn.value();
    leave(value, vol, place, seen);
    let piece = value.next_for(vol, from, MOST);
    let pass = give_back(board, turn);
    Looked { pass, piece }
}

/// Notes what was seen of the volume at its place.
fn leave<D: Disk>(
    board: &mut Board<VolumeNote<D>>,
    vol: VolNo,
    place: usize,
    seen: Option<SeenVolume<D>>,
)
    requires { IfSome seen (MayFollow D.tells D.files D.counts board.old.firsts place vol board.old.items board.old.end) }
    ensures { board.new ≡ record board.old { notes = board.new.notes } }
{
    let places = board.notes().len();
    let seen = match seen {
        Some(seen) => seen,
        None => return,
    };
    if place < places {
        let seen = Some(seen);
        let VolumeNote { vol: _, seen: _ } = board.replace_note(place, VolumeNote { vol, seen });
    }
}

/// Ends a turn in which nothing was published.
fn give_back<D: Disk>(
    board: &SeatedLock<Board<VolumeNote<D>>>,
    turn: Turn<Board<VolumeNote<D>>>,
) -> Pass
    requires lock { turn.hold.lock ≡ board.now.id }
    requires value { StandsFor Shows (λ b. b.end) board.now.first turn.hold.story turn.value }
    ensures { result ≡ turn.hold }
{
    board.give(turn)
}
