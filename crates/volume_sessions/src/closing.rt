//! The end of a session: the locks are closed, and the volumes come out of them.
ghost use Rattle.std.specs.Prelude.{◌≡◌, ◌≤◌, [], length, map, true, vec_capacity};
ghost use Rattle.std.specs.List.{AllZip};
ghost use Rattle.rdf_types.specs.Entries.{Rises};
ghost use Rattle.volume_sessions.specs.Shown.{placed_by};
ghost use Rattle.volume_sessions.specs.Watching.{IsPlaceOf};
ghost use Rattle.volume_sessions.specs.Workers.{HasUpdated};
ghost use Rattle.volume_sessions.specs.Leaving.{HasLeft, answer_of};

use crate::placed::Left;
use crate::watch::{Place, own_of};
use image_board::Board;
use rdf_disk::Disk;
use rdf_volume::VolFault;
use rdf_volume::laws::in_use_stands;
use seated_lock::{Pass, SeatedLock};
use updaters::{LoopEnd, UpdaterEnd, VolumeNote, VolumeSeat};

/// Closes each lock, once the updaters have ended. The pass is that which has finished the board.
pub(crate) fn close_all<D: Disk + Drop>(
    board: &SeatedLock<Board<VolumeNote<D>>>,
    pass: Pass,
    mut seats: Vec<SeatedLock<VolumeSeat<D>>>,
    mut places: Vec<Place<D>>,
    mut ends: Vec<LoopEnd>,
    room: Vec<Left<D>>,
) -> Vec<Left<D>>
    requires pass { (pass.lock ≡ board.now.id) × (pass.writes ≡ true) }
    requires rises { Rises board.now.first.start pass.story.entries pass.story.number }
    requires places { AllZip (IsPlaceOf D.tells D.files D.counts board.now.id pass) seats.items places.items }
    requires ends { AllZip (HasUpdated board.now.id) seats.items ends.items }
    requires room { (room.items ≡ []) × (length seats.items ≤ vec_capacity room) }
    ensures left { AllZip (HasLeft D.tells D.files D.counts pass.story.entries pass.story.number) (map placed_by places.items) result.items }
    ensures room { (vec_capacity result ≡ vec_capacity room) × (length result.items ≡ length seats.items) }
{
    let seat = match seats.pop() {
        Some(seat) => seat,
        None => return room,
    };
    let place = match places.pop() {
        Some(place) => place,
        None => unreachable!(),
    };
    let end = match ends.pop() {
        Some(end) => end,
        None => unreachable!(),
    };
    let (pass, left) = close_one(board, pass, seat, place, end);
    let mut all = close_all(board, pass, seats, places, ends, room);
    all.push_reserved(left);
    all
}

/// Closes a lock, once its updater has ended. The pass comes back.
fn close_one<D: Disk + Drop>(
    board: &SeatedLock<Board<VolumeNote<D>>>,
    pass: Pass,
    seat: SeatedLock<VolumeSeat<D>>,
    place: Place<D>,
    ended: LoopEnd,
) -> (Pass, Left<D>)
    requires pass { (pass.lock ≡ board.now.id) × (pass.writes ≡ true) }
    requires rises { Rises board.now.first.start pass.story.entries pass.story.number }
    requires place { IsPlaceOf D.tells D.files D.counts board.now.id pass seat place }
    requires ended { HasUpdated board.now.id seat ended }
    ensures pass { (result.0.lock ≡ pass.lock) × (result.0.writes ≡ true) × (result.0.story ≡ pass.story) }
    ensures left { HasLeft D.tells D.files D.counts pass.story.entries pass.story.number (placed_by place) result.1 }
{
    in_use_stands::<D>();
    let LoopEnd {
        end,
        board_pass,
        vol_pass,
    } = ended;
    let own = own_of(place);
    let pass = board.join(pass, board_pass);
    let vol_pass = seat.join(vol_pass, own);
    let VolumeSeat {
        vol: _,
        volume,
        failed,
        stops_before: _,
        faults_before: _,
        board: seen,
    } = seat.close(vol_pass);
    let pass = board.join(pass, seen);
    let answer = answer_of(failed, end);
    (pass, Left { volume, answer })
}

/// The answer of a volume: the fault that its seat keeps. Where it keeps none and its updater has not applied all, that
/// found no memory for a look at the board.
fn answer_of(failed: Option<VolFault>, end: UpdaterEnd) -> Result<(), VolFault>
    ensures { result ≡ answer_of failed end }
{
    match failed {
        Some(fault) => Err(fault),
        None => match end {
            UpdaterEnd::Drained => Ok(()),
            UpdaterEnd::Stopped
            | UpdaterEnd::Failed
            | UpdaterEnd::NoMemory
            | UpdaterEnd::Damaged { file: _, at: _ } => Err(VolFault::NoMemory),
        },
    }
}
