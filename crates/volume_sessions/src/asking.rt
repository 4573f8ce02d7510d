//! What the updaters have noted of their volumes.
ghost use Rattle.std.specs.Prelude.{◌≡◌, ◌⊎◌, ◌<◌, ◌≤◌, All, map, slice_get, Some, IfSome, MatchOption};
ghost use Rattle.std.specs.List.{AllZip};
ghost use Rattle.rdf_types.specs.Entries.{Rises};
ghost use Rattle.updaters.specs.Rising.{IsAheadOf, IsNotedAt};
ghost use Rattle.updaters.specs.Turns.{IsLater};
ghost use Rattle.volume_sessions.specs.Shown.{placed_by};
ghost use Rattle.volume_sessions.specs.Watching.{IsPlaceOf, IsFirst, IsAsked, StandsAs, point_in, accepted};

use crate::watch::{Place, seat_at};
use image_board::Board;
use rdf_disk::Disk;
use rdf_types::records::{Pos, VolNo};
use seated_lock::{Pass, SeatedLock};
use std::snapshot::Snapshot;
use updaters::{SeenVolume, VolumeNote, VolumeSeat};

/// Asks for the volume of each place what is noted on the board, which is out in a turn of the pass that was seen.
pub(crate) fn ask_all<D: Disk>(
    lock: &SeatedLock<Board<VolumeNote<D>>>,
    board: &mut Board<VolumeNote<D>>,
    seats: &[SeatedLock<VolumeSeat<D>>],
    seen: &Snapshot<Pass>,
    places: &mut Vec<Place<D>>,
)
    requires board { StandsAs seen.now.value.story board.old × Rises lock.now.first.start seen.now.value.story.entries seen.now.value.story.number }
    requires notes { AllZip IsFirst seats.now board.old.firsts }
    requires places { AllZip (IsPlaceOf D.tells D.files D.counts lock.now.id seen.now.value) seats.now places.old.items }
    ensures board { board.new ≡ record board.old { notes = board.new.notes } }
    ensures places { AllZip (IsPlaceOf D.tells D.files D.counts lock.now.id seen.now.value) seats.now places.new.items }
    ensures same { map placed_by places.new.items ≡ map placed_by places.old.items }
    ensures asked { All (IsAsked D.tells D.files D.counts seen.now.value.story) places.new.items }
{
    for at in 0..places.len() {
        let seat = seat_at(seats, at);
        ask_place(lock, board, seat, at, seen, &mut places[at]);
    }
}

/// Asks for the volume of a place. What is noted counts where it is beyond what was last seen, and the pass has seen as far:
/// then no turn on the volume tells an earlier position.
fn ask_place<D: Disk>(
    lock: &SeatedLock<Board<VolumeNote<D>>>,
    board: &mut Board<VolumeNote<D>>,
    seat: &SeatedLock<VolumeSeat<D>>,
    at: usize,
    seen: &Snapshot<Pass>,
    place: &mut Place<D>,
)
    requires board { StandsAs seen.now.value.story board.old × Rises lock.now.first.start seen.now.value.story.entries seen.now.value.story.number }
    requires noted { IsNotedAt board.old.firsts at seat.now.first.vol seat.now.first.volume }
    requires place { IsPlaceOf D.tells D.files D.counts lock.now.id seen.now.value seat.now place.old }
    ensures board { board.new ≡ record board.old { notes = board.new.notes } }
    ensures place { IsPlaceOf D.tells D.files D.counts lock.now.id seen.now.value seat.now place.new }
    ensures same { placed_by place.new ≡ placed_by place.old }
    ensures asked { IsAsked D.tells D.files D.counts seen.now.value.story place.new }
{
    let found = take_note(board, place.vol, at);
    let reached = reach(seat, &mut place.own);
    let noted = place.noted.take();
    place.noted = furthest(place.point, reached, found, noted);
}

/// Takes away what is noted of the volume at its place.
fn take_note<D: Disk>(
    board: &mut Board<VolumeNote<D>>,
    vol: VolNo,
    at: usize,
) -> Option<SeenVolume<D>>
    requires { IfSome (slice_get board.old.firsts at) (λ first. vol ≡ first.vol) }
    ensures same { board.new ≡ record board.old { notes = board.new.notes } }
    ensures taken { IfSome result (λ seen. IfSome (slice_get board.old.firsts at) (λ first.
        (first.seen ≡ Some seen) ⊎ IsAheadOf D.tells D.files D.counts first board.old.items board.old.end seen)) }
{
    let places = board.notes().len();
    if at < places {
        let VolumeNote { vol: _, seen } = board.replace_note(at, VolumeNote { vol, seen: None });
        return seen;
    }
    None
}

/// How far a pass, which is not away, has then seen its volume come. It waits for nobody.
fn reach<D: Disk>(seat: &SeatedLock<VolumeSeat<D>>, own: &mut Option<Pass>) -> Pos
    requires { MatchOption own.old ⊥ (λ was. was.lock ≡ seat.now.id) }
    ensures { MatchOption own.old ⊥ (λ was. MatchOption own.new ⊥ (λ now. IsLater was now × (result ≡ now.story.number))) }
{
    match own {
        Some(own) => seat.number(own),
        None => unreachable!(),
    }
}

/// What was found, or else what was noted before, where it is beyond the point and within what was reached.
fn furthest<D: Disk>(
    point: Pos,
    reached: Pos,
    found: Option<SeenVolume<D>>,
    noted: Option<SeenVolume<D>>,
) -> Option<SeenVolume<D>>
    ensures { IfSome result (λ seen. ((found ≡ Some seen) ⊎ (noted ≡ Some seen)) × (point < seen.point) × (seen.point ≤ reached)) }
{
    match between(point, reached, found) {
        Some(seen) => Some(seen),
        None => between(point, reached, noted),
    }
}

/// What was seen, where it is beyond the one position and within the other.
fn between<D: Disk>(point: Pos, reached: Pos, seen: Option<SeenVolume<D>>) -> Option<SeenVolume<D>>
    ensures { IfSome result (λ it. (seen ≡ Some it) × (point < it.point) × (it.point ≤ reached)) }
{
    let seen = match seen {
        Some(seen) => seen,
        None => return None,
    };
    if point < seen.point && seen.point <= reached {
        return Some(seen);
    }
    None
}

/// The position of the volume as it was last asked for.
pub(crate) fn noted_point<D: Disk>(place: &Place<D>) -> Pos
    ensures { result ≡ point_in place.now.noted place.now.point }
{
    match &place.noted {
        Some(noted) => noted.point,
        None => place.point,
    }
}

/// Each volume as it was last asked for is as it is last seen.
pub(crate) fn accept_all<D: Disk>(places: &mut Vec<Place<D>>)
    ensures { places.new.items ≡ map accepted places.old.items }
{
    for at in 0..places.len() {
        accept(&mut places[at]);
    }
}

fn accept<D: Disk>(place: &mut Place<D>)
    ensures { place.new ≡ accepted place.old }
{
    match place.noted.take() {
        Some(noted) => {
            let SeenVolume { volume, point } = noted;
            place.last = volume;
            place.point = point;
        }
        None => {}
    }
}
