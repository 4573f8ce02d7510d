//! The opening of a session: each volume goes into a lock of its own.
ghost use Rattle.std.specs.Prelude.{◌≡◌, ◌+◌, ◌-◌, ◌*◌, ◌<◌, ◌≤◌, ◌++◌, [], ◌∷◌, true, All, length, vec_capacity, IfOk, IfErr};
ghost use Rattle.std.specs.List.{AllZip};
ghost use Rattle.rdf_volume.specs.Views.{InUse};
ghost use Rattle.seated_lock.specs.Passes.{with_seats, given_pass};
ghost use Rattle.updaters.specs.Rising.{IsNotedAt};
ghost use Rattle.volume_sessions.specs.Shown.{placed_by};
ghost use Rattle.volume_sessions.specs.Rising.{MayEnter, IsAsGiven};
ghost use Rattle.volume_sessions.specs.Watching.{IsPlaceOf};
ghost use Rattle.volume_sessions.specs.Opening.{IsOpening, AreNoted, MayStart, IsFresh, HasOwn, HasOpened, HasSpace, SameSpace, put_in};

use crate::placed::Placed;
use crate::watch::{Place, own_of};
use image_board::{Board, Remembered};
use rdf_disk::Disk;
use rdf_types::records::VolNo;
use seated_lock::{Pass, Refused, SeatedLock};
use std::alloc::{AllocError, Global};
use std::sync::Wait;
use updaters::{VolumeNote, VolumeSeat};

/// What the updater of a volume starts with.
#[derive(Drop)]
pub(crate) struct Start {
    pub(crate) vol: VolNo,
    /// Where its notes stand on the board.
    pub(crate) place: usize,
    pub(crate) board_pass: Pass,
    pub(crate) vol_pass: Pass,
}

/// Volumes that are still to be opened, and the locks that are open, in order: with each the place that the calling thread
/// has of it, and what its updater starts with.
#[derive(Drop)]
pub(crate) struct Opened<D: Disk> {
    pub(crate) given: Vec<Placed<D>>,
    pub(crate) seats: Vec<SeatedLock<VolumeSeat<D>>>,
    pub(crate) places: Vec<Place<D>>,
    pub(crate) starts: Vec<Start>,
}

/// The lock of one volume.
struct One<D: Disk> {
    seat: SeatedLock<VolumeSeat<D>>,
    place: Place<D>,
    start: Start,
}

/// Opens a lock for each volume. Where there is no memory the volumes come back as they were.
pub(crate) fn open_all<R: Wait, D: Disk + Drop>(
    rt: &R,
    alloc: Global,
    board: &SeatedLock<Board<VolumeNote<D>>>,
    pass: &mut Pass,
    mut lists: Opened<D>,
) -> Result<Opened<D>, Vec<Placed<D>>>
    requires pass { IsOpening board.now pass.old × (3 * length lists.given.items < pass.old.seats) }
    requires enter { All (MayEnter board.now.first.start pass.old.story.number) lists.given.items }
    requires in_use { D.tells → All (λ p. InUse D.files p.volume) lists.given.items }
    requires noted { AreNoted board.now.first.firsts lists.given.items }
    requires space { HasSpace (length lists.given.items) lists }
    ensures pass { IfOk result (λ _. pass.new ≡ with_seats pass.old (pass.old.seats - 3 * length lists.given.items)) }
    ensures opened { IfOk result (HasOpened D.tells D.files D.counts board.now pass.old lists.given.items) }
    ensures space { IfOk result (SameSpace lists) }
    ensures refused { IfErr result (λ back. AllZip (IsAsGiven D.tells D.files D.counts) lists.given.items back.items
        × (vec_capacity back ≡ vec_capacity lists.given)) }
{
    let placed = match lists.given.pop() {
        Some(placed) => placed,
        None => return Ok(lists),
    };
    let lists = match open_all(rt, alloc, board, pass, lists) {
        Ok(lists) => lists,
        Err(mut back) => {
            back.push_reserved(placed);
            return Err(back);
        }
    };
    let place = lists.seats.len();
    match open_one(alloc, board, pass, placed, place) {
        Ok(one) => Ok(with_one(lists, one)),
        Err(placed) => {
            let mut back = close_back(rt, lists);
            back.push_reserved(placed);
            Err(back)
        }
    }
}

/// Opens the lock of a volume.
fn open_one<D: Disk>(
    alloc: Global,
    board: &SeatedLock<Board<VolumeNote<D>>>,
    pass: &mut Pass,
    placed: Placed<D>,
    place: usize,
) -> Result<One<D>, Placed<D>>
    requires pass { IsOpening board.now pass.old × (3 < pass.old.seats) }
    requires enter { MayEnter board.now.first.start pass.old.story.number placed }
    requires in_use { D.tells → InUse D.files placed.volume }
    requires noted { IsNotedAt board.now.first.firsts place placed.vol placed.volume }
    ensures pass { IfOk result (λ _. pass.new ≡ with_seats pass.old (pass.old.seats - 3)) }
    ensures place { IfOk result (λ one. IsPlaceOf D.tells D.files D.counts board.now.id pass.old one.seat one.place) }
    ensures start { IfOk result (λ one. MayStart board.now one.seat one.start) }
    ensures placed { IfOk result (λ one. (put_in one.seat ≡ placed) × (placed_by one.place ≡ placed)) }
    ensures refused { IfErr result (λ back. back ≡ placed) }
{
    let Placed { vol, volume } = placed;
    let last = Remembered::of(&volume);
    let point = volume.restart_point();
    let (stops_before, faults_before) = (volume.stops(), volume.faults());
    let seat = VolumeSeat {
        vol,
        volume,
        failed: None,
        stops_before,
        faults_before,
        board: board.split(pass),
    };
    match SeatedLock::make(alloc, seat, 2) {
        Ok((seat, mut vol_pass)) => {
            let own = Some(seat.split(&mut vol_pass));
            let board_pass = lent(board, pass);
            Ok(One {
                seat,
                place: Place {
                    vol,
                    own,
                    last,
                    point,
                    noted: None,
                },
                start: Start {
                    vol,
                    place,
                    board_pass,
                    vol_pass,
                },
            })
        }
        Err(refused) => {
            let Refused { value } = refused;
            let VolumeSeat {
                vol,
                volume,
                failed: _,
                stops_before: _,
                faults_before: _,
                board: _,
            } = value;
            Err(Placed { vol, volume })
        }
    }
}

/// A pass of the board with two seats, for an updater: one to keep, and one to leave in its seat.
fn lent<D: Disk>(board: &SeatedLock<Board<VolumeNote<D>>>, pass: &mut Pass) -> Pass
    requires lock { pass.old.lock ≡ board.now.id }
    requires writes { pass.old.writes ≡ true }
    requires seats { 2 < pass.old.seats }
    ensures kept { pass.new ≡ with_seats pass.old (pass.old.seats - 2) }
    ensures given { (result.lock ≡ pass.old.lock) × (result.seats ≡ 2) × (pass.old.story.number ≤ result.story.number) }
{
    let one = board.split(pass);
    let other = board.split(pass);
    board.join(one, other)
}

/// Puts a lock behind those that are open.
fn with_one<D: Disk>(mut lists: Opened<D>, one: One<D>) -> Opened<D>
    requires seats { length lists.seats.items < vec_capacity lists.seats }
    requires places { length lists.places.items < vec_capacity lists.places }
    requires starts { length lists.starts.items < vec_capacity lists.starts }
    ensures seats { result.seats.items ≡ lists.seats.items ++ one.seat ∷ [] }
    ensures places { result.places.items ≡ lists.places.items ++ one.place ∷ [] }
    ensures starts { result.starts.items ≡ lists.starts.items ++ one.start ∷ [] }
    ensures given { result.given.items ≡ lists.given.items }
    ensures space { SameSpace lists result }
{
    let One { seat, place, start } = one;
    lists.seats.push_reserved(seat);
    lists.places.push_reserved(place);
    lists.starts.push_reserved(start);
    lists
}

/// Closes the locks again, on which nobody had a turn.
pub(crate) fn close_back<R: Wait, D: Disk + Drop>(rt: &R, mut lists: Opened<D>) -> Vec<Placed<D>>
    requires places { AllZip HasOwn lists.seats.items lists.places.items }
    requires starts { AllZip IsFresh lists.seats.items lists.starts.items }
    requires given { (lists.given.items ≡ []) × (length lists.seats.items ≤ vec_capacity lists.given) }
    ensures back { AllZip (λ seat back. IsAsGiven D.tells D.files D.counts (put_in seat) back) lists.seats.items result.items }
    ensures space { (vec_capacity result ≡ vec_capacity lists.given) × (length result.items ≡ length lists.seats.items) }
{
    let seat = match lists.seats.pop() {
        Some(seat) => seat,
        None => return lists.given,
    };
    let place = match lists.places.pop() {
        Some(place) => place,
        None => unreachable!(),
    };
    let start = match lists.starts.pop() {
        Some(start) => start,
        None => unreachable!(),
    };
    let mut back = close_back(rt, lists);
    back.push_reserved(undo_one(rt, seat, place, start));
    back
}

/// Closes a lock again on which nobody had a turn.
fn undo_one<R: Wait, D: Disk + Drop>(
    rt: &R,
    seat: SeatedLock<VolumeSeat<D>>,
    place: Place<D>,
    start: Start,
) -> Placed<D>
    requires place { HasOwn seat place }
    requires start { IsFresh seat start }
    ensures { IsAsGiven D.tells D.files D.counts (put_in seat) result }
{
    let own = own_of(place);
    let Start {
        vol: _,
        place: _,
        board_pass: _,
        vol_pass,
    } = start;
    let pass = seat.join(vol_pass, own);
    let VolumeSeat {
        vol,
        volume,
        failed,
        stops_before: _,
        faults_before: _,
        board: _,
    } = seat.close(pass);
    match failed {
        None => Placed { vol, volume },
        Some(_) => never(rt),
    }
}

/// Where nobody had a turn no fault was met. The lock's contract does not tell that of its value, so this call, which is
/// never made, only waits.
fn never<R: Wait, T>(rt: &R) -> T
    ensures { ⊥ }
{
    for _ in rt.forever() {}
    unreachable!()
}

/// Memory for so many locks.
pub(crate) fn space<D: Disk + Drop>(
    alloc: Global,
    given: Vec<Placed<D>>,
) -> Result<Opened<D>, Vec<Placed<D>>>
    ensures space { IfOk result (λ lists. (lists.given ≡ given) × HasSpace (length given.items) lists) }
    ensures refused { IfErr result (λ back. back ≡ given) }
{
    let many = given.len();
    match lists_for(alloc, many) {
        Ok((seats, places, starts)) => Ok(Opened {
            given,
            seats,
            places,
            starts,
        }),
        Err(_) => Err(given),
    }
}

/// Three lists with memory for so many each.
fn lists_for<D: Disk + Drop>(
    alloc: Global,
    many: usize,
) -> Result<(Vec<SeatedLock<VolumeSeat<D>>>, Vec<Place<D>>, Vec<Start>), AllocError>
    ensures empty { IfOk result (λ r. (r.0.items ≡ []) × (r.1.items ≡ []) × (r.2.items ≡ [])) }
    ensures room { IfOk result (λ r. (many ≤ vec_capacity r.0) × (many ≤ vec_capacity r.1) × (many ≤ vec_capacity r.2)) }
{
    Ok((
        Vec::with_capacity(alloc, many)?,
        Vec::with_capacity(alloc, many)?,
        Vec::with_capacity(alloc, many)?,
    ))
}
