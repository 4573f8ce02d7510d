//! Sessions.
ghost use Rattle.std.specs.Prelude.{◌≡◌, ◌+◌, ◌*◌, ◌<◌, ◌≤◌, [], map, length, All, Some, IfSome, IfOk, IfErr, vec_capacity};
ghost use Rattle.std.specs.List.{AllZip};
ghost use Rattle.rdf_types.specs.Entries.{Rises};
ghost use Rattle.rdf_volume.specs.Views.{InUse};
ghost use Rattle.volume_sessions.specs.Shown.{Shown, shown_by, placed_by};
ghost use Rattle.volume_sessions.specs.Rising.{MayEnter, IsAsGiven};
ghost use Rattle.volume_sessions.specs.Watching.{IsPlaceOf, IsFirst};
ghost use Rattle.volume_sessions.specs.Workers.{MayUpdate, HasUpdated, HasDriven};
ghost use Rattle.volume_sessions.specs.Opening.{IsOpening, MayStart, IsOpenedBoard, IsPutAs, put_in};
ghost use Rattle.volume_sessions.specs.Leaving.{IsOpened, HasRun};

use crate::closing::close_all;
use crate::inside::Inside;
use crate::opening::{Opened, Start, close_back, open_all, space};
use crate::placed::{Left, NotBegun, Placed};
use crate::watch::{Over, Place, Watch, give_shown};
use crate::workers::{Driven, Main, Updating};
use image_board::{Board, Remembered};
use rdf_disk::Disk;
use rdf_ports::Gate;
use rdf_types::records::{Pos, Stamped};
use seated_lock::{Pass, SeatedLock};
use std::alloc::{AllocError, Global};
use std::snapshot::Snapshot;
use std::sync::Wait;
use std::thread::Threads;
use updater_pool::run_in;
use updaters::{LoopEnd, SeenVolume, VolumeNote, VolumeSeat};

/// A session of these volumes: a lock and an updater for each, and `inside` on this thread beside them, with these entries
/// published up to a position. When `inside` is done nothing more is published; the updaters apply what there is and end,
/// and each volume comes back, in order, with what came of it.
pub fn in_session<
    R: Threads + Wait + Sync,
    D: Disk + Drop + Send,
    G: Gate + Sync,
    I: Inside<D> + Drop,
>(
    rt: &R,
    alloc: Global,
    gate: &G,
    volumes: Vec<Placed<D>>,
    start: Pos,
    part: Vec<Stamped>,
    end: Pos,
    inside: I,
) -> Result<(Vec<Left<D>>, I::Out), NotBegun<D, I>>
    requires few { length volumes.items ≤ 16 }
    requires rises { Rises start part.items end }
    requires enter { All (MayEnter start end) volumes.items }
    requires in_use { D.tells → All (λ p. InUse D.files p.volume) volumes.items }
    requires ready { (s : Shown D) → IsOpened volumes.items start part.items end s → I.ready inside s }
    ensures ran { IfOk result (λ r. HasRun D.tells D.files D.counts (I.drives inside) volumes.items start part.items end r.1 r.0.items) }
    ensures unbegun { IfErr result (λ n. (n.inside ≡ inside) × AllZip (IsAsGiven D.tells D.files D.counts) volumes.items n.volumes.items) }
{
    let lists = match space(alloc, volumes) {
        Ok(lists) => lists,
        Err(volumes) => return Err(NotBegun { volumes, inside }),
    };
    let seats = 3 * lists.given.len() as u32 + 2;
    let (board, mut pass) = match open_board(rt, alloc, &lists.given, start, part, end, seats) {
        Some(opened) => opened,
        None => {
            let volumes = lists.given;
            return Err(NotBegun { volumes, inside });
        }
    };
    match open_all(rt, alloc, &board, &mut pass, lists) {
        Ok(lists) => run_opened(rt, alloc, gate, &board, pass, lists, inside),
        Err(volumes) => Err(NotBegun { volumes, inside }),
    }
}

/// The board, with a note of each volume and with these entries published, and the pass that writes it.
fn open_board<R: Wait, D: Disk + Drop>(
    rt: &R,
    alloc: Global,
    volumes: &[Placed<D>],
    start: Pos,
    part: Vec<Stamped>,
    end: Pos,
    seats: u32,
) -> Option<(SeatedLock<Board<VolumeNote<D>>>, Pass)>
    requires seats { 0 < seats }
    requires rises { Rises start part.items end }
    ensures { IfSome result (λ r. IsOpenedBoard volumes.now start part.items end seats r.0 r.1) }
{
    let more = u32::try_from(part.len()).ok()?;
    let room = Vec::with_capacity(alloc, volumes.len()).ok()?;
    let notes = notes_of(volumes, room);
    let empty = Board::start(alloc, Vec::new(alloc), start, start, notes);
    let (board, pass) = match SeatedLock::make(alloc, empty, seats) {
        Ok(made) => made,
        Err(_) => return None,
    };
    let mut turn = board.take(rt, pass);
    let value = turn.value();
    let pass = match value.reserve(more) {
        Ok(()) => {
            value.publish(part, end);
            give_shown(&board, turn)
        }
        Err(_) => {
            give_shown(&board, turn);
            return None;
        }
    };
    Some((board, pass))
}

/// A note of each volume as it is.
fn notes_of<D: Disk>(volumes: &[Placed<D>], room: Vec<VolumeNote<D>>) -> Vec<VolumeNote<D>>
    requires room { (room.items ≡ []) × (length volumes.now ≤ vec_capacity room) }
    ensures notes { AllZip IsPutAs volumes.now result.items }
    ensures room { (vec_capacity result ≡ vec_capacity room) × (length result.items ≡ length volumes.now) }
{
    let (placed, rest) = match volumes.split_last() {
        Some(parts) => parts,
        None => return room,
    };
    let mut all = notes_of(rest, room);
    all.push_reserved(note_of(placed));
    all
}

/// A note of the volume as it is.
fn note_of<D: Disk>(placed: &Placed<D>) -> VolumeNote<D>
    ensures { IsPutAs placed.now result }
{
    let seen = SeenVolume {
        volume: Remembered::of(&placed.volume),
        point: placed.volume.restart_point(),
    };
    VolumeNote {
        vol: placed.vol,
        seen: Some(seen),
    }
}

/// Memory for what the updaters end with, and for the volumes that come back.
fn answers_for<D: Disk + Drop>(
    alloc: Global,
    many: usize,
) -> Result<(Vec<LoopEnd>, Vec<Left<D>>), AllocError>
    ensures empty { IfOk result (λ r. (r.0.items ≡ []) × (r.1.items ≡ [])) }
    ensures room { IfOk result (λ r. (many ≤ vec_capacity r.0) × (many ≤ vec_capacity r.1)) }
{
    Ok((
        Vec::with_capacity(alloc, many)?,
        Vec::with_capacity(alloc, many)?,
    ))
}

/// The session, once its locks are open.
fn run_opened<R: Threads + Wait + Sync, D: Disk + Drop + Send, G: Gate + Sync, I: Inside<D> + Drop>(
    rt: &R,
    alloc: Global,
    gate: &G,
    board: &SeatedLock<Board<VolumeNote<D>>>,
    pass: Pass,
    lists: Opened<D>,
    inside: I,
) -> Result<(Vec<Left<D>>, I::Out), NotBegun<D, I>>
    requires opening { IsOpening board.now pass × (1 < pass.seats) }
    requires places { AllZip (IsPlaceOf D.tells D.files D.counts board.now.id pass) lists.seats.items lists.places.items }
    requires starts { AllZip (MayStart board.now) lists.seats.items lists.starts.items }
    requires notes { AllZip IsFirst lists.seats.items board.now.first.firsts }
    requires back { (lists.given.items ≡ []) × (length lists.seats.items ≤ vec_capacity lists.given) }
    requires ready { I.ready inside (shown_by board.now lists.seats.items (Some pass) pass lists.places.items) }
    ensures ran { IfOk result (λ r. HasRun D.tells D.files D.counts (I.drives inside)
        (map placed_by lists.places.items) board.now.first.start pass.story.entries pass.story.number r.1 r.0.items) }
    ensures unbegun { IfErr result (λ n. (n.inside ≡ inside)
        × AllZip (λ seat back. IsAsGiven D.tells D.files D.counts (put_in seat) back) lists.seats.items n.volumes.items) }
{
    let many = lists.seats.len();
    let (ends, left) = match answers_for(alloc, many) {
        Ok(made) => made,
        Err(_) => {
            let volumes = close_back(rt, lists);
            return Err(NotBegun { volumes, inside });
        }
    };
    let updaters = match Vec::with_capacity(alloc, many) {
        Ok(made) => made,
        Err(_) => {
            let volumes = close_back(rt, lists);
            return Err(NotBegun { volumes, inside });
        }
    };
    let Opened {
        given: _,
        seats,
        places,
        starts,
    } = lists;
    let (ends, driven) = drive_beside(
        rt, alloc, gate, board, &seats, starts, places, pass, inside, updaters, ends,
    );
    let Driven { over, out } = driven;
    let Over { pass, places } = over;
    Ok((close_all(board, pass, seats, places, ends, left), out))
}

/// Runs the updaters, and what the calling thread does beside them.
fn drive_beside<
    'a,
    R: Threads + Wait + Sync,
    D: Disk + Drop + Send,
    G: Gate + Sync,
    I: Inside<D> + Drop,
>(
    rt: &'a R,
    alloc: Global,
    gate: &'a G,
    board: &'a SeatedLock<Board<VolumeNote<D>>>,
    seats: &'a [SeatedLock<VolumeSeat<D>>],
    starts: Vec<Start>,
    places: Vec<Place<D>>,
    pass: Pass,
    inside: I,
    room: Vec<Updating<'a, R, D, G>>,
    ends: Vec<LoopEnd>,
) -> (Vec<LoopEnd>, Driven<D, I>)
    requires opening { IsOpening board.now pass × (1 < pass.seats) }
    requires places { AllZip (IsPlaceOf D.tells D.files D.counts board.now.id pass) seats.now places.items }
    requires starts { AllZip (MayStart board.now) seats.now starts.items }
    requires notes { AllZip IsFirst seats.now board.now.first.firsts }
    requires ready { I.ready inside (shown_by board.now seats.now (Some pass) pass places.items) }
    requires room { (room.items ≡ []) × (length seats.now ≤ vec_capacity room) }
    requires ends { (ends.items ≡ []) × (length seats.now ≤ vec_capacity ends) }
    ensures ends { AllZip (HasUpdated board.now.id) seats.now result.0.items }
    ensures driven { HasDriven D.tells D.files D.counts (I.drives inside)
        (shown_by board.now seats.now (Some pass) pass places.items) result.1.out result.1.over.pass result.1.over.places.items }
{
    let updaters = updaters_of(rt, alloc, gate, board, seats, starts, room);
    let watch = Watch {
        board,
        seats,
        seen: Snapshot::of(&pass),
        pass: Some(pass),
        places,
    };
    run_in(rt, updaters, Main { rt, watch, inside }, ends)
}

/// The updaters, each with what it starts with.
fn updaters_of<'a, R: Wait, D: Disk, G: Gate>(
    rt: &'a R,
    alloc: Global,
    gate: &'a G,
    board: &'a SeatedLock<Board<VolumeNote<D>>>,
    seats: &'a [SeatedLock<VolumeSeat<D>>],
    mut starts: Vec<Start>,
    room: Vec<Updating<'a, R, D, G>>,
) -> Vec<Updating<'a, R, D, G>>
    requires starts { AllZip (MayStart board.now) seats.now starts.items }
    requires room { (room.items ≡ []) × (length seats.now ≤ vec_capacity room) }
    ensures made { AllZip (λ seat w. (w.seat.now ≡ seat) × (w.board.now.id ≡ board.now.id)) seats.now result.items }
    ensures ready { All (λ w. MayUpdate w.board.now w.seat.now w.vol w.place w.board_pass w.vol_pass) result.items }
    ensures room { (vec_capacity result ≡ vec_capacity room.entry) × (length result.items ≡ length seats.now) }
{
    let (seat, rest) = match seats.split_last() {
        Some(parts) => parts,
        None => return room,
    };
    let start = match starts.pop() {
        Some(start) => start,
        None => unreachable!(),
    };
    let Start {
        vol,
        place,
        board_pass,
        vol_pass,
    } = start;
    let mut all = updaters_of(rt, alloc, gate, board, rest, starts, room);
    all.push_reserved(Updating {
        rt,
        alloc,
        board,
        seat,
        board_pass,
        vol_pass,
        vol,
        place,
        gate,
    });
    all
}
