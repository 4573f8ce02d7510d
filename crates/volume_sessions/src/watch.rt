//! What the calling thread holds of an open session.
ghost use Rattle.std.specs.Prelude.{◌≡◌, ◌≢◌, ◌≤◌, ◌<◌, ◌++◌, Some, None, true, false, length, slice_get, slice_index_or, IfSome, IfOk, IfErr};
ghost use Rattle.rdf_types.specs.Entries.{Rises};
ghost use Rattle.rdf_volume.specs.Views.{restart_of};
ghost use Rattle.seated_lock.specs.Stories.{Grows};
ghost use Rattle.seated_lock.specs.Rules.{StandsFor as Stands};
ghost use Rattle.seated_lock.specs.Passes.{with_story};
ghost use Rattle.image_board.specs.Boards.{Shows};
ghost use Rattle.volume_sessions.specs.Shown.{HasRoom, with_lent, with_back, with_published, noted_by, shown};
ghost use Rattle.updaters.specs.Turns.{LendsBoard};
ghost use Rattle.volume_sessions.specs.Rising.{HasRead, IsPlaced, SeesRow, AreRisen};
ghost use Rattle.volume_sessions.specs.Watching.{IsPlaceOf, IsOver, with_seen};

use crate::asking::{accept_all, ask_all, noted_point};
use image_board::{Board, Remembered};
use rdf_disk::Disk;
use rdf_types::names::Value;
use rdf_types::records::{Pos, RecKey, Stamped, VolNo};
use rdf_volume::{VolFault, Volume};
use seated_lock::{Pass, SeatedLock, Turn};
use std::alloc::AllocError;
use std::marker::Model;
use std::mem::replace;
use std::snapshot::Snapshot;
use std::sync::Wait;
use updaters::{RowRead, SeenVolume, VolumeNote, VolumeSeat, read_row};

/// A volume of a session as the calling thread knows it: its pass of the volume's lock, the volume as it last saw it, and as
/// it last asked for it.
#[derive(Drop)]
pub(crate) struct Place<D: Disk> {
    pub(crate) vol: VolNo,
    /// It is away while a turn is taken.
    pub(crate) own: Option<Pass>,
    pub(crate) last: Remembered<Volume<D>>,
    /// The restart point that it then had.
    pub(crate) point: Pos,
    /// As it last asked for it; nothing where that is as it last saw it.
    pub(crate) noted: Option<SeenVolume<D>>,
}

/// The calling thread's pass of a volume, which is not away.
pub(crate) fn own_of<D: Disk + Drop>(place: Place<D>) -> Pass
    requires { place.own ≢ None }
    ensures { place.own ≡ Some result }
{
    let Place {
        vol: _,
        own,
        last: _,
        point: _,
        noted: _,
    } = place;
    match own {
        Some(own) => own,
        None => unreachable!(),
    }
}

/// What the calling thread holds of the volumes of an open session: it publishes entries and reads rows. Contracts see it
/// as what that thread knows of the session.
#[derive(Drop)]
pub struct Watch<'s, D: Disk> {
    pub(crate) board: &'s SeatedLock<Board<VolumeNote<D>>>,
    pub(crate) seats: &'s [SeatedLock<VolumeSeat<D>>],
    /// The pass that writes the board; it is away while a room is out.
    pub(crate) pass: Option<Pass>,
    /// That pass as it last came back.
    pub(crate) seen: Snapshot<Pass>,
    pub(crate) places: Vec<Place<D>>,
}

impl<'s, D: Disk> Model for Watch<'s, D> {
    ghost use Rattle.std.specs.Coded.{codes, coded×, coded_list, coded_ℕ};
    ghost use Rattle.std.specs.FinMap as map;
    ghost use Rattle.rdf_types.specs.Places.{row_cmp};
    ghost use Rattle.volume_sessions.specs.Shown.{Shown, shown_by};
    ghost use Rattle.volume_sessions.specs.Watching.{IsWatching};

    ghost Value = { Shown D };

    ghost coded = { Prim.hlevel (codes, map.code {R = row_cmp} (coded× (coded_list coded_ℕ) (coded_list coded_ℕ)) (coded_list coded_ℕ)) };

    ghost view = { λ w. shown_by w.board.now w.seats.now w.pass w.seen.value w.places.items };

    ghost invariant = { λ w. IsWatching D.tells D.files D.counts w.board.now w.seats.now w.pass w.seen.value w.places.items };
}

/// A turn on the board in which room for so many entries was made. No updater sees the board until it is used or given
/// back, which it must be.
pub struct Room<D: Disk> {
    pub(crate) turn: Turn<Board<VolumeNote<D>>>,
    pub(crate) more: u32,
}

impl<'s, D: Disk> Watch<'s, D> {
    /// Takes a turn on the board and makes room for so many entries more. An `Err` leaves all as it is.
    pub fn reserve<R: Wait>(&mut self, rt: &R, more: u32) -> Result<Room<D>, AllocError>
        requires open { self.old.lent ≡ false }
        ensures ok { IfOk result (λ room. HasRoom self.old room × (room.more ≡ more) × (self.new ≡ with_lent self.old)) }
        ensures refused { IfErr result (λ _. self.new ≡ self.old) }
    {
        let pass = match self.pass.take() {
            Some(pass) => pass,
            None => unreachable!(),
        };
        let mut turn = self.board.take(rt, pass);
        match turn.value().reserve(more) {
            Ok(()) => Ok(Room { turn, more }),
            Err(refused) => {
                let pass = give_shown(self.board, turn);
                self.seen = Snapshot::of(&pass);
                self.pass = Some(pass);
                Err(refused)
            }
        }
    }

    /// Publishes entries in the room that was made, up to a position, and wakes the updaters that wait for more.
    pub fn publish(&mut self, room: Room<D>, part: Vec<Stamped>, end: Pos)
        requires lent { self.old.lent ≡ true }
        requires room { HasRoom self.old room }
        requires few { length part.items ≤ room.more }
        requires rises { Rises self.old.end part.items end }
        ensures { self.new ≡ with_published self.old part.items end }
    {
        let Room { mut turn, more: _ } = room;
        turn.value().publish(part, end);
        let pass = give_shown(self.board, turn);
        self.board.announce();
        self.seen = Snapshot::of(&pass);
        self.pass = Some(pass);
    }

    /// Gives the room back. Nothing was published.
    pub fn give_back(&mut self, room: Room<D>)
        requires lent { self.old.lent ≡ true }
        requires room { HasRoom self.old room }
        ensures { self.new ≡ with_back self.old }
    {
        let Room { turn, more: _ } = room;
        let pass = give_shown(self.board, turn);
        self.seen = Snapshot::of(&pass);
        self.pass = Some(pass);
    }

    /// A row as its volume shows it in a turn of this thread, which then is what is known of the volume. An `Err` is the fault
    /// that the volume keeps, or one that this turn met, which it keeps from then on; nothing more is then known of it.
    pub fn read<R: Wait>(
        &mut self,
        rt: &R,
        place: usize,
        key: &RecKey,
    ) -> Result<Option<Value>, VolFault>
        requires open { self.old.lent ≡ false }
        requires there { IsPlaced key.now.vol place self.old }
        ensures ok { IfOk result (λ value. HasRead D.tells D.files D.counts place key.now value self.old self.new) }
        ensures err { IfErr result (λ _. self.new ≡ self.old) }
    {
        let pass = match self.pass.take() {
            Some(pass) => pass,
            None => unreachable!(),
        };
        let seat = seat_at(self.seats, place);
        let (pass, value) = read_place(rt, self.board, seat, pass, &mut self.places[place], key);
        self.pass = Some(pass);
        value
    }

    /// Asks on the board, in one turn, how far each updater has noted that its volume has come. No more is shown than before.
    pub fn ask<R: Wait>(&mut self, rt: &R)
        requires open { self.old.lent ≡ false }
        ensures same { self.new ≡ record self.old { noted = self.new.noted } }
        ensures noted { AreRisen D.tells D.files D.counts self.old.entries self.old.end self.old.volumes self.new.noted }
    {
        let pass = match self.pass.take() {
            Some(pass) => pass,
            None => unreachable!(),
        };
        let mut turn = self.board.take(rt, pass);
        ask_all(
            self.board,
            turn.value(),
            self.seats,
            &self.seen,
            &mut self.places,
        );
        let pass = give_shown(self.board, turn);
        self.seen = Snapshot::of(&pass);
        self.pass = Some(pass);
    }

    /// The position that was noted of the volume at the place.
    pub fn noted(&self, place: usize) -> Pos
        requires there { place < length self.now.noted }
        ensures { IfSome (slice_get self.now.noted place) (λ was. result ≡ restart_of was.volume) }
    {
        noted_point(&self.places[place])
    }

    /// What was noted is what is known of the volumes from now on.
    pub fn accept(&mut self)
        requires open { self.old.lent ≡ false }
        requires risen { AreRisen D.tells D.files D.counts self.old.entries self.old.end self.old.volumes self.old.noted }
        ensures { self.new ≡ record self.old { volumes = self.old.noted } }
    {
        accept_all(&mut self.places);
    }

    /// The position up to which the volume's images were applied when it was last seen. It looks at no lock.
    pub fn point(&self, place: usize) -> Pos
        requires there { place < length self.now.volumes }
        ensures { IfSome (slice_get self.now.volumes place) (λ was. result ≡ restart_of was.volume) }
    {
        self.places[place].point
    }
}

/// What is left of a watch once the board is finished.
#[derive(Drop)]
pub(crate) struct Over<D: Disk> {
    pub(crate) pass: Pass,
    pub(crate) places: Vec<Place<D>>,
}

/// Says on the board that nothing more comes, and wakes the updaters that wait for more.
pub(crate) fn finish<R: Wait, D: Disk>(rt: &R, watch: Watch<'_, D>) -> Over<D>
    requires open { watch.lent ≡ false }
    ensures { IsOver D.tells D.files D.counts watch.entry result.pass result.places.items }
{
    let Watch {
        board,
        seats: _,
        pass,
        seen: _,
        places,
    } = watch;
    let pass = match pass {
        Some(pass) => pass,
        None => unreachable!(),
    };
    let mut turn = board.take(rt, pass);
    turn.value().finish();
    let pass = give_shown(board, turn);
    board.announce();
    Over { pass, places }
}

/// Ends a turn of the writer on the board, which then stands for what is on it.
pub(crate) fn give_shown<D: Disk>(
    board: &SeatedLock<Board<VolumeNote<D>>>,
    turn: Turn<Board<VolumeNote<D>>>,
) -> Pass
    requires lock { turn.hold.lock ≡ board.now.id }
    requires value { Stands Shows (λ b. b.end) board.now.first (shown turn.value) turn.value }
    requires grows { Grows turn.hold.writes turn.hold.story (shown turn.value) }
    ensures { result ≡ with_story turn.hold (shown turn.value) }
{
    board.give(turn)
}

/// A turn of the calling thread on the volume of a place.
fn read_place<R: Wait, D: Disk>(
    rt: &R,
    board: &SeatedLock<Board<VolumeNote<D>>>,
    seat: &SeatedLock<VolumeSeat<D>>,
    pass: Pass,
    place: &mut Place<D>,
    key: &RecKey,
) -> (Pass, Result<Option<Value>, VolFault>)
    requires board { LendsBoard board.now pass × (pass.writes ≡ true) }
    requires rises { Rises board.now.first.start pass.story.entries pass.story.number }
    requires place { IsPlaceOf D.tells D.files D.counts board.now.id pass seat.now place.old }
    requires vol { place.old.vol ≡ key.now.vol }
    ensures pass { result.0 ≡ pass }
    ensures place { IsPlaceOf D.tells D.files D.counts board.now.id pass seat.now place.new × (place.new.vol ≡ place.old.vol) }
    ensures ok { IfOk result.1 (SeesRow D.tells D.files D.counts pass.story key.now place.old.last.value place.new.last.value) }
    ensures noted { noted_by place.new ≡ noted_by place.old }
    ensures err { IfErr result.1 (λ _. place.new.last ≡ place.old.last) }
{
    let own = match place.own.take() {
        Some(own) => own,
        None => unreachable!(),
    };
    let RowRead {
        board_pass,
        vol_pass,
        value,
        volume,
        point,
    } = read_row(rt, board, seat, pass, own, key);
    place.own = Some(vol_pass);
    match value {
        Ok(value) => {
            see(place, volume, point);
            (board_pass, Ok(value))
        }
        Err(fault) => (board_pass, Err(fault)),
    }
}

/// The volume of a place was seen anew. What was last asked for stays.
fn see<D: Disk>(place: &mut Place<D>, volume: Remembered<Volume<D>>, point: Pos)
    ensures { place.new ≡ with_seen place.old volume point }
{
    match place.noted.take() {
        Some(noted) => {
            place.last = volume;
            place.point = point;
            place.noted = Some(noted);
        }
        None => {
            let volume = replace(&mut place.last, volume);
            let point = replace(&mut place.point, point);
            place.noted = Some(SeenVolume { volume, point });
        }
    }
}

/// The lock of a place.
pub(crate) fn seat_at<D: Disk>(
    seats: &[SeatedLock<VolumeSeat<D>>],
    place: usize,
) -> &SeatedLock<VolumeSeat<D>>
    requires { place < length seats.now }
    ensures { result.now ≡ slice_index_or seats.now place result.now }
{
    &seats[place]
}
