//! Updaters, and what the calling thread does beside them, as workers.
ghost use Rattle.std.specs.Prelude.{◌≡◌, false};
ghost use Rattle.volume_sessions.specs.Workers.{MayUpdate, HasUpdated, HasDriven};

use crate::inside::Inside;
use crate::watch::{Over, Watch, finish};
use image_board::Board;
use rdf_disk::Disk;
use rdf_ports::Gate;
use rdf_types::records::VolNo;
use seated_lock::{Pass, SeatedLock};
use std::alloc::Global;
use std::sync::Wait;
use updater_pool::Worker;
use updaters::{LoopEnd, VolumeNote, VolumeSeat, updater_loop};

/// An updater that is to run.
#[derive(Drop)]
pub(crate) struct Updating<'a, R: Wait, D: Disk, G: Gate> {
    pub(crate) rt: &'a R,
    pub(crate) alloc: Global,
    pub(crate) board: &'a SeatedLock<Board<VolumeNote<D>>>,
    pub(crate) seat: &'a SeatedLock<VolumeSeat<D>>,
    pub(crate) board_pass: Pass,
    pub(crate) vol_pass: Pass,
    pub(crate) vol: VolNo,
    pub(crate) place: usize,
    pub(crate) gate: &'a G,
}

impl<'a, R: Wait, D: Disk, G: Gate> Worker for Updating<'a, R, D, G> {
    type Out = LoopEnd;

    ghost ready = { λ w. MayUpdate w.board.now w.seat.now w.vol w.place w.board_pass w.vol_pass };

    ghost works = { λ w end. HasUpdated w.board.now.id w.seat.now end };

    fn work(self) -> LoopEnd {
        let Updating {
            rt,
            alloc,
            board,
            seat,
            board_pass,
            vol_pass,
            vol,
            place,
            gate,
        } = self;
        updater_loop(
            rt, alloc, board, seat, board_pass, vol_pass, vol, place, gate,
        )
    }
}

/// What the calling thread does beside the updaters.
#[derive(Drop)]
pub(crate) struct Main<'s, R: Wait, D: Disk, I: Inside<D>> {
    pub(crate) rt: &'s R,
    pub(crate) watch: Watch<'s, D>,
    pub(crate) inside: I,
}

/// What came of it: the board is finished.
pub(crate) struct Driven<D: Disk, I: Inside<D>> {
    pub(crate) over: Over<D>,
    pub(crate) out: I::Out,
}

impl<'s, R: Wait, D: Disk, I: Inside<D> + Drop> Worker for Main<'s, R, D, I> {
    type Out = Driven<D, I>;

    ghost ready = { λ m. (m.watch.lent ≡ false) × I.ready m.inside m.watch };

    ghost works = { λ m d. HasDriven D.tells D.files D.counts (I.drives m.inside) m.watch d.out d.over.pass d.over.places.items };

    fn work(self) -> Driven<D, I> {
        let Main { rt, watch, inside } = self;
        let mut lent = Some(watch);
        let out = inside.drive(&mut lent);
        let watch = match lent {
            Some(watch) => watch,
            None => unreachable!(),
        };
        let over = finish(rt, watch);
        Driven { over, out }
    }
}
