//! The seat of a volume: what lies in its lock while a session is open.
ghost use Rattle.std.specs.Prelude.{◌≡◌, ◌≤◌, ◌<◌, length, [], None, IfOk};
ghost use Rattle.std.specs.FinMap as map;
ghost use Rattle.std.specs.List.{AllByRecursion};
ghost use Rattle.rdf_disk.specs.Counts.{Causes};
ghost use Rattle.rdf_gatelog.specs.LogCauses.{ending};
ghost use Rattle.rdf_volume.specs.Views.{rows_of, restart_of, disk_of, InUse};
ghost use Rattle.updaters.specs.Turns.{Advances, done_of};

use crate::batch::step;
use rdf_disk::Disk;
use rdf_types::names::{FileName, Key, Value};
use rdf_types::records::{Pos, Stamped, VolNo};
use rdf_volume::{VolFault, Volume};
use seated_lock::{Marked, Pass, Told};
use std::alloc::Global;

/// A protected volume in its lock, with the fault that was met on it, the counts of its disk as the session began, and a
/// pass of the session's board that has seen what was applied to it. It stands for its story: the images that were applied
/// since it was first shared, up to its restart point.
#[derive(Drop)]
pub struct VolumeSeat<D: Disk> {
    pub vol: VolNo,
    pub volume: Volume<D>,
    /// The first fault. Once it is set the volume is used no more.
    pub failed: Option<VolFault>,
    pub stops_before: u64,
    pub faults_before: u64,
    pub board: Pass,
}

impl<D: Disk> Told for VolumeSeat<D> {
    ghost use Rattle.rdf_volume.specs.Views.{restart_of};
    ghost use Rattle.updaters.specs.Seats.{Sits};

    ghost stands = { Sits D.tells D.files D.counts };

    ghost reach = { λ s. restart_of s.volume };

    ghost mark = { ⟦<VolumeSeat<D> as Marked>⟧.mark };

    ghost exact = { ⟦<VolumeSeat<D> as Marked>⟧.exact };

    fn number(&self) -> u64 {
        self.volume.restart_point()
    }
}

impl<D: Disk> VolumeSeat<D> {
    /// Applies a few images, and keeps the fault if it fails.
    pub(crate) fn advance(
        &mut self,
        alloc: Global,
        images: &[Stamped],
        upto: Pos,
    ) -> Result<(), VolFault>
        requires fit { self.old.failed ≡ None }
        requires few { length images.now ≤ 16 }
        requires between { AllByRecursion (λ s. (restart_of self.old.volume ≤ s.pos) × (s.pos < upto)) images.now }
        requires in_use { D.tells → InUse D.files self.old.volume }
        ensures same { self.new ≡ record self.old { volume = self.new.volume; failed = self.new.failed } }
        ensures advances { Advances D.tells D.files images.now upto result self.old self.new }
        ensures cause { Causes (ending result) (D.counts (disk_of self.old.volume)) (D.counts (disk_of self.new.volume)) }
    {
        match step(alloc, &mut self.volume, images, upto) {
            Ok(()) => Ok(()),
            Err(fault) => {
                self.failed = Some(fault);
                Err(fault)
            }
        }
    }

    /// The value at the file and key, and the fault is kept if it fails.
    pub(crate) fn look_up(&mut self, file: &FileName, key: &Key) -> Result<Option<Value>, VolFault>
        requires fit { self.old.failed ≡ None }
        requires in_use { D.tells → InUse D.files self.old.volume }
        ensures same { self.new ≡ record self.old { volume = self.new.volume; failed = self.new.failed } }
        ensures point { restart_of self.new.volume ≡ restart_of self.old.volume }
        ensures found { D.tells → IfOk result (λ value. value ≡ map.get (rows_of self.old.volume) (file.now, key.now)) }
        ensures advances { Advances D.tells D.files [] (restart_of self.old.volume) (done_of result) self.old self.new }
        ensures cause { Causes (ending (done_of result)) (D.counts (disk_of self.old.volume)) (D.counts (disk_of self.new.volume)) }
    {
        match self.volume.get(file, key) {
            Ok(value) => Ok(value),
            Err(fault) => {
                self.failed = Some(fault);
                Err(fault)
            }
        }
    }
}
