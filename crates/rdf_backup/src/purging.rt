//! The line `purge`.
ghost use Rattle.std.specs.Prelude.{◌≡◌, length, map, min, if◌then◌else◌};
ghost use Rattle.rdf_core.specs.Layouts.{least};
ghost use Rattle.rdf_volume.specs.Views.{restart_of};

use crate::backup::Backup;
use image_disks::one_value;
use node_faults::{NodeFault, at_disk};
use open_txns::laws::{legal_is_proper, low_of_notes};
use purger::{floor, purge};
use rdf_core::replies::{NoWhy, Reply};
use rdf_disk::Disk;
use rdf_model::laws::{low_of_part, prefix_is_legal};
use rdf_types::records::{Phase, Pos};
use rdf_volume::Volume;

/// The lower of a position and the restart point of a volume, if that is protected.
pub(crate) fn with_point(lowest: Pos, protected: bool, point: Pos) -> Pos
    ensures { result ≡ (if protected then min lowest point else lowest) }
{
    if protected {
        return floor(&[point], lowest);
    }
    lowest
}

/// The least of the restart points of the protected volumes and the low position.
pub(crate) fn least_point<D: Disk>(flags: &[bool], volumes: &[Volume<D>], low: Pos) -> Pos
    requires many { length flags.now ≡ length volumes.now }
    ensures { result ≡ least flags.now (map (λ volume. restart_of volume) volumes.now) low }
{
    let mut lowest = low;
    for (number, volume) in volumes.iter().enumerate() {
        lowest = with_point(lowest, flags[number], volume.restart_point());
    }
    lowest
}

impl<D: Disk> Backup<D> {
    ghost use Rattle.node_faults.specs.Faults.{IsSound};
    ghost use Rattle.rdf_core.specs.Backup.{needs_volumes};
    ghost use Rattle.rdf_backup.specs.Fetching.{EndsPurge, lowest_needed};
    ghost use Rattle.rdf_backup.specs.States.{layout_of, state_of, MayUse};
    ghost use Rattle.rdf_backup.specs.Keeping.{KeepsLine};
    ghost use Rattle.rdf_backup.specs.Refusals.{IsRefusal, IsJudged, IsCount};

    /// The position that no purge may pass.
    fn purge_floor(&self) -> Pos
        ensures { result ≡ lowest_needed self.now }
    {
        let low = self.txns.low(self.trails.received());
        let flags = self.trails.layout().protect.flags();
        least_point(flags, self.volumes.as_slice(), low)
    }

    /// Drops the image files that are no longer needed: the first generation while more than the retained ones stand and
    /// the second starts at or below each protected volume's restart point and the low position. It answers how many went.
    pub fn purge(&mut self) -> Result<Reply, NodeFault>
        requires usable { D.tells → MayUse D.files self.old }
        ensures keeps { KeepsLine D.tells D.files D.counts result self.old self.new }
        ensures ends { D.tells → EndsPurge D.files result self.old self.new }
        ensures refused { IsRefusal result → self.new ≡ self.old }
        ensures judged { IsJudged (needs_volumes (state_of 0 self.old)) IsCount result self.old self.new }
        ensures sound { IsSound result }
    {
        one_value();
        prefix_is_legal();
        legal_is_proper();
        low_of_notes();
        low_of_part();
        if let Phase::Taking = self.trails.phase() {
            return Ok(Reply::No { why: NoWhy::Taking });
        }
        let floor = self.purge_floor();
        let retain = self.trails.layout().retain;
        match purge(&mut self.trails, floor, retain) {
            Ok(n) => Ok(Reply::Number { n: u64::from(n) }),
            Err(fault) => Err(at_disk(0, fault)),
        }
    }
}
