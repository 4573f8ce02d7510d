//! Volumes on blank disks.
ghost use Rattle.rdf_volume.specs.Views.{disk_of};
ghost use Rattle.node_disks.specs.Formatting.{IsBlank, IsNewVolume, IsNotNew};

use crate::opening::{NotOpened, Opener};
use rdf_disk::Disk;
use rdf_volume::Volume;
use std::alloc::Global;

/// A blank disk becomes a volume without rows.
pub struct NewVolumes;

impl<D: Disk> Opener<D> for NewVolumes {
    type Open = Volume<D>;

    ghost disk_of = { λ volume. disk_of volume };

    ghost ready = { λ o n disk. D.tells → IsBlank (D.files disk) };

    ghost opens = { λ o n. IsNewVolume D.tells D.files D.counts };

    ghost fails = { λ o n. IsNotNew D.counts };

    fn open(&self, alloc: Global, _place: u8, disk: D) -> Result<Volume<D>, NotOpened<D>> {
        match Volume::format(alloc, disk) {
            Ok(volume) => Ok(volume),
            Err(shut) => Err(NotOpened {
                disk: shut.disk,
                fault: shut.fault,
            }),
        }
    }

    fn close(&self, one: Volume<D>) -> D {
        one.close()
    }
}
