//! One batch of changes, and the checkpoint where it is due.
ghost use Rattle.std.specs.Prelude.{◌≡◌, ◌≤◌, ◌<◌, ◌⊎◌, length, OnErr};
ghost use Rattle.std.specs.List.{AllByRecursion};
ghost use Rattle.rdf_volume.specs.Views.{restart_of, InUse};
ghost use Rattle.updaters.specs.Applied.{changes_by as changes_of};
ghost use Rattle.updaters.specs.Calls.{Steps, StandsWhole};

use rdf_disk::Disk;
use rdf_types::records::{Change, Pos, Stamped};
use rdf_volume::images::changes_by;
use rdf_volume::{VolFault, Volume};
use std::alloc::Global;

/// How many batches a volume has behind its base when it is written anew.
const DUE: u32 = 256;

/// Applies a few images of the volume as one batch, which sets the restart point, and writes the volume anew after its
/// 256th batch. After an `Err` the disk durably stands for what was before or for the whole batch, and for the whole batch
/// where the restart point shows it.
pub fn step<D: Disk>(
    alloc: Global,
    volume: &mut Volume<D>,
    images: &[Stamped],
    upto: Pos,
) -> Result<(), VolFault>
    requires few { length images.now ≤ 16 }
    requires between { AllByRecursion (λ s. (restart_of volume.old ≤ s.pos) × (s.pos < upto)) images.now }
    requires in_use { D.tells → InUse D.files volume.old }
    ensures steps { Steps D.tells D.files D.counts (changes_of images.now) upto volume.old result volume.new }
    ensures known { D.tells → OnErr result (restart_of volume.new ≡ upto → StandsWhole D.files (changes_of images.now) upto volume.old volume.new) }
{
    let batch = changes_by(alloc, images)?;
    apply_batch(volume, &batch, upto)
}

/// Makes the changes as one durable step, and writes the volume anew where that is due.
pub(crate) fn apply_batch<D: Disk>(
    volume: &mut Volume<D>,
    batch: &[Change],
    restart: Pos,
) -> Result<(), VolFault>
    requires few { length batch.now ≤ 64 }
    requires in_use { D.tells → InUse D.files volume.old }
    ensures steps { Steps D.tells D.files D.counts batch.now restart volume.old result volume.new }
    ensures known { D.tells → OnErr result ((restart_of volume.new ≡ restart_of volume.old)
        ⊎ StandsWhole D.files batch.now restart volume.old volume.new) }
{
    volume.apply(batch, restart)?;
    volume.checkpoint_from(DUE)
}
