//! Redo: the images of a volume from its restart point on, applied again.
ghost use Rattle.std.specs.Prelude.{◌<◌};
ghost use Rattle.rdf_volume.specs.Views.{InUse};
ghost use Rattle.audit_trail.specs.InUse.{trail_of};
ghost use Rattle.tmf_recovery.specs.Redone.{Redoes};

use crate::laws::{nothing_left_shows, redo_shows};
use audit_trail::AuditTrail;
use rdf_disk::Disk;
use rdf_types::records::VolNo;
use rdf_volume::images::next_batch;
use rdf_volume::{VolFault, Volume};
use std::alloc::Global;

/// Applies the volume's images from its restart point to the trail's end. The restart point that is then left is a
/// position behind which the trail has no image of the volume. After an `Err` the disk durably stands for what redo
/// leaves up to some position.
pub fn redo<D: Disk>(
    alloc: Global,
    trail: &AuditTrail<D>,
    volume: &mut Volume<D>,
    vol: VolNo,
) -> Result<(), VolFault>
    requires in_use { D.tells → InUse D.files volume.old }
    ensures { Redoes D.tells D.files D.counts vol (trail_of trail.now) volume.old result volume.new }
{
    redo_shows();
    nothing_left_shows();
    let records = trail.records();
    loop {
        let at = volume.restart_point();
        if at >= records.len() as u64 {
            return Ok(());
        }
        let (batch, gone_over) = next_batch(alloc, &records[at as usize..], vol)?;
        if batch.is_empty() {
            return Ok(());
        }
        volume.apply(&batch, at + gone_over as u64)?;
    }
}
