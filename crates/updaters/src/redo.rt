//! Redo: the images of a volume in a part of the audit trail, from its restart point on.
ghost use Rattle.std.specs.Prelude.{◌≡◌, ◌≤◌, map};
ghost use Rattle.rdf_volume.specs.Views.{restart_of, InUse};
ghost use Rattle.rdf_types.specs.Entries.{RiseFrom, since as entries_since, before as entries_before};
ghost use Rattle.updaters.specs.Calls.{Redoes};

use crate::batch::apply_batch;
use crate::entries::{Held, before, position_at, since};
use rdf_disk::Disk;
use rdf_types::records::{Pos, VolNo};
use rdf_volume::images::next_batch;
use rdf_volume::{VolFault, Volume};
use std::alloc::Global;

/// Applies the volume's images of the part from its restart point to below a position, in their order, and leaves that
/// position as restart point. The volume is written anew after its 256th batch, as by steps. After an `Err` the disk
/// durably stands for what the images up to some position between them make, with that restart point.
pub fn redo_part<D: Disk, E: Held>(
    alloc: Global,
    volume: &mut Volume<D>,
    vol: VolNo,
    part: &[E],
    upto: Pos,
) -> Result<(), VolFault>
    requires rising { RiseFrom 0 (map E.stands part.now) }
    requires behind { restart_of volume.old ≤ upto }
    requires in_use { D.tells → InUse D.files volume.old }
    ensures { Redoes D.tells D.files D.counts vol (entries_before upto (entries_since (restart_of volume.old) (map E.stands part.now)))
        (entries_since (restart_of volume.old) (map E.stands part.now)) upto volume.old result volume.new }
{
    let at = volume.restart_point();
    redo_images(alloc, volume, vol, before(since(part, at), upto), upto)
}

/// Applies the volume's images of entries that stand from its restart point to below a position.
fn redo_images<D: Disk, E: Held>(
    alloc: Global,
    volume: &mut Volume<D>,
    vol: VolNo,
    images: &[E],
    upto: Pos,
) -> Result<(), VolFault>
    requires rising { RiseFrom (restart_of volume.old) (map E.stands images.now) }
    requires below { entries_before upto (map E.stands images.now) ≡ map E.stands images.now }
    requires behind { restart_of volume.old ≤ upto }
    requires in_use { D.tells → InUse D.files volume.old }
    ensures { Redoes D.tells D.files D.counts vol (map E.stands images.now) (map E.stands images.now) upto volume.old result volume.new }
{
    let at = volume.restart_point();
    if at == upto {
        return Ok(());
    }
    let mut done = 0;
    loop {
        let (batch, gone_over) = next_batch(alloc, &images[done..], vol)?;
        done += gone_over;
        let restart = position_at(images, done, upto);
        apply_batch(volume, &batch, restart)?;
        if done == images.len() {
            return Ok(());
        }
    }
}
