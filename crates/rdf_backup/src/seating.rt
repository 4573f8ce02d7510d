//! The volumes of a backup on their way into a session.
ghost use Rattle.std.specs.Prelude.{◌≡◌, ◌≤◌, [], length, vec_capacity};
ghost use Rattle.rdf_backup.specs.Parting.{Parted};
ghost use Rattle.rdf_backup.specs.Sessions.{IsPlaceOf};

use crate::parting::take_first;
use rdf_disk::Disk;
use rdf_types::records::VolNo;
use rdf_volume::Volume;
use volume_sessions::Placed;

/// The volumes that take part, and those that are set apart, both in rising order of disks.
pub(crate) type Lists<D> = (Vec<Placed<D>>, Vec<Volume<D>>);

/// Takes the volumes out of their places: those that are flagged, each with its number, and the others, which are set apart.
pub(crate) fn set_apart<D: Disk>(
    volumes: &mut Vec<Volume<D>>,
    flags: &[bool],
    lists: Lists<D>,
) -> Lists<D>
    requires sized { (length volumes.old.items ≡ length flags.now) × (length flags.now ≤ 16) }
    requires empty { (lists.0.items ≡ []) × (lists.1.items ≡ []) }
    requires room { (length flags.now ≤ vec_capacity lists.0) × (length flags.now ≤ vec_capacity lists.1) }
    ensures parted { Parted IsPlaceOf 0 flags.now volumes.old.items result.0.items result.1.items }
    ensures emptied { (volumes.new.items ≡ []) × (vec_capacity volumes.new ≡ vec_capacity volumes.old) }
{
    let (mut placed, mut apart) = lists;
    for (number, flag) in flags.iter().enumerate() {
        let volume = take_first(volumes);
        if *flag {
            placed.push_reserved(Placed {
                vol: VolNo(number as u8),
                volume,
            });
            continue;
        }
        apart.push_reserved(volume);
    }
    (placed, apart)
}
