//! The disks of a trail and of volumes.
ghost use Rattle.std.specs.Prelude.{◌≡◌, ◌+◌, ◌≤◌, vec_len, vec_capacity};
ghost use Rattle.tmf_core.specs.Disks.{disks_of};

use audit_trail::AuditTrail;
use rdf_disk::Disk;
use rdf_volume::Volume;

/// The disks in their order, in a list that has room for them.
pub fn gathered<D: Disk + Drop>(
    trail: AuditTrail<D>,
    volumes: Vec<Volume<D>>,
    mut room: Vec<D>,
) -> Vec<D>
    requires empty { vec_len room ≡ 0 }
    requires roomy { vec_len volumes + 1 ≤ vec_capacity room }
    ensures { result.items ≡ disks_of trail volumes.items }
{
    room.push_reserved(trail.close());
    for volume in volumes {
        room.push_reserved(volume.close());
    }
    room
}
