//! How the disks of a backup are opened, and made a backup.
ghost use Rattle.std.specs.Prelude.{◌≡◌, ◌+◌, ◌≤◌, ◌++◌, None, length, map, IfOk, IfErr, vec_len, vec_capacity};
ghost use Rattle.rdf_volume.specs.Views.{disk_of};
ghost use Rattle.node_disks.specs.Formatting.{IsBlank, IsNotNew};
ghost use Rattle.node_disks.specs.Opening.{IsNotWhole};
ghost use Rattle.rdf_backup.specs.Disks.{disks_of};
ghost use Rattle.rdf_backup.specs.Opening.{IsNewTrails};
ghost use Rattle.rdf_backup.specs.Restarting.{IsMadeOf};

use crate::backup::Backup;
use image_trails::ImageTrails;
use node_disks::{NewVolumes, NotOpened, Opener, Opening, handed_back};
use node_faults::Shut;
use open_txns::OpenTxns;
use rdf_disk::Disk;
use rdf_types::layout::Layout;
use rdf_volume::Volume;
use std::alloc::Global;

/// A blank disk becomes image trails without images.
#[derive(Drop)]
pub struct NewTrails<'a> {
    pub layout: &'a Layout,
}

impl<'a, D: Disk> Opener<D> for NewTrails<'a> {
    type Open = ImageTrails<D>;

    ghost disk_of = { λ trails. trails.disk };

    ghost ready = { λ o n disk. D.tells → IsBlank (D.files disk) };

    ghost opens = { λ o n. IsNewTrails D.tells D.files D.counts o.layout.now };

    ghost fails = { λ o n. IsNotNew D.counts };

    fn open(&self, alloc: Global, _place: u8, disk: D) -> Result<ImageTrails<D>, NotOpened<D>> {
        match ImageTrails::format(alloc, disk, self.layout) {
            Ok(trails) => Ok(trails),
            Err(shut) => Err(NotOpened {
                disk: shut.disk,
                fault: shut.fault,
            }),
        }
    }

    fn close(&self, one: ImageTrails<D>) -> D {
        one.close()
    }
}

/// The backup over image trails and volumes, where all disks are open.
pub fn made_of<D: Disk + Drop>(
    trails: ImageTrails<D>,
    opening: Opening<D, Volume<D>>,
    txns: OpenTxns,
    room: Vec<D>,
) -> Result<Backup<D>, Shut<D>>
    requires empty { vec_len room ≡ 0 }
    requires roomy { length opening.opened.items + length opening.left.items + 1 ≤ vec_capacity room }
    requires sized { opening.fault ≡ None → length opening.opened.items ≡ trails.memory.layout.volumes }
    ensures ok { IfOk result (IsMadeOf trails opening txns) }
    ensures err { IfErr result (IsNotWhole trails.disk (map (λ volume. disk_of volume) opening.opened.items ++ opening.left.items) opening.fault) }
{
    match opening.fault {
        Some(fault) => Err(Shut {
            disks: handed_back(&NewVolumes, trails.close(), opening, room),
            fault,
        }),
        None => {
            let Opening { opened, .. } = opening;
            Ok(Backup {
                trails,
                volumes: opened,
                txns,
                room,
            })
        }
    }
}

/// The disks in their order, in a list that has room for them.
pub fn gathered<D: Disk + Drop>(
    trails: ImageTrails<D>,
    volumes: Vec<Volume<D>>,
    mut room: Vec<D>,
) -> Vec<D>
    requires empty { vec_len room ≡ 0 }
    requires roomy { vec_len volumes + 1 ≤ vec_capacity room }
    ensures items { result.items ≡ disks_of trails volumes.items }
    ensures len { vec_len result ≡ vec_len volumes + 1 }
    ensures capacity { vec_capacity result ≡ vec_capacity room }
{
    room.push_reserved(trails.close());
    for volume in volumes {
        room.push_reserved(volume.close());
    }
    room
}
