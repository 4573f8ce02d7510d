//! A backup over blank disks.
ghost use Rattle.std.specs.Prelude.{◌≡◌, ◌+◌, length, MatchResult};
ghost use Rattle.std.specs.List.{AllByRecursion};

use crate::backup::Backup;
use crate::opening::{NewTrails, made_of};
use node_disks::{Begun, NewVolumes, Rooms, begin, open_rest};
use node_faults::Shut;
use open_txns::OpenTxns;
use rdf_disk::Disk;
use rdf_types::layout::Layout;
use std::alloc::Global;

impl<D: Disk + Drop> Backup<D> {
    ghost use Rattle.node_disks.specs.Formatting.{IsBlank, IsNotFormatted};
    ghost use Rattle.rdf_backup.specs.Opening.{IsFormatted};

    /// A backup that has received nothing, with volumes without rows, over disks without files.
    pub fn format(alloc: Global, disks: Vec<D>, layout: &Layout) -> Result<Backup<D>, Shut<D>>
        requires many { length disks.items ≡ layout.now.volumes + 1 }
        requires blank { D.tells → AllByRecursion (λ d. IsBlank (D.files d)) disks.items }
        ensures { MatchResult result (IsFormatted D.tells D.files D.counts layout.now disks.items) (IsNotFormatted D.counts layout.now.volumes disks.items) }
    {
        let Begun { first, rest, rooms } = match begin(&NewTrails { layout }, alloc, disks) {
            Ok(begun) => begun,
            Err(shut) => return Err(shut),
        };
        let Rooms { room, opened, left } = rooms;
        let opening = open_rest(&NewVolumes, alloc, rest, opened, left);
        made_of(first, opening, OpenTxns::new(alloc), room)
    }
}
