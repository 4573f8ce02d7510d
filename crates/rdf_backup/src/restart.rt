//! A backup that was down, opened again over its disks.
ghost use Rattle.std.specs.Prelude.{◌≡◌, ◌+◌, length, MatchResult};

use crate::backup::Backup;
use crate::laws::kept_is_part;
use crate::opening::made_of;
use crate::reopening::{OldTrails, OldVolumes, Span, open_ones};
use node_disks::{Begun, Rooms, begin, open_rest, with_first};
use node_faults::{NodeFault, Shut};
use rdf_disk::Disk;
use rdf_types::layout::Layout;
use std::alloc::Global;

impl<D: Disk + Drop> Backup<D> {
    ghost use Rattle.rdf_backup.specs.Opening.{IsOpenAgain, IsStillDown};

    /// Opens a backup that is down. Each disk is turned on, the image trails and then the volumes are opened, and the transactions without outcome in what was received are noted.
    /// It makes no durable change but that the files of generations which do not stand are removed.
    ///
    /// After an `Err` the disks come back in their order; some are on, and they stand for what they stood for.
    pub fn restart(alloc: Global, disks: Vec<D>, layout: &Layout) -> Result<Backup<D>, Shut<D>>
        requires many { length disks.items ≡ layout.now.volumes + 1 }
        ensures { MatchResult result (IsOpenAgain D.tells D.files D.counts layout.now disks.items)
            (IsStillDown D.tells D.files D.counts layout.now disks.items) }
    {
        let Begun { first, rest, rooms } = match begin(&OldTrails { layout }, alloc, disks) {
            Ok(begun) => begun,
            Err(shut) => return Err(shut),
        };
        let Rooms { room, opened, left } = rooms;
        let Ok(txns) = open_ones(alloc, &first) else {
            return Err(Shut {
                disks: with_first(first.close(), rest, room),
                fault: NodeFault::NoMemory,
            });
        };
        let span = Span {
            kept: first.kept(),
            received: first.received(),
        };
        kept_is_part();
        let opening = open_rest(&OldVolumes { layout, span }, alloc, rest, opened, left);
        made_of(first, opening, txns, room)
    }
}
