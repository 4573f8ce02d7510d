//! A primary that was down, opened again over its disks.
ghost use Rattle.std.specs.Prelude.{◌≡◌, ◌+◌, ◌≤◌, length, IfOk, IfErr, MatchResult};
ghost use Rattle.node_disks.specs.Opening.{IsRoom};
ghost use Rattle.rdf_primary.specs.Opening.{MayReopen};
ghost use Rattle.rdf_primary.specs.Restarting.{AreUp, AreDown};

use crate::backouts::backed_out;
use crate::opening::{OldTrail, OldVolumes, joined};
use crate::primary::Primary;
use audit_trail::AuditTrail;
use node_disks::{Begun, Rooms, begin, open_rest};
use node_faults::Shut;
use rdf_disk::Disk;
use rdf_types::layout::Layout;
use rdf_volume::Volume;
use std::alloc::Global;
use tmf_core::Tmf;

/// The transactions over a trail that is open and the volumes of these disks, each of which is opened.
fn reopened<D: Disk + Drop>(
    alloc: Global,
    trail: AuditTrail<D>,
    disks: Vec<D>,
    rooms: Rooms<D, Volume<D>>,
) -> Result<Tmf<D>, Shut<D>>
    requires few { length disks.items ≤ 16 }
    requires room { IsRoom (length disks.items + 1) rooms }
    requires ready { D.tells → MayReopen D.files trail disks.items }
    ensures ok { IfOk result (AreUp D.tells D.files D.counts trail disks.items) }
    ensures err { IfErr result (AreDown D.tells D.files D.counts trail disks.items) }
{
    let Rooms { room, opened, left } = rooms;
    let opening = open_rest(&OldVolumes { trail: &trail }, alloc, disks, opened, left);
    joined(alloc, trail, opening, room)
}

impl<D: Disk + Drop> Primary<D> {
    ghost use Rattle.rdf_primary.specs.Restarting.{StoodForSome, IsUpAgain, IsStillDown};

    /// Opens a primary that is down. Each disk is turned on, each volume is brought to the trail's end, and then every
    /// transaction without outcome is backed out, by rising number. The answer has the number of these.
    ///
    /// After an `Err` the disks come back in their order; some are on, and the primary is down.
    pub fn restart(
        alloc: Global,
        disks: Vec<D>,
        layout: &Layout,
    ) -> Result<(Primary<D>, u64), Shut<D>>
        requires many { length disks.items ≡ layout.now.volumes + 1 }
        requires stood { D.tells → StoodForSome D.files disks.items }
        ensures { MatchResult result (λ done. IsUpAgain D.tells D.files D.counts layout.now disks.items done.1 done.0)
            (IsStillDown D.tells D.files D.counts layout.now disks.items) }
    {
        let Begun { first, rest, rooms } = match begin(&OldTrail, alloc, disks) {
            Ok(begun) => begun,
            Err(shut) => return Err(shut),
        };
        match reopened(alloc, first, rest, rooms) {
            Ok(tmf) => backed_out(alloc, tmf),
            Err(shut) => Err(shut),
        }
    }
}
