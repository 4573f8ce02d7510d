//! A backup's node over blank disks.
ghost use Rattle.std.specs.Prelude.{◌≡◌, ◌+◌, length, MatchResult};
ghost use Rattle.std.specs.List.{AllByRecursion};

use crate::node::BackupNode;
use node_faults::Shut;
use rdf_backup::Backup;
use rdf_disk::Disk;
use rdf_types::layout::Layout;
use rdf_types::records::Node;
use std::alloc::Global;

impl<D: Disk + Drop> BackupNode<D> {
    ghost use Rattle.node_disks.specs.Formatting.{IsBlank, IsNotFormatted};
    ghost use Rattle.backup_node.specs.Nodes.{AreOn, IsFormatted};

    /// The node of a backup that has received nothing, with volumes without rows, over disks without files that are on.
    ///
    /// After an `Err` the disks come back in their order.
    pub fn format(
        alloc: Global,
        disks: Vec<D>,
        layout: &Layout,
        name: Node,
    ) -> Result<BackupNode<D>, Shut<D>>
        requires many { length disks.items ≡ layout.now.volumes + 1 }
        requires blank { D.tells → AllByRecursion (λ d. IsBlank (D.files d)) disks.items }
        requires on { AreOn D.counts disks.items }
        ensures { MatchResult result (IsFormatted D.tells D.files D.counts layout.now name disks.items)
            (IsNotFormatted D.counts layout.now.volumes disks.items) }
    {
        match Backup::format(alloc, disks, layout) {
            Ok(backup) => Ok(BackupNode::up(alloc, backup, name, layout.volumes)),
            Err(shut) => Err(shut),
        }
    }
}
