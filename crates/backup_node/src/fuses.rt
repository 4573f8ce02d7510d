//! Fuses of the disks of a backup's node.
ghost use Rattle.plan_lang.specs.declared.lines.Line.TheVariants as lines;

use crate::node::BackupNode;
use node_faults::NodeFault;
use rdf_core::replies::{NoWhy, Reply};
use rdf_disk::{Disk, Tear};

impl<D: Disk + Drop> BackupNode<D> {
    ghost use Rattle.backup_node.specs.Nodes.{MayServe};
    ghost use Rattle.backup_node.specs.Lines.{Performs, Any, Does};

    /// The line `fuse`.
    pub fn fuse(&mut self, disk: u8, calls: u32, tear: Tear) -> Result<Reply, NodeFault>
        requires serves { MayServe D.tells D.files D.counts self.old }
        ensures { Does D.tells D.files D.counts (Performs D.files Any) (lines.Fuse self.old.name disk calls tear) result self.old self.new }
    {
        if self.volumes < disk {
            return Ok(Reply::No { why: NoWhy::Volume });
        }
        match self.backup.take() {
            Some(mut backup) => {
                backup.fuse(disk, calls, tear);
                self.backup = Some(backup);
                Ok(Reply::Done)
            }
            None => {
                let fused = &mut self.disks[disk as usize];
                fused.fuse(calls, tear);
                Ok(Reply::Done)
            }
        }
    }
}
