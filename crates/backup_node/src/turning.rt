//! The line `cut`.
ghost use Rattle.plan_lang.specs.declared.lines.Line.TheVariants as lines;

use crate::node::BackupNode;
use node_faults::NodeFault;
use rdf_core::replies::{NoWhy, Reply};
use rdf_disk::Disk;

impl<D: Disk + Drop> BackupNode<D> {
    ghost use Rattle.backup_node.specs.Nodes.{MayServe};
    ghost use Rattle.backup_node.specs.Lines.{Performs, Any, Does};

    /// The line `cut`: all disks of a node that is up are turned off.
    pub fn cut(&mut self) -> Result<Reply, NodeFault>
        requires serves { MayServe D.tells D.files D.counts self.old }
        ensures { Does D.tells D.files D.counts (Performs D.files Any) (lines.Cut self.old.name) result self.old self.new }
    {
        match self.backup.take() {
            None => Ok(Reply::No { why: NoWhy::Down }),
            Some(backup) => {
                self.fall(backup);
                Ok(Reply::Done)
            }
        }
    }
}
