//! The line `purge`.
ghost use Rattle.plan_lang.specs.declared.lines.Line.TheVariants as lines;

use crate::node::BackupNode;
use node_faults::NodeFault;
use rdf_core::replies::{NoWhy, Reply};
use rdf_disk::Disk;

impl<D: Disk + Drop> BackupNode<D> {
    ghost use Rattle.backup_node.specs.Nodes.{MayServe};
    ghost use Rattle.backup_node.specs.Lines.{PerformsWhere, WithPoints, Does};

    /// The line `purge`, outside of a session of the node.
    pub fn purge(&mut self) -> Result<Reply, NodeFault>
        requires serves { MayServe D.tells D.files D.counts self.old }
        ensures { Does D.tells D.files D.counts (PerformsWhere D.files WithPoints) (lines.Purge self.old.name) result self.old self.new }
    {
        match self.backup.take() {
            None => Ok(Reply::No { why: NoWhy::Down }),
            Some(mut backup) => {
                let outcome = backup.purge();
                self.settled(backup, outcome)
            }
        }
    }
}
