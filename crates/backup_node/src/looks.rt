//! The lines that ask a backup: `list`, `info` and `status`.
ghost use Rattle.plan_lang.specs.declared.lines.Line.TheVariants as lines;

use crate::node::BackupNode;
use node_faults::NodeFault;
use rdf_core::replies::{NoWhy, Reply};
use rdf_disk::Disk;
use rdf_types::records::VolNo;

impl<D: Disk + Drop> BackupNode<D> {
    ghost use Rattle.backup_node.specs.Nodes.{MayServe};
    ghost use Rattle.backup_node.specs.Lines.{Performs, Any, Does};

    /// The line `list`.
    pub fn list(&mut self, vol: VolNo) -> Result<Reply, NodeFault>
        requires serves { MayServe D.tells D.files D.counts self.old }
        ensures { Does D.tells D.files D.counts (Performs D.files Any) (lines.List self.old.name vol) result self.old self.new }
    {
        match self.backup.take() {
            None => Ok(Reply::No { why: NoWhy::Down }),
            Some(mut backup) => {
                let outcome = backup.list(vol);
                self.settled(backup, outcome)
            }
        }
    }

    /// The line `info`. Want of memory takes the node down.
    pub fn info(&mut self) -> Result<Reply, NodeFault>
        requires serves { MayServe D.tells D.files D.counts self.old }
        ensures { Does D.tells D.files D.counts (Performs D.files Any) (lines.Info self.old.name) result self.old self.new }
    {
        match self.backup.take() {
            None => Ok(Reply::No { why: NoWhy::Down }),
            Some(backup) => match backup.info() {
                Ok(reply) => {
                    self.backup = Some(backup);
                    Ok(reply)
                }
                Err(_) => {
                    self.fall(backup);
                    Err(NodeFault::NoMemory)
                }
            },
        }
    }

    /// The line `status`.
    pub fn status(&mut self) -> Result<Reply, NodeFault>
        requires serves { MayServe D.tells D.files D.counts self.old }
        ensures { Does D.tells D.files D.counts (Performs D.files Any) (lines.Status self.old.name) result self.old self.new }
    {
        match self.backup.take() {
            None => Ok(Reply::NodeDown),
            Some(backup) => {
                let reply = backup.status();
                self.backup = Some(backup);
                Ok(reply)
            }
        }
    }
}
