//! What a line on a backup that was up comes to.
ghost use Rattle.std.specs.Prelude.{◌≡◌, Some, IfOk};
ghost use Rattle.backup_node.specs.Lines.{stop_told, Settles};

use crate::node::BackupNode;
use node_faults::NodeFault;
use rdf_backup::Backup;
use rdf_core::replies::Reply;
use rdf_disk::Disk;
use rdf_types::records::Node;

/// How a fault of the node is answered: a disk that stopped is told by a reply.
pub(crate) fn stop_told(node: Node, fault: NodeFault) -> Result<Reply, NodeFault>
    ensures { result ≡ stop_told node fault }
{
    match fault {
        NodeFault::Stopped { disk: _ } => Ok(Reply::Stopped { node }),
        _ => Err(fault),
    }
}

impl<D: Disk + Drop> BackupNode<D> {
    /// The backup stays up, unless its line was ended by a fault.
    pub(crate) fn settled(
        &mut self,
        backup: Backup<D>,
        outcome: Result<Reply, NodeFault>,
    ) -> Result<Reply, NodeFault>
        ensures settles { Settles D.tells D.files D.counts self.old.name backup outcome result self.new }
        ensures stays { IfOk outcome (λ reply. self.new ≡ record self.old { backup = Some backup }) }
        ensures sized { self.new.volumes ≡ self.old.volumes }
        ensures named { self.new.name ≡ self.old.name }
    {
        match outcome {
            Ok(reply) => {
                self.backup = Some(backup);
                Ok(reply)
            }
            Err(fault) => {
                self.fall(backup);
                stop_told(self.name, fault)
            }
        }
    }
}
