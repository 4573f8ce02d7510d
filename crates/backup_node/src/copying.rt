//! The line `copyaudit`.
ghost use Rattle.plan_lang.specs.declared.lines.Line.TheVariants as lines;

use crate::node::BackupNode;
use node_faults::NodeFault;
use rdf_core::replies::{NoWhy, Reply};
use rdf_disk::Disk;

impl<D: Disk + Drop> BackupNode<D> {
    ghost use Rattle.rdf_types.specs.declared.layout.Layout.{Layout as LayoutValue};
    ghost use Rattle.rdf_types.specs.declared.records.Node.{Node as NodeName};
    ghost use Rattle.backup_node.specs.Nodes.{IsLaid, MayServe};
    ghost use Rattle.backup_node.specs.Lines.{Performs, FromLead, Does};
    ghost use Rattle.backup_node.specs.Kinds.{IsCopied};

    /// The line `copyaudit`: what the other node has received more is fetched. That node does not change.
    pub fn copy_from(&mut self, lead: &BackupNode<D>) -> Result<Reply, NodeFault>
        requires serves { MayServe D.tells D.files D.counts self.old }
        requires lead { MayServe D.tells D.files D.counts lead.now }
        requires same { (layout : LayoutValue) × (IsLaid layout self.old × IsLaid layout lead.now) }
        ensures does { (from : NodeName) →
            Does D.tells D.files D.counts (Performs D.files (FromLead D.files lead.now)) (lines.CopyAudit self.old.name from) result self.old self.new }
        ensures judged { (from : NodeName) → IsCopied from lead.now result self.old }
    {
        match self.backup.take() {
            None => Ok(Reply::No { why: NoWhy::Down }),
            Some(mut backup) => match &lead.backup {
                None => {
                    self.backup = Some(backup);
                    Ok(Reply::No { why: NoWhy::Down })
                }
                Some(other) => {
                    let outcome = backup.copy_from(other);
                    self.settled(backup, outcome)
                }
            },
        }
    }
}
