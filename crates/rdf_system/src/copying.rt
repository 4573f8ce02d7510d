//! Audit that one backup lacks, copied to it from the other.
ghost use Rattle.std.specs.Prelude.{◌≡◌, true};
ghost use Rattle.rdf_types.specs.declared.layout.Layout.{Layout as AnyLayout};
ghost use Rattle.rdf_types.specs.declared.records.Node.{Node as AnyNode};
ghost use Rattle.plan_lang.specs.declared.lines.Line.TheVariants as lines;
ghost use Rattle.rdf_core.specs.Allowed.{has_names};
ghost use Rattle.backup_node.specs.Nodes.{IsLaid, MayServe as BackupMayServe};
ghost use Rattle.backup_node.specs.Kinds.{IsCopied};
ghost use Rattle.backup_node.specs.Lines.{FromLead, Performs};
ghost use Rattle.rdf_system.specs.States.{SiteMayServe};
ghost use Rattle.rdf_system.specs.NodeLines.{AtBackup, BackupDoes, FromSite, HasNode, site_at};

use crate::fault::StepFault;
use crate::site::Site;
use crate::system::System;
use backup_node::BackupNode;
use backup_node::laws::nodes_stand;
use node_faults::NodeFault;
use rdf_core::laws::{backup_cut_lifts, backup_lifts, present_points_go};
use rdf_core::replies::Reply;
use rdf_disk::Disk;
use rdf_types::records::Node;

/// What a node does for a copy from the node at another site, which has one.
fn copied<D: Disk + Drop>(own: &mut BackupNode<D>, lead: &Site<D>) -> Result<Reply, NodeFault>
    requires serves { BackupMayServe D.tells D.files D.counts own.old }
    requires lead { SiteMayServe D.tells D.files D.counts lead.now }
    requires same { (layout : AnyLayout) × (IsLaid layout own.old × HasNode (IsLaid layout) lead.now) }
    ensures does { (laid : AnyLayout) (node from : AnyNode) → own.old.name ≡ node →
        BackupDoes D.tells D.files D.counts laid (Performs D.files (FromSite D.files lead.now) (lines.CopyAudit node from) result)
        (lines.CopyAudit node from) result own.old own.new }
    ensures judged { (from : AnyNode) → HasNode (λ n. IsCopied from n result own.old) lead.now }
{
    match &lead.node {
        Some(node) => own.copy_from(node),
        None => unreachable!(),
    }
}

impl<D: Disk + Drop> System<D> {
    ghost use Rattle.rdf_system.specs.States.{layout_of, MayServe};
    ghost use Rattle.rdf_system.specs.Lines.{MayDo, Does};

    /// The line `copyaudit`: what the other backup has received more is fetched.
    pub(crate) fn copy(&mut self, node: Node, from: Node) -> Result<Reply, StepFault>
        requires { MayDo D.tells D.files D.counts (lines.CopyAudit node from) self.old }
        ensures { Does D.tells D.files D.counts (lines.CopyAudit node from) result self.old self.new }
    {
        backup_lifts();
        backup_cut_lifts();
        present_points_go();
        self.primary.stands();
        nodes_stand::<D>();
        match self.fetched(node, from) {
            Ok(reply) => Ok(reply),
            Err(fault) => Err(StepFault { node, fault }),
        }
    }

    /// What the node at the backup's site does for it, from the other backup's.
    fn fetched(&mut self, node: Node, from: Node) -> Result<Reply, NodeFault>
        requires names { has_names (layout_of self.old) (lines.CopyAudit node from) ≡ true }
        requires serves { MayServe D.tells D.files D.counts self.old }
        ensures does { AtBackup D.tells D.files D.counts
            (Performs D.files (FromSite D.files (site_at self.old from)) (lines.CopyAudit node from) result)
            node (lines.CopyAudit node from) result self.old self.new }
        ensures judged { HasNode (λ n. HasNode (λ lead. IsCopied from lead result n) (site_at self.old from)) (site_at self.old node) }
    {
        nodes_stand::<D>();
        let mut lent = self.lend(node);
        let answer = copied(&mut lent, self.place_of(from));
        self.put_back(node, lent);
        answer
    }
}
