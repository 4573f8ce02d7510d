//! The takeover of a backup, which works its volumes beside each other.
ghost use Rattle.std.specs.Prelude.{◌≡◌, true, MatchOption};
ghost use Rattle.rdf_types.specs.declared.layout.Layout.{Layout as AnyLayout};
ghost use Rattle.rdf_types.specs.declared.records.Node.{Node as AnyNode};
ghost use Rattle.plan_lang.specs.declared.lines.Line.TheVariants as lines;
ghost use Rattle.rdf_core.specs.Allowed.{has_names};
ghost use Rattle.backup_node.specs.Kinds.{IsTakenOver};
ghost use Rattle.backup_node.specs.Lines.{Performs, WhereLost};
ghost use Rattle.rdf_system.specs.States.{SiteMayServe};
ghost use Rattle.rdf_system.specs.NodeLines.{AtBackup, HasNode, SiteDoes, site_at};

use crate::fault::StepFault;
use crate::site::Site;
use crate::system::System;
use backup_node::laws::nodes_stand;
use node_faults::NodeFault;
use rdf_core::laws::{backup_cut_lifts, backup_lifts, present_points_go};
use rdf_core::replies::Reply;
use rdf_disk::Disk;
use rdf_ports::Gate;
use rdf_types::records::Node;
use std::sync::Wait;
use std::thread::Threads;

/// What the node at a backup's site does for a takeover, where the primary is lost or not.
fn taken_over<D: Disk + Drop + Send, R: Threads + Wait + Sync, G: Gate + Sync>(
    site: &mut Site<D>,
    rt: &R,
    lost: bool,
    gate: &G,
) -> Result<Reply, NodeFault>
    requires there { MatchOption site.old.node ⊥ (λ node. Unit {0}) }
    requires serves { SiteMayServe D.tells D.files D.counts site.old }
    ensures does { (own : AnyLayout) (name : AnyNode) → HasNode (λ n. n.name ≡ name) site.old →
        SiteDoes D.tells D.files D.counts own (Performs D.files (WhereLost lost) (lines.Takeover name) result)
        (lines.Takeover name) result site.old site.new }
    ensures judged { HasNode (IsTakenOver lost result) site.old }
{
    match &mut site.node {
        Some(node) => {
            let answer = node.takeover(rt, lost, gate);
            node.stands();
            answer
        }
        None => unreachable!(),
    }
}

impl<D: Disk + Drop + Send> System<D> {
    ghost use Rattle.rdf_system.specs.States.{layout_of, MayServe};
    ghost use Rattle.rdf_system.specs.Lines.{MayDo, Does};

    /// The line `takeover`. One that is refused starts no thread.
    pub(crate) fn takeover<R: Threads + Wait + Sync, G: Gate + Sync>(
        &mut self,
        rt: &R,
        node: Node,
        gate: &G,
    ) -> Result<Reply, StepFault>
        requires { MayDo D.tells D.files D.counts (lines.Takeover node) self.old }
        ensures { Does D.tells D.files D.counts (lines.Takeover node) result self.old self.new }
    {
        backup_lifts();
        backup_cut_lifts();
        present_points_go();
        self.primary.stands();
        nodes_stand::<D>();
        let lost = self.primary.is_lost();
        match self.worked(rt, node, lost, gate) {
            Ok(reply) => Ok(reply),
            Err(fault) => Err(StepFault { node, fault }),
        }
    }

    /// What the node at the backup's site does for it.
    fn worked<R: Threads + Wait + Sync, G: Gate + Sync>(
        &mut self,
        rt: &R,
        node: Node,
        lost: bool,
        gate: &G,
    ) -> Result<Reply, NodeFault>
        requires names { has_names (layout_of self.old) (lines.Takeover node) ≡ true }
        requires serves { MayServe D.tells D.files D.counts self.old }
        ensures does { AtBackup D.tells D.files D.counts (Performs D.files (WhereLost lost) (lines.Takeover node) result)
            node (lines.Takeover node) result self.old self.new }
        ensures judged { HasNode (IsTakenOver lost result) (site_at self.old node) }
    {
        taken_over(self.sites.get_mut(node), rt, lost, gate)
    }
}
