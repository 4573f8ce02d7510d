//! The lines that one backup's node does, but the takeover.
ghost use Rattle.std.specs.Prelude.{◌≡◌, ℕ, true, Some, None, IfSome, MatchOption};
ghost use Rattle.std.specs.Option.{option_copied};
ghost use Rattle.rdf_types.specs.declared.layout.Layout.{Layout as AnyLayout};
ghost use Rattle.rdf_core.specs.Allowed.{is_backup};
ghost use Rattle.rdf_core.specs.Lines.{message_of};
ghost use Rattle.rdf_core.specs.State.{State};
ghost use Rattle.backup_node.specs.Nodes.{IsAtSome, MayServe as BackupMayServe};
ghost use Rattle.senders.specs.Sending.{AreSenders, IsMessage, IsSomeSent};
ghost use Rattle.rdf_system.specs.States.{IsSomewhere, SiteMayServe};
ghost use Rattle.rdf_system.specs.NodeLines.{is_on_backup, LineAt, LinePerforms, BackupDoes, SiteDoes};

use crate::fault::StepFault;
use crate::session::session_behind;
use crate::site::Site;
use crate::system::System;
use backup_node::BackupNode;
use backup_node::laws::nodes_stand;
use node_faults::NodeFault;
use plan_lang::lines::Line;
use rdf_backup::laws::part_is_part;
use rdf_core::laws::{backup_cut_lifts, backup_lifts, present_points_go};
use rdf_core::replies::Reply;
use rdf_disk::Disk;
use rdf_types::layout::Layout;
use rdf_types::records::Node;
use senders::Senders;
use std::alloc::Global;

/// The message that a delivery names.
pub(crate) fn message_for<'a>(senders: &'a Senders, line: &Line) -> Option<&'a [u8]>
    ensures message { (layout : AnyLayout) (s : State) → AreSenders layout s.primary.trail s.senders senders.now →
        MatchOption result (message_of s line.now ≡ None) (λ bytes. (range : ℕ × ℕ) × (message_of s line.now ≡ Some range) × IsMessage layout s.primary.trail range bytes.now) }
    ensures sent { IfSome result (λ bytes. IsSomeSent bytes.now) }
{
    match line {
        Line::Deliver { node, k } => senders.message(*node, *k),
        _ => None,
    }
}

/// What a backup's node does for a line on it.
fn line_on<D: Disk + Drop>(
    node: &mut BackupNode<D>,
    alloc: Global,
    line: &Line,
    layout: &Layout,
    message: Option<&[u8]>,
) -> Result<Reply, NodeFault>
    requires own { is_on_backup node.old.name line.now }
    requires laid { layout.now.volumes ≡ node.old.volumes }
    requires serves { BackupMayServe D.tells D.files D.counts node.old }
    requires stood { D.tells → IsAtSome D.files layout.now node.old }
    requires sent { IfSome message (λ bytes. IsSomeSent bytes.now) }
    ensures { BackupDoes D.tells D.files D.counts layout.now
        (LinePerforms D.files layout.now (option_copied message.entry) line.now result) line.now result node.old node.new }
{
    match line {
        Line::Deliver { node: _, k: _ } => node.deliver(message),
        Line::List { node: _, vol } => node.list(*vol),
        Line::Info { node: _ } => node.info(),
        Line::Status { node: _ } => node.status(),
        Line::Fuse {
            node: _,
            disk,
            calls,
            tear,
        } => node.fuse(*disk, *calls, *tear),
        Line::Cut { node: _ } => node.cut(),
        Line::Purge { node: _ } => node.purge(),
        Line::Restart { node: _ } => node.restart(alloc, layout),
        Line::Session { node: _ } => node.session(),
        _ => unreachable!(),
    }
}

/// The same at the backup's site, which has a node.
fn line_at<D: Disk + Drop>(
    site: &mut Site<D>,
    alloc: Global,
    line: &Line,
    layout: &Layout,
    message: Option<&[u8]>,
) -> Result<Reply, NodeFault>
    requires own { MatchOption site.old.node ⊥ (λ node. is_on_backup node.name line.now) }
    requires laid { MatchOption site.old.node ⊥ (λ node. layout.now.volumes ≡ node.volumes) }
    requires serves { SiteMayServe D.tells D.files D.counts site.old }
    requires stood { D.tells → IsSomewhere D.files layout.now site.old }
    requires sent { IfSome message (λ bytes. IsSomeSent bytes.now) }
    ensures { SiteDoes D.tells D.files D.counts layout.now
        (LinePerforms D.files layout.now (option_copied message.entry) line.now result) line.now result site.old site.new }
{
    match &mut site.node {
        Some(node) => {
            let answer = line_on(node, alloc, line, layout, message);
            node.stands();
            answer
        }
        None => unreachable!(),
    }
}

impl<D: Disk + Drop> System<D> {
    ghost use Rattle.rdf_system.specs.States.{layout_of, IsStood, MayServe};
    ghost use Rattle.rdf_system.specs.Lines.{MayDo, Does};

    /// A line on a backup alone.
    pub(crate) fn on_backup(
        &mut self,
        alloc: Global,
        line: &Line,
        node: Node,
    ) -> Result<Reply, StepFault>
        requires own { is_on_backup node line.now }
        requires placed { is_backup (layout_of self.old) node ≡ true }
        requires may { MayDo D.tells D.files D.counts line.now self.old }
        ensures { Does D.tells D.files D.counts line.now result self.old self.new }
    {
        backup_lifts();
        backup_cut_lifts();
        present_points_go();
        self.primary.stands();
        nodes_stand::<D>();
        match self.asked(alloc, line, node) {
            Ok(reply) => {
                self.session = session_behind(self.session, line, &reply);
                Ok(reply)
            }
            Err(fault) => Err(StepFault { node, fault }),
        }
    }

    /// What the node at the backup's site does for the line, with what the rest has for it.
    fn asked(&mut self, alloc: Global, line: &Line, node: Node) -> Result<Reply, NodeFault>
        requires own { is_on_backup node line.now }
        requires placed { is_backup (layout_of self.old) node ≡ true }
        requires serves { MayServe D.tells D.files D.counts self.old }
        requires stood { D.tells → IsStood D.files self.old }
        ensures { LineAt D.tells D.files D.counts node line.now result self.old self.new }
    {
        part_is_part();
        let message = message_for(&self.senders, line);
        line_at(self.sites.get_mut(node), alloc, line, &self.layout, message)
    }
}
