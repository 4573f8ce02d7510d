//! The lines on the sender's side of a backup.
ghost use Rattle.std.specs.Prelude.{◌≡◌, true, false, List, MatchOption, is_some};
ghost use Rattle.rdf_types.specs.declared.layout.Layout.{Layout as AnyLayout};
ghost use Rattle.rdf_types.specs.declared.records.Record.{Record};
ghost use Rattle.plan_lang.specs.declared.lines.Line.TheVariants as lines;
ghost use Rattle.rdf_core.specs.Allowed.{has_names, is_backup};
ghost use Rattle.rdf_core.specs.Backup.{Backup as Part};
ghost use Rattle.rdf_core.specs.Primary.{Primary, needs_up};
ghost use Rattle.by_node.specs.Each.{at};
ghost use Rattle.rdf_core.specs.State.{State};
ghost use Rattle.primary_node.specs.Nodes.{IsAt, MayServe as PrimaryMayServe};
ghost use Rattle.rdf_system.specs.Kinds.{bar_of};
ghost use Rattle.rdf_system.specs.Moves.{phase_in};

use crate::fault::StepFault;
use crate::site::Site;
use crate::system::System;
use backup_node::laws::nodes_stand;
use node_faults::NodeFault;
use primary_node::PrimaryNode;
use rdf_core::replies::{NoWhy, Reply};
use rdf_disk::Disk;
use rdf_types::records::{Node, Pos};
use std::alloc::{AllocError, Global};

/// Why the primary refuses the lines on its senders.
fn bar<D: Disk + Drop>(primary: &PrimaryNode<D>) -> Option<NoWhy>
    ensures own { result ≡ bar_of primary.now }
    ensures judged { (layout : AnyLayout) (a : Primary) → IsAt D.files layout a primary.now → result ≡ needs_up a }
{
    match primary.trail() {
        Some(_) => None,
        None => Some(primary.why_off()),
    }
}

impl<D: Disk + Drop> Site<D> {
    ghost use Rattle.rdf_system.specs.States.{IsAtSite};

    /// How far the backup has received, where it is up.
    pub(crate) fn received(&self) -> Option<Pos>
        requires there { MatchOption self.now.node ⊥ (λ node. Unit {0}) }
        ensures up { is_some result ≡ is_some (phase_in self.now.node) }
        ensures at { D.tells → (layout : AnyLayout) (trail : List Record) (b : Part) → IsAtSite D.files layout trail b self.now →
            MatchOption result (b.up ≡ false) (λ n. (b.up ≡ true) × (n ≡ b.received)) }
    {
        match &self.node {
            Some(node) => node.received(),
            None => unreachable!(),
        }
    }
}

impl<D: Disk + Drop> System<D> {
    ghost use Rattle.rdf_system.specs.States.{layout_of, MayServe};
    ghost use Rattle.rdf_system.specs.Lines.{MayDo, Does};
    ghost use Rattle.rdf_system.specs.NodeLines.{DoesBeside, Anyhow, HasReceived};

    /// How far the backup has received, where it is up.
    pub(crate) fn received(&self, node: Node) -> Option<Pos>
        requires placed { is_backup (layout_of self.now) node ≡ true }
        requires serves { MayServe D.tells D.files D.counts self.now }
        ensures { HasReceived D.tells D.files node result self.now }
    {
        self.sites.get(node).received()
    }

    /// The line `send`. Want of memory leaves all as it was.
    pub(crate) fn send(&mut self, alloc: Global, node: Node, most: u32) -> Result<Reply, StepFault>
        requires { MayDo D.tells D.files D.counts (lines.Send node most) self.old }
        ensures { Does D.tells D.files D.counts (lines.Send node most) result self.old self.new }
    {
        self.sent(alloc, node, most)
    }

    /// The same whatever the backups' nodes are.
    pub(crate) fn sent(&mut self, alloc: Global, node: Node, most: u32) -> Result<Reply, StepFault>
        requires names { has_names (layout_of self.old) (lines.Send node most) ≡ true }
        requires serves { PrimaryMayServe D.tells D.files D.counts self.old.primary }
        ensures { DoesBeside D.tells D.files D.counts Anyhow (lines.Send node most) result self.old self.new }
    {
        self.primary.stands();
        nodes_stand::<D>();
        match self.primary.trail() {
            Some(trail) => match self.senders.send(alloc, trail, &self.layout, node, most) {
                Ok(reply) => Ok(reply),
                Err(AllocError) => Err(StepFault {
                    node: Node::A,
                    fault: NodeFault::NoMemory,
                }),
            },
            None => Ok(Reply::No {
                why: self.primary.why_off(),
            }),
        }
    }

    /// The line `rewind`.
    pub(crate) fn rewind(&mut self, node: Node) -> Result<Reply, StepFault>
        requires { MayDo D.tells D.files D.counts (lines.Rewind node) self.old }
        ensures { Does D.tells D.files D.counts (lines.Rewind node) result self.old self.new }
    {
        self.rewound(node)
    }

    /// The same whatever the backups' nodes are.
    pub(crate) fn rewound(&mut self, node: Node) -> Result<Reply, StepFault>
        requires serves { PrimaryMayServe D.tells D.files D.counts self.old.primary }
        ensures { DoesBeside D.tells D.files D.counts Anyhow (lines.Rewind node) result self.old self.new }
    {
        self.primary.stands();
        nodes_stand::<D>();
        if let Some(why) = bar(&self.primary) {
            return Ok(Reply::No { why });
        }
        Ok(self.senders.rewind(node))
    }

    /// The line `ack`.
    pub(crate) fn ack(&mut self, node: Node) -> Result<Reply, StepFault>
        requires { MayDo D.tells D.files D.counts (lines.Ack node) self.old }
        ensures { Does D.tells D.files D.counts (lines.Ack node) result self.old self.new }
    {
        let received = self.received(node);
        self.acked(node, received)
    }

    /// The same whatever the backups' nodes are, where this one has received so far, or is down.
    pub(crate) fn acked(&mut self, node: Node, received: Option<Pos>) -> Result<Reply, StepFault>
        requires serves { PrimaryMayServe D.tells D.files D.counts self.old.primary }
        ensures { DoesBeside D.tells D.files D.counts (HasReceived D.tells D.files node received) (lines.Ack node) result self.old self.new }
    {
        self.primary.stands();
        nodes_stand::<D>();
        if let Some(why) = bar(&self.primary) {
            return Ok(Reply::No { why });
        }
        match received {
            Some(upto) => Ok(self.senders.ack(node, upto)),
            None => Ok(Reply::No { why: NoWhy::Down }),
        }
    }
}
