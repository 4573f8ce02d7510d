//! The lines on the primary, and its restart.
ghost use Rattle.std.specs.Prelude.{◌≡◌, true};
ghost use Rattle.rdf_types.specs.declared.records.Node.TheVariants.{A};
ghost use Rattle.plan_lang.specs.declared.lines.Line.TheVariants as lines;
ghost use Rattle.rdf_core.specs.Agreement.{is_ok};
ghost use Rattle.rdf_core.specs.Step.{is_for_primary};
ghost use Rattle.primary_node.specs.Nodes.{MayServe as PrimaryMayServe};
ghost use Rattle.rdf_system.specs.NodeLines.{PrimaryDoes};

use crate::fault::StepFault;
use crate::system::System;
use backup_node::laws::{nodes_go_on, nodes_stand};
use node_faults::NodeFault;
use plan_lang::lines::Line;
use primary_node::PrimaryNode;
use rdf_core::laws::{primary_lifts, restart_lifts};
use rdf_core::replies::Reply;
use rdf_disk::Disk;
use rdf_types::layout::Layout;
use rdf_types::records::Node;
use senders::laws::longer;
use std::alloc::Global;

/// What the primary's node does for a line on it alone.
fn line_on<D: Disk + Drop>(primary: &mut PrimaryNode<D>, line: &Line) -> Result<Reply, NodeFault>
    requires own { is_for_primary line.now ≡ true }
    requires serves { PrimaryMayServe D.tells D.files D.counts primary.old }
    ensures { PrimaryDoes D.tells D.files D.counts line.now result primary.old primary.new }
{
    let answer = primary.line(line);
    primary.stands();
    answer
}

/// What it does for its restart.
fn restart_of<D: Disk + Drop>(
    primary: &mut PrimaryNode<D>,
    alloc: Global,
    layout: &Layout,
) -> Result<Reply, NodeFault>
    requires laid { layout.now.volumes ≡ primary.old.volumes }
    requires serves { PrimaryMayServe D.tells D.files D.counts primary.old }
    ensures { PrimaryDoes D.tells D.files D.counts (lines.Restart A) result primary.old primary.new }
{
    let answer = primary.restart(alloc, layout);
    primary.stands();
    answer
}

/// Whether the reply is a number, as that of a restart that is done.
fn is_number(reply: &Reply) -> bool
    ensures { result ≡ is_ok reply.now }
{
    matches!(reply, Reply::Number { .. })
}

impl<D: Disk + Drop> System<D> {
    ghost use Rattle.rdf_system.specs.Lines.{MayDo, Does};
    ghost use Rattle.rdf_system.specs.NodeLines.{DoesBeside, Anyhow};

    /// A line on the primary alone.
    pub(crate) fn on_primary(&mut self, line: &Line) -> Result<Reply, StepFault>
        requires own { is_for_primary line.now ≡ true }
        requires may { MayDo D.tells D.files D.counts line.now self.old }
        ensures { Does D.tells D.files D.counts line.now result self.old self.new }
    {
        self.at_primary(line)
    }

    /// The same whatever the backups' nodes are.
    pub(crate) fn at_primary(&mut self, line: &Line) -> Result<Reply, StepFault>
        requires own { is_for_primary line.now ≡ true }
        requires serves { PrimaryMayServe D.tells D.files D.counts self.old.primary }
        ensures { DoesBeside D.tells D.files D.counts Anyhow line.now result self.old self.new }
    {
        primary_lifts();
        longer();
        nodes_stand::<D>();
        nodes_go_on::<D>();
        match line_on(&mut self.primary, line) {
            Ok(reply) => Ok(reply),
            Err(fault) => Err(StepFault {
                node: Node::A,
                fault,
            }),
        }
    }

    /// The line `restart a`. One that is done forgets how far the extractors were.
    pub(crate) fn restart(&mut self, alloc: Global) -> Result<Reply, StepFault>
        requires { MayDo D.tells D.files D.counts (lines.Restart A) self.old }
        ensures { Does D.tells D.files D.counts (lines.Restart A) result self.old self.new }
    {
        restart_lifts();
        longer();
        nodes_stand::<D>();
        nodes_go_on::<D>();
        match restart_of(&mut self.primary, alloc, &self.layout) {
            Ok(reply) => {
                if is_number(&reply) {
                    self.senders.forget();
                    return Ok(reply);
                }
                Ok(reply)
            }
            Err(fault) => Err(StepFault {
                node: Node::A,
                fault,
            }),
        }
    }
}
