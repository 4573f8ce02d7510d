//! The lines of a plan, each by the node that does it.
ghost use Rattle.std.specs.Prelude.{◌≡◌, OnOk};
ghost use Rattle.plan_lang.specs.declared.lines.Line.TheVariants as lines;
ghost use Rattle.rdf_system.specs.NodeLines.{IsOn};

use crate::fault::StepFault;
use crate::system::System;
use plan_lang::lines::Line;
use rdf_core::laws::{no_point_falls, step_goes_on, volumes_move};
use rdf_core::replies::Reply;
use rdf_disk::Disk;
use rdf_ports::Gate;
use rdf_types::records::Node;
use std::alloc::Global;
use std::sync::Wait;
use std::thread::Threads;

impl<D: Disk + Drop + Send> System<D> {
    ghost use Rattle.rdf_system.specs.States.{IsStood};
    ghost use Rattle.rdf_system.specs.Lines.{MayDo, Does};

    /// A line of a plan, which the machine does. The lines of a session that is open and whose node is up go to `in_session`.
    ///
    /// A takeover works the volumes of its backup beside each other, each in a thread of its own. Where several faults come, the
    /// first is told: a disk that failed, then damage, then want of memory, then a disk that stopped; among equals that of the
    /// lowest disk.
    ///
    /// Where a disk stops, in a session too, its node's disks are cut at once, and the reply is that the node stopped. After an `Err` too they are cut and the node is down,
    /// but where there was no memory for a message.
    pub fn line<R: Threads + Wait + Sync, G: Gate + Sync>(
        &mut self,
        rt: &R,
        alloc: Global,
        line: &Line,
        gate: &G,
    ) -> Result<Reply, StepFault>
        requires { MayDo D.tells D.files D.counts line.now self.old }
        ensures does { Does D.tells D.files D.counts line.now result self.old self.new }
        ensures stood { D.tells → OnOk result (IsStood D.files self.new) }
    {
        no_point_falls();
        volumes_move();
        step_goes_on();
        self.done(rt, alloc, line, gate)
    }

    /// The line, by its kind.
    fn done<R: Threads + Wait + Sync, G: Gate + Sync>(
        &mut self,
        rt: &R,
        alloc: Global,
        line: &Line,
        gate: &G,
    ) -> Result<Reply, StepFault>
        requires { MayDo D.tells D.files D.counts line.now self.old }
        ensures { Does D.tells D.files D.counts line.now result self.old self.new }
    {
        match line {
            Line::Send { node, most } => self.send(alloc, *node, *most),
            Line::Rewind { node } => self.rewind(*node),
            Line::Ack { node } => self.ack(*node),
            Line::Takeover { node } => self.takeover(rt, *node, gate),
            Line::Deliver { node, k: _ } => self.on_backup(alloc, line, *node),
            Line::Info { node } => self.on_backup(alloc, line, *node),
            Line::Purge { node } => self.on_backup(alloc, line, *node),
            Line::List { node, vol: _ } => self.on_node(alloc, line, *node),
            Line::Status { node } => self.on_node(alloc, line, *node),
            Line::Fuse { node, .. } => self.on_node(alloc, line, *node),
            Line::Cut { node } => self.on_node(alloc, line, *node),
            Line::Restart { node } => self.restart_of(alloc, line, *node),
            Line::CopyAudit { node, from } => self.copy(*node, *from),
            Line::Session { node } => self.on_backup(alloc, line, *node),
            Line::Read { node, key: _ } => self.read(*node),
            Line::End => self.end(),
            _ => self.on_primary(line),
        }
    }
}

impl<D: Disk + Drop> System<D> {
    ghost use Rattle.rdf_system.specs.Lines.{MayDo, Does};

    /// A line that each kind of node has.
    fn on_node(&mut self, alloc: Global, line: &Line, node: Node) -> Result<Reply, StepFault>
        requires own { IsOn node line.now }
        requires may { MayDo D.tells D.files D.counts line.now self.old }
        ensures { Does D.tells D.files D.counts line.now result self.old self.new }
    {
        match node {
            Node::A => self.on_primary(line),
            _ => self.on_backup(alloc, line, node),
        }
    }

    /// The restart of a node.
    fn restart_of(&mut self, alloc: Global, line: &Line, node: Node) -> Result<Reply, StepFault>
        requires own { line.now ≡ lines.Restart node }
        requires may { MayDo D.tells D.files D.counts line.now self.old }
        ensures { Does D.tells D.files D.counts line.now result self.old self.new }
    {
        match node {
            Node::A => self.restart(alloc),
            _ => self.on_backup(alloc, line, node),
        }
    }
}
