//! Each line on the part that it is for.
ghost use Rattle.std.specs.Prelude.{◌≡◌, true, IfOk, OnErr};
ghost use Rattle.plan_lang.specs.declared.lines.Line.TheVariants.{Restart};
ghost use Rattle.rdf_core.specs.Allowed.{allowed};
ghost use Rattle.rdf_core.specs.Happens.{Does};
ghost use Rattle.rdf_machine.specs.Machines.{state_of, AreFollowing, AreKept};
ghost use Rattle.rdf_machine.specs.OfNodes.{is_at_node};

use crate::parts::Parts;
use plan_lang::lines::Line;
use rdf_core::replies::Reply;
use rdf_types::layout::Layout;
use rdf_types::records::Node;
use std::alloc::AllocError;

impl Parts {
    /// A line that may stand here, whole. An `Err` is want of memory, and leaves all as it was.
    pub fn line(&mut self, layout: &Layout, line: &Line) -> Result<Reply, AllocError>
        requires follow { AreFollowing layout.now self.old }
        requires allowed { allowed layout.now (state_of self.old).session line.now ≡ true }
        ensures ok { IfOk result (λ reply. Does layout.now (state_of self.old) line.now reply (state_of self.new)) }
        ensures kept { AreKept layout.now self.new }
        ensures err { OnErr result (state_of self.new ≡ state_of self.old) }
    {
        match line {
            Line::Send { node, most } => self.send(layout, *node, *most),
            Line::Rewind { node } => Ok(self.rewind(layout, *node)),
            Line::Ack { node } => Ok(self.ack(layout, *node)),
            Line::Session { node } => self.open_session(layout, *node),
            Line::Read { node, key } => self.read(layout, *node, key),
            Line::End => self.end(layout),
            Line::CopyAudit { node, from } => self.copy(layout, *node, *from),
            Line::Deliver { node, .. } => self.on_backup(layout, *node, line),
            Line::Purge { node } => self.on_backup(layout, *node, line),
            Line::Takeover { node } => self.on_backup(layout, *node, line),
            Line::Info { node } => self.on_backup(layout, *node, line),
            Line::List { node, .. } => self.at_node(layout, *node, line),
            Line::Status { node } => self.at_node(layout, *node, line),
            Line::Fuse { node, .. } => self.at_node(layout, *node, line),
            Line::Cut { node } => self.at_node(layout, *node, line),
            Line::Restart { node } => self.restart(layout, *node, line),
            _ => self.on_primary(layout, line),
        }
    }

    /// A line that each node has.
    fn at_node(&mut self, layout: &Layout, node: Node, line: &Line) -> Result<Reply, AllocError>
        requires follow { AreFollowing layout.now self.old }
        requires own { is_at_node line.now node ≡ true }
        ensures ok { IfOk result (λ reply. Does layout.now (state_of self.old) line.now reply (state_of self.new)) }
        ensures kept { AreKept layout.now self.new }
        ensures err { OnErr result (state_of self.new ≡ state_of self.old) }
    {
        match node {
            Node::A => self.on_primary(layout, line),
            _ => self.on_backup(layout, node, line),
        }
    }

    /// The line `restart`.
    fn restart(&mut self, layout: &Layout, node: Node, line: &Line) -> Result<Reply, AllocError>
        requires follow { AreFollowing layout.now self.old }
        requires own { line.now ≡ Restart node }
        ensures ok { IfOk result (λ reply. Does layout.now (state_of self.old) line.now reply (state_of self.new)) }
        ensures kept { AreKept layout.now self.new }
        ensures err { OnErr result (state_of self.new ≡ state_of self.old) }
    {
        match node {
            Node::A => self.restart_primary(layout),
            _ => self.on_backup(layout, node, line),
        }
    }
}
