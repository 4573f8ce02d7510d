//! Lines that a stop of a disk cuts off.
ghost use Rattle.std.specs.Prelude.{◌≡◌, true, IfOk, OnOk, OnErr};
ghost use Rattle.rdf_core.specs.Backup.{copy_parts, copy_refusal};
ghost use Rattle.rdf_core.specs.Happens.{CanStop, Stops};
ghost use Rattle.rdf_core.specs.Lines.{around};
ghost use Rattle.rdf_core.specs.Sessions.{is_backup_node};
ghost use Rattle.by_node.specs.Each.{at};
ghost use Rattle.rdf_core.specs.State.{with_backup};
ghost use Rattle.rdf_core.specs.Step.{points_now};
ghost use Rattle.backup_machine.specs.Lines.{first_of, first_unless};
ghost use Rattle.rdf_machine.specs.Machines.{state_of, AreFollowing, AreKept};
ghost use Rattle.rdf_machine.specs.OfNodes.{is_on_backup};

use crate::parts::Parts;
use plan_lang::lines::Line;
use rdf_core::replies::Reply;
use rdf_types::layout::Layout;
use rdf_types::records::Node;
use std::alloc::AllocError;

/// Whether the line uses the disks of a backup.
fn is_on_backup(line: &Line) -> bool
    ensures { result ≡ is_on_backup line.now }
{
    match line {
        Line::Deliver { .. } => true,
        Line::Purge { .. } => true,
        Line::Takeover { .. } => true,
        Line::CopyAudit { .. } => true,
        Line::List { node, .. } => is_backup_node(*node),
        Line::Restart { node } => is_backup_node(*node),
        _ => false,
    }
}

pub(crate) fn is_backup_node(node: Node) -> bool
    ensures { result ≡ is_backup_node node }
{
    !matches!(node, Node::A)
}

impl Parts {
    /// The first durable parts of a copy from one backup to another.
    fn copy_first(
        &mut self,
        layout: &Layout,
        node: Node,
        from: Node,
        done: u32,
    ) -> Result<(), AllocError>
        requires kept { AreKept layout.now self.old }
        ensures ok { OnOk result (let s = state_of self.old in let b = at s.backups node in let lead = at s.backups from in
            state_of self.new ≡ with_backup s node (first_unless (copy_refusal b lead) b (copy_parts layout.now b lead) done)) }
        ensures kept { AreKept layout.now self.new }
        ensures err { OnErr result (state_of self.new ≡ state_of self.old) }
    {
        if self.bar_copy(node, from).is_some() {
            return Ok(());
        }
        let upto = self.received(from);
        self.store_up_to(layout, node, upto, Some(done))
    }

    /// The first durable parts of a line on a backup.
    fn first_parts(
        &mut self,
        layout: &Layout,
        node: Node,
        line: &Line,
        done: u32,
    ) -> Result<(), AllocError>
        requires follow { AreFollowing layout.now self.old }
        ensures ok { OnOk result (let s = state_of self.old in let w = around (points_now layout.now s node) s line.now in
            state_of self.new ≡ with_backup s node (first_of layout.now w line.now (at s.backups node) done)) }
        ensures kept { AreKept layout.now self.new }
        ensures err { OnErr result (state_of self.new ≡ state_of self.old) }
    {
        if let Line::CopyAudit { from, .. } = line {
            return self.copy_first(layout, node, *from, done);
        }
        let outside = self.outside(line);
        self.backups
            .get_mut(node)
            .first_parts(layout, self.primary.trail(), outside, line, done)
    }

    /// The first durable parts of a line, off which a stop of a disk of the node cuts it; the node is down then. An `Err` is
    /// want of memory, and leaves all as it was.
    pub fn stop(
        &mut self,
        layout: &Layout,
        node: Node,
        line: &Line,
        done: u32,
    ) -> Result<Reply, AllocError>
        requires follow { AreFollowing layout.now self.old }
        requires can { CanStop layout.now (state_of self.old) node line.now done }
        ensures ok { IfOk result (λ reply. Stops layout.now (state_of self.old) node line.now done reply (state_of self.new)) }
        ensures kept { AreKept layout.now self.new }
        ensures err { OnErr result (state_of self.new ≡ state_of self.old) }
    {
        if !is_on_backup(line) {
            return self.primary.stop(layout, line, done);
        }
        self.first_parts(layout, node, line, done)?;
        self.fall(node);
        Ok(Reply::Stopped { node })
    }
}
