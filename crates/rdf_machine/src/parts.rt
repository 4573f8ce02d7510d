//! The parts of the whole system, and which of them a line is for.
ghost use Rattle.std.specs.Prelude.{◌≡◌, true, IfOk, OnOk, OnErr};
ghost use Rattle.plan_lang.specs.declared.lines.Line.TheVariants as line;
ghost use Rattle.rdf_types.specs.declared.records.Node.TheVariants.{A};
ghost use Rattle.rdf_core.specs.Happens.{Does};
ghost use Rattle.rdf_core.specs.Lines.{message_of};
ghost use Rattle.rdf_core.specs.Backup.{copy_refusal, needs_up};
ghost use Rattle.rdf_core.specs.Primary.{is_lost};
ghost use Rattle.rdf_core.specs.Sessions.{is_backup_node};
ghost use Rattle.by_node.specs.Each.{at};
ghost use Rattle.rdf_core.specs.State.{blank, with_backup};
ghost use Rattle.rdf_core.specs.Step.{is_for_backup, is_for_primary};
ghost use Rattle.backup_machine.specs.Budgets.{after_some};
ghost use Rattle.backup_machine.specs.Kept.{backup_of};
ghost use Rattle.backup_machine.specs.Lines.{copied_parts};
ghost use Rattle.backup_machine.specs.Owned.{is_own};
ghost use Rattle.rdf_machine.specs.Machines.{state_of, AreFollowing, AreKept};

use crate::index::TrailIndex;
use crate::senders::SenderState;
use backup_machine::backup::BackupState;
use backup_machine::budget::Budget;
use backup_machine::line::Outside;
use backup_machine::session::SessionState;
use by_node::ByNode;
use plan_lang::lines::Line;
use primary_machine::primary::PrimaryState;
use rdf_core::replies::{NoWhy, Reply};
use rdf_types::layout::Layout;
use rdf_types::records::{Node, Pos};
use std::alloc::{AllocError, Global};

/// The primary, the extractors, the backups and the session.
#[derive(Drop)]
pub struct Parts {
    pub(crate) alloc: Global,
    pub(crate) primary: PrimaryState,
    /// The extractor for each backup.
    pub(crate) senders: ByNode<SenderState>,
    /// The backups. Nothing is asked of one that the layout does not have.
    pub(crate) backups: ByNode<BackupState>,
    pub(crate) session: SessionState,
    /// Where the images of each place stand in the trail, as far as reads asked for it.
    pub(crate) index: TrailIndex,
}

impl Parts {
    /// The start: an empty trail, all nodes up, nothing sent and nothing received.
    pub fn new(alloc: Global, layout: &Layout) -> Result<Parts, AllocError>
        ensures blank { IfOk result (λ parts. state_of parts ≡ blank layout.now) }
        ensures kept { IfOk result (λ parts. AreKept layout.now parts) }
    {
        let a = BackupState::new(alloc, layout)?;
        let b = BackupState::new(alloc, layout)?;
        let c = BackupState::new(alloc, layout)?;
        Ok(Parts {
            alloc,
            primary: PrimaryState::new(alloc),
            senders: ByNode::new(
                SenderState::new(alloc),
                SenderState::new(alloc),
                SenderState::new(alloc),
            ),
            backups: ByNode::new(a, b, c),
            session: SessionState::Closed,
            index: TrailIndex::new(alloc),
        })
    }

    /// A line on the primary alone.
    pub(crate) fn on_primary(&mut self, layout: &Layout, line: &Line) -> Result<Reply, AllocError>
        requires follow { AreFollowing layout.now self.old }
        requires primary { is_for_primary line.now ≡ true }
        ensures ok { IfOk result (λ reply. Does layout.now (state_of self.old) line.now reply (state_of self.new)) }
        ensures kept { AreKept layout.now self.new }
        ensures err { OnErr result (state_of self.new ≡ state_of self.old) }
    {
        self.primary.line(layout, line)
    }

    // The extractors forget how far they were.
    pub(crate) fn restart_primary(&mut self, layout: &Layout) -> Result<Reply, AllocError>
        requires follow { AreFollowing layout.now self.old }
        ensures ok { IfOk result (λ reply. Does layout.now (state_of self.old) (line.Restart A) reply (state_of self.new)) }
        ensures kept { AreKept layout.now self.new }
        ensures err { OnErr result (state_of self.new ≡ state_of self.old) }
    {
        match self.primary.restart(layout)? {
            Reply::Number { n } => {
                self.senders.get_mut(Node::A).forget();
                self.senders.get_mut(Node::B).forget();
                self.senders.get_mut(Node::C).forget();
                Ok(Reply::Number { n })
            }
            refused => Ok(refused),
        }
    }

    pub(crate) fn send(
        &mut self,
        layout: &Layout,
        node: Node,
        most: u32,
    ) -> Result<Reply, AllocError>
        requires kept { AreKept layout.now self.old }
        ensures ok { IfOk result (λ reply. Does layout.now (state_of self.old) (line.Send node most) reply (state_of self.new)) }
        ensures kept { AreKept layout.now self.new }
        ensures err { OnErr result (state_of self.new ≡ state_of self.old) }
    {
        if let Some(why) = self.primary.off() {
            return Ok(Reply::No { why });
        }
        let len = self.primary.len();
        self.senders.get_mut(node).send(len, most)
    }

    pub(crate) fn rewind(&mut self, layout: &Layout, node: Node) -> Reply
        requires kept { AreKept layout.now self.old }
        ensures done { Does layout.now (state_of self.old) (line.Rewind node) result (state_of self.new) }
        ensures kept { AreKept layout.now self.new }
    {
        if let Some(why) = self.primary.off() {
            return Reply::No { why };
        }
        self.senders.get_mut(node).rewind();
        Reply::Number {
            n: self.acked(node),
        }
    }

    fn acked(&self, node: Node) -> Pos
        ensures { result ≡ (at (state_of self.now).senders node).acked }
    {
        self.senders.get(node).acked()
    }

    /// The backup of the node.
    pub(crate) fn backup(&self, node: Node) -> &BackupState
        ensures is { result.now ≡ at self.now.backups node }
        ensures of { backup_of result.now ≡ at (state_of self.now).backups node }
    {
        self.backups.get(node)
    }

    pub(crate) fn received(&self, node: Node) -> Pos
        ensures { result ≡ (at (state_of self.now).backups node).received }
    {
        self.backup(node).received()
    }

    /// Why the backup is off.
    pub(crate) fn backup_off(&self, node: Node) -> Option<NoWhy>
        ensures { result ≡ needs_up (at (state_of self.now).backups node) }
    {
        self.backup(node).off()
    }

    pub(crate) fn ack(&mut self, layout: &Layout, node: Node) -> Reply
        requires kept { AreKept layout.now self.old }
        ensures done { Does layout.now (state_of self.old) (line.Ack node) result (state_of self.new) }
        ensures kept { AreKept layout.now self.new }
    {
        if let Some(why) = self.primary.off() {
            return Reply::No { why };
        }
        if let Some(why) = self.backup_off(node) {
            return Reply::No { why };
        }
        let n = self.received(node);
        self.senders.get_mut(node).ack(n);
        Reply::Number { n }
    }

    /// The range of the message that the line names.
    fn message(&self, line: &Line) -> Option<(Pos, Pos)>
        ensures { result ≡ message_of (state_of self.now) line.now }
    {
        match line {
            Line::Deliver { node, k } => self.senders.get(*node).message(*k),
            _ => None,
        }
    }

    /// What a line on a backup needs of the rest.
    pub(crate) fn outside(&self, line: &Line) -> Outside
        ensures lost { result.lost ≡ is_lost self.now.primary.standing }
        ensures message { result.message ≡ message_of (state_of self.now) line.now }
    {
        Outside {
            lost: self.primary.is_lost(),
            message: self.message(line),
        }
    }

    /// A line on one backup.
    pub(crate) fn on_backup(
        &mut self,
        layout: &Layout,
        node: Node,
        line: &Line,
    ) -> Result<Reply, AllocError>
        requires follow { AreFollowing layout.now self.old }
        requires backup { is_backup_node node ≡ true }
        requires own { is_own line.now ≡ true }
        requires of { is_for_backup node line.now ≡ true }
        ensures ok { IfOk result (λ reply. Does layout.now (state_of self.old) line.now reply (state_of self.new)) }
        ensures kept { AreKept layout.now self.new }
        ensures err { OnErr result (state_of self.new ≡ state_of self.old) }
    {
        let outside = self.outside(line);
        self.backups
            .get_mut(node)
            .line(layout, self.primary.trail(), outside, line)
    }

    /// Why the one backup takes no audit from the other.
    pub(crate) fn bar_copy(&self, node: Node, from: Node) -> Option<NoWhy>
        ensures { let s = state_of self.now in result ≡ copy_refusal (at s.backups node) (at s.backups from) }
    {
        self.backup(node).bar_copy(self.backup(from))
    }

    /// The backup stores messages up to a position, or their first durable parts. An `Err` leaves all as it was.
    pub(crate) fn store_up_to(
        &mut self,
        layout: &Layout,
        node: Node,
        upto: Pos,
        most: Budget,
    ) -> Result<(), AllocError>
        ensures ok { OnOk result (let s = state_of self.old in let b = at s.backups node in
            state_of self.new ≡ with_backup s node (after_some b (copied_parts layout.now upto b) most)) }
        ensures kept { AreKept layout.now self.old → AreKept layout.now self.new }
        ensures err { OnErr result (state_of self.new ≡ state_of self.old) }
    {
        self.backups.get_mut(node).copy(layout, upto, most)
    }

    /// One backup takes audit from the other.
    pub(crate) fn copy(
        &mut self,
        layout: &Layout,
        node: Node,
        from: Node,
    ) -> Result<Reply, AllocError>
        requires kept { AreKept layout.now self.old }
        ensures ok { IfOk result (λ reply. Does layout.now (state_of self.old) (line.CopyAudit node from) reply (state_of self.new)) }
        ensures kept { AreKept layout.now self.new }
        ensures err { OnErr result (state_of self.new ≡ state_of self.old) }
    {
        if let Some(why) = self.bar_copy(node, from) {
            return Ok(Reply::No { why });
        }
        let upto = self.received(from);
        let n = upto.saturating_sub(self.received(node));
        self.store_up_to(layout, node, upto, None)?;
        Ok(Reply::Number { n })
    }
}
