//! The senders to all nodes.
ghost use Rattle.std.specs.Prelude.{◌≡◌, ◌≤◌, ℕ, List, length, slice_get, Some, None, IfOk, IfSome, OnOk, OnErr, MatchOption, option_copied};
ghost use Rattle.rdf_types.specs.declared.layout.Layout.{Layout as AnyLayout};
ghost use Rattle.rdf_types.specs.declared.records.Record.{Record};
ghost use Rattle.by_node.specs.Each.{Each, at, with_at, every, map_each};
ghost use Rattle.audit_trail.specs.InUse.{trail_of};
ghost use Rattle.rdf_core.specs.declared.replies.Reply.TheVariants.{Number};
ghost use Rattle.rdf_core.specs.Sender.{Sender, after_send, send_reply, after_ack, after_rewind, forgotten};
ghost use Rattle.rdf_core.specs.State.{idle_sender};
ghost use Rattle.senders.specs.Sending.{with_sent, IsSomeSent, AreSomeSent, IsMessage, IsOfSend, AreSenders};

use crate::building::built;
use audit_trail::AuditTrail;
use by_node::ByNode;
use extractor::Extractor;
use rdf_core::replies::Reply;
use rdf_disk::Disk;
use rdf_types::layout::Layout;
use rdf_types::records::{Node, Pos};
use rdf_wire::wire::Wire;
use std::alloc::{AllocError, Global};
use std::marker::Model;

/// An extractor for each node, and the wire with all that was sent. Nothing is sent to the primary, and what is asked of its
/// sender changes that alone.
#[derive(Drop)]
pub struct Senders {
    extractors: ByNode<Extractor>,
    wire: Wire,
}

impl Model for Senders {
    ghost use Rattle.senders.specs.Sending.{Sending, AreSomeSent};

    ghost Value = { Sending };

    ghost view = { λ a. record { progress = a.extractors; messages = a.wire } };

    ghost invariant = { λ a. AreSomeSent a.wire };
}

impl Senders {
    /// Nothing sent.
    pub fn new(alloc: Global) -> Senders
        ensures { (layout : AnyLayout) (trail : List Record) → AreSenders layout trail (every idle_sender) result }
    {
        Senders {
            extractors: ByNode::every(Extractor::new()),
            wire: Wire::new(alloc),
        }
    }

    /// The line `send`: the message on the next positions of the trail, at most so many, is sent to the backup. An `Err`
    /// leaves all as it was.
    pub fn send<D: Disk>(
        &mut self,
        alloc: Global,
        trail: &AuditTrail<D>,
        layout: &Layout,
        node: Node,
        most: u32,
    ) -> Result<Reply, AllocError>
        requires some { 1 ≤ most }
        requires few { most ≤ 64 }
        ensures reply { (machine : Each Sender) → AreSenders layout.now (trail_of trail.now) machine self.old →
            IfOk result (λ reply. reply ≡ send_reply (length (trail_of trail.now)) most (at machine node)) }
        ensures ok { (machine : Each Sender) → AreSenders layout.now (trail_of trail.now) machine self.old →
            OnOk result (AreSenders layout.now (trail_of trail.now) (with_at machine node (after_send (length (trail_of trail.now)) most (at machine node))) self.new) }
        ensures kind { IfOk result IsOfSend }
        ensures err { OnErr result (self.new ≡ self.old) }
    {
        let from = self.next(node);
        let mut moved = self.extractor(node);
        match built(&mut moved, alloc, trail, layout, most)? {
            Some(bytes) => {
                let k = self.post(node, moved, bytes)?;
                let to = moved.next();
                Ok(Reply::Sent { k, from, to })
            }
            None => Ok(Reply::NoneSent),
        }
    }

    /// The line `ack`, which carries the number that the backup has received to its extractor.
    pub fn ack(&mut self, node: Node, received: Pos) -> Reply
        ensures reply { result ≡ Number received }
        ensures done { (layout : AnyLayout) (trail : List Record) (machine : Each Sender) → AreSenders layout trail machine self.old →
            AreSenders layout trail (with_at machine node (after_ack received (at machine node))) self.new }
    {
        self.extractors.get_mut(node).on_ack(received);
        Reply::Number { n: received }
    }

    /// The line `rewind`: what was not acknowledged is sent again.
    pub fn rewind(&mut self, node: Node) -> Reply
        ensures reply { (layout : AnyLayout) (trail : List Record) (machine : Each Sender) → AreSenders layout trail machine self.old →
            result ≡ Number (at machine node).acked }
        ensures told { result ≡ Number (at self.new.progress node).next }
        ensures done { (layout : AnyLayout) (trail : List Record) (machine : Each Sender) → AreSenders layout trail machine self.old →
            AreSenders layout trail (with_at machine node (after_rewind (at machine node))) self.new }
    {
        self.extractors.get_mut(node).rewind();
        Reply::Number { n: self.next(node) }
    }

    /// What a restart of the primary forgets: how far the extractors were. What was sent stays.
    pub fn forget(&mut self)
        ensures { (layout : AnyLayout) (trail : List Record) (machine : Each Sender) → AreSenders layout trail machine self.old →
            AreSenders layout trail (map_each forgotten machine) self.new }
    {
        self.extractors = ByNode::every(Extractor::new());
    }

    /// The message that was sent to the backup under this number.
    pub fn message(&self, node: Node, k: u32) -> Option<&[u8]>
        ensures message { (layout : AnyLayout) (trail : List Record) (machine : Each Sender) → AreSenders layout trail machine self.now →
            MatchOption result (slice_get (at machine node).sent k ≡ None) (λ bytes. (range : ℕ × ℕ) × (slice_get (at machine node).sent k ≡ Some range) × IsMessage layout trail range bytes.now) }
        ensures sent { IfSome result (λ bytes. IsSomeSent bytes.now) }
    {
        self.posted(node, k)
    }

    fn posted(&self, node: Node, k: u32) -> Option<&[u8]>
        ensures value { option_copied result ≡ slice_get (at self.now.messages node) k }
        ensures sent { AreSomeSent self.now.messages }
    {
        self.wire.get(node, k)
    }

    fn extractor(&self, node: Node) -> Extractor
        ensures { result ≡ at self.now.progress node }
    {
        *self.extractors.get(node)
    }

    fn next(&self, node: Node) -> Pos
        ensures { result ≡ (at self.now.progress node).next }
    {
        self.extractor(node).next()
    }

    /// Sends the bytes, behind which the extractor is then. An `Err` leaves all as it was.
    fn post(&mut self, node: Node, moved: Extractor, bytes: Vec<u8>) -> Result<u32, AllocError>
        requires { IsSomeSent bytes.items }
        ensures number { IfOk result (λ k. k ≡ length (at self.old.messages node)) }
        ensures ok { OnOk result (self.new ≡ with_sent self.old node moved bytes.items) }
        ensures err { OnErr result (self.new ≡ self.old) }
    {
        let k = self.wire.send(node, bytes)?;
        self.extractors.set(node, moved);
        Ok(k)
    }
}
