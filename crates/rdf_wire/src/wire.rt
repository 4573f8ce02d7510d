//! The wire between the nodes.
ghost use Rattle.std.specs.Prelude.{◌≡◌, ◌≤◌, ◌↔◌, [], length, IfOk, OnOk, OnErr, IsNone, option_copied, slice_get};
ghost use Rattle.by_node.specs.Each.{at, every};
ghost use Rattle.rdf_wire.specs.Posted.{with_message};

use crate::sent::Sent;
use by_node::ByNode;
use rdf_types::records::Node;
use std::alloc::{AllocError, Global};
use std::marker::Model;

/// The messages that were sent to each node. Each keeps its number, from 0 on, and can be delivered as often as wanted.
#[derive(Drop)]
pub struct Wire {
    sent: ByNode<Sent>,
}

impl Model for Wire {
    ghost use Rattle.rdf_wire.specs.Posted.{Posted};

    ghost Value = { Posted };

    ghost view = { λ w. w.sent };
}

impl Wire {
    /// A wire on which nothing was sent.
    pub fn new(alloc: Global) -> Wire
        ensures { result ≡ every [] }
    {
        Wire {
            sent: ByNode::new(Sent::new(alloc), Sent::new(alloc), Sent::new(alloc)),
        }
    }

    /// Sends the bytes to the node, and answers their number. An `Err` leaves the wire as it was; the 4,294,967,295
    /// messages that a node can be sent are such a want of memory too.
    pub fn send(&mut self, node: Node, bytes: Vec<u8>) -> Result<u32, AllocError>
        ensures number { IfOk result (λ k. k ≡ length (at self.old node)) }
        ensures ok { OnOk result (self.new ≡ with_message node bytes.items self.old) }
        ensures err { OnErr result (self.new ≡ self.old) }
    {
        self.sent.get_mut(node).push(bytes)
    }

    /// The message that was sent to the node under this number.
    pub fn get(&self, node: Node, k: u32) -> Option<&[u8]>
        ensures value { option_copied result ≡ slice_get (at self.now node) k }
        ensures none { IsNone result ↔ (length (at self.now node) ≤ k) }
    {
        self.sent.get(node).get(k)
    }

    /// How many messages were sent to the node.
    pub fn count(&self, node: Node) -> u32
        ensures { result ≡ length (at self.now node) }
    {
        self.sent.get(node).count()
    }
}
