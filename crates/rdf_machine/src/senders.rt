//! The extractor and the wire of one backup, in the machine.
ghost use Rattle.std.specs.Prelude.{[], ◌≡◌, IfOk, OnOk, OnErr, ◌<◌, slice_get};
ghost use Rattle.rdf_core.specs.Sender.{Sender, after_send, send_reply, after_ack, after_rewind, forgotten};

use rdf_core::replies::Reply;
use rdf_types::records::Pos;
use std::alloc::{AllocError, Global};
use std::marker::Model;

/// How far a sender is, and the range of each message that it sent.
#[derive(Drop)]
pub struct SenderState {
    next: Pos,
    acked: Pos,
    sent: Vec<(Pos, Pos)>,
}

impl Model for SenderState {
    ghost use Rattle.rdf_core.specs.Sender.{Sender};

    ghost Value = { Sender };

    ghost view = { λ a. record { next = a.next; acked = a.acked; sent = a.sent.items } };
}

impl SenderState {
    /// Nothing sent.
    pub fn new(alloc: Global) -> SenderState
        ensures { result ≡ record { next = 0; acked = 0; sent = [] } }
    {
        SenderState {
            next: 0,
            acked: 0,
            sent: Vec::new(alloc),
        }
    }

    /// The line `send`, over a trail of this length.
    pub fn send(&mut self, len: Pos, most: u32) -> Result<Reply, AllocError>
        ensures ok { OnOk result (self.new ≡ after_send len most self.old) }
        ensures reply { IfOk result (λ reply. reply ≡ send_reply len most self.old) }
        ensures err { OnErr result (self.new ≡ self.old) }
    {
        if self.next < len {
            let from = self.next;
            let to = from.saturating_add(u64::from(most)).min(len);
            let k = self.sent.len().min(4_294_967_295) as u32;
            self.sent.push((from, to))?;
            self.next = to;
            Ok(Reply::Sent { k, from, to })
        } else {
            Ok(Reply::NoneSent)
        }
    }

    /// The range of the message with this number.
    pub fn message(&self, k: u32) -> Option<(Pos, Pos)>
        ensures { result ≡ slice_get self.now.sent k }
    {
        self.sent.get(k as usize).copied()
    }

    /// The position that was acknowledged.
    pub fn acked(&self) -> Pos
        ensures { result ≡ self.now.acked }
    {
        self.acked
    }

    /// The line `ack`, which carries the received number.
    pub fn ack(&mut self, received: Pos)
        ensures { self.new ≡ after_ack received self.old }
    {
        self.acked = self.acked.max(received);
    }

    /// The line `rewind`.
    pub fn rewind(&mut self)
        ensures { self.new ≡ after_rewind self.old }
    {
        self.next = self.acked;
    }

    /// What a restart of the primary forgets.
    pub fn forget(&mut self)
        ensures { self.new ≡ forgotten self.old }
    {
        self.next = 0;
        self.acked = 0;
    }
}
