//! The extractor of one backup.
ghost use Rattle.std.specs.Prelude.{◌≡◌, ◌≤◌, ◌↔◌, length, filter, IfOk, OnOk, OnErr, IfSome, IsNone};
ghost use Rattle.rdf_codec.specs.Messages.{HasMessageSpelling};
ghost use Rattle.rdf_model.specs.Window.{concerns};
ghost use Rattle.audit_trail.specs.InUse.{trail_of};
ghost use Rattle.extractor.specs.Extract.{at_start, protects, next_message, after_build, after_ack, after_rewind};

use crate::laws::parts_are_spelled;
use audit_trail::AuditTrail;
use rdf_codec::entries::Entries;
use rdf_codec::ships::Ship;
use rdf_disk::Disk;
use rdf_types::layout::Layout;
use rdf_types::records::{Pos, Record, Stamped};
use rdf_wire::Message;
use std::alloc::{AllocError, Global};
use std::marker::Model;

/// Reads the audit trail for one backup. By the RDF System Management Manual there is an extractor on the primary for each
/// backup. It takes what concerns the protected volumes, so that it can be sent.
#[derive(Clone, Copy)]
pub struct Extractor {
    next: Pos,
    acked: Pos,
}

impl Model for Extractor {
    ghost use Rattle.extractor.specs.Extract.{Progress};

    ghost Value = { Progress };

    ghost view = { λ a. record { next = a.next; acked = a.acked } };

    ghost inverse = { λ p. record { next = p.next; acked = p.acked } };
}

impl Extractor {
    /// An extractor at the start of the trail, as after each restart of the primary.
    pub fn new() -> Extractor
        ensures { result ≡ at_start }
    {
        Extractor { next: 0, acked: 0 }
    }

    /// The message on the next positions, at most so many, with all outcomes there and the images on protected volumes. There
    /// is none where the trail has no further position.
    pub fn build<D: Disk>(
        &mut self,
        alloc: Global,
        trail: &AuditTrail<D>,
        layout: &Layout,
        most: u32,
    ) -> Result<Option<Message>, AllocError>
        requires some { 1 ≤ most }
        requires few { most ≤ 64 }
        ensures message { IfOk result (λ sent. sent ≡ next_message (protects layout.now) (trail_of trail.now) most self.old) }
        ensures none { IfOk result (λ sent. IsNone sent ↔ (length (trail_of trail.now) ≤ self.old.next)) }
        // It can be written.
        ensures spelled { IfOk result (λ sent. IfSome sent HasMessageSpelling) }
        ensures moved { OnOk result (self.new ≡ after_build (length (trail_of trail.now)) most self.old) }
        ensures err { OnErr result (self.new ≡ self.old) }
    {
        parts_are_spelled();
        let from = self.next;
        let len = trail.len();
        if len <= from {
            return Ok(None);
        }
        let to = from.saturating_add(u64::from(most)).min(len);
        let mut part = trail.records_from(alloc, from, most)?;
        keep_concerned(layout, &mut part);
        self.next = to;
        let part = Entries::new(part);
        Ok(Some(Message::Ship {
            ship: Ship { from, to, part },
        }))
    }

    /// Notes that the backup has received the positions below this one. An older acknowledgement changes nothing.
    pub fn on_ack(&mut self, received: Pos)
        ensures { self.new ≡ after_ack received self.old }
    {
        self.acked = self.acked.max(received);
    }

    /// Goes back to the position that was acknowledged, so that what was lost on the way is sent again.
    pub fn rewind(&mut self)
        ensures { self.new ≡ after_rewind self.old }
    {
        self.next = self.acked;
    }

    /// The next position to send.
    pub fn next(&self) -> Pos
        ensures { result ≡ self.now.next }
    {
        self.next
    }

    /// The position below which the backup has acknowledged all.
    pub fn acked(&self) -> Pos
        ensures { result ≡ self.now.acked }
    {
        self.acked
    }
}

/// Whether a record is an outcome, or an image on a protected volume.
fn is_concerned(layout: &Layout, rec: &Record) -> bool
    ensures { result ≡ concerns (protects layout.now) rec.now }
{
    match rec {
        Record::Image { vol, .. } => {
            let flags = layout.protect.flags();
            let vol = vol.number() as usize;
            vol < flags.len() && flags[vol]
        }
        Record::Commit { .. } => true,
        Record::Abort { .. } => true,
    }
}

/// Leaves what concerns the protected volumes.
fn keep_concerned(layout: &Layout, part: &mut Vec<Stamped>)
    ensures { part.new.items ≡ filter (λ s. concerns (protects layout.now) s.rec) part.old.items }
{
    part.retain(|stamped| is_concerned(layout, &stamped.rec));
}
