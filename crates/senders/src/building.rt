//! The next message of an extractor, as bytes.
ghost use Rattle.std.specs.Prelude.{◌≡◌, ◌≤◌, IfOk, OnOk, option_map};
ghost use Rattle.rdf_codec.specs.Messages.{HasMessageSpelling, IsMessage, message_spelling};
ghost use Rattle.audit_trail.specs.InUse.{trail_of};
ghost use Rattle.senders.specs.Sending.{Builds};

use audit_trail::AuditTrail;
use extractor::Extractor;
use rdf_disk::Disk;
use rdf_types::layout::Layout;
use rdf_wire::{Message, write_message};
use std::alloc::{AllocError, Global};

/// The message's bytes.
fn spelled(alloc: Global, message: &Message) -> Result<Vec<u8>, AllocError>
    requires { HasMessageSpelling message.now }
    ensures bytes { IfOk result (λ bytes. bytes.items ≡ message_spelling message.now) }
    ensures limits { OnOk result (IsMessage message.now) }
{
    let mut bytes = Vec::new(alloc);
    write_message(message, &mut bytes)?;
    Ok(bytes)
}

/// The bytes of the extractor's next message, where the trail has a further position. What an `Err` leaves of the extractor
/// is not to be used.
pub fn built<D: Disk>(
    extractor: &mut Extractor,
    alloc: Global,
    trail: &AuditTrail<D>,
    layout: &Layout,
    most: u32,
) -> Result<Option<Vec<u8>>, AllocError>
    requires some { 1 ≤ most }
    requires few { most ≤ 64 }
    ensures { IfOk result (λ sent. Builds layout.now (trail_of trail.now) most extractor.old (option_map (λ v. v.items) sent) extractor.new) }
{
    match extractor.build(alloc, trail, layout, most)? {
        Some(message) => Ok(Some(spelled(alloc, &message)?)),
        None => Ok(None),
    }
}
