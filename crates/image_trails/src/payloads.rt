//! The payloads of an image disk's blocks.
ghost use Rattle.std.specs.Prelude.{◌≡◌, IfOk};
ghost use Rattle.rdf_gatelog.specs.Log.{IsPayload};
ghost use Rattle.rdf_codec.specs.Ships.{HasShipSpelling};
ghost use Rattle.image_disks.specs.Blocks.{Start, Ship as ShipBlock, Mark};
ghost use Rattle.image_disks.specs.Spelled.{block_of};

use rdf_codec::image_blocks::{write_mark, write_shipped, write_start};
use rdf_codec::laws::{image_block_fits, image_blocks_read};
use rdf_types::records::{Phase, Pos, Stamped};
use std::alloc::{AllocError, Global};

/// The payload of the start of a generation.
pub(crate) fn start_payload(alloc: Global, start: Pos, phase: Phase) -> Result<Vec<u8>, AllocError>
    ensures fits { IfOk result (λ payload. IsPayload payload.items) }
    ensures block { IfOk result (λ payload. block_of payload.items ≡ Start start phase) }
{
    image_block_fits();
    image_blocks_read();
    let mut payload = Vec::new(alloc);
    write_start(start, phase, &mut payload)?;
    Ok(payload)
}

/// The payload of a block of a shipment's records.
pub(crate) fn ship_payload(
    alloc: Global,
    from: Pos,
    to: Pos,
    part: &[Stamped],
) -> Result<Vec<u8>, AllocError>
    requires { HasShipSpelling (record { from = from; to = to; part = part.now }) }
    ensures fits { IfOk result (λ payload. IsPayload payload.items) }
    ensures block { IfOk result (λ payload. block_of payload.items ≡ ShipBlock from to part.now) }
{
    image_block_fits();
    image_blocks_read();
    let mut payload = Vec::new(alloc);
    write_shipped(from, to, part, &mut payload)?;
    Ok(payload)
}

/// The payload of a mark.
pub(crate) fn mark_payload(alloc: Global, phase: Phase) -> Result<Vec<u8>, AllocError>
    ensures fits { IfOk result (λ payload. IsPayload payload.items) }
    ensures block { IfOk result (λ payload. block_of payload.items ≡ Mark phase) }
{
    image_block_fits();
    image_blocks_read();
    let mut payload = Vec::new(alloc);
    write_mark(phase, &mut payload)?;
    Ok(payload)
}
