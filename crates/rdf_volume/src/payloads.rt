//! The payload of a batch.
ghost use Rattle.std.specs.Prelude.{◌≡◌, ◌≤◌, length, Ok, IfOk};
ghost use Rattle.rdf_gatelog.specs.Log.{IsPayload};
ghost use Rattle.rdf_codec.specs.declared.volume_blocks.VolumeBlock.TheVariants as block;
ghost use Rattle.rdf_codec.specs.VolumeReading.{volume_block_of};

use rdf_codec::laws::{volume_block_fits, volume_blocks_read};
use rdf_codec::volume_blocks::write_batch;
use rdf_types::records::{Change, Pos};
use std::alloc::{AllocError, Global};

/// Room for most payloads: a batch of one change. Longer ones make more.
const ROOM: usize = 128;

/// The payload of a batch.
pub fn batch_payload(alloc: Global, restart: Pos, batch: &[Change]) -> Result<Vec<u8>, AllocError>
    requires { length batch.now ≤ 64 }
    ensures fits { IfOk result (λ payload. IsPayload payload.items) }
    ensures block { IfOk result (λ payload. volume_block_of payload.items ≡ Ok (block.Batch restart batch.now)) }
{
    volume_block_fits();
    volume_blocks_read();
    let mut payload = Vec::with_capacity(alloc, ROOM)?;
    write_batch(restart, batch, &mut payload)?;
    Ok(payload)
}
