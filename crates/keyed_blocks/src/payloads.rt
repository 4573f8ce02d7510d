//! The payloads of a base's blocks.
ghost use Rattle.std.specs.Prelude.{◌≡◌, ◌≤◌, length, Ok, IfOk};
ghost use Rattle.rdf_codec.specs.declared.volume_blocks.VolumeBlock.TheVariants as block;
ghost use Rattle.rdf_codec.specs.VolumeBlocks.{index_spelling, FillsBlock, FillsIndex};
ghost use Rattle.rdf_codec.specs.VolumeReading.{volume_block_of};
ghost use Rattle.rdf_gatelog.specs.Log.{IsPayload};

use rdf_codec::index_entries::{IndexEntry, write_index};
use rdf_codec::laws::{volume_block_fits, volume_blocks_read};
use rdf_codec::volume_blocks::{write_end, write_rows};
use rdf_types::records::{Pos, Row};
use std::alloc::{AllocError, Global};

/// The most bytes of a payload of rows or of an index.
pub(crate) const MOST_BYTES: usize = 4096;

/// How many bytes an end has.
const END_BYTES: usize = 17;

/// The payload of a block of rows.
pub fn rows_payload(alloc: Global, rows: &[Row]) -> Result<Vec<u8>, AllocError>
    requires { FillsBlock rows.now }
    ensures fits { IfOk result (λ payload. IsPayload payload.items) }
    ensures block { IfOk result (λ payload. volume_block_of payload.items ≡ Ok (block.Rows rows.now)) }
{
    volume_block_fits();
    volume_blocks_read();
    let mut payload = Vec::with_capacity(alloc, MOST_BYTES)?;
    write_rows(rows, &mut payload)?;
    Ok(payload)
}

/// The payload of a block of an index.
pub fn index_payload(alloc: Global, entries: &[IndexEntry]) -> Result<Vec<u8>, AllocError>
    requires fills { FillsIndex entries.now }
    requires few { length (index_spelling entries.now) ≤ 4096 }
    ensures fits { IfOk result (λ payload. IsPayload payload.items) }
    ensures block { IfOk result (λ payload. volume_block_of payload.items ≡ Ok (block.Index entries.now)) }
{
    volume_block_fits();
    volume_blocks_read();
    let mut payload = Vec::with_capacity(alloc, MOST_BYTES)?;
    write_index(entries, &mut payload)?;
    Ok(payload)
}

/// The payload of an end of a base.
pub fn end_payload(
    alloc: Global,
    restart: Pos,
    rows: u32,
    blocks: u32,
) -> Result<Vec<u8>, AllocError>
    ensures fits { IfOk result (λ payload. IsPayload payload.items) }
    ensures block { IfOk result (λ payload. volume_block_of payload.items ≡ Ok (block.End restart rows blocks)) }
{
    volume_block_fits();
    volume_blocks_read();
    let mut payload = Vec::with_capacity(alloc, END_BYTES)?;
    write_end(restart, rows, blocks, &mut payload)?;
    Ok(payload)
}
