//! One block of rows, read from its log.
ghost use Rattle.std.specs.Prelude.{◌≡◌, ℕ, List, Ok, Err, IfOk};
ghost use Rattle.rdf_types.specs.declared.records.Row.{Row};
ghost use Rattle.rdf_disk.specs.Counts.{Causes};
ghost use Rattle.rdf_disk.specs.Counts.Ending.{Fine};
ghost use Rattle.rdf_codec.specs.declared.volume_blocks.VolumeBlock.TheVariants as block;
ghost use Rattle.rdf_codec.specs.VolumeReading.{volume_block_of};
ghost use Rattle.rdf_gatelog.specs.Log.{IsAtRest};
ghost use Rattle.rdf_gatelog.specs.LogCalls.{OnlyLooks};
ghost use Rattle.rdf_gatelog.specs.LogCauses.{ending, NotDamaged};
ghost use Rattle.keyed_blocks.specs.Indexes.{HasRowsAt, IsRowsAt};

use rdf_codec::fault::CodecFault;
use rdf_codec::volume_blocks::{VolumeBlock, read_volume_block};
use rdf_disk::Disk;
use rdf_gatelog::{LogFault, LogFile};
use rdf_types::records::Row;
use std::alloc::Global;

/// The rows of a payload that is a block of rows.
fn rows_of_payload(alloc: Global, file: u32, at: u64, payload: &[u8]) -> Result<Vec<Row>, LogFault>
    ensures ok { IfOk result (λ rows. volume_block_of payload.now ≡ Ok (block.Rows rows.items)) }
    ensures damaged { (f p : ℕ) → result ≡ Err (LogFault.Damaged f p) → (f ≡ file) × (p ≡ at) }
    ensures sound { (rows : List Row) → volume_block_of payload.now ≡ Ok (block.Rows rows) → NotDamaged result }
    ensures fine { ending result ≡ Fine }
{
    match read_volume_block(alloc, payload) {
        Ok(VolumeBlock::Rows { rows }) => Ok(rows.into_vec()),
        Ok(
            VolumeBlock::End {
                restart: _,
                rows: _,
                blocks: _,
            },
        ) => Err(LogFault::Damaged { file, at }),
        Ok(
            VolumeBlock::Batch {
                restart: _,
                changes: _,
            },
        ) => Err(LogFault::Damaged { file, at }),
        Ok(VolumeBlock::Index { entries: _ }) => Err(LogFault::Damaged { file, at }),
        Err(fault) => match fault {
            CodecFault::NoMemory => Err(LogFault::NoMemory),
            _ => Err(LogFault::Damaged { file, at }),
        },
    }
}

/// The rows of the block of rows whose gate stands at that place. It changes nothing.
pub fn rows_at<D: Disk>(
    alloc: Global,
    log: &LogFile,
    disk: &mut D,
    at: u64,
) -> Result<Vec<Row>, LogFault>
    requires rows { D.tells → HasRowsAt log.now at (D.files disk.old) }
    ensures files { D.tells → OnlyLooks result (D.files disk.old) (D.files disk.new) }
    ensures ok { D.tells → IfOk result (λ rows. (payloads : List (List ℕ)) (all : List Row)
        → IsAtRest log.now.file log.now.end payloads (D.files disk.old) → IsRowsAt payloads at all → rows.items ≡ all) }
    ensures cause { Causes (ending result) (D.counts disk.old) (D.counts disk.new) }
    ensures damaged { (f p : ℕ) → result ≡ Err (LogFault.Damaged f p) → (f ≡ log.now.file) × (p ≡ at) }
    ensures sound { D.tells → NotDamaged result }
{
    let payload = log.read_block(disk, at)?;
    rows_of_payload(alloc, log.file(), at, &payload)
}
