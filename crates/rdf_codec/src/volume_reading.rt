//! Reading the blocks of a volume's file.
ghost use Rattle.std.specs.Prelude.{ℕ, ◌≤◌, ◌<◌, None};
ghost use Rattle.rdf_codec.specs.Reading.{left_of, IsAnswer};
ghost use Rattle.rdf_codec.specs.Lists.{entries_at, alone};
ghost use Rattle.rdf_codec.specs.Found.{Finds};
ghost use Rattle.rdf_codec.specs.VolumeReading.{next_row, row_at, change_at, entry_at, rows_at, end_at, batch_at, index_at, volume_block_of};

use crate::entries::Entries;
use crate::fault::CodecFault;
use crate::index_entries::IndexEntry;
use crate::input::Input;
use crate::lists::with_entry;
use crate::row_fields::{ChangeFields, EntryFields, RowFields};
use crate::volume_blocks::VolumeBlock;
use rdf_types::records::{Change, Row};
use std::alloc::{AllocError, Global};

/// How long a block of rows may be.
pub const MOST_BYTES: usize = 4096;

/// The block whose spelling the bytes are, or the first fault.
#[tactic(auto, unfolding(crate::specs::VolumeReading::volume_block_at))]
pub fn block_in(alloc: Global, bytes: &[u8]) -> Result<VolumeBlock, CodecFault>
    ensures { IsAnswer (volume_block_of bytes.now) result }
{
    let (kind, rest) = Input { at: 0, bytes }.byte()?;
    match kind {
        33 if bytes.len() > MOST_BYTES => Err(CodecFault::BadNumber { at: 0 }),
        33 => rows_block(alloc, rest),
        34 => end_block(rest),
        35 => batch_block(alloc, rest),
        36 => index_block(alloc, rest),
        _ => Err(CodecFault::BadKind { at: 0 }),
    }
}

#[tactic(auto, unfolding(crate::specs::VolumeReading::rows_at))]
fn rows_block(alloc: Global, input: Input<'_>) -> Result<VolumeBlock, CodecFault>
    requires { input.at ≤ 1 }
    ensures { IsAnswer (alone (rows_at (left_of input.entry))) result }
{
    let (count, rest) = input.count(1, u16::MAX)?;
    let (rows, rest) = read_rows(alloc, count, rest)?;
    rest.ended()?;
    Ok(VolumeBlock::Rows {
        rows: Entries::new(rows?),
    })
}

#[tactic(auto, unfolding(crate::specs::VolumeReading::end_at))]
fn end_block(input: Input<'_>) -> Result<VolumeBlock, CodecFault>
    requires { input.at ≤ 1 }
    ensures { IsAnswer (alone (end_at (left_of input.entry))) result }
{
    let (restart, rest) = input.u64()?;
    let (rows, rest) = rest.u32()?;
    let (blocks, rest) = rest.u32()?;
    rest.ended()?;
    Ok(VolumeBlock::End {
        restart,
        rows,
        blocks,
    })
}

#[tactic(auto, unfolding(crate::specs::VolumeReading::batch_at))]
fn batch_block(alloc: Global, input: Input<'_>) -> Result<VolumeBlock, CodecFault>
    requires { input.at ≤ 1 }
    ensures { IsAnswer (alone (batch_at (left_of input.entry))) result }
{
    let (restart, rest) = input.u64()?;
    let (count, rest) = rest.count(0, 64)?;
    let (changes, rest) = read_changes(alloc, count, rest)?;
    rest.ended()?;
    Ok(VolumeBlock::Batch {
        restart,
        changes: Entries::new(changes?),
    })
}

#[tactic(auto, unfolding(crate::specs::VolumeReading::index_at))]
fn index_block(alloc: Global, input: Input<'_>) -> Result<VolumeBlock, CodecFault>
    requires { input.at ≤ 1 }
    ensures { IsAnswer (alone (index_at (left_of input.entry))) result }
{
    let (count, rest) = input.count(1, u16::MAX)?;
    let (entries, rest) = read_entries(alloc, count, rest)?;
    rest.ended()?;
    Ok(VolumeBlock::Index {
        entries: Entries::new(entries?),
    })
}

// So many rows, each above the one before it. Where memory runs out, the others are only looked at.
fn read_rows(
    alloc: Global,
    count: u16,
    input: Input<'_>,
) -> Result<(Result<Vec<Row>, AllocError>, Input<'_>), CodecFault>
    requires { input.at ≤ 3 }
    ensures { Finds result (entries_at row_at next_row count None (left_of input.entry)) }
{
    let mut rows = Ok(Vec::new(alloc));
    let mut last = None;
    let mut rest = input;
    for _done in 0..count {
        let (row, behind) = RowFields::read(last, rest)?;
        rows = with_entry(rows, row.row(alloc));
        last = Some(row);
        rest = behind;
    }
    Ok((rows, rest))
}

// So many changes.
fn read_changes(
    alloc: Global,
    count: u16,
    input: Input<'_>,
) -> Result<(Result<Vec<Change>, AllocError>, Input<'_>), CodecFault>
    requires { input.at ≤ 11 }
    ensures { Finds result (entries_at {S = ℕ} (λ _. change_at) (λ _. 0) count 0 (left_of input.entry)) }
{
    let mut changes = Ok(Vec::new(alloc));
    let mut rest = input;
    for _done in 0..count {
        let (change, behind) = ChangeFields::read(rest)?;
        changes = with_entry(changes, change.change(alloc));
        rest = behind;
    }
    Ok((changes, rest))
}

// So many entries of an index.
fn read_entries(
    alloc: Global,
    count: u16,
    input: Input<'_>,
) -> Result<(Result<Vec<IndexEntry>, AllocError>, Input<'_>), CodecFault>
    requires { input.at ≤ 3 }
    ensures { Finds result (entries_at {S = ℕ} (λ _. entry_at) (λ _. 0) count 0 (left_of input.entry)) }
{
    let mut entries = Ok(Vec::new(alloc));
    let mut rest = input;
    for _done in 0..count {
        let (entry, behind) = EntryFields::read(rest)?;
        entries = with_entry(entries, entry.entry(alloc));
        rest = behind;
    }
    Ok((entries, rest))
}
