//! The blocks of a volume's file.
ghost use Rattle.std.specs.Prelude.{◌≡◌, ◌≤◌, ◌<◌, ◌+◌, ◌∷◌, ◌++◌, ◌^◌, length, take, vec_len, map, OnOk, OnErr, IfOk, IfErr, MatchResult};
ghost use Rattle.std.specs.Int.{w16, w64, to_be_bytes};
ghost use Rattle.std.specs.List.{All, flat_map};
ghost use Rattle.std.specs.List.Sorted.{IsStrictlySortedBy};
ghost use Rattle.rdf_types.specs.Places.{row_cmp};
ghost use Rattle.rdf_codec.specs.declared.fault.CodecFault.TheVariants.{NoMemory};
ghost use Rattle.rdf_codec.specs.declared.volume_blocks.VolumeBlock.{VolumeBlock};
ghost use Rattle.rdf_codec.specs.declared.volume_blocks.VolumeBlock.TheVariants as block;
ghost use Rattle.rdf_codec.specs.Spelling.{row_spelling, change_spelling, IsRow, IsChange};
ghost use Rattle.rdf_codec.specs.VolumeBlocks.{row_place, rows_spelling, volume_spelling, FillsBlock, HasVolumeSpelling, IsVolumeBlock};
ghost use Rattle.rdf_codec.specs.Reading.{IsAnswer, IsPlacedWithin};
ghost use Rattle.rdf_codec.specs.VolumeReading.{volume_block_of};

use crate::entries::Entries;
use crate::fault::CodecFault;
use crate::index_entries::{IndexEntry, write_index};
use crate::text_writing::{put_bytes, put_count, put_position};
use crate::volume_reading::{MOST_BYTES, block_in};
use crate::writing::{write_change, write_row};
use rdf_types::records::{Change, Pos, Row};
use std::alloc::{AllocError, Global};

/// A block of a volume's file: rows of its base, an index of the blocks of rows, the end of the base, or a batch of changes behind it.
#[derive(Debug, Drop, PartialEq)]
pub enum VolumeBlock {
    /// Some rows of the base, in the order of file and key.
    Rows {
        rows: Entries<Row>,
    },
    /// The base is complete: the restart point, how many rows it has, and how many blocks of rows.
    End {
        restart: Pos,
        rows: u32,
        blocks: u32,
    },
    /// Changes in their order, at most 64, and the restart point that they leave.
    Batch {
        restart: Pos,
        changes: Entries<Change>,
    },
    /// Where some blocks of rows stand, in their order.
    Index {
        entries: Entries<IndexEntry>,
    },
}

/// Appends the spelling of the block. An `Err` leaves `out` as it was.
pub fn write_volume_block(block: &VolumeBlock, out: &mut Vec<u8>) -> Result<(), AllocError>
    requires { HasVolumeSpelling block.now }
    ensures ok { OnOk result (out.new.items ≡ out.old.items ++ volume_spelling block.now) }
    ensures err { OnErr result (out.new.items ≡ out.old.items) }
    ensures limits { OnOk result (IsVolumeBlock block.now) }
{
    match block {
        VolumeBlock::Rows { rows } => write_rows(rows.as_slice(), out),
        VolumeBlock::End {
            restart,
            rows,
            blocks,
        } => write_end(*restart, *rows, *blocks, out),
        VolumeBlock::Batch { restart, changes } => write_batch(*restart, changes.as_slice(), out),
        VolumeBlock::Index { entries } => write_index(entries.as_slice(), out),
    }
}

/// Appends the spelling of a block of these rows. An `Err` leaves `out` as it was.
pub fn write_rows(rows: &[Row], out: &mut Vec<u8>) -> Result<(), AllocError>
    requires { FillsBlock rows.now }
    ensures ok { OnOk result (out.new.items ≡ out.old.items ++ volume_spelling (block.Rows rows.now)) }
    ensures err { OnErr result (out.new.items ≡ out.old.items) }
    ensures limits { OnOk result (IsVolumeBlock (block.Rows rows.now)) }
{
    let start = out.len();
    let written = put_rows(rows, out);
    if written.is_err() {
        out.truncate(start);
    }
    written
}

fn put_rows(rows: &[Row], out: &mut Vec<u8>) -> Result<(), AllocError>
    requires { length rows.now < 2 ^ 16 }
    ensures ok { OnOk result (out.new.items ≡ out.old.items ++ rows_spelling rows.now) }
    ensures kept { take (vec_len out.old) out.new.items ≡ out.old.items }
    ensures limits { OnOk result (All IsRow rows.now) }
{
    put_count(33, rows.len() as u16, out)?;
    put_each_row(rows, out)
}

fn put_each_row(rows: &[Row], out: &mut Vec<u8>) -> Result<(), AllocError>
    ensures ok { OnOk result (out.new.items ≡ out.old.items ++ flat_map row_spelling rows.now) }
    ensures kept { take (vec_len out.old) out.new.items ≡ out.old.items }
    ensures limits { OnOk result (All IsRow rows.now) }
{
    for row in rows {
        write_row(row, out)?;
    }
    Ok(())
}

/// Appends the spelling of the end of a base. An `Err` leaves `out` as it was.
pub fn write_end(restart: Pos, rows: u32, blocks: u32, out: &mut Vec<u8>) -> Result<(), AllocError>
    ensures ok { OnOk result (out.new.items ≡ out.old.items ++ volume_spelling (block.End restart rows blocks)) }
    ensures err { OnErr result (out.new.items ≡ out.old.items) }
    ensures limits { IsVolumeBlock (block.End restart rows blocks) }
{
    let start = out.len();
    let written = put_end(restart, rows, blocks, out);
    if written.is_err() {
        out.truncate(start);
    }
    written
}

fn put_end(restart: Pos, rows: u32, blocks: u32, out: &mut Vec<u8>) -> Result<(), AllocError>
    ensures ok { OnOk result (out.new.items ≡ out.old.items ++ volume_spelling (block.End restart rows blocks)) }
    ensures kept { take (vec_len out.old) out.new.items ≡ out.old.items }
{
    put_position(34, restart, out)?;
    put_bytes(&rows.to_be_bytes(), out)?;
    put_bytes(&blocks.to_be_bytes(), out)
}

/// Appends the spelling of a batch of these changes. An `Err` leaves `out` as it was.
pub fn write_batch(restart: Pos, changes: &[Change], out: &mut Vec<u8>) -> Result<(), AllocError>
    requires { length changes.now ≤ 64 }
    ensures ok { OnOk result (out.new.items ≡ out.old.items ++ volume_spelling (block.Batch restart changes.now)) }
    ensures err { OnErr result (out.new.items ≡ out.old.items) }
    ensures limits { OnOk result (IsVolumeBlock (block.Batch restart changes.now)) }
{
    let start = out.len();
    let written = put_batch(restart, changes, out);
    if written.is_err() {
        out.truncate(start);
    }
    written
}

fn put_batch(restart: Pos, changes: &[Change], out: &mut Vec<u8>) -> Result<(), AllocError>
    requires { length changes.now ≤ 64 }
    ensures ok { OnOk result (out.new.items ≡ out.old.items ++ volume_spelling (block.Batch restart changes.now)) }
    ensures kept { take (vec_len out.old) out.new.items ≡ out.old.items }
    ensures limits { OnOk result (All IsChange changes.now) }
{
    put_batch_head(restart, changes.len() as u16, out)?;
    put_each_change(changes, out)
}

fn put_batch_head(restart: Pos, count: u16, out: &mut Vec<u8>) -> Result<(), AllocError>
    ensures ok { OnOk result (out.new.items ≡ out.old.items ++ (35 ∷ to_be_bytes w64 restart ++ to_be_bytes w16 count)) }
    ensures kept { take (vec_len out.old) out.new.items ≡ out.old.items }
{
    put_position(35, restart, out)?;
    put_bytes(&count.to_be_bytes(), out)
}

fn put_each_change(changes: &[Change], out: &mut Vec<u8>) -> Result<(), AllocError>
    ensures ok { OnOk result (out.new.items ≡ out.old.items ++ flat_map change_spelling changes.now) }
    ensures kept { take (vec_len out.old) out.new.items ≡ out.old.items }
    ensures limits { OnOk result (All IsChange changes.now) }
{
    for change in changes {
        write_change(change, out)?;
    }
    Ok(())
}

/// How many bytes the spelling of the row has.
pub fn row_length(row: &Row) -> usize
    ensures value { result ≡ length (row_spelling row.now) }
    ensures some { 6 ≤ result }
    ensures few { result ≤ 251 }
{
    3 + row.file.bytes().len() + row.key.bytes().len() + row.value.bytes().len()
}

/// How many of the rows, from the first on, fit into one block.
pub fn rows_in_block(rows: &[Row]) -> usize
    ensures within { result ≤ length rows.now }
    ensures some { 0 < length rows.now → 0 < result }
    ensures fits { length (rows_spelling (take result rows.now)) ≤ 4096 }
    // The next row would not fit.
    ensures full { result < length rows.now → 4096 < length (rows_spelling (take (result + 1) rows.now)) }
    // Rows in order make a block.
    ensures fills { 0 < length rows.now → IsStrictlySortedBy row_cmp (map row_place rows.now) → FillsBlock (take result rows.now) }
{
    let mut size = 3;
    for (at, row) in rows.iter().enumerate() {
        size += row_length(row);
        if size > MOST_BYTES {
            return at;
        }
    }
    rows.len()
}

/// The block whose spelling the bytes are. The bytes are read once; memory is asked for as they are read, and a want of
/// it is answered only where they are a block.
pub fn read_volume_block(alloc: Global, bytes: &[u8]) -> Result<VolumeBlock, CodecFault>
    // What is read is spelled so.
    ensures found { IfOk result (λ b. bytes.now ≡ volume_spelling b) }
    ensures limits { IfOk result IsVolumeBlock }
    // What is spelled so is read, unless memory runs out.
    ensures only { (b : VolumeBlock) → IsVolumeBlock b → bytes.now ≡ volume_spelling b →
        MatchResult result (λ x. x ≡ b) (λ e. e ≡ NoMemory) }
    // The first fault; want of memory comes only in place of a block.
    ensures exact { IsAnswer (volume_block_of bytes.now) result }
    ensures place { IfErr result (IsPlacedWithin bytes.now) }
{
    block_in(alloc, bytes)
}
