//! What the blocks of a file say, read one after another.
ghost use Rattle.std.specs.Prelude.{◌≡◌, ◌<◌, ◌+◌, ◌-◌, ◌==◌, ◌&&◌, ◌||◌, ◌++◌, [], ◌∷◌, ℕ, List, fold, length, take, drop, slice_get, OnOk, IfOk};
ghost use Rattle.std.specs.Cmp.Lexicographic.{pointwise};
ghost use Rattle.std.specs.Ordering.{eq_by_cmp};
ghost use Rattle.rdf_types.specs.declared.records.Row.{Row};
ghost use Rattle.rdf_types.specs.Places.{row_cmp};
ghost use Rattle.rdf_codec.specs.declared.volume_blocks.VolumeBlock.TheVariants as block;
ghost use Rattle.rdf_codec.specs.VolumeBlocks.{FillsBlock, FillsIndex, IsVolumeBlock};
ghost use Rattle.rdf_gatelog.specs.Log.{open_blocks};
ghost use Rattle.keyed_blocks.specs.Bases.{entry_of, entry_place, same_entry};
ghost use Rattle.rdf_volume.specs.Changes.{with_row};
ghost use Rattle.rdf_volume.specs.Readings.{IsRead, IsBaseRead, IsTableRead, IsNext, ReadsOn, is_above};

use crate::shown::Shown;
use crate::table::RowTable;
use rdf_codec::fault::CodecFault;
use rdf_codec::index_entries::IndexEntry;
use rdf_codec::volume_blocks::{VolumeBlock, read_volume_block};
use rdf_types::names::{FileName, Key};
use rdf_types::records::{Pos, Row};
use std::alloc::{AllocError, Global};
use std::cmp::Ordering;

/// A base that isn't complete, as far as its blocks are read: an entry for each block of rows, how many of these entries blocks of the
/// index have listed, how many rows there are, and the last one.
#[derive(Drop)]
pub struct BaseRead {
    pub shown: Shown,
    pub entries: Vec<IndexEntry>,
    pub listed: u64,
    pub rows: u64,
    pub last: Option<Row>,
}

/// A complete base with the batches behind it, as far as they are read.
#[derive(Drop)]
pub struct TableRead {
    pub table: RowTable,
    pub restart: Pos,
    pub batches: u64,
}

/// What the blocks read so far say.
#[derive(Drop)]
pub enum Reading {
    Building(BaseRead),
    Complete(TableRead),
}

/// A base of which no block is read yet.
pub fn nothing_read(alloc: Global) -> Reading
    ensures { IsRead result [] }
{
    Reading::Building(BaseRead {
        shown: Shown::none(),
        entries: Vec::new(alloc),
        listed: 0,
        rows: 0,
        last: None,
    })
}

/// How two places of a volume are ordered.
fn place_order(a_file: &FileName, a_key: &Key, b_file: &FileName, b_key: &Key) -> Ordering
    ensures { result ≡ row_cmp (a_file.now, a_key.now) (b_file.now, b_key.now) }
{
    (a_file, a_key).cmp(&(b_file, b_key))
}

/// Whether the row stands above the last one before it, where there is one.
fn stands_above(last: &Option<Row>, row: &Row) -> bool
    ensures { result ≡ is_above last.now row.now }
{
    match last {
        None => true,
        Some(last) => place_order(&last.file, &last.key, &row.file, &row.key).is_lt(),
    }
}

/// Whether a block of rows that begins with that row may come next.
fn may_begin(read: &BaseRead, row: &Row) -> bool
    ensures { result ≡ ((read.now.listed == 0) && is_above read.now.last row.now) }
{
    read.listed == 0 && stands_above(&read.last, row)
}

/// The entry of a block of rows that stands at that place and begins with that row.
fn entry_at(at: u64, row: &Row) -> Result<IndexEntry, AllocError>
    ensures { IfOk result (λ entry. entry ≡ entry_of at row.now) }
{
    let file = row.file.try_clone()?;
    let key = row.key.try_clone()?;
    Ok(IndexEntry { at, file, key })
}

/// Puts these rows over what is shown.
fn show(shown: &mut Shown, rows: &[Row])
    ensures { shown.new.rows ≡ fold with_row shown.old.rows rows.now }
{
    for row in rows {
        *shown = shown.with(row);
    }
}

/// Adds a block of rows, which stands at that place. The last of them is the caller's to keep.
fn add_rows(read: &mut BaseRead, at: u64, rows: &[Row]) -> Result<(), AllocError>
    requires some { 0 < length rows.now }
    ensures shown { OnOk result (read.new.shown.rows ≡ fold with_row read.old.shown.rows rows.now) }
    ensures entries { OnOk result ((row : Row) → slice_get rows.now 0 ≡ Some row → read.new.entries.items ≡ read.old.entries.items ++ entry_of at row ∷ []) }
    ensures listed { OnOk result (read.new.listed ≡ read.old.listed) }
    ensures rows { OnOk result (read.new.rows ≡ read.old.rows + length rows.now) }
{
    let Some(count) = read.rows.checked_add(rows.len() as u64) else {
        return Err(AllocError);
    };
    let entry = entry_at(at, &rows[0])?;
    read.entries.push(entry)?;
    show(&mut read.shown, rows);
    read.rows = count;
    Ok(())
}

/// Rows, where the base isn't complete. None where they aren't in their place.
fn next_rows(mut read: BaseRead, at: u64, mut rows: Vec<Row>) -> Result<Option<Reading>, AllocError>
    requires fills { FillsBlock rows.items }
    ensures { IfOk result (λ found. (before : List (List ℕ)) (payload : List ℕ) → IsNext before payload at (block.Rows rows.items)
        → IsBaseRead read before → ReadsOn before payload found) }
{
    if !may_begin(&read, &rows[0]) {
        return Ok(None);
    }
    add_rows(&mut read, at, &rows)?;
    read.last = rows.pop();
    Ok(Some(Reading::Building(read)))
}

/// Whether both entries have one place and one row.
fn is_same_entry(a: &IndexEntry, b: &IndexEntry) -> bool
    ensures { result ≡ same_entry a.now b.now }
{
    a.at == b.at && is_same_place(a, b)
}

/// Whether the rows of both entries stand at one place of their volume.
fn is_same_place(a: &IndexEntry, b: &IndexEntry) -> bool
    ensures { result ≡ eq_by_cmp row_cmp (entry_place a.now) (entry_place b.now) }
{
    place_order(&a.file, &a.key, &b.file, &b.key).is_eq()
}

/// Whether the list begins with these entries.
fn begins_with(list: &[IndexEntry], entries: &[IndexEntry]) -> bool
    ensures { result ≡ pointwise same_entry entries.now (take (length entries.now) list.now) }
{
    for (i, entry) in entries.iter().enumerate() {
        let Some(other) = list.get(i) else {
            return false;
        };
        if !is_same_entry(entry, other) {
            return false;
        }
    }
    true
}

/// Whether these entries come next behind so many of the list.
fn come_next(list: &[IndexEntry], listed: u64, entries: &[IndexEntry]) -> bool
    requires some { 0 < length entries.now }
    ensures { result ≡ pointwise same_entry entries.now (take (length entries.now) (drop listed list.now)) }
{
    if listed > list.len() as u64 {
        return false;
    }
    begins_with(&list[listed as usize..], entries)
}

/// Entries of the index, where the base isn't complete. None where they aren't in their place.
fn next_entries(mut read: BaseRead, entries: &[IndexEntry]) -> Result<Option<Reading>, AllocError>
    requires fills { FillsIndex entries.now }
    ensures { IfOk result (λ found. (before : List (List ℕ)) (payload : List ℕ) (at : ℕ) → IsNext before payload at (block.Index entries.now)
        → IsBaseRead read before → ReadsOn before payload found) }
{
    if !come_next(&read.entries, read.listed, entries) {
        return Ok(None);
    }
    let Some(listed) = read.listed.checked_add(entries.len() as u64) else {
        return Err(AllocError);
    };
    read.listed = listed;
    Ok(Some(Reading::Building(read)))
}

/// Whether the index of the base lists all its blocks or none.
fn is_listed(read: &BaseRead) -> bool
    ensures { result ≡ ((read.now.listed == 0) || (read.now.listed == length read.now.entries.items)) }
{
    read.listed == 0 || read.listed == read.entries.len() as u64
}

/// Whether the base has so many rows in so many blocks, and its index lists all blocks or none.
fn is_counted(read: &BaseRead, rows: u32, blocks: u32) -> bool
    ensures { result ≡ ((rows == read.now.rows) && (blocks == length read.now.entries.items)
        && ((read.now.listed == 0) || (read.now.listed == length read.now.entries.items))) }
{
    u64::from(rows) == read.rows
        && u64::from(blocks) == read.entries.len() as u64
        && is_listed(read)
}

/// The end of the base. None where it isn't in its place.
fn next_end(
    alloc: Global,
    read: BaseRead,
    restart: Pos,
    rows: u32,
    blocks: u32,
) -> Result<Option<Reading>, AllocError>
    ensures { IfOk result (λ found. (before : List (List ℕ)) (payload : List ℕ) (at : ℕ) → IsNext before payload at (block.End restart rows blocks)
        → IsBaseRead read before → ReadsOn before payload found) }
{
    if !is_counted(&read, rows, blocks) {
        return Ok(None);
    }
    let table = RowTable::over(alloc, read.shown, read.entries)?;
    Ok(Some(Reading::Complete(TableRead {
        table,
        restart,
        batches: 0,
    })))
}

/// The next block where the base isn't complete. None where it isn't in its place.
fn next_of_base(
    alloc: Global,
    read: BaseRead,
    at: u64,
    block: VolumeBlock,
) -> Result<Option<Reading>, AllocError>
    requires limits { IsVolumeBlock block }
    ensures { IfOk result (λ found. (before : List (List ℕ)) (payload : List ℕ) → IsNext before payload at block
        → IsBaseRead read before → ReadsOn before payload found) }
{
    match block {
        VolumeBlock::Rows { rows } => next_rows(read, at, rows.into_vec()),
        VolumeBlock::Index { entries } => next_entries(read, entries.as_slice()),
        VolumeBlock::End {
            restart,
            rows,
            blocks,
        } => next_end(alloc, read, restart, rows, blocks),
        VolumeBlock::Batch {
            restart: _,
            changes: _,
        } => Ok(None),
    }
}

/// The next block behind a complete base. None where it isn't in its place.
fn next_behind(read: TableRead, block: VolumeBlock) -> Result<Option<Reading>, AllocError>
    ensures { IfOk result (λ found. (before : List (List ℕ)) (payload : List ℕ) (at : ℕ) → IsNext before payload at block
        → IsTableRead read before → ReadsOn before payload found) }
{
    let VolumeBlock::Batch { restart, changes } = block else {
        return Ok(None);
    };
    let TableRead {
        mut table,
        restart: _,
        batches,
    } = read;
    let Some(batches) = batches.checked_add(1) else {
        return Err(AllocError);
    };
    table.take_all(changes.into_vec())?;
    Ok(Some(Reading::Complete(TableRead {
        table,
        restart,
        batches,
    })))
}

/// The payload of the next block, whose gate stands at that place. None where it spells no block, or one that isn't in its place.
pub fn next_payload(
    alloc: Global,
    reading: Reading,
    at: u64,
    payload: &[u8],
) -> Result<Option<Reading>, AllocError>
    ensures { IfOk result (λ found. (before : List (List ℕ)) → IsRead reading before → at ≡ length (open_blocks before)
        → ReadsOn before payload.now found) }
{
    match read_volume_block(alloc, payload) {
        Ok(block) => match reading {
            Reading::Building(read) => next_of_base(alloc, read, at, block),
            Reading::Complete(read) => next_behind(read, block),
        },
        Err(fault) => match fault {
            CodecFault::NoMemory => Err(AllocError),
            _ => Ok(None),
        },
    }
}
