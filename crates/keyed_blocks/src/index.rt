//! The index of a base, and the reading of its rows by it.
ghost use Rattle.std.specs.Prelude as list;
ghost use Rattle.std.specs.Prelude.{◌≡◌, ◌<◌, ℕ, List, None, Some, Err, length, slice_get, IfNone, IfOk, IfSome, true};
ghost use Rattle.std.specs.FinMap as map;
ghost use Rattle.std.specs.FinMap.Entries.{find};
ghost use Rattle.rdf_types.specs.Places.{row_cmp};
ghost use Rattle.rdf_types.specs.declared.records.Row.{Row};
ghost use Rattle.rdf_disk.specs.Counts.{Causes};
ghost use Rattle.rdf_gatelog.specs.Log.{IsAtRest};
ghost use Rattle.rdf_gatelog.specs.LogCalls.{OnlyLooks};
ghost use Rattle.rdf_gatelog.specs.LogCauses.{ending, NotDamaged};
ghost use Rattle.rdf_model.specs.Rows.{row_entry, row_map};
ghost use Rattle.keyed_blocks.specs.Bases.{rises, block_rows};
ghost use Rattle.keyed_blocks.specs.Indexes.{Indexes, IsIndexed, IsPlaceIn, joined};

use crate::row_blocks::rows_at;
use crate::searches::{entries_upto, value_among};
use rdf_codec::index_entries::IndexEntry;
use rdf_disk::Disk;
use rdf_gatelog::{LogFault, LogFile};
use rdf_types::names::{FileName, Key, Value};
use rdf_types::records::{Row, copy_of};
use std::alloc::{AllocError, Global};
use std::marker::Model;

/// Where each block of a base's rows stands, and with which row it begins. Contracts see it as the list of these entries.
#[derive(Drop)]
pub struct BaseIndex {
    entries: Vec<IndexEntry>,
}

impl Model for BaseIndex {
    ghost use Rattle.std.specs.Prelude.{◌<◌, ◌^◌, List, length};
    ghost use Rattle.rdf_codec.specs.declared.index_entries.IndexEntry.{IndexEntry};

    ghost Value = { List IndexEntry };

    ghost view = { λ index. index.entries.items };

    ghost invariant = { λ index. length index.entries.items < 2 ^ 32 };
}

impl BaseIndex {
    /// The index of these entries, one for each block of rows. 2 ^ 32 of them count as want of memory.
    pub fn of(entries: Vec<IndexEntry>) -> Result<BaseIndex, AllocError>
        ensures { IfOk result (λ index. index ≡ entries.items) }
    {
        if entries.len() > u32::MAX as usize {
            return Err(AllocError);
        }
        Ok(BaseIndex { entries })
    }

    /// How many blocks of rows the base has.
    pub fn blocks(&self) -> u32
        ensures { result ≡ length self.now }
    {
        self.entries.len() as u32
    }

    /// The entries, one for each block of rows.
    pub(crate) fn entries(&self) -> &[IndexEntry]
        ensures { result.now ≡ self.now }
    {
        &self.entries
    }

    /// The rows of one block, counted from 0 on. It reads that block alone, and changes nothing.
    /// Damaged comes only of a disk that doesn't tell what it holds, where no block of rows stands at the block's place.
    pub fn rows_of<D: Disk>(
        &self,
        alloc: Global,
        log: &LogFile,
        disk: &mut D,
        block: u32,
    ) -> Result<Vec<Row>, LogFault>
        requires within { block < length self.now }
        requires base { D.tells → IsIndexed self.now log.now (D.files disk.old) }
        ensures ok { D.tells → IfOk result (λ rows. (all : List Row) (payloads : List (List ℕ))
            → IsAtRest log.now.file log.now.end payloads (D.files disk.old) → (i : Indexes self.now all payloads)
            → (slice_get (block_rows i.blocks) block ≡ Some rows.items) × (joined (block_rows i.blocks) ≡ all)) }
        ensures files { D.tells → OnlyLooks result (D.files disk.old) (D.files disk.new) }
        ensures cause { Causes (ending result) (D.counts disk.old) (D.counts disk.new) }
        ensures damaged { (f p : ℕ) → result ≡ Err (LogFault.Damaged f p) → (f ≡ log.now.file) × IsPlaceIn self.now p }
        ensures sound { D.tells → NotDamaged result }
    {
        rows_at(alloc, log, disk, self.entries[block as usize].at)
    }

    /// The one block in which the row of that file and key stands, if the base has it. None where they stand below all rows.
    pub fn block_of(&self, file: &FileName, key: &Key) -> Option<u32>
        ensures within { IfSome result (λ block. block < length self.now) }
        ensures some { IfSome result (λ block. (all : List Row) (payloads : List (List ℕ)) (i : Indexes self.now all payloads) (rows : List Row)
            → slice_get (block_rows i.blocks) block ≡ Some rows
            → (map.get (row_map all) (file.now, key.now) ≡ find row_cmp (file.now, key.now) (list.map row_entry rows)) × (rises rows ≡ true)) }
        ensures none { IfNone result ((all : List Row) (payloads : List (List ℕ)) → Indexes self.now all payloads
            → map.get (row_map all) (file.now, key.now) ≡ None) }
    {
        let upto = entries_upto(&self.entries, file, key);
        if upto == 0 {
            return None;
        }
        Some((upto - 1) as u32)
    }

    /// The value at the file and key. It reads one block, or none where they stand below all rows, and changes nothing.
    /// Damaged comes only of a disk that doesn't tell what it holds, where no block of rows stands at the place of one.
    pub fn get<D: Disk>(
        &self,
        alloc: Global,
        log: &LogFile,
        disk: &mut D,
        file: &FileName,
        key: &Key,
    ) -> Result<Option<Value>, LogFault>
        requires base { D.tells → IsIndexed self.now log.now (D.files disk.old) }
        ensures ok { D.tells → IfOk result (λ value. (all : List Row) (payloads : List (List ℕ))
            → IsAtRest log.now.file log.now.end payloads (D.files disk.old) → Indexes self.now all payloads
            → value ≡ map.get (row_map all) (file.now, key.now)) }
        ensures files { D.tells → OnlyLooks result (D.files disk.old) (D.files disk.new) }
        ensures cause { Causes (ending result) (D.counts disk.old) (D.counts disk.new) }
        ensures damaged { (f p : ℕ) → result ≡ Err (LogFault.Damaged f p) → (f ≡ log.now.file) × IsPlaceIn self.now p }
        ensures sound { D.tells → NotDamaged result }
    {
        let Some(block) = self.block_of(file, key) else {
            return Ok(None);
        };
        let rows = self.rows_of(alloc, log, disk, block)?;
        Ok(copy_of(value_among(&rows, file, key))?)
    }
}
