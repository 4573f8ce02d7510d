//! Rows in order that will be one block.
ghost use Rattle.std.specs.Prelude.{◌≡◌, ◌≤◌, ◌<◌, [], ◌∷◌, ◌++◌, true, false, List, Ok, length, OnOk, OnErr, IfOk};
ghost use Rattle.std.specs.Ordering.{is_lt};
ghost use Rattle.rdf_types.specs.declared.records.Row.{Row};
ghost use Rattle.rdf_types.specs.Places.{row_cmp};
ghost use Rattle.rdf_codec.specs.declared.volume_blocks.VolumeBlock.TheVariants as block;
ghost use Rattle.rdf_codec.specs.VolumeBlocks.{rows_spelling};
ghost use Rattle.rdf_codec.specs.VolumeReading.{volume_block_of};
ghost use Rattle.rdf_gatelog.specs.Log.{IsPayload};
ghost use Rattle.rdf_model.specs.Rows.{row_place};
ghost use Rattle.keyed_blocks.specs.Bases.{entry_of};
ghost use Rattle.keyed_blocks.specs.Writing.{is_next};

use crate::payloads::{MOST_BYTES, rows_payload};
use rdf_codec::index_entries::IndexEntry;
use rdf_codec::volume_blocks::row_length;
use rdf_types::records::Row;
use std::alloc::{AllocError, Global};
use std::marker::Model;

/// How many bytes the payload of no rows has.
const NO_ROWS: usize = 3;

/// Rows in order that fit into one block, and how many bytes its payload will have. Contracts see the rows.
#[derive(Drop)]
pub struct RowBuffer {
    rows: Vec<Row>,
    bytes: usize,
}

impl Model for RowBuffer {
    ghost use Rattle.std.specs.Prelude.{List};
    ghost use Rattle.rdf_types.specs.declared.records.Row.{Row};
    ghost use Rattle.keyed_blocks.specs.Buffers.{FitsBlock};

    ghost Value = { List Row };

    ghost view = { λ buffer. buffer.rows.items };

    ghost invariant = { λ buffer. FitsBlock buffer.rows.items buffer.bytes };
}

/// Whether the row stands above the other one.
fn stands_above(row: &Row, last: &Row) -> bool
    ensures { result ≡ is_lt (row_cmp (row_place last.now) (row_place row.now)) }
{
    (&last.file, &last.key) < (&row.file, &row.key)
}

impl RowBuffer {
    /// A buffer without rows.
    pub fn new(alloc: Global) -> RowBuffer
        ensures { result ≡ [] }
    {
        RowBuffer {
            rows: Vec::new(alloc),
            bytes: NO_ROWS,
        }
    }

    /// Whether there is no row.
    pub fn is_empty(&self) -> bool
        ensures none { result ≡ true → self.now ≡ [] }
        ensures some { result ≡ false → 0 < length self.now }
    {
        self.rows.is_empty()
    }

    /// Whether the row stands above the others.
    pub fn takes(&self, row: &Row) -> bool
        ensures { result ≡ is_next self.now row.now }
    {
        match self.rows.last() {
            None => true,
            Some(last) => stands_above(row, last),
        }
    }

    /// Whether the row fits into the same block, behind the others.
    pub fn has_room(&self, row: &Row) -> bool
        ensures fits { result ≡ true → length (rows_spelling (self.now ++ row.now ∷ [])) ≤ 4096 }
        ensures full { result ≡ false → 0 < length self.now }
        ensures alone { length (rows_spelling (row.now ∷ [])) ≤ 4096 }
    {
        self.bytes + row_length(row) <= MOST_BYTES
    }

    /// Adds a row above the others.
    pub fn push(&mut self, row: Row) -> Result<(), AllocError>
        requires above { is_next self.old row ≡ true }
        requires fits { length (rows_spelling (self.old ++ row ∷ [])) ≤ 4096 }
        ensures ok { OnOk result (self.new ≡ self.old ++ row ∷ []) }
        ensures err { OnErr result (self.new ≡ self.old) }
    {
        let bytes = self.bytes + row_length(&row);
        self.rows.push(row)?;
        self.bytes = bytes;
        Ok(())
    }

    /// The payload of a block of the rows.
    pub fn payload(&self, alloc: Global) -> Result<Vec<u8>, AllocError>
        requires some { 0 < length self.now }
        ensures fits { IfOk result (λ payload. IsPayload payload.items) }
        ensures block { IfOk result (λ payload. volume_block_of payload.items ≡ Ok (block.Rows self.now)) }
    {
        rows_payload(alloc, &self.rows)
    }

    /// The entry of a block of the rows that stands at that place.
    pub fn entry(&self, at: u64) -> Result<IndexEntry, AllocError>
        requires some { 0 < length self.now }
        ensures { IfOk result (λ entry. (row : Row) (rest : List Row) → self.now ≡ row ∷ rest → entry ≡ entry_of at row) }
    {
        let first = &self.rows[0];
        let file = first.file.try_clone()?;
        let key = first.key.try_clone()?;
        Ok(IndexEntry { at, file, key })
    }

    /// Drops all rows.
    pub fn clear(&mut self)
        ensures { self.new ≡ [] }
    {
        self.rows.clear();
        self.bytes = NO_ROWS;
    }
}
