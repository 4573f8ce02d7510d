//! The writing of a base: rows, one after another, as blocks of a log that count all at once.
ghost use Rattle.std.specs.Prelude.{◌≡◌, ◌≤◌, ◌<◌, ◌+◌, ◌∷◌, ◌++◌, [], ℕ, true, List, Some, None, length, OnOk, OnErr, IfOk};
ghost use Rattle.std.specs.List.{last_or};
ghost use Rattle.rdf_types.specs.declared.records.Row.{Row};
ghost use Rattle.rdf_disk.specs.Counts.{Causes};
ghost use Rattle.rdf_disk.specs.Counts.Ending.{Fine};
ghost use Rattle.rdf_disk.specs.Files.{Disk as Files};
ghost use Rattle.rdf_disk.specs.Outcomes.{Durably};
ghost use Rattle.rdf_codec.specs.VolumeBlocks.{rows_spelling};
ghost use Rattle.rdf_gatelog.specs.LogCauses.{ending, NotDamaged};
ghost use Rattle.rdf_gatelog.specs.Logs.{Logs, Reads, RestsOpen};
ghost use Rattle.keyed_blocks.specs.Buffers.{IsSomeAdding};
ghost use Rattle.keyed_blocks.specs.Writing.{WriterView, AreWritten, IsWriting, IsSomeWriting, IsWritten, ReadsBaseOrNot, is_next};

use crate::index::BaseIndex;
use crate::index_blocks::add_index;
use crate::payloads::end_payload;
use crate::row_buffer::RowBuffer;
use rdf_codec::index_entries::IndexEntry;
use rdf_disk::Disk;
use rdf_gatelog::{Addition, LogFault, LogFile, additions};
use rdf_types::records::{Pos, Row};
use std::alloc::Global;
use std::marker::Model;

/// Rows in order that are being written as the base of a log. None of them counts before `finish` does. Memory holds the
/// rows of one block, and where each block stands and begins.
/// After a call of it answers an `Err`, or where it is dropped, the file is mounted again, and is the log that it was.
#[derive(Drop)]
pub struct BaseWriter {
    alloc: Global,
    addition: Addition,
    entries: Vec<IndexEntry>,
    pending: RowBuffer,
    rows: u32,
}

impl Model for BaseWriter {
    ghost use Rattle.keyed_blocks.specs.Writing.{WriterView};

    ghost Value = { WriterView };

    ghost view = { λ writer. record {
      addition = writer.addition;
      entries = writer.entries.items;
      pending = writer.pending;
      rows = writer.rows;
    } };
}

impl BaseWriter {
    /// Begins to write a base in a log that has no block. It touches no disk.
    pub fn start(alloc: Global, log: LogFile) -> BaseWriter
        ensures place { result.addition ≡ record { file = log.file; gate = log.end; end = log.end } }
        ensures pending { result.pending ≡ [] }
        ensures none { (logs : Logs) (disk : Files) → RestsOpen logs log.file log.end disk → logs log.file ≡ Some [] → IsWriting logs result [] disk }
    {
        BaseWriter {
            alloc,
            addition: additions::begin(log),
            entries: Vec::new(alloc),
            pending: RowBuffer::new(alloc),
            rows: 0,
        }
    }

    /// Whether the row stands above all others, so that it may be pushed.
    pub fn takes(&self, row: &Row) -> bool
        ensures { result ≡ is_next self.now.pending row.now }
    {
        self.pending.takes(row)
    }

    /// Puts the row behind those that are pending.
    fn keep(&mut self, row: Row) -> Result<(), LogFault>
        requires above { is_next self.old.pending row ≡ true }
        requires fits { length (rows_spelling (self.old.pending ++ row ∷ [])) ≤ 4096 }
        ensures ok { OnOk result (self.new ≡ record self.old { pending = self.old.pending ++ row ∷ []; rows = self.old.rows + 1 }) }
        ensures addition { self.new.addition ≡ self.old.addition }
        ensures fine { ending result ≡ Fine }
        ensures sound { NotDamaged result }
    {
        if self.rows == u32::MAX {
            return Err(LogFault::NoMemory);
        }
        self.pending.push(row)?;
        self.rows += 1;
        Ok(())
    }

    /// Adds a block of the rows that are pending.
    fn flush<D: Disk>(&mut self, disk: &mut D) -> Result<(), LogFault>
        requires some { 0 < length self.old.pending }
        requires adding { D.tells → IsSomeAdding self.old.addition (D.files disk.old) }
        ensures ok { D.tells → OnOk result ((logs : Logs) (rows : List Row) → AreWritten logs self.old rows (D.files disk.old)
            → AreWritten logs self.new rows (D.files disk.new)) }
        ensures err { D.tells → OnErr result ((logs : Logs) (rows : List Row) → AreWritten logs self.old rows (D.files disk.old)
            → Durably (D.files disk.new) (Reads logs)) }
        ensures pending { OnOk result (self.new.pending ≡ []) }
        ensures file { self.new.addition.file ≡ self.old.addition.file }
        ensures cause { Causes (ending result) (D.counts disk.old) (D.counts disk.new) }
        ensures sound { NotDamaged result }
    {
        let payload = self.pending.payload(self.alloc)?;
        let entry = self.pending.entry(self.addition.end())?;
        self.entries.push(entry)?;
        additions::push(&mut self.addition, disk, &payload)?;
        self.pending.clear();
        Ok(())
    }

    /// Takes the next row, which stands above all others. An `Err` leaves the logs as they were before the base.
    pub fn push<D: Disk>(&mut self, disk: &mut D, row: Row) -> Result<(), LogFault>
        requires above { is_next self.old.pending row ≡ true }
        requires writing { D.tells → IsSomeWriting self.old (D.files disk.old) }
        ensures ok { D.tells → OnOk result ((logs : Logs) (rows : List Row) → IsWriting logs self.old rows (D.files disk.old)
            → IsWriting logs self.new (rows ++ row ∷ []) (D.files disk.new)) }
        ensures err { D.tells → OnErr result ((logs : Logs) (rows : List Row) → IsWriting logs self.old rows (D.files disk.old)
            → Durably (D.files disk.new) (Reads logs)) }
        ensures last { OnOk result (last_or None self.new.pending ≡ Some row) }
        ensures file { self.new.addition.file ≡ self.old.addition.file }
        ensures cause { Causes (ending result) (D.counts disk.old) (D.counts disk.new) }
        ensures sound { NotDamaged result }
    {
        if self.pending.has_room(&row) {
            return self.keep(row);
        }
        self.flush(disk)?;
        self.keep(row)
    }

    /// Adds a block of the rows that are pending, where there are any.
    fn flush_rest<D: Disk>(&mut self, disk: &mut D) -> Result<(), LogFault>
        requires adding { D.tells → IsSomeAdding self.old.addition (D.files disk.old) }
        ensures ok { D.tells → OnOk result ((logs : Logs) (rows : List Row) → AreWritten logs self.old rows (D.files disk.old)
            → AreWritten logs self.new rows (D.files disk.new)) }
        ensures err { D.tells → OnErr result ((logs : Logs) (rows : List Row) → AreWritten logs self.old rows (D.files disk.old)
            → Durably (D.files disk.new) (Reads logs)) }
        ensures pending { OnOk result (self.new.pending ≡ []) }
        ensures file { self.new.addition.file ≡ self.old.addition.file }
        ensures cause { Causes (ending result) (D.counts disk.old) (D.counts disk.new) }
        ensures sound { NotDamaged result }
    {
        if self.pending.is_empty() {
            return Ok(());
        }
        self.flush(disk)
    }

    /// Adds the last rows, the index and an end with the restart point, and opens the gate: the base is whole from then
    /// on. An `Err` leaves all of it or nothing. A base of 2 ^ 32 rows counts as want of memory.
    pub fn finish<D: Disk>(
        self,
        disk: &mut D,
        restart: Pos,
    ) -> Result<(LogFile, BaseIndex), LogFault>
        requires writing { D.tells → IsSomeWriting self (D.files disk.old) }
        ensures ok { D.tells → IfOk result (λ done. (logs : Logs) (rows : List Row) → IsWriting logs self rows (D.files disk.old)
            → IsWritten logs done.0 done.1 rows restart (D.files disk.new)) }
        ensures err { D.tells → OnErr result ((logs : Logs) (rows : List Row) → IsWriting logs self rows (D.files disk.old)
            → Durably (D.files disk.new) (ReadsBaseOrNot logs self.addition.file rows restart)) }
        ensures file { IfOk result (λ done. done.0.file ≡ self.addition.file) }
        ensures cause { Causes (ending result) (D.counts disk.old) (D.counts disk.new) }
        ensures sound { NotDamaged result }
    {
        let mut writer = self;
        writer.flush_rest(disk)?;
        let BaseWriter {
            alloc,
            addition,
            entries,
            pending: _,
            rows,
        } = writer;
        end_base(alloc, disk, addition, entries, rows, restart)
    }
}

/// Adds the index and the end behind blocks of rows, and opens the gate.
fn end_base<D: Disk>(
    alloc: Global,
    disk: &mut D,
    mut addition: Addition,
    entries: Vec<IndexEntry>,
    rows: u32,
    restart: Pos,
) -> Result<(LogFile, BaseIndex), LogFault>
    requires adding { D.tells → IsSomeAdding addition (D.files disk.old) }
    ensures ok { D.tells → IfOk result (λ done. (logs : Logs) (all : List Row)
        → AreWritten logs (record { addition = addition; entries = entries.items; pending = []; rows = rows }) all (D.files disk.old)
        → IsWritten logs done.0 done.1 all restart (D.files disk.new)) }
    ensures err { D.tells → OnErr result ((logs : Logs) (all : List Row)
        → AreWritten logs (record { addition = addition; entries = entries.items; pending = []; rows = rows }) all (D.files disk.old)
        → Durably (D.files disk.new) (ReadsBaseOrNot logs addition.file all restart)) }
    ensures file { IfOk result (λ done. done.0.file ≡ addition.file) }
    ensures cause { Causes (ending result) (D.counts disk.old) (D.counts disk.new) }
    ensures sound { NotDamaged result }
{
    let index = BaseIndex::of(entries)?;
    add_index(alloc, &mut addition, disk, index.entries())?;
    let blocks = index.blocks();
    let end = end_payload(alloc, restart, rows, blocks)?;
    let log = additions::finish(addition, disk, &end)?;
    Ok((log, index))
}
