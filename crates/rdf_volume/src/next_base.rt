//! A base behind the old file: its rows are written as they come, and the old file goes once the new base is whole.
ghost use Rattle.std.specs.Prelude.{◌≡◌, ◌<◌, ◌+◌, ◌-◌, ◌^◌, ◌++◌, true, ℕ, List, Err, [], OnOk, OnErr, IfOk};
ghost use Rattle.rdf_types.specs.declared.records.Row.{Row};
ghost use Rattle.rdf_disk.specs.Counts.{Causes};
ghost use Rattle.rdf_disk.specs.Outcomes.{Durably};
ghost use Rattle.rdf_gatelog.specs.LogCauses.{ending, NotDamaged};
ghost use Rattle.rdf_gatelog.specs.Logs.{Logs, Reads};
ghost use Rattle.rdf_model.specs.Rows.{list_of};
ghost use Rattle.rdf_model.specs.Volumes.{Rows};
ghost use Rattle.keyed_blocks.specs.Bases.{rises};
ghost use Rattle.keyed_blocks.specs.Writing.{IsWriting, IsSomeWriting};
ghost use Rattle.rdf_volume.specs.Base.{Kept, IsUnderWay, IsReplaced, IsReplacedBy, IsFilling, Fills, IsSomeInUse};
ghost use Rattle.rdf_volume.specs.InUse.{IsInUse, IsTabled};
ghost use Rattle.rdf_volume.specs.Standing.{StandsFor};

use crate::scan::next_rows;
use crate::table::RowTable;
use keyed_blocks::laws::index_covers;
use keyed_blocks::{BaseIndex, BaseWriter};
use keyed_overlay::laws::{list_rises, passed_rises};
use rdf_disk::Disk;
use rdf_gatelog::{LogFault, LogFile};
use rdf_types::records::{Pos, Row};
use std::alloc::Global;

/// Begins a base behind the old file.
fn start_base<D: Disk>(alloc: Global, disk: &mut D, log: &LogFile) -> Result<LogFile, LogFault>
    requires numbered { log.now.file < 2 ^ 32 - 2 }
    requires in_use { D.tells → (end : ℕ) × IsSomeInUse (D.files disk.old) log.now.file end }
    ensures ok { D.tells → IfOk result (λ next. (end : ℕ) (rows : Rows) (restart batches : ℕ)
        (u : IsInUse (D.files disk.old) log.now.file end rows restart batches)
        → (w : IsUnderWay (D.files disk.new) next.end (record { file = log.now.file; rows = rows; restart = restart }))
        × (w.logs log.now.file ≡ u.logs log.now.file)) }
    ensures err { D.tells → OnErr result ((end : ℕ) (rows : Rows) (restart batches : ℕ) → IsInUse (D.files disk.old) log.now.file end rows restart batches
        → Durably (D.files disk.new) (StandsFor rows restart)) }
    ensures file { IfOk result (λ next. next.file ≡ log.now.file + 1) }
    ensures cause { Causes (ending result) (D.counts disk.old) (D.counts disk.new) }
    ensures sound { NotDamaged result }
{
    rdf_gatelog::logs::create(alloc, disk, log.file() + 1)
}

/// Pushes rows that come in order. Damaged comes only of a disk that doesn't tell what it holds, where they don't.
fn push_all<D: Disk>(
    disk: &mut D,
    writer: &mut BaseWriter,
    file: u32,
    rows: Vec<Row>,
) -> Result<(), LogFault>
    requires writing { D.tells → IsSomeWriting writer.old (D.files disk.old) }
    ensures ok { D.tells → OnOk result ((logs : Logs) (out : List Row) → IsWriting logs writer.old out (D.files disk.old)
        → IsWriting logs writer.new (out ++ rows.items) (D.files disk.new)) }
    ensures file { writer.new.addition.file ≡ writer.old.addition.file }
    ensures err { D.tells → OnErr result ((logs : Logs) (out : List Row) → IsWriting logs writer.old out (D.files disk.old)
        → Durably (D.files disk.new) (Reads logs)) }
    ensures cause { Causes (ending result) (D.counts disk.old) (D.counts disk.new) }
    ensures names { (f p : ℕ) → result ≡ Err (LogFault.Damaged f p) → f ≡ file }
    ensures sound { D.tells → (logs : Logs) (out : List Row) → IsWriting logs writer.old out (D.files disk.old) → rises (out ++ rows.items) ≡ true
        → NotDamaged result }
{
    for row in rows {
        if !writer.takes(&row) {
            return Err(LogFault::Damaged { file, at: 0 });
        }
        writer.push(disk, row)?;
    }
    Ok(())
}

/// Pushes all rows of the table, in their order: those of the old base are read block by block.
fn push_table<D: Disk>(
    alloc: Global,
    disk: &mut D,
    log: &LogFile,
    table: &RowTable,
    writer: &mut BaseWriter,
) -> Result<(), LogFault>
    requires fills { D.tells → (kept : Kept) × Fills log.now table.now kept writer.old (D.files disk.old) }
    ensures ok { D.tells → OnOk result ((kept : Kept) → Fills log.now table.now kept writer.old (D.files disk.old)
        → IsFilling writer.new (list_of kept.rows) kept (D.files disk.new)) }
    ensures file { writer.new.addition.file ≡ writer.old.addition.file }
    ensures err { D.tells → OnErr result ((kept : Kept) → Fills log.now table.now kept writer.old (D.files disk.old)
        → Durably (D.files disk.new) (StandsFor kept.rows kept.restart)) }
    ensures cause { Causes (ending result) (D.counts disk.old) (D.counts disk.new) }
    ensures names { (f p : ℕ) → result ≡ Err (LogFault.Damaged f p) → f ≡ log.now.file }
    ensures sound { D.tells → NotDamaged result }
{
    index_covers();
    list_rises();
    passed_rises();
    let mut merge = table.overlay.merge(alloc)?;
    for block in 0..table.index.blocks() {
        let rows = next_rows(alloc, table, log, disk, &mut merge, block)?;
        push_all(disk, writer, log.file(), rows)?;
    }
    push_all(disk, writer, log.file(), merge.rest())
}

/// Ends a base to which all rows were pushed. It is complete from then on.
fn finish_base<D: Disk>(
    disk: &mut D,
    writer: BaseWriter,
    restart: Pos,
) -> Result<(LogFile, BaseIndex), LogFault>
    requires filled { D.tells → (kept : Kept) × IsFilling writer (list_of kept.rows) kept (D.files disk.old) }
    ensures ok { D.tells → IfOk result (λ base. (kept : Kept) → kept.restart ≡ restart → IsFilling writer (list_of kept.rows) kept (D.files disk.old)
        → IsReplacedBy (D.files disk.new) base.0.end base.1 kept) }
    ensures err { D.tells → OnErr result ((kept : Kept) → kept.restart ≡ restart → IsFilling writer (list_of kept.rows) kept (D.files disk.old)
        → Durably (D.files disk.new) (StandsFor kept.rows kept.restart)) }
    ensures file { IfOk result (λ base. base.0.file ≡ writer.addition.file) }
    ensures cause { Causes (ending result) (D.counts disk.old) (D.counts disk.new) }
    ensures sound { NotDamaged result }
{
    writer.finish(disk, restart)
}

/// Writes all rows as a complete base behind the old file, which stays.
pub fn next_base<D: Disk>(
    alloc: Global,
    disk: &mut D,
    log: &LogFile,
    table: &RowTable,
    restart: Pos,
) -> Result<(LogFile, BaseIndex), LogFault>
    requires numbered { log.now.file < 2 ^ 32 - 2 }
    requires in_use { D.tells → (batches : ℕ) × IsTabled (D.files disk.old) log.now.file log.now.end table.now restart batches }
    ensures ok { D.tells → IfOk result (λ base. IsReplacedBy (D.files disk.new) base.0.end base.1
        (record { file = log.now.file; rows = table.now.shown.rows; restart = restart })) }
    ensures err { D.tells → OnErr result (Durably (D.files disk.new) (StandsFor table.now.shown.rows restart)) }
    ensures file { IfOk result (λ base. base.0.file ≡ log.now.file + 1) }
    ensures cause { Causes (ending result) (D.counts disk.old) (D.counts disk.new) }
    ensures names { (f p : ℕ) → result ≡ Err (LogFault.Damaged f p) → f ≡ log.now.file }
    ensures sound { D.tells → NotDamaged result }
{
    let next = start_base(alloc, disk, log)?;
    let mut writer = BaseWriter::start(alloc, next);
    push_table(alloc, disk, log, table, &mut writer)?;
    finish_base(disk, writer, restart)
}

/// Removes the old file, once the base behind it is complete.
pub fn drop_old<D: Disk>(disk: &mut D, old: u32) -> Result<(), LogFault>
    ensures ok { D.tells → OnOk result ((end : ℕ) (kept : Kept) (r : IsReplaced (D.files disk.old) end kept) → old ≡ kept.file
        → (u : IsInUse (D.files disk.new) (old + 1) end kept.rows kept.restart 0) × (u.log.payloads ≡ r.log.payloads)) }
    ensures err { D.tells → OnErr result ((end : ℕ) (kept : Kept) → IsReplaced (D.files disk.old) end kept → old ≡ kept.file
        → Durably (D.files disk.new) (StandsFor kept.rows kept.restart)) }
    ensures cause { Causes (ending result) (D.counts disk.old) (D.counts disk.new) }
    ensures sound { NotDamaged result }
{
    rdf_gatelog::logs::discard(disk, old)
}
