//! All rows of a volume in order: those of its base, read block by block, with what was changed since.
ghost use Rattle.std.specs.Prelude.{◌≡◌, ◌<◌, ◌+◌, ◌++◌, ℕ, List, Err, length, take, OnOk, IfOk};
ghost use Rattle.rdf_types.specs.declared.records.Row.{Row};
ghost use Rattle.rdf_disk.specs.Counts.{Causes};
ghost use Rattle.rdf_gatelog.specs.Log.{IsAtRest};
ghost use Rattle.rdf_gatelog.specs.LogCalls.{OnlyLooks};
ghost use Rattle.rdf_gatelog.specs.LogCauses.{ending, NotDamaged};
ghost use Rattle.rdf_model.specs.Rows.{list_of};
ghost use Rattle.keyed_blocks.specs.Bases.{block_rows};
ghost use Rattle.keyed_blocks.specs.Indexes.{Indexes, IsIndexed, joined};
ghost use Rattle.keyed_overlay.specs.Merging.{HasPassed};
ghost use Rattle.rdf_volume.specs.InUse.{IsSomeTable};

use crate::table::RowTable;
use keyed_blocks::laws::index_covers;
use keyed_overlay::Merge;
use rdf_disk::Disk;
use rdf_gatelog::{LogFault, LogFile};
use rdf_types::records::Row;
use std::alloc::Global;

/// The rows that come up to the end of one block of the base. It reads that block alone, and changes nothing on the disk.
pub fn next_rows<D: Disk>(
    alloc: Global,
    table: &RowTable,
    log: &LogFile,
    disk: &mut D,
    merge: &mut Merge<'_>,
    block: u32,
) -> Result<Vec<Row>, LogFault>
    requires within { block < length table.now.index }
    requires base { D.tells → IsIndexed table.now.index log.now (D.files disk.old) }
    ensures laid { OnOk result (merge.new.laid ≡ merge.old.laid) }
    ensures ok { D.tells → IfOk result (λ rows. (base out : List Row) (payloads : List (List ℕ))
        → IsAtRest log.now.file log.now.end payloads (D.files disk.old) → (i : Indexes table.now.index base payloads)
        → HasPassed merge.old.laid (joined (take block (block_rows i.blocks))) out merge.old.to_come
        → HasPassed merge.old.laid (joined (take (block + 1) (block_rows i.blocks))) (out ++ rows.items) merge.new.to_come) }
    ensures files { D.tells → OnlyLooks result (D.files disk.old) (D.files disk.new) }
    ensures cause { Causes (ending result) (D.counts disk.old) (D.counts disk.new) }
    ensures names { (f p : ℕ) → result ≡ Err (LogFault.Damaged f p) → f ≡ log.now.file }
    ensures sound { D.tells → NotDamaged result }
{
    let rows = table.index.rows_of(alloc, log, disk, block)?;
    Ok(merge.pass(rows)?)
}

/// All rows that the table shows. It changes nothing on the disk.
pub fn all_rows<D: Disk>(
    alloc: Global,
    table: &RowTable,
    log: &LogFile,
    disk: &mut D,
) -> Result<Vec<Row>, LogFault>
    requires table { D.tells → IsSomeTable table.now log.now (D.files disk.old) }
    ensures ok { D.tells → IfOk result (λ rows. rows.items ≡ list_of table.now.shown.rows) }
    ensures files { D.tells → OnlyLooks result (D.files disk.old) (D.files disk.new) }
    ensures cause { Causes (ending result) (D.counts disk.old) (D.counts disk.new) }
    ensures sound { D.tells → NotDamaged result }
{
    index_covers();
    let mut merge = table.overlay.merge(alloc)?;
    let mut all = Vec::new(alloc);
    for block in 0..table.index.blocks() {
        let mut rows = next_rows(alloc, table, log, disk, &mut merge, block)?;
        all.append(&mut rows)?;
    }
    let mut rows = merge.rest();
    all.append(&mut rows)?;
    Ok(all)
}
