//! How much room the files of a volume take at the end of a takeover.
use crate::tests::filling::taken_over;
use crate::tests::numbered_rows::{Fate, change_of, fate_at_last, is_row};
use fault_tables::Untold;
use rdf_codec::volume_blocks::row_length;
use rdf_disk::{Disk, DiskFault};
use rdf_types::records::Row;
use rdf_volume::Volume;
use std::alloc::Global;
use std::test::Fail;

/// Whether a look-up finds of the row what it should have at last.
fn finds(alloc: Global, volume: &mut Volume<Untold>, row: u32) -> Result<bool, Fail> {
    let wanted = change_of(alloc, row, fate_at_last(row))?;
    let found = volume.get(&wanted.file, &wanted.key)?;
    Ok(found == wanted.after)
}

/// The first row, also among fifty that never were, of which a look-up finds something else. They come in the order of files and keys.
fn first_wrong(alloc: Global, volume: &mut Volume<Untold>) -> Result<Option<u32>, Fail> {
    for i in 0..3_050 {
        let row = i % 610 * 5 + i / 610;
        if !finds(alloc, volume, row)? {
            return Ok(Some(row));
        }
    }
    Ok(None)
}

/// Whether that row, of that fate, stands there.
fn is_at(alloc: Global, rows: &[Row], at: usize, row: u32, fate: Fate) -> Result<bool, Fail> {
    match rows.get(at) {
        None => Ok(false),
        Some(found) => is_row(alloc, found, row, fate),
    }
}

/// Whether the first, one in the middle and the last of the rows are those that they should be.
fn are_ordered(alloc: Global, rows: &[Row]) -> Result<bool, Fail> {
    // The file `a` has 514 rows, 600 without the 86 that were removed. Of the next file the undo took the lowest number away, which is 1, and 2,999 was removed.
    Ok(
        is_at(alloc, rows, 0, 0, Fate::Second)?
            && is_at(alloc, rows, 514, 6, Fate::First)?
            && is_at(alloc, rows, 2_570, 2_994, Fate::Second)?,
    )
}

/// How many bytes the spellings of the rows have.
fn length_of_rows(rows: &[Row]) -> u64 {
    let mut total: u64 = 0;
    for row in rows {
        total = total.saturating_add(row_length(row) as u64);
    }
    total
}

/// How many bytes the files of the disk have.
fn length_of_files(disk: &mut Untold) -> Result<u64, DiskFault> {
    let (low, above) = disk.span()?;
    let mut total: u64 = 0;
    for file in low..above {
        total = total.saturating_add(disk.len(file)?.unwrap_or(0));
    }
    Ok(total)
}

/// Whether the volume is behind three checkpoints: the first 256 batches and the next 256 ended with one, and so did the undo.
fn has_ended(volume: &Volume<Untold>) -> bool {
    volume.file_number() == 3 && volume.batches() == 0 && volume.restart_point() == 5
}

fn is_within_the_bound(needed: u64, taken: u64) -> bool {
    needed < taken && taken <= needed.saturating_mul(2).saturating_add(1_024)
}

#[test]
fn files_stay_within_the_bound(rt: HostRuntime) -> Result<(), Fail> {
    let mut volume = taken_over(rt.alloc())?;
    assert!(rt; has_ended(&volume));
    assert!(rt; first_wrong(rt.alloc(), &mut volume)?.is_none());
    let rows = volume.scan()?;
    // 429 of 3,000 rows were removed. The undo set one of these back, and took another row away.
    assert!(rt; rows.len() == 2_571);
    assert!(rt; are_ordered(rt.alloc(), &rows)?);
    let needed = length_of_rows(&rows);
    let taken = length_of_files(&mut volume.close())?;
    assert!(rt;
        is_within_the_bound(needed, taken),
        "{taken} bytes for rows of {needed}"
    );
    Ok(())
}
