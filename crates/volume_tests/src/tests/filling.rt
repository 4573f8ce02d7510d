//! A volume that is filled with numbered rows and changed, and then brought to its end as a takeover does it.
use crate::tests::numbered_rows::{Fate, ROWS, change_of, fate_once_changed};
use fault_tables::Untold;
use rdf_types::records::Change;
use rdf_volume::Volume;
use std::alloc::Global;
use std::test::Fail;
use takeover_undo::undo_volume;

/// How many changes a volume takes at once.
const MOST: usize = 64;

/// The row that is the n-th to be filled. Rows that come one after another are no neighbours.
fn nth_row(n: u32) -> u32 {
    n % ROWS * 1_003 % ROWS
}

/// Adds the change that gives a row its first value.
fn push_row(alloc: Global, batch: &mut Vec<Change>, row: u32) -> Result<(), Fail> {
    batch.push(change_of(alloc, row, Fate::First)?)?;
    Ok(())
}

/// The first values of five rows, from the n-th to be filled on.
fn five_rows(alloc: Global, n: u32) -> Result<Vec<Change>, Fail> {
    let mut batch = Vec::new(alloc);
    for i in 0..5 {
        push_row(alloc, &mut batch, nth_row(n.wrapping_add(i)))?;
    }
    Ok(batch)
}

/// Adds the later change of a row, if it has one.
fn push_change(alloc: Global, batch: &mut Vec<Change>, row: u32) -> Result<(), Fail> {
    match fate_once_changed(row) {
        Fate::First => Ok(()),
        fate => {
            batch.push(change_of(alloc, row, fate)?)?;
            Ok(())
        }
    }
}

/// The later changes of 64 rows, one after another.
fn later_changes(alloc: Global, row: u32) -> Result<Vec<Change>, Fail> {
    let mut batch = Vec::new(alloc);
    for i in 0..64 {
        push_change(alloc, &mut batch, row.wrapping_add(i))?;
    }
    Ok(batch)
}

/// All batches: 600 that fill the volume, and 47 that change it.
fn all_batches(alloc: Global) -> Result<Vec<Vec<Change>>, Fail> {
    let mut batches = Vec::new(alloc);
    for turn in 0..600 {
        batches.push(five_rows(alloc, turn * 5)?)?;
    }
    for turn in 0..47 {
        batches.push(later_changes(alloc, turn * 64)?)?;
    }
    Ok(batches)
}

/// Applies a batch, and writes the volume anew where it has had 256 of them.
fn apply_one(volume: &mut Volume<Untold>, batch: &[Change]) -> Result<(), Fail> {
    if batch.len() > MOST {
        return Err(Fail::new("more changes than a volume takes at once"));
    }
    volume.apply(batch, 7)?;
    volume.checkpoint_from(256)?;
    Ok(())
}

fn apply_all(volume: &mut Volume<Untold>, batches: &[Vec<Change>]) -> Result<(), Fail> {
    for batch in batches {
        apply_one(volume, batch)?;
    }
    Ok(())
}

/// What the first three changes of transactions without outcome found: an insert, a removal and a change.
fn first_found(alloc: Global) -> Result<[Change; 3], Fail> {
    let inserted = change_of(alloc, 1, Fate::Gone)?;
    let removed = change_of(alloc, 3, Fate::First)?;
    let changed = change_of(alloc, 6, Fate::First)?;
    Ok([inserted, removed, changed])
}

/// The end of a takeover: these changes are taken back.
fn take_back(alloc: Global, volume: &mut Volume<Untold>) -> Result<(), Fail> {
    let undo = first_found(alloc)?;
    undo_volume(volume, &undo, 5)?;
    Ok(())
}

/// The volume that was filled, changed and taken over.
pub(crate) fn taken_over(alloc: Global) -> Result<Volume<Untold>, Fail> {
    let batches = all_batches(alloc)?;
    match Volume::format(alloc, Untold::blank(alloc)) {
        Ok(mut volume) => {
            apply_all(&mut volume, &batches)?;
            take_back(alloc, &mut volume)?;
            Ok(volume)
        }
        Err(shut) => Err(shut.fault)?,
    }
}
