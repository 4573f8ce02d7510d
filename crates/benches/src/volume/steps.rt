//! What is done to a volume.
ghost use Rattle.std.specs.Prelude.{◌≡◌, ◌<◌, ℕ, None, IfOk, OnOk};
ghost use Rattle.rdf_disk.specs.Outcomes.{Durably};
ghost use Rattle.rdf_volume.specs.Standing.{StandsForSome};
ghost use Rattle.rdf_volume.specs.Views.{InUse};

use super::rows::{batch_at, file_name, key_of, number_asked, value_of};
use super::words::Sizes;
use rdf_disk::Disk;
use rdf_types::names::FileName;
use rdf_volume::laws::in_use_stands;
use rdf_volume::{VolFault, Volume};
use std::alloc::Global;
use std::cell::Cell;

/// After so many batches a volume is checkpointed while it is filled.
const BATCHES: u32 = 256;

/// How many of the rows that were asked for were found as they were put, and the most reads of the disk that one of them took.
#[derive(Clone, Copy)]
pub struct Found {
    pub right: u32,
    pub most: u64,
}

/// Puts the rows at the places from the first on, 64 of them or as many as there are.
fn put_batch<D: Disk>(
    alloc: Global,
    volume: &mut Volume<D>,
    first: u32,
    rows: u32,
) -> Result<(), VolFault>
    requires some { 0 < rows }
    requires in_use { D.tells → InUse D.files volume.old }
    ensures { D.tells → OnOk result (InUse D.files volume.new) }
{
    let batch = batch_at(alloc, first, rows)?;
    volume.apply(&batch, u64::from(first))?;
    volume.checkpoint_from(BATCHES)
}

fn put_all<D: Disk>(alloc: Global, volume: &mut Volume<D>, rows: u32) -> Result<(), VolFault>
    requires some { 0 < rows }
    requires in_use { D.tells → InUse D.files volume.old }
    ensures { D.tells → OnOk result (InUse D.files volume.new) }
{
    for batch in 0..rows.div_ceil(64) {
        put_batch(alloc, volume, batch.saturating_mul(64), rows)?;
    }
    Ok(())
}

/// A volume of so many rows.
pub fn filled<D: Disk + Drop>(alloc: Global, disk: D, rows: u32) -> Result<Volume<D>, VolFault>
    requires some { 0 < rows }
    requires blank { D.tells → (m : ℕ) → (D.files disk m).seen ≡ None }
    ensures { D.tells → IfOk result (InUse D.files) }
{
    match Volume::format(alloc, disk) {
        Ok(mut volume) => {
            put_all(alloc, &mut volume, rows)?;
            Ok(volume)
        }
        Err(shut) => Err(shut.fault),
    }
}

/// The volume that stands on the disk.
pub fn mounted<D: Disk + Drop>(alloc: Global, disk: D) -> Result<Volume<D>, VolFault>
    requires { D.tells → Durably (D.files disk) StandsForSome }
    ensures { D.tells → IfOk result (InUse D.files) }
{
    match Volume::mount(alloc, disk) {
        Ok(volume) => Ok(volume),
        Err(shut) => Err(shut.fault),
    }
}

/// Gives up the disk of a volume.
pub fn closed<D: Disk>(volume: Volume<D>) -> D
    requires { D.tells → InUse D.files volume }
    ensures { D.tells → Durably (D.files result) StandsForSome }
{
    in_use_stands::<D>();
    volume.close()
}

/// Whether the row of that number is found as it was put.
fn get_one<D: Disk>(
    alloc: Global,
    volume: &mut Volume<D>,
    file: &FileName,
    number: u32,
) -> Result<bool, VolFault>
    requires in_use { D.tells → InUse D.files volume.old }
    ensures { D.tells → OnOk result (InUse D.files volume.new) }
{
    let key = key_of(alloc, number)?;
    let value = value_of(alloc, number)?;
    let found = volume.get(file, &key)?;
    Ok(found.as_ref() == Some(&value))
}

/// What was found with one row more.
fn get_next<D: Disk>(
    alloc: Global,
    volume: &mut Volume<D>,
    file: &FileName,
    number: u32,
    reads: &Cell<u64>,
    found: Found,
) -> Result<Found, VolFault>
    requires in_use { D.tells → InUse D.files volume.old }
    ensures { D.tells → OnOk result (InUse D.files volume.new) }
{
    let before = reads.get();
    let right = get_one(alloc, volume, file, number)?;
    let took = reads.get().saturating_sub(before);
    Ok(Found {
        right: found.right.saturating_add(u32::from(right)),
        most: found.most.max(took),
    })
}

/// Asks for rows that are spread over all of them.
pub fn get_spread<D: Disk>(
    alloc: Global,
    volume: &mut Volume<D>,
    sizes: Sizes,
    reads: &Cell<u64>,
) -> Result<Found, VolFault>
    requires in_use { D.tells → InUse D.files volume.old }
    ensures { D.tells → OnOk result (InUse D.files volume.new) }
{
    let file = file_name(alloc)?;
    let mut found = Found { right: 0, most: 0 };
    for place in 0..sizes.gets {
        let number = number_asked(place, sizes.rows);
        found = get_next(alloc, volume, &file, number, reads, found)?;
    }
    Ok(found)
}

/// How many rows a scan gives.
pub fn scanned<D: Disk>(volume: &mut Volume<D>) -> Result<usize, VolFault>
    requires in_use { D.tells → InUse D.files volume.old }
    ensures { D.tells → OnOk result (InUse D.files volume.new) }
{
    let rows = volume.scan()?;
    Ok(rows.len())
}
