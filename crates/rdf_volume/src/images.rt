//! The changes that the images of a trail make on a volume.
ghost use Rattle.std.specs.Prelude.{◌≡◌, ◌≤◌, ◌<◌, filter_map, length, map, take, IfOk};
ghost use Rattle.rdf_types.specs.declared.records.Record.{Record as Rec};
ghost use Rattle.rdf_volume.specs.Changes.{change_by as by_image, change_on as on_volume, changes_on};

use rdf_types::names::{FileName, Key, Value};
use rdf_types::records::{Change, Record, Stamped, VolNo, copy_of};
use std::alloc::{AllocError, Global};

/// How many changes a volume takes at once.
pub const MOST: usize = 64;

/// What holds a record of the trail: the record itself, or one with its position.
pub trait Entry {
    /// Its record.
    ghost holds: { Self → Rec };

    fn held(&self) -> &Record
        ensures { result.now ≡ holds self.now };
}

impl Entry for Record {
    ghost holds = { λ r. r };

    fn held(&self) -> &Record {
        self
    }
}

impl Entry for Stamped {
    ghost holds = { λ s. s.rec };

    fn held(&self) -> &Record {
        &self.rec
    }
}

impl<'a> Entry for &'a Stamped {
    ghost holds = { λ s. s.now.rec };

    fn held(&self) -> &Record {
        &self.rec
    }
}

/// The change of a place to a value, or to none.
pub(crate) fn change_of(
    file: &FileName,
    key: &Key,
    after: &Option<Value>,
) -> Result<Change, AllocError>
    ensures { IfOk result (λ change. change ≡ record { file = file.now; key = key.now; after = after.now }) }
{
    let file = file.try_clone()?;
    let key = key.try_clone()?;
    let after = copy_of(after.as_ref())?;
    Ok(Change { file, key, after })
}

/// The change that an image makes on its volume. Other records make none.
fn change_by(rec: &Record) -> Result<Option<Change>, AllocError>
    ensures { IfOk result (λ change. change ≡ by_image rec.now) }
{
    let Record::Image {
        file,
        key,
        after,
        ..
    } = rec
    else {
        return Ok(None);
    };
    let change = change_of(file, key, after)?;
    Ok(Some(change))
}

/// The change that the record makes on the volume, if it is an image of it.
fn change_on(rec: &Record, vol: VolNo) -> Result<Option<Change>, AllocError>
    ensures { IfOk result (λ change. change ≡ on_volume vol rec.now) }
{
    let Record::Image {
        vol: on,
        file,
        key,
        after,
        ..
    } = rec
    else {
        return Ok(None);
    };
    if *on != vol {
        return Ok(None);
    }
    let change = change_of(file, key, after)?;
    Ok(Some(change))
}

/// The changes that the first images of the volume make, as many as it takes at once, and how many entries they are among.
pub fn next_batch<E: Entry>(
    alloc: Global,
    entries: &[E],
    vol: VolNo,
) -> Result<(Vec<Change>, usize), AllocError>
    ensures within { IfOk result (λ found. found.1 ≤ length entries.now) }
    ensures changes { IfOk result (λ found. found.0.items ≡ changes_on vol (map E.holds (take found.1 entries.now))) }
    ensures few { IfOk result (λ found. length found.0.items ≤ 64) }
    ensures all { IfOk result (λ found. length found.0.items < 64 → found.1 ≡ length entries.now) }
{
    let mut batch = Vec::new(alloc);
    for (i, entry) in entries.iter().enumerate() {
        if batch.len() == MOST {
            return Ok((batch, i));
        }
        match change_on(entry.held(), vol)? {
            Some(change) => batch.push(change)?,
            None => {}
        }
    }
    Ok((batch, entries.len()))
}

/// The changes that the images make on their volume.
pub fn changes_by<E: Entry>(alloc: Global, entries: &[E]) -> Result<Vec<Change>, AllocError>
    ensures value { IfOk result (λ changes. changes.items ≡ filter_map by_image (map E.holds entries.now)) }
    ensures few { IfOk result (λ changes. length changes.items ≤ length entries.now) }
{
    let mut changes = Vec::with_capacity(alloc, entries.len())?;
    for entry in entries {
        match change_by(entry.held())? {
            Some(change) => changes.push(change)?,
            None => {}
        }
    }
    Ok(changes)
}
