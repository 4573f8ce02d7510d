//! Rows that were set and places that were emptied, over rows that are elsewhere.
ghost use Rattle.std.specs.Prelude.{◌≡◌, [], IfOk, OnOk, OnErr};
ghost use Rattle.std.specs.FinMap.{get, insert, remove, empty};
ghost use Rattle.rdf_model.specs.Volumes.{Rows};
ghost use Rattle.keyed_overlay.specs.Overlays.{overlaid, is_touched};
ghost use Rattle.keyed_overlay.specs.Layings.{value_over};
ghost use Rattle.keyed_overlay.specs.Merging.{HasPassed};

use crate::laying::Laying;
use crate::merge::Merge;
use keyed_files::KeyedFiles;
use rdf_types::names::{FileName, Key, Value};
use rdf_types::records::Row;
use std::alloc::{AllocError, Global};
use std::marker::Model;

/// What was changed of rows that are elsewhere. Contracts see it as the rows that were set and the places that were
/// emptied, and what it makes of any rows below is `overlaid`.
#[derive(Drop)]
pub struct Overlay {
    alloc: Global,
    set: KeyedFiles,
    /// A row for each emptied place; its value has no meaning.
    emptied: KeyedFiles,
}

impl Model for Overlay {
    ghost use Rattle.keyed_overlay.specs.Overlays.{Laid, coded_laid};

    ghost Value = { Laid };

    ghost coded = { coded_laid };

    ghost view = { λ a. record { set = a.set; emptied = a.emptied } };
}

impl Overlay {
    /// Nothing was changed.
    pub fn new(alloc: Global) -> Overlay
        ensures { (base : Rows) → overlaid base result ≡ base }
    {
        Overlay {
            alloc,
            set: KeyedFiles::new(alloc),
            emptied: KeyedFiles::new(alloc),
        }
    }

    /// What the overlay says of the file and key.
    pub fn get(&self, file: &FileName, key: &Key) -> Laying<'_>
        ensures { (base : Rows) → get (overlaid base self.now) (file.now, key.now) ≡ value_over result (get base (file.now, key.now)) }
    {
        if let Some(value) = self.set.get(file, key) {
            return Laying::Set(value);
        }
        match self.emptied.get(file, key) {
            Some(_) => Laying::Emptied,
            None => Laying::Untouched,
        }
    }

    /// Sets the value at the row's file and key.
    pub fn put(&mut self, row: Row) -> Result<(), AllocError>
        ensures ok { OnOk result ((base : Rows) → overlaid base self.new ≡ insert (overlaid base self.old) (row.file, row.key) row.value) }
        ensures err { OnErr result (self.new ≡ self.old) }
    {
        self.set.put(row)?;
        Ok(())
    }

    /// Empties the place of the file and key.
    pub fn remove(&mut self, file: FileName, key: Key) -> Result<(), AllocError>
        ensures ok { OnOk result ((base : Rows) → overlaid base self.new ≡ remove (overlaid base self.old) (file, key)) }
        ensures err { OnErr result (self.new ≡ self.old) }
    {
        let value = some_value(self.alloc)?;
        let place = Row {
            file: file.try_clone()?,
            key: key.try_clone()?,
            value,
        };
        self.emptied.put(place)?;
        take_away(&mut self.set, &file, &key);
        Ok(())
    }

    /// Begins to merge the set rows with rows from below that come in order.
    pub fn merge(&self, alloc: Global) -> Result<Merge<'_>, AllocError>
        ensures laid { IfOk result (λ merge. merge.laid ≡ self.now) }
        ensures begins { IfOk result (λ merge. HasPassed self.now [] [] merge.to_come) }
    {
        let rows = self.set.rows(alloc)?;
        Ok(Merge::of(self, alloc, rows))
    }

    /// Whether the place of the file and key was set or emptied.
    pub(crate) fn touches(&self, file: &FileName, key: &Key) -> bool
        ensures { result ≡ is_touched self.now (file.now, key.now) }
    {
        self.set.get(file, key).is_some() || self.emptied.get(file, key).is_some()
    }
}

// Takes away what stands at the file and key.
fn take_away(rows: &mut KeyedFiles, file: &FileName, key: &Key)
    ensures { rows.new ≡ remove rows.old (file.now, key.now) }
{
    let _ = rows.remove(file, key);
}

// Any value: the shortest.
fn some_value(alloc: Global) -> Result<Value, AllocError> {
    Value::read(alloc, b"-").map_err(|_| AllocError)
}
