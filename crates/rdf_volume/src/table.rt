//! The table of a volume's rows: an index of its base, whose rows stay on the disk, and what was changed of them since.
ghost use Rattle.std.specs.Prelude.{◌≡◌, ◌<◌, [], List, ℕ, length, slice_get, MatchOption, OnOk, IfOk};
ghost use Rattle.std.specs.FinMap as map;
ghost use Rattle.rdf_disk.specs.Counts.{Causes};
ghost use Rattle.rdf_gatelog.specs.Log.{IsAtRest};
ghost use Rattle.rdf_gatelog.specs.LogCalls.{OnlyLooks};
ghost use Rattle.rdf_gatelog.specs.LogCauses.{ending, NotDamaged};
ghost use Rattle.rdf_model.specs.Volumes.{Rows};
ghost use Rattle.keyed_overlay.specs.Overlays.{overlaid};
ghost use Rattle.rdf_volume.specs.Base.{IsIndexOf};
ghost use Rattle.rdf_volume.specs.Changes.{changed, with_change};
ghost use Rattle.rdf_volume.specs.InUse.{IsTable, IsSomeTable};

use crate::block_cache::{BlockCache, BlockRead};
use crate::images::change_of;
use crate::shown::Shown;
use keyed_blocks::{BaseIndex, value_among};
use keyed_overlay::{Laying, Overlay};
use rdf_codec::index_entries::IndexEntry;
use rdf_disk::Disk;
use rdf_gatelog::{LogFault, LogFile};
use rdf_types::names::{FileName, Key, Value};
use rdf_types::records::{Change, Row, copy_of};
use std::alloc::{AllocError, Global};

/// An index of a base, what was changed of its rows since, and the blocks that were read last. What it shows exists only in proofs.
#[derive(Drop)]
pub struct RowTable {
    pub shown: Shown,
    pub index: BaseIndex,
    pub overlay: Overlay,
    pub blocks: BlockCache,
}

impl RowTable {
    /// A table without rows.
    pub fn new(alloc: Global) -> Result<RowTable, AllocError>
        ensures rows { IfOk result (λ table. table.shown.rows ≡ map.empty) }
        ensures table { IfOk result (λ table. (payloads : List (List ℕ)) → IsTable table payloads) }
    {
        RowTable::over(alloc, Shown::none(), Vec::new(alloc))
    }

    /// A table that shows these rows over a base with that index, of which nothing was changed yet.
    pub fn over(
        alloc: Global,
        shown: Shown,
        entries: Vec<IndexEntry>,
    ) -> Result<RowTable, AllocError>
        ensures shown { IfOk result (λ table. table.shown.rows ≡ shown.rows) }
        ensures index { IfOk result (λ table. table.index ≡ entries.items) }
        ensures blocks { IfOk result (λ table. table.blocks ≡ []) }
        ensures overlay { IfOk result (λ table. (base : Rows) → overlaid base table.overlay ≡ base) }
    {
        let index = BaseIndex::of(entries)?;
        let blocks = BlockCache::new(alloc)?;
        Ok(RowTable {
            shown,
            index,
            overlay: Overlay::new(alloc),
            blocks,
        })
    }

    /// Makes one change, whose texts it takes over.
    pub fn take(&mut self, change: Change) -> Result<(), AllocError>
        ensures shown { OnOk result (self.new.shown.rows ≡ with_change self.old.shown.rows change) }
        ensures base { (self.new.index ≡ self.old.index) × (self.new.blocks ≡ self.old.blocks) }
        ensures overlay { OnOk result ((base : Rows) → overlaid base self.new.overlay ≡ with_change (overlaid base self.old.overlay) change) }
    {
        self.shown = self.shown.after(&change);
        let Change { file, key, after } = change;
        match after {
            Some(value) => self.overlay.put(Row { file, key, value }),
            None => self.overlay.remove(file, key),
        }
    }

    /// Makes one change.
    fn set(&mut self, change: &Change) -> Result<(), AllocError>
        ensures shown { OnOk result (self.new.shown.rows ≡ with_change self.old.shown.rows change.now) }
        ensures base { (self.new.index ≡ self.old.index) × (self.new.blocks ≡ self.old.blocks) }
        ensures overlay { OnOk result ((base : Rows) → overlaid base self.new.overlay ≡ with_change (overlaid base self.old.overlay) change.now) }
    {
        let change = change_of(&change.file, &change.key, &change.after)?;
        self.take(change)
    }

    /// Makes all changes, in their order.
    pub fn set_all(&mut self, batch: &[Change]) -> Result<(), AllocError>
        ensures shown { OnOk result (self.new.shown.rows ≡ changed self.old.shown.rows batch.now) }
        ensures base { (self.new.index ≡ self.old.index) × (self.new.blocks ≡ self.old.blocks) }
        ensures overlay { OnOk result ((base : Rows) → overlaid base self.new.overlay ≡ changed (overlaid base self.old.overlay) batch.now) }
    {
        for change in batch {
            self.set(change)?;
        }
        Ok(())
    }

    /// Makes all changes, in their order, and takes their texts over.
    pub fn take_all(&mut self, batch: Vec<Change>) -> Result<(), AllocError>
        ensures shown { OnOk result (self.new.shown.rows ≡ changed self.old.shown.rows batch.items) }
        ensures base { (self.new.index ≡ self.old.index) × (self.new.blocks ≡ self.old.blocks) }
        ensures overlay { OnOk result ((base : Rows) → overlaid base self.new.overlay ≡ changed (overlaid base self.old.overlay) batch.items) }
    {
        for change in batch {
            self.take(change)?;
        }
        Ok(())
    }

    /// Shows the same rows over a new base, of which nothing was changed yet.
    pub fn rest_on(&mut self, alloc: Global, index: BaseIndex)
        ensures shown { self.new.shown.rows ≡ self.old.shown.rows }
        ensures table { (payloads : List (List ℕ)) → IsIndexOf index self.old.shown.rows payloads → IsTable self.new payloads }
    {
        self.index = index;
        self.overlay = Overlay::new(alloc);
        self.blocks.clear();
    }

    /// Reads a block of the base, unless it is kept, and answers where it is among those that are kept.
    fn read<D: Disk>(
        &mut self,
        alloc: Global,
        log: &LogFile,
        disk: &mut D,
        number: u32,
    ) -> Result<usize, LogFault>
        requires within { number < length self.old.index }
        requires table { D.tells → IsSomeTable self.old log.now (D.files disk.old) }
        ensures shown { self.new.shown.rows ≡ self.old.shown.rows }
        ensures table { D.tells → (payloads : List (List ℕ)) → IsAtRest log.now.file log.now.end payloads (D.files disk.old)
            → IsTable self.old payloads → IsTable self.new payloads }
        ensures block { IfOk result (λ place. MatchOption (slice_get self.new.blocks place) ⊥ (λ block. block.number ≡ number)) }
        ensures same { (self.new.index ≡ self.old.index) × (self.new.overlay ≡ self.old.overlay) }
        ensures files { D.tells → OnlyLooks result (D.files disk.old) (D.files disk.new) }
        ensures cause { Causes (ending result) (D.counts disk.old) (D.counts disk.new) }
        ensures sound { D.tells → NotDamaged result }
    {
        if let Some(place) = self.blocks.place_of(number) {
            return Ok(place);
        }
        let rows = self.index.rows_of(alloc, log, disk, number)?;
        self.blocks.keep(BlockRead { number, rows });
        Ok(0)
    }

    /// The value at the file and key. It reads one block of the base, or none where the place was changed since or that block is
    /// kept. It changes nothing on the disk.
    pub fn get<D: Disk>(
        &mut self,
        alloc: Global,
        log: &LogFile,
        disk: &mut D,
        file: &FileName,
        key: &Key,
    ) -> Result<Option<Value>, LogFault>
        requires table { D.tells → IsSomeTable self.old log.now (D.files disk.old) }
        ensures ok { D.tells → IfOk result (λ value. value ≡ map.get self.old.shown.rows (file.now, key.now)) }
        ensures shown { self.new.shown.rows ≡ self.old.shown.rows }
        ensures table { D.tells → (payloads : List (List ℕ)) → IsAtRest log.now.file log.now.end payloads (D.files disk.old)
            → IsTable self.old payloads → IsTable self.new payloads }
        ensures files { D.tells → OnlyLooks result (D.files disk.old) (D.files disk.new) }
        ensures cause { Causes (ending result) (D.counts disk.old) (D.counts disk.new) }
        ensures sound { D.tells → NotDamaged result }
    {
        match self.overlay.get(file, key) {
            Laying::Set(value) => return Ok(Some(value.try_clone()?)),
            Laying::Emptied => return Ok(None),
            Laying::Untouched => {}
        }
        let Some(number) = self.index.block_of(file, key) else {
            return Ok(None);
        };
        let place = self.read(alloc, log, disk, number)?;
        match self.blocks.get(place) {
            Some(block) => Ok(copy_of(value_among(&block.rows, file, key))?),
            None => Ok(None),
        }
    }
}
