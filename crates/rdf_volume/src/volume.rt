//! A volume in use: the log of its file, and a table of its rows.
ghost use Rattle.std.specs.Prelude.{◌≡◌, ◌≤◌, ◌<◌, ◌-◌, ℕ, false, None, length, OnOk, OnErr, IfOk};
ghost use Rattle.std.specs.FinMap as map;
ghost use Rattle.rdf_disk.specs.Calls.{Same};
ghost use Rattle.rdf_disk.specs.Counts.{Causes, fused};
ghost use Rattle.rdf_disk.specs.Outcomes.{Durably};
ghost use Rattle.rdf_gatelog.specs.LogCauses.{ending, NotDamaged};
ghost use Rattle.rdf_model.specs.Rows.{list_of};
ghost use Rattle.rdf_volume.specs.Calls.{Applies, Formats};
ghost use Rattle.rdf_volume.specs.InUse.{IsTabled};
ghost use Rattle.rdf_volume.specs.Standing.{StandsFor, WasOrBegun};
ghost use Rattle.rdf_volume.specs.Views.{rows_of, restart_of, batches_of, file_of, disk_of, InUse, Unchanged};

use crate::base::{append_batch, first_base};
use crate::scan::all_rows;
use crate::table::RowTable;
use rdf_disk::{Disk, Tear};
use rdf_gatelog::{LogFault, LogFile};
use rdf_types::names::{FileName, Key, Value};
use rdf_types::records::{Change, Pos, Row};
use std::alloc::Global;

/// Why a call of a volume did nothing, or only a part.
pub type VolFault = LogFault;

/// The rows of a volume, with the position from which redo goes on. After a call of it answers an `Err`, only
/// `restart_point`, `stops`, `faults` and `close` may be called.
#[derive(Drop)]
pub struct Volume<D: Disk> {
    pub(crate) alloc: Global,
    pub(crate) disk: D,
    pub(crate) log: LogFile,
    pub(crate) table: RowTable,
    pub(crate) restart: Pos,
    pub(crate) batches: u32,
}

/// The disk of a volume that wasn't opened, and why.
#[derive(Drop)]
pub struct VolShut<D: Disk> {
    pub disk: D,
    pub fault: VolFault,
}

/// Makes the first file of a volume, and a table without rows.
fn first_file<D: Disk>(alloc: Global, disk: &mut D) -> Result<(LogFile, RowTable), LogFault>
    requires blank { D.tells → (m : ℕ) → (D.files disk.old m).seen ≡ None }
    ensures ok { D.tells → IfOk result (λ made. IsTabled (D.files disk.new) made.0.file made.0.end made.1 0 0) }
    ensures err { D.tells → OnErr result (Durably (D.files disk.new) (WasOrBegun (D.files disk.old))) }
    ensures rows { IfOk result (λ made. made.1.shown.rows ≡ map.empty) }
    ensures on { OnOk result ((D.counts disk.old).off ≡ false) }
    ensures file { IfOk result (λ made. made.0.file ≡ 0) }
    ensures cause { Causes (ending result) (D.counts disk.old) (D.counts disk.new) }
    ensures sound { NotDamaged result }
{
    let table = RowTable::new(alloc)?;
    let log = first_base(alloc, disk)?;
    Ok((log, table))
}

impl<D: Disk> Volume<D> {
    /// Makes a volume without rows, with restart point 0, on a disk without files. After an `Err` the disk durably is as it
    /// might have been before, or has file 0 alone, without blocks or as such a volume.
    pub fn format(alloc: Global, mut disk: D) -> Result<Volume<D>, VolShut<D>>
        requires blank { D.tells → (m : ℕ) → (D.files disk m).seen ≡ None }
        ensures { Formats D.tells D.files D.counts disk result }
    {
        match first_file(alloc, &mut disk) {
            Ok((log, table)) => Ok(Volume {
                alloc,
                disk,
                log,
                table,
                restart: 0,
                batches: 0,
            }),
            Err(fault) => Err(VolShut { disk, fault }),
        }
    }

    /// Makes all changes in their order and sets the restart point, as one durable step. After an `Err` the disk durably
    /// stands for what was before, or for the whole batch.
    pub fn apply(&mut self, batch: &[Change], restart: Pos) -> Result<(), VolFault>
        requires few { length batch.now ≤ 64 }
        requires in_use { D.tells → InUse D.files self.old }
        ensures { Applies D.tells D.files D.counts batch.now restart self.old result self.new }
    {
        append_batch(self.alloc, &mut self.disk, &mut self.log, batch, restart)?;
        self.table.set_all(batch)?;
        self.restart = restart;
        self.batches = self.batches.saturating_add(1);
        Ok(())
    }

    /// The value at the file and key: it reads one block of the base, or none where they were changed since or it is kept. After an `Err` the disk
    /// durably stands for the same.
    pub fn get(&mut self, file: &FileName, key: &Key) -> Result<Option<Value>, VolFault>
        requires in_use { D.tells → InUse D.files self.old }
        ensures ok { D.tells → OnOk result (InUse D.files self.new) }
        ensures found { D.tells → IfOk result (λ value. value ≡ map.get (rows_of self.old) (file.now, key.now)) }
        ensures same { Unchanged self.old self.new }
        ensures err { D.tells → OnErr result (Durably (D.files (disk_of self.new)) (StandsFor (rows_of self.old) (restart_of self.old))) }
        ensures cause { Causes (ending result) (D.counts (disk_of self.old)) (D.counts (disk_of self.new)) }
        ensures sound { D.tells → NotDamaged result }
    {
        self.table
            .get(self.alloc, &self.log, &mut self.disk, file, key)
    }

    /// All rows, in the order of file and key. After an `Err` the disk durably stands for the same.
    pub fn scan(&mut self) -> Result<Vec<Row>, VolFault>
        requires in_use { D.tells → InUse D.files self.old }
        ensures ok { D.tells → OnOk result (InUse D.files self.new) }
        ensures rows { D.tells → IfOk result (λ rows. rows.items ≡ list_of (rows_of self.old)) }
        ensures same { Unchanged self.old self.new }
        ensures err { D.tells → OnErr result (Durably (D.files (disk_of self.new)) (StandsFor (rows_of self.old) (restart_of self.old))) }
        ensures cause { Causes (ending result) (D.counts (disk_of self.old)) (D.counts (disk_of self.new)) }
        ensures sound { D.tells → NotDamaged result }
    {
        all_rows(self.alloc, &self.table, &self.log, &mut self.disk)
    }

    /// The position from which redo goes on. After an `Err` of a call, the one before that call.
    pub fn restart_point(&self) -> Pos
        ensures { result ≡ restart_of self.now }
    {
        self.restart
    }

    /// The number of batches since the last checkpoint, or since the volume was made. It stays at 2 ^ 32 - 1.
    pub fn batches(&self) -> u32
        ensures { result ≡ batches_of self.now }
    {
        self.batches
    }

    /// The number of the file that the volume stands in.
    pub fn file_number(&self) -> u32
        ensures { result ≡ file_of self.now }
    {
        self.log.file()
    }

    /// How often the disk has stopped.
    pub fn stops(&self) -> u64
        ensures { result ≡ (D.counts (disk_of self.now)).stops }
    {
        self.disk.stops()
    }

    /// How often the disk has failed.
    pub fn faults(&self) -> u64
        ensures { result ≡ (D.counts (disk_of self.now)).faults }
    {
        self.disk.faults()
    }

    /// After that many more counted calls of the disk the next one stops.
    pub fn fuse(&mut self, calls: u32, tear: Tear)
        requires in_use { D.tells → InUse D.files self.old }
        ensures in_use { D.tells → InUse D.files self.new }
        ensures files { D.tells → Same (D.files (disk_of self.old)) (D.files (disk_of self.new)) }
        ensures same { Unchanged self.old self.new }
        ensures counts { D.counts (disk_of self.new) ≡ fused (D.counts (disk_of self.old)) }
    {
        self.disk.fuse(calls, tear);
    }

    /// Gives the disk up.
    pub fn close(self) -> D
        ensures { result ≡ disk_of self }
    {
        let Volume {
            alloc: _,
            disk,
            log: _,
            table: _,
            restart: _,
            batches: _,
        } = self;
        disk
    }
}
