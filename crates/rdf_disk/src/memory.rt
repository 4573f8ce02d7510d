//! A disk in memory.
ghost use Rattle.std.specs.Prelude.{◌≡◌, ◌≤◌, ◌<◌, ℕ, Bool, length, not, if◌then◌else◌, IfOk, IsSome, None, true, false};
ghost use Rattle.std.specs.Option.{option_map};
ghost use Rattle.rdf_disk.specs.Counts.{Counts, Causes, ending, fused, turned_off, turned_on, Restarts};
ghost use Rattle.rdf_disk.specs.Files.{settled, bytes_of, IsSpan};
ghost use Rattle.rdf_disk.specs.Calls.{Same, AllSettle, Looks, Syncs, Writes, Removes, Fills};
ghost use Rattle.rdf_disk.specs.MemoryChanges.{Told, quiet, state_of};
ghost use Rattle.rdf_disk.specs.MemoryEntries.{meant, next_odd, IsPossible};
ghost use Rattle.rdf_disk.specs.MemoryFiles.{told_at};
ghost use Rattle.rdf_disk.specs.MemoryMeters.{counts_of, turn_of, with_fuse, blank_meter, StopsAfter};

use crate::disk::Disk;
use crate::fault::{DiskFault, Tear};
use crate::memory_edits::{edit_of_removal, edit_of_write};
use crate::memory_files::Files;
use crate::memory_meter::{Meter, Turn};
use std::alloc::Global;

/// A disk in memory, which can be made to stop and to fail. It takes with each write and removal
/// the memory that a later sync, stop or cut needs.
#[derive(Drop)]
pub struct MemDisk {
    alloc: Global,
    files: Files,
    meter: Meter,
    ghost still: { meter.off ≡ true → (n : ℕ) → length (told_at files.entries n).changes ≡ 0 },
}

impl MemDisk {
    ghost use Rattle.rdf_disk.specs.MemoryDisks.{tells_of, files_of, settled_after, odd_after, IsCounted, IsLook, DoesWrite, DoesRemoval};

    /// A disk without files. The counted calls with these numbers, from 0, are to fail.
    pub fn blank(alloc: Global, fails: Vec<u64>) -> MemDisk
        ensures files { (m : ℕ) → ⟦<MemDisk as Disk>⟧.files result m ≡ settled None }
        ensures counts { ⟦<MemDisk as Disk>⟧.counts result ≡ record { faults = 0; stops = 0; fuses = 0; off = false } }
        ensures told { (n : ℕ) → tells_of result n ≡ quiet None }
        ensures odd { result.files.odd ≡ false }
        ensures meter { result.meter ≡ blank_meter fails }
    {
        MemDisk {
            alloc,
            files: Files::new(alloc),
            meter: Meter::new(fails),
        }
    }

    /// The end of a counted call: a disk that stops settles, and the answer is that of the turn.
    fn end(&mut self, turn: Turn) -> Result<(), DiskFault>
        requires { turn ≡ turn_of self.old.meter }
        ensures counted { IsCounted result self.old.meter self.new.meter }
        ensures told { IsLook turn self.old self.new }
        ensures odd { self.new.files.odd ≡ odd_after turn self.old.files.odd }
    {
        self.meter.count(turn);
        match turn {
            Turn::Go => Ok(()),
            Turn::Fail => Err(DiskFault::Failed),
            Turn::Stop(tear) => {
                self.files.settle(tear);
                Err(DiskFault::Stopped)
            }
            Turn::Off => Err(DiskFault::Stopped),
        }
    }

    /// Counts a call that changes no file.
    fn look(&mut self) -> Result<(), DiskFault>
        ensures files { Looks result (files_of self.old) (files_of self.new) }
        ensures cause { Causes (ending result) (counts_of self.old.meter) (counts_of self.new.meter) }
        ensures counted { IsCounted result self.old.meter self.new.meter }
        ensures told { IsLook (turn_of self.old.meter) self.old self.new }
        ensures odd { self.new.files.odd ≡ odd_after (turn_of self.old.meter) self.old.files.odd }
    {
        let turn = self.meter.turn();
        self.end(turn)
    }

    /// Writes, as the turn of the call has it.
    fn put(&mut self, file: u32, at: usize, bytes: &[u8]) -> Result<(), DiskFault>
        requires numbered { file < u32.MAX }
        requires no_gap { at ≤ length (bytes_of (tells_of self.old file).seen) }
        ensures { DoesWrite result file at bytes.now self.old self.new }
    {
        let turn = self.meter.turn();
        if let Turn::Off = turn {
            return Err(DiskFault::Stopped);
        }
        let edit = edit_of_write(turn, at, bytes);
        self.files.change(self.alloc, file, edit)?;
        self.end(turn)
    }

    /// Removes, as the turn of the call has it. A removal of a file that isn't there is no change.
    fn take_away(&mut self, file: u32) -> Result<(), DiskFault>
        ensures { DoesRemoval result file self.old self.new }
    {
        let turn = self.meter.turn();
        if let Turn::Off = turn {
            return Err(DiskFault::Stopped);
        }
        if self.files.len(file).is_some() {
            self.files.change(self.alloc, file, edit_of_removal(turn))?;
        }
        self.end(turn)
    }
}

impl Disk for MemDisk {
    ghost use Rattle.std.specs.Prelude.{⊤};
    ghost use Rattle.rdf_disk.specs.MemoryFiles.{told_none};
    ghost use Rattle.rdf_disk.specs.MemoryDisks.{tells_of, files_of, odd_after, odd_after_sync, after_sync, IsCounted, IsLook, DoesWrite, DoesRemoval};

    ghost tells = { ⊤ };

    ghost files = { files_of };

    ghost counts = { λ d. counts_of d.meter };

    ghost none_last = { λ _ d. told_none _ d.files.none };

    fn faults(&self) -> u64 {
        self.meter.faults
    }

    fn stops(&self) -> u64 {
        self.meter.stops
    }

    fn fuses(&self) -> u64 {
        self.meter.fuses
    }

    fn is_off(&self) -> bool {
        self.meter.off
    }

    fn span(&mut self) -> Result<(u32, u32), DiskFault>
        ensures ok { IfOk result (λ span. IsSpan (files_of self.old) span.0 span.1) }
        ensures files { Looks result (files_of self.old) (files_of self.new) }
        ensures cause { Causes (ending result) (counts_of self.old.meter) (counts_of self.new.meter) }
        ensures counted { IsCounted result self.old.meter self.new.meter }
        ensures told { IsLook (turn_of self.old.meter) self.old self.new }
        ensures odd { self.new.files.odd ≡ odd_after (turn_of self.old.meter) self.old.files.odd }
    {
        match self.look() {
            Ok(()) => Ok(self.files.span()),
            Err(fault) => Err(fault),
        }
    }

    fn len(&mut self, file: u32) -> Result<Option<u64>, DiskFault>
        ensures ok { IfOk result (λ len. len ≡ option_map length (files_of self.old file).seen) }
        ensures files { Looks result (files_of self.old) (files_of self.new) }
        ensures cause { Causes (ending result) (counts_of self.old.meter) (counts_of self.new.meter) }
        ensures counted { IsCounted result self.old.meter self.new.meter }
        ensures told { IsLook (turn_of self.old.meter) self.old self.new }
        ensures odd { self.new.files.odd ≡ odd_after (turn_of self.old.meter) self.old.files.odd }
    {
        match self.look() {
            Ok(()) => Ok(self.files.len(file)),
            Err(fault) => Err(fault),
        }
    }

    fn read(&mut self, file: u32, at: u64, into: &mut [u8]) -> Result<usize, DiskFault>
        ensures ok { IfOk result (λ n. Fills (files_of self.old file).seen at into.old n into.new) }
        ensures within { IfOk result (λ n. n ≤ length into.old) }
        ensures files { Looks result (files_of self.old) (files_of self.new) }
        ensures cause { Causes (ending result) (counts_of self.old.meter) (counts_of self.new.meter) }
        ensures counted { IsCounted result self.old.meter self.new.meter }
        ensures told { IsLook (turn_of self.old.meter) self.old self.new }
        ensures odd { self.new.files.odd ≡ odd_after (turn_of self.old.meter) self.old.files.odd }
    {
        match self.look() {
            Ok(()) => Ok(self.files.read(file, at, into)),
            Err(fault) => Err(fault),
        }
    }

    fn write(&mut self, file: u32, at: u64, bytes: &[u8]) -> Result<(), DiskFault>
        requires numbered { file < u32.MAX }
        requires no_gap { at ≤ length (bytes_of (files_of self.old file).seen) }
        ensures files { Writes file at bytes.now result (files_of self.old) (files_of self.new) }
        ensures cause { Causes (ending result) (counts_of self.old.meter) (counts_of self.new.meter) }
        ensures does { DoesWrite result file at bytes.now self.old self.new }
    {
        self.put(file, at as usize, bytes)
    }

    fn remove(&mut self, file: u32) -> Result<(), DiskFault>
        ensures files { Removes file result (files_of self.old) (files_of self.new) }
        ensures cause { Causes (ending result) (counts_of self.old.meter) (counts_of self.new.meter) }
        ensures does { DoesRemoval result file self.old self.new }
    {
        self.take_away(file)
    }

    fn sync(&mut self) -> Result<(), DiskFault>
        ensures files { Syncs result (files_of self.old) (files_of self.new) }
        ensures cause { Causes (ending result) (counts_of self.old.meter) (counts_of self.new.meter) }
        ensures counted { IsCounted result self.old.meter self.new.meter }
        ensures told { (n : ℕ) → tells_of self.new n ≡ after_sync (turn_of self.old.meter) (tells_of self.old n) }
        ensures odd { self.new.files.odd ≡ odd_after_sync (turn_of self.old.meter) self.old.files.odd }
    {
        match self.look() {
            Ok(()) => {
                self.files.sync();
                Ok(())
            }
            Err(fault) => Err(fault),
        }
    }

    fn cut(&mut self)
        ensures files { AllSettle (files_of self.old) (files_of self.new) }
        ensures counts { counts_of self.new.meter ≡ turned_off (counts_of self.old.meter) }
        ensures told { (n : ℕ) → tells_of self.new n ≡ quiet (tells_of self.old n).safe }
        ensures odd { self.new.files.odd ≡ false }
        ensures meter { self.new.meter ≡ record self.old.meter { off = true } }
    {
        self.meter.off = true;
        self.files.settle(Tear::Lose);
    }

    fn restart(&mut self) -> Result<(), DiskFault>
        ensures files { Same (files_of self.old) (files_of self.new) }
        ensures cause { Restarts result (counts_of self.old.meter) (counts_of self.new.meter) }
        ensures ok { result ≡ Ok tt }
        ensures told { (n : ℕ) → tells_of self.new n ≡ tells_of self.old n }
        ensures odd { self.new.files.odd ≡ self.old.files.odd }
        ensures meter { self.new.meter ≡ record self.old.meter { off = false } }
    {
        self.meter.off = false;
        Ok(())
    }

    fn fuse(&mut self, calls: u32, tear: Tear)
        ensures files { Same (files_of self.old) (files_of self.new) }
        ensures counts { counts_of self.new.meter ≡ fused (counts_of self.old.meter) }
        ensures told { (n : ℕ) → tells_of self.new n ≡ tells_of self.old n }
        ensures odd { self.new.files.odd ≡ self.old.files.odd }
        ensures meter { self.new.meter ≡ with_fuse calls tear self.old.meter }
        ensures stops { self.old.meter.off ≡ false → StopsAfter calls tear self.new.meter }
    {
        self.meter.set_fuse(calls, tear);
    }
}
