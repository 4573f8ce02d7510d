//! A log in a file of a disk. A block counts once its gate is open, and a closed gate stands behind the last block.
ghost use Rattle.std.specs.Prelude.{◌≡◌, ◌+◌, ◌<◌, ◌≤◌, ◌^◌, ◌-◌, ◌∷◌, ℕ, List, Option, Some, None, Err, length, OnOk, OnErr, IfOk};
ghost use Rattle.rdf_disk.specs.Counts.{Causes, ending as disk_ending};
ghost use Rattle.rdf_disk.specs.Files.{settled, bytes_of, patched};
ghost use Rattle.rdf_disk.specs.Outcomes.{Surely};
ghost use Rattle.rdf_gatelog.specs.FirstGate.{GateClosed, StaysShort};
ghost use Rattle.rdf_gatelog.specs.Log.{IsPayload, IsAtRest, IsBlockAt, IsPlace, open_blocks};
ghost use Rattle.rdf_gatelog.specs.LogCalls.{Creates, Appends, AppendsAll, OpensBehind, ArePayloads, HasBlock, OthersNarrow, OnlyLooks};
ghost use Rattle.rdf_gatelog.specs.Parsed.{lists_of};
ghost use Rattle.rdf_gatelog.specs.LogCauses.{ending, NotDamaged};

use crate::blocks::{block_of, open_blocks_of};
use crate::fault::LogFault;
use crate::reading::block_there;
use rdf_disk::{Disk, DiskFault};
use std::alloc::Global;
use std::marker::Model;

/// An append to a log that ends behind this place answers want of memory, so that every place stays below 2 ^ 64.
pub(crate) const MAX_END: u64 = u64::MAX - 100_000;

/// A log in a file of a disk. It knows the file's number and where its blocks end, and keeps none of them in memory.
/// It may be used as long as no one else writes that file. After a call of it answers an `Err` the file is mounted again.
#[derive(Drop)]
pub struct LogFile {
    alloc: Global,
    file: u32,
    end: u64,
}

impl Model for LogFile {
    ghost use Rattle.std.specs.Prelude.{◌<◌, ◌-◌, ◌^◌};
    ghost use Rattle.rdf_gatelog.specs.LogPlace.{LogPlace};

    ghost Value = { LogPlace };

    ghost view = { λ log. record { file = log.file; end = log.end } };

    ghost invariant = { λ log. log.file < 2 ^ 32 - 1 };
}

/// Makes a closed gate all that a file has. The file isn't there, or has at most one byte, which a stop may have torn.
pub(crate) fn close_first_gate<D: Disk>(disk: &mut D, file: u32) -> Result<(), DiskFault>
    requires numbered { file < u32.MAX }
    requires short { D.tells → (x : Option (List ℕ)) × (D.files disk.old file ≡ settled x) × (length (bytes_of x) ≤ 1) }
    ensures ok { D.tells → OnOk result (GateClosed file (D.files disk.old) (D.files disk.new)) }
    ensures this { D.tells → Surely (D.files disk.new file) (StaysShort (D.files disk.old file).seen) }
    ensures others { D.tells → OthersNarrow file (D.files disk.old) (D.files disk.new) }
    ensures cause { Causes (disk_ending result) (D.counts disk.old) (D.counts disk.new) }
{
    disk.write(file, 0, &[0])?;
    disk.sync()
}

/// Writes blocks behind the closed gate of a log, which is opened only when they are safe. So all of them count, or none.
fn open_behind<D: Disk>(disk: &mut D, file: u32, gate: u64, blocks: &[u8]) -> Result<(), LogFault>
    requires numbered { file < u32.MAX }
    requires some { 1 ≤ length blocks.now }
    requires room { gate + length blocks.now < 2 ^ 64 }
    requires at_rest { D.tells → (payloads : List (List ℕ)) × IsAtRest file gate payloads (D.files disk.old) }
    ensures files { D.tells → OpensBehind file gate blocks.now result (D.files disk.old) (D.files disk.new) }
    ensures bytes { D.tells → OnOk result ((D.files disk.new file).seen ≡ Some (patched (bytes_of (D.files disk.old file).seen) gate (1 ∷ blocks.now))) }
    ensures cause { Causes (ending result) (D.counts disk.old) (D.counts disk.new) }
    ensures sound { NotDamaged result }
{
    disk.write(file, gate + 1, blocks)?;
    disk.sync()?;
    disk.write(file, gate, &[1])?;
    disk.sync()?;
    Ok(())
}

impl LogFile {
    /// Makes a file with a closed gate alone: a log without blocks.
    pub fn create<D: Disk>(alloc: Global, disk: &mut D, file: u32) -> Result<LogFile, LogFault>
        requires numbered { file < u32.MAX }
        requires absent { D.tells → D.files disk.old file ≡ settled None }
        ensures files { D.tells → Creates file result (D.files disk.old) (D.files disk.new) }
        ensures cause { Causes (ending result) (D.counts disk.old) (D.counts disk.new) }
        ensures place { IfOk result (λ log. log ≡ record { file = file; end = 0 }) }
        ensures sound { NotDamaged result }
    {
        close_first_gate(disk, file)?;
        Ok(LogFile::at(alloc, file, 0))
    }

    /// The log of a file whose blocks end at that place, by what an earlier call told. It touches no disk.
    pub fn at(alloc: Global, file: u32, end: u64) -> LogFile
        requires { file < u32.MAX }
        ensures { result ≡ record { file = file; end = end } }
    {
        LogFile { alloc, file, end }
    }

    /// Adds a block, and answers the place of its gate. The gate is opened only when the block is safe.
    pub fn append<D: Disk>(&mut self, disk: &mut D, payload: &[u8]) -> Result<u64, LogFault>
        requires payload { IsPayload payload.now }
        requires at_rest { D.tells → (payloads : List (List ℕ)) × IsAtRest self.old.file self.old.end payloads (D.files disk.old) }
        ensures files { D.tells → Appends self.old.file self.old.end self.new.end payload.now result (D.files disk.old) (D.files disk.new) }
        ensures cause { Causes (ending result) (D.counts disk.old) (D.counts disk.new) }
        ensures bytes { D.tells → OnOk result (HasBlock self.old.file self.old.end payload.now (D.files disk.old) (D.files disk.new)) }
        ensures place { IfOk result (λ at. at ≡ self.old.end) }
        ensures end { OnOk result (self.new.end ≡ self.old.end + 5 + length payload.now) }
        ensures file { self.new.file ≡ self.old.file }
        ensures err { OnErr result (self.new ≡ self.old) }
        ensures sound { NotDamaged result }
    {
        let gate = self.end;
        if gate > MAX_END {
            return Err(LogFault::NoMemory);
        }
        let block = block_of(self.alloc, payload)?;
        open_behind(disk, self.file, gate, &block)?;
        self.end = gate + 5 + payload.len() as u64;
        Ok(gate)
    }

    /// Adds blocks, all at once: one gate is opened, when all of them are safe.
    pub fn append_all<D: Disk>(
        &mut self,
        disk: &mut D,
        payloads: &[Vec<u8>],
    ) -> Result<(), LogFault>
        requires payloads { ArePayloads (lists_of payloads.now) }
        requires at_rest { D.tells → (blocks : List (List ℕ)) × IsAtRest self.old.file self.old.end blocks (D.files disk.old) }
        ensures files { D.tells → AppendsAll self.old.file self.old.end self.new.end (lists_of payloads.now) result (D.files disk.old) (D.files disk.new) }
        ensures cause { Causes (ending result) (D.counts disk.old) (D.counts disk.new) }
        ensures end { OnOk result (self.new.end ≡ self.old.end + length (open_blocks (lists_of payloads.now))) }
        ensures file { self.new.file ≡ self.old.file }
        ensures err { OnErr result (self.new ≡ self.old) }
        ensures sound { NotDamaged result }
    {
        let gate = self.end;
        let blocks = open_blocks_of(self.alloc, payloads)?;
        let behind = &blocks[1..];
        let Some(end) = gate.checked_add(behind.len() as u64) else {
            return Err(LogFault::NoMemory);
        };
        open_behind(disk, self.file, gate, behind)?;
        self.end = end;
        Ok(())
    }

    /// The payload of the block whose gate stands at that place. It reads that block alone, and changes nothing.
    /// Damaged comes only of a disk that doesn't tell what it holds, where no open gate or no whole block stands there.
    pub fn read_block<D: Disk>(&self, disk: &mut D, at: u64) -> Result<Vec<u8>, LogFault>
        requires block { D.tells → (payloads : List (List ℕ)) × IsAtRest self.now.file self.now.end payloads (D.files disk.old) × IsPlace payloads at }
        ensures ok { D.tells → IfOk result (λ block. (payloads : List (List ℕ)) (payload : List ℕ)
            → IsAtRest self.now.file self.now.end payloads (D.files disk.old) → IsBlockAt payloads at payload → block.items ≡ payload) }
        ensures files { D.tells → OnlyLooks result (D.files disk.old) (D.files disk.new) }
        ensures cause { Causes (ending result) (D.counts disk.old) (D.counts disk.new) }
        ensures damaged { (f p : ℕ) → result ≡ Err (LogFault.Damaged f p) → (f ≡ self.now.file) × (p ≡ at) }
        ensures sound { D.tells → NotDamaged result }
    {
        if at >= self.end() {
            return Err(LogFault::Damaged {
                file: self.file,
                at,
            });
        }
        block_there(self.alloc, disk, self.file, at)
    }

    /// Where the log takes its memory.
    pub(crate) fn alloc(&self) -> Global {
        self.alloc
    }

    /// The place of the gate behind the last block.
    pub fn end(&self) -> u64
        ensures { result ≡ self.now.end }
    {
        self.end
    }

    /// The number of the log's file.
    pub fn file(&self) -> u32
        ensures file { result ≡ self.now.file }
        ensures numbered { result < u32.MAX }
    {
        self.file
    }
}
