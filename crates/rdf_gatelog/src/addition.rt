//! Blocks that are added to a log one by one, and count all at once.
//!
//! The gate of the log stays closed until all of them are safe. So as many blocks as there may be take two syncs,
//! and no more memory than one block:
//!
//! ```
//! let mut addition = log.begin();
//! addition.push(disk, first)?;
//! addition.push(disk, second)?;
//! let log = addition.finish(disk, last)?;
//! ```
ghost use Rattle.std.specs.Prelude.{◌≡◌, ◌+◌, ◌<◌, ◌≤◌, ◌^◌, ◌-◌, ◌∷◌, ℕ, List, [], length, OnOk, OnErr, IfOk};
ghost use Rattle.rdf_disk.specs.Counts.{Causes};
ghost use Rattle.rdf_disk.specs.Files.{Disk as Files};
ghost use Rattle.rdf_gatelog.specs.Adding.{IsAdding, IsUnderAddition, Adds, Finishes};
ghost use Rattle.rdf_gatelog.specs.Log.{IsPayload, IsAtRest};
ghost use Rattle.rdf_gatelog.specs.LogCauses.{ending, NotDamaged};

use crate::blocks::{block_before, block_of};
use crate::fault::LogFault;
use crate::log::{LogFile, MAX_END};
use rdf_disk::Disk;
use std::alloc::Global;
use std::marker::Model;

/// Blocks that are being added behind the closed gate of a log: none of them counts before `finish` opens that gate.
/// After a call of it answers an `Err`, or where it is dropped, the file is mounted again, and is the log that it was.
#[derive(Drop)]
pub struct Addition {
    alloc: Global,
    file: u32,
    gate: u64,
    end: u64,
}

impl Model for Addition {
    ghost use Rattle.std.specs.Prelude.{◌<◌, ◌-◌, ◌^◌};
    ghost use Rattle.rdf_gatelog.specs.Adding.{AdditionPlace};

    ghost Value = { AdditionPlace };

    ghost view = { λ addition. record { file = addition.file; gate = addition.gate; end = addition.end } };

    ghost invariant = { λ addition. addition.file < 2 ^ 32 - 1 };
}

impl LogFile {
    /// Begins to add blocks that count all at once. It touches no disk.
    pub fn begin(self) -> Addition
        ensures place { result ≡ record { file = self.file; gate = self.end; end = self.end } }
        ensures none { (payloads : List (List ℕ)) (disk : Files) → IsAtRest self.file self.end payloads disk → IsAdding result payloads [] disk }
    {
        Addition {
            alloc: self.alloc(),
            file: self.file(),
            gate: self.end(),
            end: self.end(),
        }
    }
}

/// Writes the last block of an addition, and opens the gate when all of its blocks are safe. It answers where they end.
fn add_last<D: Disk>(
    alloc: Global,
    disk: &mut D,
    file: u32,
    gate: u64,
    end: u64,
    last: &[u8],
) -> Result<u64, LogFault>
    requires numbered { file < u32.MAX }
    requires payload { IsPayload last.now }
    requires adding { D.tells → IsUnderAddition (record { file = file; gate = gate; end = end }) (D.files disk.old) }
    ensures files { D.tells → Finishes (record { file = file; gate = gate; end = end }) (end + 5 + length last.now) last.now result
        (D.files disk.old) (D.files disk.new) }
    ensures cause { Causes (ending result) (D.counts disk.old) (D.counts disk.new) }
    ensures end { IfOk result (λ at. at ≡ end + 5 + length last.now) }
    ensures sound { NotDamaged result }
{
    if end > MAX_END {
        return Err(LogFault::NoMemory);
    }
    let block = block_of(alloc, last)?;
    disk.write(file, end + 1, &block)?;
    disk.sync()?;
    disk.write(file, gate, &[1])?;
    disk.sync()?;
    Ok(end + 5 + last.len() as u64)
}

impl Addition {
    /// Writes one block more, behind the gate that will be open, and answers the place of that gate.
    pub fn push<D: Disk>(&mut self, disk: &mut D, payload: &[u8]) -> Result<u64, LogFault>
        requires payload { IsPayload payload.now }
        requires adding { D.tells → IsUnderAddition self.old (D.files disk.old) }
        ensures files { D.tells → Adds self.old self.new payload.now result (D.files disk.old) (D.files disk.new) }
        ensures cause { Causes (ending result) (D.counts disk.old) (D.counts disk.new) }
        ensures place { IfOk result (λ at. at ≡ self.old.end) }
        ensures end { OnOk result (self.new ≡ record self.old { end = self.old.end + 5 + length payload.now }) }
        ensures err { OnErr result (self.new ≡ self.old) }
        ensures sound { NotDamaged result }
    {
        let at = self.end;
        if at > MAX_END {
            return Err(LogFault::NoMemory);
        }
        let block = block_before(self.alloc, payload, 1)?;
        disk.write(self.file, at + 1, &block)?;
        self.end = at + 5 + payload.len() as u64;
        Ok(at)
    }

    /// Writes the last block, and opens the gate when all blocks are safe. So all of them count, or none.
    pub fn finish<D: Disk>(self, disk: &mut D, last: &[u8]) -> Result<LogFile, LogFault>
        requires payload { IsPayload last.now }
        requires adding { D.tells → IsUnderAddition self (D.files disk.old) }
        ensures files { D.tells → Finishes self (self.end + 5 + length last.now) last.now result (D.files disk.old) (D.files disk.new) }
        ensures cause { Causes (ending result) (D.counts disk.old) (D.counts disk.new) }
        ensures place { IfOk result (λ log. log ≡ record { file = self.file; end = self.end + 5 + length last.now }) }
        ensures sound { NotDamaged result }
    {
        let end = add_last(self.alloc, disk, self.file, self.gate, self.end, last)?;
        Ok(LogFile::at(self.alloc, self.file, end))
    }

    /// The place of the gate behind the last block that was added.
    pub fn end(&self) -> u64
        ensures { result ≡ self.now.end }
    {
        self.end
    }

    /// The number of the log's file.
    pub fn file(&self) -> u32
        ensures { result ≡ self.now.file }
    {
        self.file
    }
}
