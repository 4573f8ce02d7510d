//! A log that is read block by block, so that memory holds one block.
ghost use Rattle.std.specs.Prelude.{◌≡◌, ◌≢◌, ◌+◌, ◌<◌, ◌≤◌, ◌∷◌, [], ℕ, List, Err, length, take, drop, true, false, OnErr, IfOk};
ghost use Rattle.std.specs.Int.{to_be_bytes, w32};
ghost use Rattle.rdf_disk.specs.Counts.{Causes};
ghost use Rattle.rdf_disk.specs.Files.{bytes_of};
ghost use Rattle.rdf_gatelog.specs.Log.{IsPayload, IsLogFile, IsDamaged};
ghost use Rattle.rdf_gatelog.specs.LogCalls.{KeepsLogs, OnlyLooks};
ghost use Rattle.rdf_gatelog.specs.LogCauses.{ending, NotDamaged};
ghost use Rattle.rdf_gatelog.specs.LogReading.{IsReading, Begins, Gives};

use crate::blocks::first_block;
use crate::fault::LogFault;
use crate::log::{LogFile, MAX_END, close_first_gate};
use crate::reading::read_part;
use rdf_disk::Disk;
use std::alloc::Global;
use std::marker::Model;

/// The blocks of a file that a stop may have left, read one after another.
/// It may be used as long as no one writes that file.
#[derive(Drop)]
pub struct LogReader {
    alloc: Global,
    file: u32,
    at: u64,
}

impl Model for LogReader {
    ghost use Rattle.std.specs.Prelude.{◌<◌, ◌-◌, ◌^◌};
    ghost use Rattle.rdf_gatelog.specs.LogReading.{ReaderPlace};

    ghost Value = { ReaderPlace };

    ghost view = { λ reader. record { file = reader.file; at = reader.at } };

    ghost invariant = { λ reader. reader.file < 2 ^ 32 - 1 };
}

/// Whether the gate at the head of these bytes is there and open.
fn is_open(head: &[u8]) -> bool
    ensures open { result ≡ true → head.now ≡ 1 ∷ drop 1 head.now }
    ensures shut { result ≡ false → (gate : ℕ) (rest : List ℕ) → head.now ≡ gate ∷ rest → gate ≢ 1 }
{
    matches!(head, [1, ..])
}

/// How many bytes stand behind an open gate until the next gate, with that, by the five bytes at its head.
fn wanted(head: &[u8]) -> usize
    ensures { (payload : List ℕ) → IsPayload payload → head.now ≡ 1 ∷ to_be_bytes w32 (length payload) → result ≡ 5 + length payload }
{
    let [_, a, b, c, d] = head else {
        return 0;
    };
    let len = u32::from_be_bytes([*a, *b, *c, *d]) as usize;
    if len > 65536 { 0 } else { len + 5 }
}

impl LogReader {
    /// Opens a file for reading. It makes what a stop left of the file safe, and closes the first gate anew where the file has at most one byte.
    /// Whatever this answers, the file is a log of the same payloads afterwards, if it was one.
    pub fn open<D: Disk>(alloc: Global, disk: &mut D, file: u32) -> Result<LogReader, LogFault>
        ensures files { D.tells → Begins file result (D.files disk.old) (D.files disk.new) }
        ensures keeps { D.tells → KeepsLogs (D.files disk.old) (D.files disk.new) }
        ensures damaged { D.tells → (f at : ℕ) → result ≡ Err (LogFault.Damaged f at) → (f ≡ file) × IsDamaged (D.files disk.old file).seen at }
        ensures whole { D.tells → (payloads : List (List ℕ)) → IsLogFile payloads (D.files disk.old file).seen → NotDamaged result }
        ensures cause { Causes (ending result) (D.counts disk.old) (D.counts disk.new) }
        ensures place { IfOk result (λ reader. reader ≡ record { file = file; at = 0 }) }
    {
        disk.sync()?;
        let Some(len) = disk.len(file)? else {
            return Err(LogFault::Damaged { file, at: 0 });
        };
        if file == u32::MAX {
            return Err(LogFault::Damaged { file, at: 0 });
        }
        if len <= 1 {
            close_first_gate(disk, file)?;
            return Ok(LogReader { alloc, file, at: 0 });
        }
        Ok(LogReader { alloc, file, at: 0 })
    }

    /// The payload of the next block, or None at the first gate that is not open.
    pub fn next<D: Disk>(&mut self, disk: &mut D) -> Result<Option<Vec<u8>>, LogFault>
        ensures files { D.tells → OnlyLooks result (D.files disk.old) (D.files disk.new) }
        ensures ok { D.tells → IfOk result (λ found. (given : List (List ℕ)) → IsReading self.old given (D.files disk.old)
            → Gives self.new given found (D.files disk.new)) }
        ensures damaged { D.tells → (f at : ℕ) → result ≡ Err (LogFault.Damaged f at) → (given : List (List ℕ)) → IsReading self.old given (D.files disk.old)
            → (f ≡ self.old.file) × IsDamaged (D.files disk.old self.old.file).seen at }
        ensures cause { Causes (ending result) (D.counts disk.old) (D.counts disk.new) }
        ensures file { self.new.file ≡ self.old.file }
        ensures err { OnErr result (self.new ≡ self.old) }
    {
        let at = self.at;
        let file = self.file;
        if at > MAX_END {
            return Err(LogFault::NoMemory);
        }
        let head = read_part(self.alloc, disk, file, at, 5)?;
        if !is_open(&head) {
            return Ok(None);
        }
        let block = read_part(self.alloc, disk, file, at + 1, wanted(&head))?;
        let Some((payload, _)) = first_block(&block) else {
            return Err(LogFault::Damaged { file, at });
        };
        let given = payload.to_vec(self.alloc)?;
        self.at = at + 5 + payload.len() as u64;
        Ok(Some(given))
    }

    /// The log that was read. Its end is where the reader stands, so that it is at rest where `next` gave None.
    pub fn close(self) -> LogFile
        ensures { result ≡ record { file = self.file; end = self.at } }
    {
        LogFile::at(self.alloc, self.file, self.at)
    }
}
