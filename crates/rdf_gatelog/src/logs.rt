//! Calls on a disk each of whose files is a log: one durable change each, or none.
//!
//! Each clause comes twice: of the one file, whatever the other files are, and of the whole disk as logs.
ghost use Rattle.std.specs.Prelude.{◌≡◌, ◌<◌, ◌+◌, [], ℕ, List, Some, None, Err, length, OnOk, OnErr, IfOk};
ghost use Rattle.rdf_disk.specs.Counts.{Causes};
ghost use Rattle.rdf_disk.specs.Files.{settled};
ghost use Rattle.rdf_disk.specs.Outcomes.{Durably, Keeps, seen_of};
ghost use Rattle.rdf_gatelog.specs.Log.{IsPayload, IsLogFile, IsAtRest, IsBlockAt, IsPlace, IsDamaged, open_blocks, payloads_of};
ghost use Rattle.rdf_gatelog.specs.LogCalls.{Appends, ArePayloads, Creates, Mounts, OnlyLooks};
ghost use Rattle.rdf_gatelog.specs.LogCauses.{ending, NotDamaged};
ghost use Rattle.rdf_gatelog.specs.Logs.{Logs, Reads, Rests, ReadsEither, IsSettled, IsOpenIn, SameLogs, Opened, with_log, pushed, pushed_all, RestsOpen};
ghost use Rattle.rdf_gatelog.specs.Parsed.{lists_of};
ghost use Rattle.rdf_gatelog.specs.Removal.{Discards, RestsWithout, ReadsWithout, KeepsOrLoses};

use crate::fault::LogFault;
use crate::log::LogFile;
use rdf_disk::Disk;
use std::alloc::Global;

/// Adds a block to a log of the disk, and answers the place of its gate.
pub fn append<D: Disk>(log: &mut LogFile, disk: &mut D, payload: &[u8]) -> Result<u64, LogFault>
    requires payload { IsPayload payload.now }
    requires at_rest { D.tells → (payloads : List (List ℕ)) × IsAtRest log.old.file log.old.end payloads (D.files disk.old) }
    ensures files { D.tells → Appends log.old.file log.old.end log.new.end payload.now result (D.files disk.old) (D.files disk.new) }
    ensures ok { D.tells → OnOk result ((logs : Logs) → Rests logs (D.files disk.old) → IsOpenIn logs log.old.file log.old.end
        → Rests (pushed logs log.old.file payload.now) (D.files disk.new) × IsOpenIn (pushed logs log.old.file payload.now) log.old.file log.new.end) }
    ensures err { D.tells → OnErr result ((logs : Logs) → Rests logs (D.files disk.old) → IsOpenIn logs log.old.file log.old.end
        → Durably (D.files disk.new) (ReadsEither logs (pushed logs log.old.file payload.now))) }
    ensures cause { Causes (ending result) (D.counts disk.old) (D.counts disk.new) }
    ensures place { IfOk result (λ at. at ≡ log.old.end) }
    ensures end { OnOk result (log.new.end ≡ log.old.end + 5 + length payload.now) }
    ensures file { log.new.file ≡ log.old.file }
    ensures same { OnErr result (log.new ≡ log.old) }
    ensures sound { NotDamaged result }
{
    log.append(disk, payload)
}

/// The payload of the block of a log of the disk whose gate stands at that place. It changes nothing.
pub fn read_block<D: Disk>(log: &LogFile, disk: &mut D, at: u64) -> Result<Vec<u8>, LogFault>
    requires block { D.tells → (payloads : List (List ℕ)) × IsAtRest log.now.file log.now.end payloads (D.files disk.old) × IsPlace payloads at }
    ensures files { D.tells → OnlyLooks result (D.files disk.old) (D.files disk.new) }
    ensures ok { D.tells → IfOk result (λ block. (logs : Logs) (payload : List ℕ) → Rests logs (D.files disk.old)
        → (o : IsOpenIn logs log.now.file log.now.end) → IsBlockAt o.payloads at payload → block.items ≡ payload) }
    ensures rests { D.tells → (logs : Logs) → Rests logs (D.files disk.old) → Rests logs (D.files disk.new) }
    ensures cause { Causes (ending result) (D.counts disk.old) (D.counts disk.new) }
    ensures damaged { (f p : ℕ) → result ≡ Err (LogFault.Damaged f p) → (f ≡ log.now.file) × (p ≡ at) }
    ensures sound { D.tells → NotDamaged result }
{
    log.read_block(disk, at)
}

/// Adds blocks to a log of the disk, all at once: an `Err` leaves all of them or none.
pub fn append_all<D: Disk>(
    log: &mut LogFile,
    disk: &mut D,
    payloads: &[Vec<u8>],
) -> Result<(), LogFault>
    requires payloads { ArePayloads (lists_of payloads.now) }
    requires at_rest { D.tells → (blocks : List (List ℕ)) × IsAtRest log.old.file log.old.end blocks (D.files disk.old) }
    ensures ok { D.tells → OnOk result ((logs : Logs) → Rests logs (D.files disk.old) → IsOpenIn logs log.old.file log.old.end
        → RestsOpen (pushed_all logs log.old.file (lists_of payloads.now)) log.old.file log.new.end (D.files disk.new)) }
    ensures err { D.tells → OnErr result ((logs : Logs) → Rests logs (D.files disk.old) → IsOpenIn logs log.old.file log.old.end
        → Durably (D.files disk.new) (ReadsEither logs (pushed_all logs log.old.file (lists_of payloads.now)))) }
    ensures cause { Causes (ending result) (D.counts disk.old) (D.counts disk.new) }
    ensures end { OnOk result (log.new.end ≡ log.old.end + length (open_blocks (lists_of payloads.now))) }
    ensures file { log.new.file ≡ log.old.file }
    ensures same { OnErr result (log.new ≡ log.old) }
    ensures sound { NotDamaged result }
{
    log.append_all(disk, payloads)
}

/// Makes a log without blocks, in a file that isn't there.
pub fn create<D: Disk>(alloc: Global, disk: &mut D, file: u32) -> Result<LogFile, LogFault>
    requires numbered { file < u32.MAX }
    requires absent { D.tells → D.files disk.old file ≡ settled None }
    ensures files { D.tells → Creates file result (D.files disk.old) (D.files disk.new) }
    ensures ok { D.tells → IfOk result (λ log. (logs : Logs) → Rests logs (D.files disk.old)
        → Rests (with_log logs file (Some [])) (D.files disk.new) × IsOpenIn (with_log logs file (Some [])) file log.end) }
    ensures err { D.tells → OnErr result ((logs : Logs) → Rests logs (D.files disk.old)
        → Durably (D.files disk.new) (ReadsEither logs (with_log logs file (Some [])))) }
    ensures cause { Causes (ending result) (D.counts disk.old) (D.counts disk.new) }
    ensures place { IfOk result (λ log. log ≡ record { file = file; end = 0 }) }
    ensures sound { NotDamaged result }
{
    LogFile::create(alloc, disk, file)
}

/// Opens the log of one file of a disk that a stop may have left, and answers its payloads.
/// Whatever this answers, what the disk may be is the same logs as before. Files that were open stay so after an Ok.
pub fn mount<D: Disk>(
    alloc: Global,
    disk: &mut D,
    file: u32,
) -> Result<(LogFile, Vec<Vec<u8>>), LogFault>
    ensures files { D.tells → Mounts file result (D.files disk.old) (D.files disk.new) }
    ensures ok { D.tells → IfOk result (λ found. (logs : Logs) → Reads logs (seen_of (D.files disk.old))
        → Opened logs file found.0.end (payloads_of found.1) (D.files disk.old) (D.files disk.new)) }
    ensures keeps { D.tells → Keeps SameLogs (D.files disk.old) (D.files disk.new) }
    ensures damaged { D.tells → (f at : ℕ) → result ≡ Err (LogFault.Damaged f at) → (f ≡ file) × IsDamaged (D.files disk.old file).seen at }
    ensures whole { D.tells → (payloads : List (List ℕ)) → IsLogFile payloads (D.files disk.old file).seen → NotDamaged result }
    ensures cause { Causes (ending result) (D.counts disk.old) (D.counts disk.new) }
    ensures file { IfOk result (λ found. found.0.file ≡ file) }
    ensures end { IfOk result (λ found. found.0.end ≡ length (open_blocks (payloads_of found.1))) }
{
    LogFile::mount(alloc, disk, file)
}

/// Removes a file, durably. That is Ok where there was none.
pub fn discard<D: Disk>(disk: &mut D, file: u32) -> Result<(), LogFault>
    ensures files { D.tells → Discards file result (D.files disk.old) (D.files disk.new) }
    ensures ok { D.tells → OnOk result (RestsWithout file (D.files disk.old) (D.files disk.new)) }
    ensures reads { D.tells → OnOk result (ReadsWithout file (D.files disk.old) (D.files disk.new)) }
    ensures err { D.tells → OnErr result (KeepsOrLoses file (D.files disk.old) (D.files disk.new)) }
    ensures err_reads { D.tells → OnErr result ((logs : Logs) → IsSettled (D.files disk.old) → Reads logs (seen_of (D.files disk.old))
        → Durably (D.files disk.new) (ReadsEither logs (with_log logs file None))) }
    ensures cause { Causes (ending result) (D.counts disk.old) (D.counts disk.new) }
    ensures sound { NotDamaged result }
{
    disk.remove(file)?;
    disk.sync()?;
    Ok(())
}
