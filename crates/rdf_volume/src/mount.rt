//! Opening a volume whose disk a stop may have left.
ghost use Rattle.std.specs.Prelude.{◌≡◌, ◌<◌, ◌+◌, ◌-◌, ◌⊎◌, ◌++◌, ◌∷◌, [], ℕ, List, length, false, Ok, Err, None, IfNone, IfSome, OnOk, OnErr, IfOk};
ghost use Rattle.rdf_disk.specs.Counts.{Causes};
ghost use Rattle.rdf_disk.specs.Counts.Ending.{Fine};
ghost use Rattle.rdf_disk.specs.Outcomes.{Durably, Keeps, seen_of};
ghost use Rattle.rdf_gatelog.specs.Log.{IsDamaged, open_blocks};
ghost use Rattle.rdf_gatelog.specs.LogCalls.{OnlyLooks};
ghost use Rattle.rdf_gatelog.specs.LogCauses.{ending, NotDamaged};
ghost use Rattle.rdf_gatelog.specs.Logs.{Logs, Reads, ReadsEither, IsSettled, SameLogs, with_log};
ghost use Rattle.rdf_volume.specs.declared.mount.Sight.TheVariants as sight;
ghost use Rattle.rdf_volume.specs.declared.reading.Reading.TheVariants as reading;
ghost use Rattle.rdf_volume.specs.Flaws.{IsFlaw, IsMisplaced};
ghost use Rattle.rdf_volume.specs.Calls.{Mounts};
ghost use Rattle.rdf_volume.specs.Opening.{IsLook, IsLooking, IsOpened, IsSeen, IsUnfinished, Takes, DropsBefore, LooksOn, file_in};
ghost use Rattle.rdf_volume.specs.Readings.{IsRead};
ghost use Rattle.rdf_volume.specs.Stages.{stage_of, is_complete};
ghost use Rattle.rdf_volume.specs.Standing.{SameVolume};

use crate::reading::{Reading, TableRead, next_payload, nothing_read};
use crate::volume::{VolShut, Volume};
use rdf_disk::Disk;
use rdf_gatelog::{LogFault, LogFile, LogReader};
use std::alloc::{AllocError, Global};

/// What the blocks of a file say, or where the first one stands that isn't in its place.
#[derive(Drop)]
pub enum Sight {
    Says(Reading),
    Misplaced(u64),
}

/// A file that is being read: its reader, what its blocks say so far, and the place of the next gate.
#[derive(Drop)]
pub struct Looking {
    pub reader: LogReader,
    pub sight: Sight,
    pub at: u64,
}

/// One block more of a file was read, or there is none.
#[derive(Drop)]
pub enum LookStep {
    Goes(Looking),
    Ends { log: LogFile, sight: Sight },
}

/// A file that was looked at: its log, and what its blocks say.
#[derive(Drop)]
pub struct Found {
    pub log: LogFile,
    pub reading: Reading,
}

/// The file that a volume stands in, with what it says.
#[derive(Drop)]
pub struct Whole {
    pub log: LogFile,
    pub read: TableRead,
}

impl<D: Disk> Volume<D> {
    /// Opens the volume of a disk that a stop may have left. It takes the greatest file with a complete base and removes
    /// the other one. It may stop too, and hands the disk back then. Whatever it answers, the disk goes on to stand for
    /// what it stood for.
    pub fn mount(alloc: Global, mut disk: D) -> Result<Volume<D>, VolShut<D>>
        ensures { Mounts D.tells D.files D.counts disk result }
    {
        match open(alloc, &mut disk) {
            Ok(whole) => {
                let Whole { log, read } = whole;
                let TableRead {
                    table,
                    restart,
                    batches,
                } = read;
                Ok(Volume {
                    alloc,
                    disk,
                    log,
                    table,
                    restart,
                    batches: batches.min(u32::MAX as u64) as u32,
                })
            }
            Err(fault) => Err(VolShut { disk, fault }),
        }
    }
}

/// Where the gate stands behind a block with that payload, whose own gate stands there.
fn gate_behind(at: u64, payload: &[u8]) -> Result<u64, AllocError>
    ensures { IfOk result (λ next. next ≡ at + (5 + length payload.now)) }
{
    let Some(behind) = at.checked_add(5) else {
        return Err(AllocError);
    };
    let Some(next) = behind.checked_add(payload.len() as u64) else {
        return Err(AllocError);
    };
    Ok(next)
}

/// What the blocks say with one block more, whose gate stands at that place.
fn seen_on(alloc: Global, seen: Sight, at: u64, payload: &[u8]) -> Result<Sight, AllocError>
    ensures { IfOk result (λ next. (given : List (List ℕ)) → IsSeen seen given → at ≡ length (open_blocks given) → IsSeen next (given ++ payload.now ∷ [])) }
{
    match seen {
        Sight::Says(reading) => match next_payload(alloc, reading, at, payload)? {
            Some(reading) => Ok(Sight::Says(reading)),
            None => Ok(Sight::Misplaced(at)),
        },
        Sight::Misplaced(at) => Ok(Sight::Misplaced(at)),
    }
}

/// Opens the log of a file for reading.
fn begin<D: Disk>(alloc: Global, disk: &mut D, file: u32) -> Result<Looking, LogFault>
    ensures ok { D.tells → IfOk result (λ looking. IsLooking looking [] (D.files disk.new)) }
    ensures opened { D.tells → OnOk result (IsOpened file (D.files disk.old) (D.files disk.new)) }
    ensures keeps { D.tells → Keeps SameLogs (D.files disk.old) (D.files disk.new) }
    ensures damaged { D.tells → (f at : ℕ) → result ≡ Err (LogFault.Damaged f at) → (f ≡ file) × IsDamaged (D.files disk.old file).seen at }
    ensures file { IfOk result (λ looking. looking.reader.file ≡ file) }
    ensures cause { Causes (ending result) (D.counts disk.old) (D.counts disk.new) }
{
    let reader = LogReader::open(alloc, disk, file)?;
    Ok(Looking {
        reader,
        sight: Sight::Says(nothing_read(alloc)),
        at: 0,
    })
}

/// Reads the next block.
fn look_on<D: Disk>(alloc: Global, disk: &mut D, looking: Looking) -> Result<LookStep, LogFault>
    ensures files { D.tells → OnlyLooks result (D.files disk.old) (D.files disk.new) }
    ensures ok { D.tells → IfOk result (λ step. (given : List (List ℕ)) → IsLooking looking given (D.files disk.old) → LooksOn given step (D.files disk.new)) }
    ensures damaged { D.tells → (f at : ℕ) → result ≡ Err (LogFault.Damaged f at) → (given : List (List ℕ)) → IsLooking looking given (D.files disk.old)
        → (f ≡ looking.reader.file) × IsDamaged (D.files disk.old looking.reader.file).seen at }
    ensures file { IfOk result (λ step. file_in step ≡ looking.reader.file) }
    ensures cause { Causes (ending result) (D.counts disk.old) (D.counts disk.new) }
{
    let Looking {
        mut reader,
        sight,
        at,
    } = looking;
    match reader.next(disk)? {
        Some(payload) => {
            let sight = seen_on(alloc, sight, at, &payload)?;
            let at = gate_behind(at, &payload)?;
            Ok(LookStep::Goes(Looking { reader, sight, at }))
        }
        None => {
            let log = reader.close();
            Ok(LookStep::Ends { log, sight })
        }
    }
}

/// What was found in the file, if each block is in its place.
fn found_in(file: u32, log: LogFile, seen: Sight) -> Result<Found, LogFault>
    ensures ok { IfOk result (λ found. (found.log ≡ log) × (seen ≡ sight.Says found.reading)) }
    ensures damaged { (f at : ℕ) → result ≡ Err (LogFault.Damaged f at) → (f ≡ file) × (seen ≡ sight.Misplaced at) }
    ensures fine { ending result ≡ Fine }
{
    match seen {
        Sight::Says(reading) => Ok(Found { log, reading }),
        Sight::Misplaced(at) => Err(LogFault::Damaged { file, at }),
    }
}

/// Opens the log of a file and reads its blocks, one after another. 2 ^ 64 - 1 blocks count as want of memory.
fn look<D: Disk>(alloc: Global, disk: &mut D, file: u32) -> Result<Found, LogFault>
    ensures ok { D.tells → IfOk result (λ found. IsLook file found.log.end found.reading (D.files disk.old) (D.files disk.new)) }
    ensures file { IfOk result (λ found. found.log.file ≡ file) }
    ensures keeps { D.tells → Keeps SameLogs (D.files disk.old) (D.files disk.new) }
    ensures damaged { D.tells → (f at : ℕ) → result ≡ Err (LogFault.Damaged f at) →
        (f ≡ file) × (IsDamaged (D.files disk.old file).seen at ⊎ IsMisplaced (seen_of (D.files disk.old)) file at) }
    ensures cause { Causes (ending result) (D.counts disk.old) (D.counts disk.new) }
{
    let mut looking = begin(alloc, disk, file)?;
    for _ in 0..u64::MAX {
        match look_on(alloc, disk, looking)? {
            LookStep::Goes(further) => looking = further,
            LookStep::Ends { log, sight } => return found_in(file, log, sight),
        }
    }
    Err(LogFault::NoMemory)
}

/// The file, where its base is complete.
fn whole_of(found: Found) -> Option<Whole>
    ensures some { IfSome result (λ whole. found.reading ≡ reading.Complete whole.read) }
    ensures log { IfSome result (λ whole. whole.log ≡ found.log) }
    ensures none { IfNone result ((payloads : List (List ℕ)) → IsRead found.reading payloads → is_complete (stage_of payloads) ≡ false) }
{
    let Found { log, reading } = found;
    match reading {
        Reading::Building(_) => None,
        Reading::Complete(read) => Some(Whole { log, read }),
    }
}

/// Takes the file before the newest one, whose base isn't complete, and removes the newest one.
fn open_before<D: Disk>(
    alloc: Global,
    disk: &mut D,
    low: u32,
    newest: u32,
) -> Result<Whole, LogFault>
    requires unfinished { D.tells → IsUnfinished (D.files disk.old) low newest }
    ensures ok { D.tells → IfOk result (Takes (seen_of (D.files disk.old)) (D.files disk.new)) }
    ensures keeps { D.tells → Keeps SameVolume (D.files disk.old) (D.files disk.new) }
    ensures damaged { D.tells → (f at : ℕ) → result ≡ Err (LogFault.Damaged f at) → IsFlaw (seen_of (D.files disk.old)) f at }
    ensures cause { Causes (ending result) (D.counts disk.old) (D.counts disk.new) }
{
    if newest <= low {
        return Err(LogFault::Damaged { file: low, at: 0 });
    }
    if disk.len(newest - 1)?.is_none() {
        return Err(LogFault::Damaged { file: low, at: 0 });
    }
    let found = look(alloc, disk, newest - 1)?;
    let Some(whole) = whole_of(found) else {
        return Err(LogFault::Damaged { file: low, at: 0 });
    };
    rdf_gatelog::logs::discard(disk, newest)?;
    Ok(whole)
}

/// Removes the file before the newest one, where there may be one.
fn drop_before<D: Disk>(disk: &mut D, low: u32, newest: u32) -> Result<(), LogFault>
    ensures ok { D.tells → OnOk result (DropsBefore low newest (D.files disk.old) (D.files disk.new)) }
    ensures err { D.tells → OnErr result ((logs : Logs) → IsSettled (D.files disk.old) → Reads logs (seen_of (D.files disk.old))
        → Durably (D.files disk.new) (ReadsEither logs (with_log logs (newest - 1) None))) }
    ensures below { OnErr result (low < newest) }
    ensures cause { Causes (ending result) (D.counts disk.old) (D.counts disk.new) }
    ensures sound { NotDamaged result }
{
    if newest <= low {
        return Ok(());
    }
    rdf_gatelog::logs::discard(disk, newest - 1)
}

/// Takes the greatest file with a complete base, and removes the other one.
fn open<D: Disk>(alloc: Global, disk: &mut D) -> Result<Whole, LogFault>
    ensures ok { D.tells → IfOk result (Takes (seen_of (D.files disk.old)) (D.files disk.new)) }
    ensures keeps { D.tells → Keeps SameVolume (D.files disk.old) (D.files disk.new) }
    ensures damaged { D.tells → (f at : ℕ) → result ≡ Err (LogFault.Damaged f at) → IsFlaw (seen_of (D.files disk.old)) f at }
    ensures on { OnOk result ((D.counts disk.old).off ≡ false) }
    ensures cause { Causes (ending result) (D.counts disk.old) (D.counts disk.new) }
{
    if disk.is_off() {
        return Err(LogFault::Stopped);
    }
    let (low, above) = disk.span()?;
    if above == 0 {
        return Err(LogFault::Damaged { file: 0, at: 0 });
    }
    let newest = above - 1;
    let found = look(alloc, disk, newest)?;
    let Some(whole) = whole_of(found) else {
        return open_before(alloc, disk, low, newest);
    };
    drop_before(disk, low, newest)?;
    Ok(whole)
}
