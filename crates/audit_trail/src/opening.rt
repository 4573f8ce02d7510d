//! Making and opening the log of a trail.
ghost use Rattle.std.specs.Prelude.{◌≡◌, ◌≢◌, ◌<◌, ◌^◌, [], ℕ, List, Err, false, length, OnOk, OnErr, IfOk, IfSome, IfNone};
ghost use Rattle.std.specs.List.{AllByRecursion};
ghost use Rattle.rdf_types.specs.declared.records.Record.{Record};
ghost use Rattle.rdf_codec.specs.Spelling.{record_spelling, IsRecord};
ghost use Rattle.rdf_disk.specs.Counts.{Causes};
ghost use Rattle.rdf_disk.specs.Counts.Ending.{Fine};
ghost use Rattle.rdf_disk.specs.Outcomes.{Durably, Keeps, seen_of};
ghost use Rattle.rdf_gatelog.specs.Log.{IsAtRest, IsLogFile, open_blocks};
ghost use Rattle.rdf_gatelog.specs.LogCalls.{OthersSynced};
ghost use Rattle.rdf_gatelog.specs.LogCauses.{ending, NotDamaged};
ghost use Rattle.rdf_gatelog.specs.Parsed.{lists_of};
ghost use Rattle.audit_trail.specs.Spelled.{spellings, Spells, SameTrail, IsBlank, IsAlone, WasOrSpells};
ghost use Rattle.audit_trail.specs.Flaws.{IsFlaw, IsFirstNoRecord};

use rdf_codec::fault::CodecFault;
use rdf_codec::laws::none_begins_another;
use rdf_codec::reading::read_record;
use rdf_disk::Disk;
use rdf_gatelog::{LogFault, LogFile};
use rdf_types::records::Record;
use std::alloc::{AllocError, Global};

/// Makes the log of an empty trail on a disk without files.
pub fn make_log<D: Disk>(alloc: Global, disk: &mut D) -> Result<LogFile, LogFault>
    requires blank { D.tells → IsBlank (D.files disk.old) }
    ensures ok { D.tells → IfOk result (λ log. IsAtRest 0 log.end [] (D.files disk.new)) }
    ensures alone { D.tells → OnOk result (IsAlone (D.files disk.new)) }
    ensures file { IfOk result (λ log. log.file ≡ 0) }
    ensures on { OnOk result ((D.counts disk.new).off ≡ false) }
    ensures err { D.tells → OnErr result (Durably (D.files disk.new) (WasOrSpells (D.files disk.old))) }
    ensures cause { Causes (ending result) (D.counts disk.old) (D.counts disk.new) }
    ensures sound { NotDamaged result }
{
    if disk.is_off() {
        return Err(LogFault::Stopped);
    }
    disk.sync()?;
    LogFile::create(alloc, disk, 0)
}

/// Opens the log of a trail, and reads its records.
pub fn open_log<D: Disk>(alloc: Global, disk: &mut D) -> Result<(LogFile, Vec<Record>), LogFault>
    ensures ok { D.tells → IfOk result (λ found. IsAtRest 0 found.0.end (spellings found.1.items) (D.files disk.new)) }
    ensures found { D.tells → IfOk result (λ found. IsLogFile (spellings found.1.items) (D.files disk.old 0).seen) }
    ensures only { D.tells → IfOk result (λ found. (trail : List Record) → Spells trail (seen_of (D.files disk.old)) → found.1.items ≡ trail) }
    ensures records { IfOk result (λ found. AllByRecursion IsRecord found.1.items) }
    ensures others { D.tells → OnOk result (OthersSynced 0 (D.files disk.old) (D.files disk.new)) }
    ensures file { IfOk result (λ found. found.0.file ≡ 0) }
    ensures on { OnOk result ((D.counts disk.new).off ≡ false) }
    ensures keeps { D.tells → Keeps SameTrail (D.files disk.old) (D.files disk.new) }
    ensures damaged { D.tells → (file at : ℕ) → result ≡ Err (LogFault.Damaged file at) → IsFlaw (seen_of (D.files disk.old)) file at }
    ensures cause { Causes (ending result) (D.counts disk.old) (D.counts disk.new) }
{
    none_begins_another();
    if disk.is_off() {
        return Err(LogFault::Stopped);
    }
    let (low, above) = disk.span()?;
    if low > 0 || above == 0 {
        return Err(LogFault::Damaged { file: low, at: 0 });
    }
    let (log, payloads) = LogFile::mount(alloc, disk, 0)?;
    let records = records_of(alloc, &payloads)?;
    Ok((log, records))
}

/// The records that the blocks of file 0 spell, or the place of the first block that spells none.
fn records_of(alloc: Global, payloads: &[Vec<u8>]) -> Result<Vec<Record>, LogFault>
    requires { length (open_blocks (lists_of payloads.now)) < 2 ^ 64 }
    ensures ok { IfOk result (λ found. spellings found.items ≡ lists_of payloads.now) }
    ensures records { IfOk result (λ found. AllByRecursion IsRecord found.items) }
    ensures damaged { (file at : ℕ) → result ≡ Err (LogFault.Damaged file at) → (file ≡ 0) × IsFirstNoRecord (lists_of payloads.now) at }
    ensures fine { ending result ≡ Fine }
{
    let mut records = Vec::with_capacity(alloc, payloads.len())?;
    let mut at = 0;
    for payload in payloads {
        match record_of(alloc, payload)? {
            Some(rec) => records.push(rec)?,
            None => return Err(LogFault::Damaged { file: 0, at }),
        }
        at += 5 + payload.len() as u64;
    }
    Ok(records)
}

/// The record whose whole spelling the payload is, if it is one.
fn record_of(alloc: Global, payload: &[u8]) -> Result<Option<Record>, AllocError>
    ensures some { IfOk result (λ found. IfSome found (λ rec. (payload.now ≡ record_spelling rec) × IsRecord rec)) }
    ensures none { IfOk result (λ found. IfNone found ((rec : Record) → IsRecord rec → payload.now ≢ record_spelling rec)) }
{
    match read_record(alloc, payload) {
        Ok((rec, n)) if n == payload.len() => Ok(Some(rec)),
        Ok(_) => Ok(None),
        Err(fault) => match fault {
            CodecFault::NoMemory => Err(AllocError),
            _ => Ok(None),
        },
    }
}
