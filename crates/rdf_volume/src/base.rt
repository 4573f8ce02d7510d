//! The durable steps of a volume's file: a base without rows, and a batch.
ghost use Rattle.std.specs.Prelude.{◌≡◌, ◌≤◌, ◌<◌, ◌+◌, ◌-◌, ◌^◌, ℕ, false, None, length, min, OnOk, OnErr, IfOk};
ghost use Rattle.std.specs.FinMap.{empty};
ghost use Rattle.rdf_disk.specs.Counts.{Causes};
ghost use Rattle.rdf_disk.specs.Outcomes.{Durably};
ghost use Rattle.rdf_gatelog.specs.Log.{IsPayload};
ghost use Rattle.rdf_gatelog.specs.LogCauses.{ending, NotDamaged};
ghost use Rattle.rdf_gatelog.specs.Logs.{Logs, Rests, ReadsEither, IsOpenIn, pushed};
ghost use Rattle.rdf_model.specs.Volumes.{Rows};
ghost use Rattle.rdf_volume.specs.Base.{IsSomeInUse, GoesOn};
ghost use Rattle.rdf_volume.specs.Changes.{changed};
ghost use Rattle.rdf_volume.specs.InUse.{IsInUse};
ghost use Rattle.rdf_volume.specs.Standing.{StandsForEither, WasOrBegun};

use crate::payloads::batch_payload;
use keyed_blocks::payloads::end_payload;
use rdf_disk::Disk;
use rdf_gatelog::{LogFault, LogFile};
use rdf_types::records::{Change, Pos};
use std::alloc::Global;

/// Appends a block.
fn append<D: Disk>(log: &mut LogFile, disk: &mut D, payload: &[u8]) -> Result<(), LogFault>
    requires payload { IsPayload payload.now }
    requires at_rest { D.tells → (logs : Logs) × Rests logs (D.files disk.old) × IsOpenIn logs log.old.file log.old.end }
    ensures ok { D.tells → OnOk result ((logs : Logs) → Rests logs (D.files disk.old) → IsOpenIn logs log.old.file log.old.end
        → Rests (pushed logs log.old.file payload.now) (D.files disk.new) × IsOpenIn (pushed logs log.old.file payload.now) log.old.file log.new.end) }
    ensures err { D.tells → OnErr result ((logs : Logs) → Rests logs (D.files disk.old) → IsOpenIn logs log.old.file log.old.end
        → Durably (D.files disk.new) (ReadsEither logs (pushed logs log.old.file payload.now))) }
    ensures file { log.new.file ≡ log.old.file }
    ensures cause { Causes (ending result) (D.counts disk.old) (D.counts disk.new) }
    ensures sound { NotDamaged result }
{
    rdf_gatelog::logs::append(log, disk, payload)?;
    Ok(())
}

/// Makes the first file of a volume, with a base without rows.
pub fn first_base<D: Disk>(alloc: Global, disk: &mut D) -> Result<LogFile, LogFault>
    requires blank { D.tells → (m : ℕ) → (D.files disk.old m).seen ≡ None }
    ensures ok { D.tells → IfOk result (λ log. IsInUse (D.files disk.new) log.file log.end empty 0 0) }
    ensures err { D.tells → OnErr result (Durably (D.files disk.new) (WasOrBegun (D.files disk.old))) }
    ensures on { OnOk result ((D.counts disk.old).off ≡ false) }
    ensures file { IfOk result (λ log. log.file ≡ 0) }
    ensures cause { Causes (ending result) (D.counts disk.old) (D.counts disk.new) }
    ensures sound { NotDamaged result }
{
    if disk.is_off() {
        return Err(LogFault::Stopped);
    }
    disk.sync()?;
    let mut log = rdf_gatelog::logs::create(alloc, disk, 0)?;
    let end = end_payload(alloc, 0, 0, 0)?;
    append(&mut log, disk, &end)?;
    Ok(log)
}

/// Appends a batch. After an `Err` the disk durably stands for what was before, or for the whole batch.
pub fn append_batch<D: Disk>(
    alloc: Global,
    disk: &mut D,
    log: &mut LogFile,
    batch: &[Change],
    restart: Pos,
) -> Result<(), LogFault>
    requires few { length batch.now ≤ 64 }
    requires in_use { D.tells → IsSomeInUse (D.files disk.old) log.old.file log.old.end }
    ensures ok { D.tells → OnOk result ((rows : Rows) (point batches : ℕ) (u : IsInUse (D.files disk.old) log.old.file log.old.end rows point batches)
        → (w : IsInUse (D.files disk.new) log.new.file log.new.end (changed rows batch.now) restart (min (batches + 1) (2 ^ 32 - 1)))
        × GoesOn u.log.payloads w.log.payloads) }
    ensures err { D.tells → OnErr result ((rows : Rows) (point batches : ℕ) → IsInUse (D.files disk.old) log.old.file log.old.end rows point batches
        → Durably (D.files disk.new) (StandsForEither rows point (changed rows batch.now) restart)) }
    ensures file { log.new.file ≡ log.old.file }
    ensures cause { Causes (ending result) (D.counts disk.old) (D.counts disk.new) }
    ensures sound { NotDamaged result }
{
    let payload = batch_payload(alloc, restart, batch)?;
    append(log, disk, &payload)
}
