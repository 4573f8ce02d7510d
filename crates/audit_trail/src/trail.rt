//! A trail in use.
ghost use Rattle.std.specs.Prelude.{◌≡◌, ◌∷◌, ◌++◌, [], ℕ, List, Err, Ok, false, length, take, drop, OnOk, OnErr, IfOk, IfErr, MatchResult, IsTrue, ◌↔◌};
ghost use Rattle.rdf_types.specs.declared.records.Record.{Record};
ghost use Rattle.rdf_disk.specs.Calls.{Same};
ghost use Rattle.rdf_disk.specs.Counts.{Causes, fused};
ghost use Rattle.rdf_disk.specs.Outcomes.{Durably, seen_of};
ghost use Rattle.rdf_gatelog.specs.Log.{IsLogFile};
ghost use Rattle.rdf_gatelog.specs.LogCalls.{OthersSynced};
ghost use Rattle.rdf_gatelog.specs.LogCauses.{ending, ending_of_fault, NotDamaged};
ghost use Rattle.rdf_model.specs.Window.{stamped};
ghost use Rattle.audit_trail.specs.Spelled.{spellings, Spells, IsBlank, IsAlone, IsOnly, WasOrSpells, KeepsTrail, KeepsOrAdds};
ghost use Rattle.audit_trail.specs.Flaws.{IsFlaw, NotDamage};

use crate::opening::{make_log, open_log};
use rdf_codec::writing::write_record;
use rdf_disk::{Disk, Tear};
use rdf_gatelog::{LogFault, LogFile};
use rdf_types::records::{Pos, Record, Stamped};
use std::alloc::{AllocError, Global};

/// Room for the spelling of most records. A longer one makes more.
const ROOM: usize = 128;

/// An audit trail and the disk that it is on. All records are in memory too.
///
/// After a call answered a fault, only `close` may be called: what the disk then has is known once it is mounted again.
#[derive(Drop)]
pub struct AuditTrail<D: Disk> {
    alloc: Global,
    disk: D,
    log: LogFile,
    records: Vec<Record>,
}

/// The disk of a trail that was not opened, and why.
#[derive(Drop)]
pub struct TrailShut<D> {
    pub disk: D,
    pub fault: LogFault,
}

impl<D: Disk> AuditTrail<D> {
    ghost use Rattle.audit_trail.specs.InUse.{trail_of, disk_of, IsInUse};

    /// Makes an empty trail on a disk without files. It begins with a sync, so that no file that was removed comes back.
    pub fn format(alloc: Global, mut disk: D) -> Result<AuditTrail<D>, TrailShut<D>>
        requires blank { D.tells → IsBlank (D.files disk) }
        ensures ok { D.tells → IfOk result (λ a. IsInUse a (D.files (disk_of a))) }
        ensures alone { D.tells → IfOk result (λ a. IsAlone (D.files (disk_of a))) }
        ensures empty { IfOk result (λ a. trail_of a ≡ []) }
        ensures on { IfOk result (λ a. (D.counts (disk_of a)).off ≡ false) }
        ensures counts { IfOk result (λ a. D.counts (disk_of a) ≡ D.counts disk) }
        ensures err { D.tells → IfErr result (λ shut. Durably (D.files shut.disk) (WasOrSpells (D.files disk))) }
        ensures cause { IfErr result (λ shut. Causes (ending_of_fault shut.fault) (D.counts disk) (D.counts shut.disk)) }
        ensures sound { IfErr result (λ shut. NotDamage shut.fault) }
    {
        match make_log(alloc, &mut disk) {
            Ok(log) => {
                return Ok(AuditTrail {
                    alloc,
                    disk,
                    log,
                    records: Vec::new(alloc),
                });
            }
            Err(fault) => return Err(TrailShut { disk, fault }),
        }
    }

    /// Opens the trail of a disk that a stop may have left. Whatever this answers, what the disk may be spells the same
    /// trails as before. Damage is told at the first block that is no record, or where the log itself is broken, which
    /// is looked for first.
    pub fn mount(alloc: Global, mut disk: D) -> Result<AuditTrail<D>, TrailShut<D>>
        ensures ok { D.tells → IfOk result (λ a. IsInUse a (D.files (disk_of a))) }
        ensures found { D.tells → IfOk result (λ a. IsLogFile (spellings (trail_of a)) (D.files disk 0).seen) }
        ensures others { D.tells → IfOk result (λ a. OthersSynced 0 (D.files disk) (D.files (disk_of a))) }
        ensures only { D.tells → IfOk result (λ a. IsOnly (trail_of a) (D.files disk) (D.files (disk_of a))) }
        ensures on { IfOk result (λ a. (D.counts (disk_of a)).off ≡ false) }
        ensures counts { IfOk result (λ a. D.counts (disk_of a) ≡ D.counts disk) }
        ensures keeps { D.tells → MatchResult result (λ a. KeepsTrail D.files disk (disk_of a)) (λ shut. KeepsTrail D.files disk shut.disk) }
        ensures damaged { D.tells → IfErr result (λ shut. (file at : ℕ) → shut.fault ≡ LogFault.Damaged file at → IsFlaw (seen_of (D.files disk)) file at) }
        ensures whole { D.tells → (trail : List Record) → Spells trail (seen_of (D.files disk)) → IfErr result (λ shut. NotDamage shut.fault) }
        ensures cause { IfErr result (λ shut. Causes (ending_of_fault shut.fault) (D.counts disk) (D.counts shut.disk)) }
    {
        match open_log(alloc, &mut disk) {
            Ok((log, records)) => {
                return Ok(AuditTrail {
                    alloc,
                    disk,
                    log,
                    records,
                });
            }
            Err(fault) => return Err(TrailShut { disk, fault }),
        }
    }

    /// Adds a record, durably. After an `Err` the disk has the trail without it or with it, and memory has it without.
    pub fn append(&mut self, rec: &Record) -> Result<(), LogFault>
        requires in_use { D.tells → IsInUse self.old (D.files (disk_of self.old)) }
        ensures ok { OnOk result (trail_of self.new ≡ trail_of self.old ++ rec.now ∷ []) }
        ensures same { OnErr result (trail_of self.new ≡ trail_of self.old) }
        ensures in_use { D.tells → OnOk result (IsInUse self.new (D.files (disk_of self.new))) }
        ensures others { D.tells → OnOk result (OthersSynced 0 (D.files (disk_of self.old)) (D.files (disk_of self.new))) }
        ensures alone { D.tells → OnOk result (IsAlone (D.files (disk_of self.old)) → IsAlone (D.files (disk_of self.new))) }
        ensures err { D.tells → OnErr result (KeepsOrAdds (trail_of self.old) rec.now (D.files (disk_of self.old)) (D.files (disk_of self.new))) }
        ensures cause { Causes (ending result) (D.counts (disk_of self.old)) (D.counts (disk_of self.new)) }
        ensures sound { NotDamaged result }
    {
        let copy = rec.try_clone()?;
        self.records.reserve(1)?;
        let mut spelling = Vec::with_capacity(self.alloc, ROOM)?;
        write_record(rec, &mut spelling)?;
        self.log.append(&mut self.disk, &spelling)?;
        self.records.push_reserved(copy);
        Ok(())
    }

    /// The records from a position on with their positions, at most so many. There are none from the end on.
    pub fn records_from(
        &self,
        alloc: Global,
        from: Pos,
        most: u32,
    ) -> Result<Vec<Stamped>, AllocError>
        ensures { IfOk result (λ found. found.items ≡ stamped from (take most (drop from (trail_of self.now)))) }
    {
        stamped_from(alloc, &self.records, from, most)
    }

    /// All records, in the order of their positions.
    pub fn records(&self) -> &[Record]
        ensures { result.now ≡ trail_of self.now }
    {
        &self.records
    }

    /// The number of records, which is the position that the next one gets.
    pub fn len(&self) -> Pos
        ensures { result ≡ length (trail_of self.now) }
    {
        self.records.len() as u64
    }

    /// Whether the trail has no record.
    pub fn is_empty(&self) -> bool
        ensures { IsTrue result ↔ (trail_of self.now ≡ []) }
    {
        self.records.is_empty()
    }

    /// Gives the disk a fuse: after that many more counted calls the next one stops.
    pub fn fuse(&mut self, calls: u32, tear: Tear)
        ensures trail { trail_of self.new ≡ trail_of self.old }
        ensures files { D.tells → Same (D.files (disk_of self.old)) (D.files (disk_of self.new)) }
        ensures in_use { D.tells → IsInUse self.old (D.files (disk_of self.old)) → IsInUse self.new (D.files (disk_of self.new)) }
        ensures counts { D.counts (disk_of self.new) ≡ fused (D.counts (disk_of self.old)) }
    {
        self.disk.fuse(calls, tear);
    }

    /// Hands the disk back.
    pub fn close(self) -> D
        ensures { result ≡ disk_of self }
    {
        self.disk
    }
}

/// Records from a position on, each with its position, at most so many.
fn stamped_from(
    alloc: Global,
    records: &[Record],
    from: Pos,
    most: u32,
) -> Result<Vec<Stamped>, AllocError>
    ensures { IfOk result (λ found. found.items ≡ stamped from (take most (drop from records.now))) }
{
    let start = records.len().min(from as usize);
    let behind = &records[start..];
    let few = &behind[..behind.len().min(most as usize)];
    let mut found = Vec::with_capacity(alloc, few.len())?;
    let mut pos = from;
    for rec in few {
        found.push(Stamped {
            pos,
            rec: rec.try_clone()?,
        })?;
        pos += 1;
    }
    Ok(found)
}
