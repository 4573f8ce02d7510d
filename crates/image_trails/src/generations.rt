//! The files of a generation: a log each for the master and for the secondaries.
ghost use Rattle.std.specs.Prelude.{◌≡◌, ◌+◌, ◌<◌, ℕ, None, OnOk, OnErr, IfOk, ◌⊎◌};
ghost use Rattle.rdf_disk.specs.Counts.{Causes};
ghost use Rattle.rdf_disk.specs.Files.{settled};
ghost use Rattle.rdf_disk.specs.Outcomes.{Durably, Narrows};
ghost use Rattle.rdf_gatelog.specs.Log.{IsPayload};
ghost use Rattle.rdf_gatelog.specs.LogCauses.{ending, NotDamaged};
ghost use Rattle.rdf_gatelog.specs.Logs.{Logs, Reads, Rests, ReadsEither, IsOpenIn};
ghost use Rattle.image_trails.specs.Generations.{IsFreeFrom, ReadsOne, with_trail, without_trail, begun, before_start, dropped_files, after_drop};
ghost use Rattle.image_trails.specs.Memory.{plan_of};

use crate::parts::is_used;
use rdf_disk::Disk;
use rdf_gatelog::LogFault;
use rdf_gatelog::logs::{append, create, discard};
use rdf_types::layout::Layout;
use std::alloc::Global;

/// Makes what reads give safe.
pub(crate) fn settle<D: Disk>(disk: &mut D) -> Result<(), LogFault>
    ensures ok { D.tells → OnOk result ((logs : Logs) → Rests logs (D.files disk.old) → Rests logs (D.files disk.new)) }
    ensures safe { D.tells → OnOk result ((m : ℕ) → D.files disk.new m ≡ settled (D.files disk.old m).seen) }
    ensures narrows { D.tells → (m : ℕ) → Narrows (D.files disk.old m) (D.files disk.new m) }
    ensures err { D.tells → OnErr result ((logs : Logs) → Rests logs (D.files disk.old) → Durably (D.files disk.new) (Reads logs)) }
    ensures cause { Causes (ending result) (D.counts disk.old) (D.counts disk.new) }
    ensures sound { NotDamaged result }
{
    disk.sync()?;
    Ok(())
}

/// Makes a secondary's file, without blocks, where that trail has files.
fn begin_trail<D: Disk>(
    alloc: Global,
    disk: &mut D,
    layout: &Layout,
    master: u32,
    trail: u8,
) -> Result<(), LogFault>
    requires numbered { master + trail < u32.MAX }
    requires absent { D.tells → (logs : Logs) × Rests logs (D.files disk.old) × (logs (master + trail) ≡ None) }
    ensures ok { D.tells → OnOk result ((logs : Logs) → Rests logs (D.files disk.old) → logs (master + trail) ≡ None
        → Rests (with_trail (plan_of layout.now) master trail logs) (D.files disk.new)) }
    ensures err { D.tells → OnErr result ((logs : Logs) → Rests logs (D.files disk.old) → logs (master + trail) ≡ None
        → Durably (D.files disk.new) (ReadsEither logs (with_trail (plan_of layout.now) master trail logs))) }
    ensures cause { Causes (ending result) (D.counts disk.old) (D.counts disk.new) }
    ensures sound { NotDamaged result }
{
    if !is_used(layout, trail) {
        return Ok(());
    }
    create(alloc, disk, master + trail as u32)?;
    Ok(())
}

/// Removes a secondary's file, where that trail has files.
fn drop_trail<D: Disk>(
    disk: &mut D,
    layout: &Layout,
    master: u32,
    trail: u8,
) -> Result<(), LogFault>
    requires numbered { master + trail < u32.MAX }
    ensures ok { D.tells → OnOk result ((logs : Logs) → Rests logs (D.files disk.old)
        → Rests (without_trail (plan_of layout.now) master trail logs) (D.files disk.new)) }
    ensures err { D.tells → OnErr result ((logs : Logs) → Rests logs (D.files disk.old)
        → Durably (D.files disk.new) (ReadsEither logs (without_trail (plan_of layout.now) master trail logs))) }
    ensures cause { Causes (ending result) (D.counts disk.old) (D.counts disk.new) }
    ensures sound { NotDamaged result }
{
    if !is_used(layout, trail) {
        return Ok(());
    }
    discard(disk, master + trail as u32)
}

/// Makes the files of a generation, and then its Start block, which answers where the master ends. From then on the generation stands.
pub(crate) fn begin_generation<D: Disk>(
    alloc: Global,
    disk: &mut D,
    layout: &Layout,
    master: u32,
    start: &[u8],
) -> Result<u64, LogFault>
    requires numbered { master + 4 < u32.MAX }
    requires payload { IsPayload start.now }
    requires absent { D.tells → (logs : Logs) × Rests logs (D.files disk.old) × IsFreeFrom master logs }
    ensures ok { D.tells → IfOk result (λ end. (logs : Logs) → Rests logs (D.files disk.old) → IsFreeFrom master logs
        → Rests (begun (plan_of layout.now) master start.now logs) (D.files disk.new) × IsOpenIn (begun (plan_of layout.now) master start.now logs) master end) }
    ensures err { D.tells → OnErr result ((logs : Logs) → Rests logs (D.files disk.old) → IsFreeFrom master logs
        → Durably (D.files disk.new) (λ c. ReadsOne (before_start (plan_of layout.now) master logs) c ⊎ Reads (begun (plan_of layout.now) master start.now logs) c)) }
    ensures cause { Causes (ending result) (D.counts disk.old) (D.counts disk.new) }
    ensures sound { NotDamaged result }
{
    begin_trail(alloc, disk, layout, master, 1)?;
    begin_trail(alloc, disk, layout, master, 2)?;
    begin_trail(alloc, disk, layout, master, 3)?;
    let mut log = create(alloc, disk, master)?;
    append(&mut log, disk, start)?;
    Ok(log.end())
}

/// Removes the files of a generation: the master's, by which it stands no longer, and then the secondaries'.
pub(crate) fn drop_generation<D: Disk>(
    disk: &mut D,
    layout: &Layout,
    master: u32,
) -> Result<(), LogFault>
    requires numbered { master + 4 < u32.MAX }
    ensures ok { D.tells → OnOk result ((logs : Logs) → Rests logs (D.files disk.old)
        → Rests (dropped_files (plan_of layout.now) master logs) (D.files disk.new)) }
    ensures err { D.tells → OnErr result ((logs : Logs) → Rests logs (D.files disk.old)
        → Durably (D.files disk.new) (λ c. Reads logs c ⊎ ReadsOne (after_drop (plan_of layout.now) master logs) c)) }
    ensures cause { Causes (ending result) (D.counts disk.old) (D.counts disk.new) }
    ensures sound { NotDamaged result }
{
    settle(disk)?;
    discard(disk, master)?;
    drop_trail(disk, layout, master, 1)?;
    drop_trail(disk, layout, master, 2)?;
    drop_trail(disk, layout, master, 3)
}
