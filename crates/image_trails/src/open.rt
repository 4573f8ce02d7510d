//! Making image trails on a blank disk.
ghost use Rattle.std.specs.Prelude.{◌≡◌, ℕ, None, false, IfOk, IfErr, OnErr};
ghost use Rattle.rdf_disk.specs.Counts.{Causes};
ghost use Rattle.rdf_disk.specs.Outcomes.{Durably};
ghost use Rattle.rdf_gatelog.specs.LogCauses.{ending, ending_of_fault, NotDamaged};
ghost use Rattle.image_disks.specs.Spelled.{block_of};
ghost use Rattle.image_disks.specs.Values.{Alike, fresh};
ghost use Rattle.image_trails.specs.Memory.{IsInUse, plan_of, value_in};
ghost use Rattle.image_trails.specs.Generations.{WasOrBegun};
ghost use Rattle.image_trails.specs.Trails.{AreInUse, trails_layout, trails_value};

use crate::generations::{begin_generation, settle};
use crate::memory::Memory;
use crate::payloads::start_payload;
use crate::trails::ImageTrails;
use rdf_disk::Disk;
use rdf_gatelog::LogFault;
use rdf_types::layout::Layout;
use rdf_types::records::{Phase, Pos};
use std::alloc::Global;

/// A disk whose image trails weren't opened, and why.
#[derive(Drop)]
pub struct ImageShut<D: Disk> {
    pub disk: D,
    pub fault: LogFault,
}

/// Makes the first generation on a blank disk.
fn format_disk<D: Disk>(
    alloc: Global,
    disk: &mut D,
    layout: &Layout,
    start: Pos,
) -> Result<Memory, LogFault>
    requires blank { D.tells → (m : ℕ) → (D.files disk.old m).seen ≡ None }
    ensures ok { D.tells → IfOk result (λ memory. IsInUse block_of memory (D.files disk.new)) }
    ensures value { IfOk result (λ memory. Alike (value_in memory) (fresh start)) }
    ensures err { D.tells → OnErr result (Durably (D.files disk.new) (WasOrBegun (plan_of layout.now) start (D.files disk.old))) }
    ensures layout { IfOk result (λ memory. memory.layout ≡ layout.now) }
    ensures on { IfOk result (λ memory. (D.counts disk.new).off ≡ false) }
    ensures cause { Causes (ending result) (D.counts disk.old) (D.counts disk.new) }
    ensures sound { NotDamaged result }
{
    if disk.is_off() {
        return Err(LogFault::Stopped);
    }
    let mut memory = Memory::fresh(alloc, layout, start)?;
    let payload = start_payload(alloc, start, Phase::Running)?;
    settle(disk)?;
    let end = begin_generation(alloc, disk, layout, 0, &payload)?;
    memory.ends[0] = end;
    Ok(memory)
}

impl<D: Disk> ImageTrails<D> {
    /// Makes image trails on a blank disk. They begin at position 0. After an `Err` the disk durably is as it might have been
    /// before, or has files without blocks, or stands for such trails.
    pub fn format(alloc: Global, disk: D, layout: &Layout) -> Result<ImageTrails<D>, ImageShut<D>>
        requires blank { D.tells → (m : ℕ) → (D.files disk m).seen ≡ None }
        ensures ok { D.tells → IfOk result (AreInUse D.files) }
        ensures value { IfOk result (λ trails. Alike (trails_value trails) (fresh 0)) }
        ensures err { D.tells → IfErr result (λ shut. Durably (D.files shut.disk) (WasOrBegun (plan_of layout.now) 0 (D.files disk))) }
        ensures layout { IfOk result (λ trails. trails_layout trails ≡ layout.now) }
        ensures on { IfOk result (λ trails. (D.counts trails.disk).off ≡ false) }
        ensures cause_ok { IfOk result (λ trails. D.counts trails.disk ≡ D.counts disk) }
        ensures cause_err { IfErr result (λ shut. Causes (ending_of_fault shut.fault) (D.counts disk) (D.counts shut.disk)) }
        ensures sound { IfErr result (λ shut. (file at : ℕ) → shut.fault ≡ LogFault.Damaged file at → ⊥) }
    {
        ImageTrails::format_at(alloc, disk, layout, 0)
    }

    /// Makes image trails on a blank disk. They begin at a position, below which nothing is kept. After an `Err` the disk
    /// durably is as it might have been before, or has files without blocks, or stands for such trails.
    pub fn format_at(
        alloc: Global,
        disk: D,
        layout: &Layout,
        start: Pos,
    ) -> Result<ImageTrails<D>, ImageShut<D>>
        requires blank { D.tells → (m : ℕ) → (D.files disk m).seen ≡ None }
        ensures ok { D.tells → IfOk result (AreInUse D.files) }
        ensures value { IfOk result (λ trails. Alike (trails_value trails) (fresh start)) }
        ensures err { D.tells → IfErr result (λ shut. Durably (D.files shut.disk) (WasOrBegun (plan_of layout.now) start (D.files disk))) }
        ensures layout { IfOk result (λ trails. trails_layout trails ≡ layout.now) }
        ensures on { IfOk result (λ trails. (D.counts trails.disk).off ≡ false) }
        ensures cause_ok { IfOk result (λ trails. D.counts trails.disk ≡ D.counts disk) }
        ensures cause_err { IfErr result (λ shut. Causes (ending_of_fault shut.fault) (D.counts disk) (D.counts shut.disk)) }
        ensures sound { IfErr result (λ shut. (file at : ℕ) → shut.fault ≡ LogFault.Damaged file at → ⊥) }
    {
        let mut disk = disk;
        match format_disk(alloc, &mut disk, layout, start) {
            Ok(memory) => Ok(ImageTrails {
                alloc,
                disk,
                memory,
            }),
            Err(fault) => Err(ImageShut { disk, fault }),
        }
    }
}
