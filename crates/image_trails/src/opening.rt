//! Reading the generations of an image disk whose logs were opened.
ghost use Rattle.std.specs.Prelude.{◌≡◌, ◌≢◌, ◌<◌, ◌≤◌, ◌+◌, ◌*◌, ℕ, List, [], true, false, Err, Some, None, length, drop, get_or, map, OnOk, IfOk, IfSome, IfNone};
ghost use Rattle.rdf_types.specs.declared.records.Phase.{Phase as AnyPhase};
ghost use Rattle.rdf_disk.specs.Counts.Ending.{Fine};
ghost use Rattle.rdf_gatelog.specs.Log.{payloads_of};
ghost use Rattle.rdf_gatelog.specs.LogCauses.{ending};
ghost use Rattle.rdf_gatelog.specs.Logs.{Logs};
ghost use Rattle.image_disks.specs.Blocks.{Start, end_after};
ghost use Rattle.image_disks.specs.Flaws.{HasStart, IsFirstMisplaced};
ghost use Rattle.image_disks.specs.Spelled.{block_of};
ghost use Rattle.image_disks.specs.Standing.{file_of};
ghost use Rattle.image_disks.specs.Values.{received};
ghost use Rattle.image_trails.specs.DiskFiles.{logs_of};
ghost use Rattle.image_trails.specs.Memory.{plan_in, plan_of, value_in};
ghost use Rattle.image_trails.specs.Opening.{IsSecondRead, HasRead, IsReadUpTo, IsDiskRead, MayFollow, AreWithin, IsLowest, ReadsNext, TellsFlaw};

use crate::file_log::{DiskFiles, FileLog};
use crate::files::log_at;
use crate::memory::Memory;
use crate::parts::is_used;
use crate::reading::{is_phase_at, read_blocks, start_in};
use crate::said::Said;
use rdf_gatelog::LogFault;
use rdf_types::layout::Layout;
use rdf_types::records::{Phase, Pos};
use std::alloc::Global;

/// Whether a generation with this number, start and phase may stand behind those in memory.
fn may_follow(memory: &Memory, number: u32, start: Pos, phase: Phase) -> bool
    ensures yes { result ≡ true → MayFollow number start phase memory.now }
    ensures no { result ≡ false → MayFollow number start phase memory.now → ⊥ }
{
    if number > 1_000_000_000 || !is_phase_at(start, phase) {
        return false;
    }
    memory.generations.is_empty() || memory.tops[0] == start
}

/// Reads the blocks of a master behind its Start.
fn read_master(
    alloc: Global,
    memory: &mut Memory,
    log: &FileLog,
    number: u32,
    start: Pos,
) -> Result<(), LogFault>
    requires few { number ≤ 1000000000 }
    requires some { payloads_of log.now.payloads ≢ [] }
    ensures ok { OnOk result ((logs : Logs) → logs (file_of number 0) ≡ Some (payloads_of log.now.payloads)
        → HasRead logs number start 0 (drop 1 (payloads_of log.now.payloads)) memory.old memory.new) }
    ensures damaged { (f at : ℕ) → result ≡ Err (LogFault.Damaged f at) → (f ≡ 4 * number)
        × IsFirstMisplaced block_of (plan_in memory.old) 0 start (5 + length (get_or (payloads_of log.now.payloads) 0 [])) (drop 1 (payloads_of log.now.payloads)) at }
    ensures fine { ending result ≡ Fine }
{
    let place = 5 + log.payloads[0].len() as u64;
    let said = Said {
        end: start,
        phase: memory.phase,
        part: Vec::new(alloc),
    };
    let said = read_blocks(
        alloc,
        &memory.layout,
        0,
        4 * number,
        place,
        said,
        &log.payloads[1..],
    )?;
    memory.take(0, said, log.end)?;
    Ok(())
}

/// Reads a secondary's file, where that trail has files.
fn read_second(
    alloc: Global,
    memory: &mut Memory,
    files: &DiskFiles,
    number: u32,
    start: Pos,
    trail: u8,
) -> Result<(), LogFault>
    requires trail { (trail ≢ 0) × (trail < 4) }
    requires few { number ≤ 1000000000 }
    ensures ok { OnOk result (IsSecondRead (logs_of files.now) number start trail memory.old memory.new) }
    ensures damaged { (phase : AnyPhase) (rest : List (List ℕ)) → HasStart block_of (logs_of files.now) number start phase rest
        → received (value_in memory.old) ≡ end_after start (map block_of rest)
        → TellsFlaw (plan_in memory.old) (logs_of files.now) result }
    ensures fine { ending result ≡ Fine }
{
    if !is_used(&memory.layout, trail) {
        return Ok(());
    }
    let file = 4 * number + trail as u32;
    let Some(log) = log_at(files, file) else {
        return Err(LogFault::Damaged { file, at: 0 });
    };
    let said = Said {
        end: start,
        phase: memory.phase,
        part: Vec::new(alloc),
    };
    let said = read_blocks(alloc, &memory.layout, trail, file, 0, said, &log.payloads)?;
    if said.end < memory.tops[0] {
        return Err(LogFault::Damaged { file, at: log.end });
    }
    memory.take(trail, said, log.end)?;
    Ok(())
}

/// Reads the files of a generation that stands, which may follow those in memory.
fn read_generation(
    alloc: Global,
    memory: &mut Memory,
    files: &DiskFiles,
    log: &FileLog,
    number: u32,
    start: Pos,
    phase: Phase,
) -> Result<(), LogFault>
    requires follows { MayFollow number start phase memory.old }
    requires master { logs_of files.now (file_of number 0) ≡ Some (payloads_of log.now.payloads) }
    requires starts { block_of (get_or (payloads_of log.now.payloads) 0 []) ≡ Start start phase }
    requires some { payloads_of log.now.payloads ≢ [] }
    ensures ok { OnOk result (ReadsNext (plan_in memory.old) (logs_of files.now) number memory.old memory.new) }
    ensures layout { OnOk result (memory.new.layout ≡ memory.old.layout) }
    ensures damaged { TellsFlaw (plan_in memory.old) (logs_of files.now) result }
    ensures fine { ending result ≡ Fine }
{
    memory.begin(number, start, phase)?;
    read_master(alloc, memory, log, number, start)?;
    read_second(alloc, memory, files, number, start, 1)?;
    read_second(alloc, memory, files, number, start, 2)?;
    read_second(alloc, memory, files, number, start, 3)
}

/// The first payload of a log, where it has one.
fn first_payload(log: &FileLog) -> Option<&[u8]>
    ensures none { IfNone result (payloads_of log.now.payloads ≡ []) }
    ensures some { IfSome result (λ payload. (payloads_of log.now.payloads ≢ []) × (get_or (payloads_of log.now.payloads) 0 [] ≡ payload.now)) }
{
    if log.payloads.is_empty() {
        return None;
    }
    Some(&log.payloads[0])
}

/// Reads the generation of a number, where it stands.
fn read_next(
    alloc: Global,
    memory: &mut Memory,
    files: &DiskFiles,
    number: u32,
) -> Result<(), LogFault>
    requires small { number < 1073741824 }
    ensures ok { OnOk result (ReadsNext (plan_in memory.old) (logs_of files.now) number memory.old memory.new) }
    ensures layout { OnOk result (memory.new.layout ≡ memory.old.layout) }
    ensures damaged { IsReadUpTo (plan_in memory.old) (logs_of files.now) number memory.old → TellsFlaw (plan_in memory.old) (logs_of files.now) result }
    ensures fine { ending result ≡ Fine }
{
    let Some(log) = log_at(files, 4 * number) else {
        return Ok(());
    };
    let Some(first) = first_payload(log) else {
        return Ok(());
    };
    let bad = LogFault::Damaged {
        file: 4 * number,
        at: 0,
    };
    let Some((start, phase)) = start_in(alloc, first)? else {
        return Err(bad);
    };
    if !may_follow(memory, number, start, phase) {
        return Err(bad);
    }
    read_generation(alloc, memory, files, log, number, start, phase)
}

/// Reads the generations of an image disk, whose lowest file is that one.
pub(crate) fn read_disk(
    alloc: Global,
    layout: &Layout,
    files: &DiskFiles,
    low: u32,
    first: u32,
    end: u32,
) -> Result<Memory, LogFault>
    requires small { end ≤ 1073741824 }
    ensures ok { IfOk result (λ memory. AreWithin first end (logs_of files.now) → IsDiskRead (plan_of layout.now) (logs_of files.now) memory) }
    ensures layout { IfOk result (λ memory. memory.layout ≡ layout.now) }
    ensures damaged { AreWithin first end (logs_of files.now) → IsLowest low (logs_of files.now) → TellsFlaw (plan_of layout.now) (logs_of files.now) result }
    ensures fine { ending result ≡ Fine }
{
    let mut memory = Memory::empty(alloc, layout)?;
    for number in first..end {
        read_next(alloc, &mut memory, files, number)?;
    }
    if memory.generations.is_empty() {
        return Err(LogFault::Damaged { file: low, at: 0 });
    }
    Ok(memory)
}
