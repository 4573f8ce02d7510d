//! Opening image trails on a disk that a stop may have left.
ghost use Rattle.std.specs.Prelude.{◌≡◌, ◌*◌, ◌/◌, ℕ, false, Err, IfOk, IfErr, OnOk};
ghost use Rattle.rdf_disk.specs.Counts.{Causes};
ghost use Rattle.rdf_disk.specs.Files.{IsSpan};
ghost use Rattle.rdf_disk.specs.Outcomes.{Keeps, seen_of};
ghost use Rattle.rdf_gatelog.specs.LogCauses.{ending, ending_of_fault};
ghost use Rattle.rdf_gatelog.specs.Logs.{Reads, Rests, SameLogs};
ghost use Rattle.image_disks.specs.Flaws.{IsFlaw};
ghost use Rattle.image_disks.specs.Spelled.{block_of};
ghost use Rattle.image_disks.specs.Standing.{StandsFor, SameValues};
ghost use Rattle.image_disks.specs.Values.{Value, Alike};
ghost use Rattle.image_trails.specs.DiskFiles.{NoneOutside, TellsDamage, logs_of};
ghost use Rattle.image_trails.specs.Memory.{IsInUse, plan_of, value_in};
ghost use Rattle.image_trails.specs.Opening.{disk_in};
ghost use Rattle.image_trails.specs.Trails.{AreInUse, AreOpened, trails_value};

use crate::file_log::DiskFiles;
use crate::files::open_logs;
use crate::generations::settle;
use crate::memory::Memory;
use crate::open::ImageShut;
use crate::opening::read_disk;
use crate::pruning::drop_rest;
use crate::trails::ImageTrails;
use image_disks::{no_flaw, one_value};
use rdf_disk::Disk;
use rdf_gatelog::LogFault;
use rdf_types::layout::Layout;
use std::alloc::Global;

/// The opened logs of a disk, with the span of its files.
#[derive(Drop)]
struct Opened {
    files: DiskFiles,
    low: u32,
    above: u32,
}

/// Opens the log of each file of a disk, after a sync.
fn open_files<D: Disk>(alloc: Global, disk: &mut D) -> Result<Opened, LogFault>
    ensures rests { D.tells → IfOk result (λ opened. Rests (logs_of opened.files) (D.files disk.new)) }
    ensures reads { D.tells → IfOk result (λ opened. Reads (logs_of opened.files) (seen_of (D.files disk.old))) }
    ensures span { D.tells → IfOk result (λ opened. IsSpan (D.files disk.old) opened.low opened.above) }
    ensures base { IfOk result (λ opened. opened.files.base ≡ 4 * (opened.low / 4)) }
    ensures within { D.tells → IfOk result (λ opened. NoneOutside opened.files.base opened.above (logs_of opened.files)) }
    ensures keeps { D.tells → Keeps SameLogs (D.files disk.old) (D.files disk.new) }
    ensures damaged { D.tells → TellsDamage (D.files disk.old) result }
    ensures cause { Causes (ending result) (D.counts disk.old) (D.counts disk.new) }
{
    settle(disk)?;
    let (low, above) = disk.span()?;
    let files = open_logs(alloc, disk, 4 * (low / 4), above)?;
    Ok(Opened { files, low, above })
}

/// Opens the logs of a disk, reads its generations, and removes the files that aren't needed.
fn open_disk<D: Disk>(alloc: Global, disk: &mut D, layout: &Layout) -> Result<Memory, LogFault>
    ensures ok { D.tells → IfOk result (λ memory. IsInUse block_of memory (D.files disk.new)) }
    ensures value { D.tells → IfOk result (λ memory. StandsFor block_of (plan_of layout.now) (value_in memory) (seen_of (D.files disk.old))) }
    ensures layout { IfOk result (λ memory. memory.layout ≡ layout.now) }
    ensures on { OnOk result ((D.counts disk.old).off ≡ false) }
    ensures keeps { D.tells → Keeps (SameValues block_of (plan_of layout.now)) (D.files disk.old) (D.files disk.new) }
    ensures damaged { D.tells → (f at : ℕ) → result ≡ Err (LogFault.Damaged f at) → IsFlaw block_of (plan_of layout.now) (seen_of (D.files disk.old)) f at }
    ensures cause { Causes (ending result) (D.counts disk.old) (D.counts disk.new) }
{
    if disk.is_off() {
        return Err(LogFault::Stopped);
    }
    let opened = open_files(alloc, disk)?;
    let memory = read_disk(
        alloc,
        layout,
        &opened.files,
        opened.low,
        opened.low / 4,
        opened.above / 4 + 1,
    )?;
    drop_rest(disk, layout, &opened.files, opened.above)?;
    Ok(memory)
}

impl<D: Disk> ImageTrails<D> {
    /// Opens the image trails of a disk that a stop may have left. It removes the files of generations that were not begun
    /// whole or were half dropped. It may stop too, and hands the disk back then. Whatever it answers, the disk goes on to
    /// stand for what it stood for.
    pub fn mount(alloc: Global, disk: D, layout: &Layout) -> Result<ImageTrails<D>, ImageShut<D>>
        ensures ok { D.tells → IfOk result (AreInUse D.files) }
        ensures value { D.tells → IfOk result (λ trails. StandsFor block_of (plan_of layout.now) (trails_value trails) (seen_of (D.files disk))) }
        ensures only { D.tells → IfOk result (λ trails. (v : Value) → StandsFor block_of (plan_of layout.now) v (seen_of (D.files disk))
            → Alike (trails_value trails) v) }
        ensures opened { IfOk result (AreOpened D.counts layout.now disk) }
        ensures keeps { D.tells → Keeps (SameValues block_of (plan_of layout.now)) (D.files disk) (D.files (disk_in result)) }
        ensures damaged { D.tells → IfErr result (λ shut. (file at : ℕ) → shut.fault ≡ LogFault.Damaged file at
            → IsFlaw block_of (plan_of layout.now) (seen_of (D.files disk)) file at) }
        ensures whole { D.tells → IfErr result (λ shut. (v : Value) (file at : ℕ) → StandsFor block_of (plan_of layout.now) v (seen_of (D.files disk))
            → shut.fault ≡ LogFault.Damaged file at → ⊥) }
        ensures cause { IfErr result (λ shut. Causes (ending_of_fault shut.fault) (D.counts disk) (D.counts shut.disk)) }
    {
        one_value();
        no_flaw();
        let mut disk = disk;
        match open_disk(alloc, &mut disk, layout) {
            Ok(memory) => Ok(ImageTrails {
                alloc,
                disk,
                memory,
            }),
            Err(fault) => Err(ImageShut { disk, fault }),
        }
    }
}
