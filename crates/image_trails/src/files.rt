//! Opening each log of a disk.
ghost use Rattle.std.specs.Prelude.{◌≡◌, ◌⊎◌, ◌<◌, ◌≤◌, ◌-◌, ℕ, None, Some, MatchOption, IfOk};
ghost use Rattle.rdf_disk.specs.Counts.{Causes};
ghost use Rattle.rdf_disk.specs.Outcomes.{Keeps};
ghost use Rattle.rdf_gatelog.specs.Log.{payloads_of};
ghost use Rattle.rdf_gatelog.specs.LogCauses.{ending};
ghost use Rattle.rdf_gatelog.specs.Logs.{IsSettled, SameLogs};
ghost use Rattle.image_trails.specs.DiskFiles.{AreLogs, IsOpened, TellsDamage, payloads_in, logs_of};

use crate::file_log::{DiskFiles, FileLog};
use rdf_disk::Disk;
use rdf_gatelog::LogFault;
use rdf_gatelog::logs::mount;
use std::alloc::Global;

/// Opens the log of a file, where there is one.
fn open_log<D: Disk>(alloc: Global, disk: &mut D, file: u32) -> Result<Option<FileLog>, LogFault>
    requires settled { D.tells → IsSettled (D.files disk.old) }
    ensures ok { D.tells → IfOk result (λ found. IsOpened file (payloads_in found) (D.files disk.old) (D.files disk.new)) }
    ensures keeps { D.tells → Keeps SameLogs (D.files disk.old) (D.files disk.new) }
    ensures damaged { D.tells → TellsDamage (D.files disk.old) result }
    ensures cause { Causes (ending result) (D.counts disk.old) (D.counts disk.new) }
{
    if disk.len(file)?.is_none() {
        return Ok(None);
    }
    let (log, payloads) = mount(alloc, disk, file)?;
    Ok(Some(FileLog {
        end: log.end(),
        payloads,
    }))
}

/// Opens the logs of all files of a disk, which lie between two numbers.
pub(crate) fn open_logs<D: Disk>(
    alloc: Global,
    disk: &mut D,
    base: u32,
    above: u32,
) -> Result<DiskFiles, LogFault>
    requires settled { D.tells → IsSettled (D.files disk.old) }
    requires ordered { D.tells → base ≤ above }
    requires within { D.tells → (m : ℕ) → (m < base) ⊎ (above ≤ m) → (D.files disk.old m).seen ≡ None }
    ensures logs { D.tells → IfOk result (λ files. AreLogs base above (D.files disk.old) (D.files disk.new) (logs_of files)) }
    ensures base { IfOk result (λ files. files.base ≡ base) }
    ensures keeps { D.tells → Keeps SameLogs (D.files disk.old) (D.files disk.new) }
    ensures damaged { D.tells → TellsDamage (D.files disk.old) result }
    ensures cause { Causes (ending result) (D.counts disk.old) (D.counts disk.new) }
{
    let mut logs = Vec::new(alloc);
    for file in base..above {
        logs.push(open_log(alloc, disk, file)?)?;
    }
    Ok(DiskFiles { base, logs })
}

/// The log of a file, where there is one.
pub(crate) fn log_at(files: &DiskFiles, file: u32) -> Option<&FileLog>
    ensures { MatchOption result (logs_of files.now file ≡ None) (λ log. logs_of files.now file ≡ Some (payloads_of log.now.payloads)) }
{
    if file < files.base {
        return None;
    }
    match files.logs.get((file - files.base) as usize) {
        Some(Some(log)) => Some(log),
        _ => None,
    }
}
