//! Removing the files of generations that do not stand.
ghost use Rattle.std.specs.Prelude.{◌≡◌, ◌<◌, ◌+◌, false, None, OnOk, OnErr};
ghost use Rattle.rdf_disk.specs.Counts.{Causes};
ghost use Rattle.rdf_disk.specs.Outcomes.{Durably};
ghost use Rattle.rdf_gatelog.specs.LogCauses.{ending, NotDamaged};
ghost use Rattle.rdf_gatelog.specs.Logs.{Rests};
ghost use Rattle.image_trails.specs.DiskFiles.{NoneOutside, logs_of};
ghost use Rattle.image_trails.specs.Memory.{plan_of};
ghost use Rattle.image_trails.specs.Opening.{is_born, is_needed, RestsPruned, ReadsPruned};

use crate::file_log::DiskFiles;
use crate::files::log_at;
use crate::parts::is_used;
use rdf_disk::Disk;
use rdf_gatelog::LogFault;
use rdf_gatelog::logs::discard;
use rdf_types::layout::Layout;

/// Whether a master has a block.
fn is_standing(files: &DiskFiles, master: u32) -> bool
    ensures { result ≡ is_born (logs_of files.now master) }
{
    match log_at(files, master) {
        Some(log) => !log.payloads.is_empty(),
        None => false,
    }
}

/// Whether a file belongs to a trail that has files, in a generation that stands.
fn is_kept(layout: &Layout, files: &DiskFiles, file: u32) -> bool
    ensures { result ≡ is_needed (plan_of layout.now) (logs_of files.now) file }
{
    is_used(layout, (file % 4) as u8) && is_standing(files, 4 * (file / 4))
}

/// Removes a file, if there is one that isn't needed.
fn drop_unneeded<D: Disk>(
    disk: &mut D,
    layout: &Layout,
    files: &DiskFiles,
    file: u32,
) -> Result<(), LogFault>
    ensures ok { D.tells → OnOk result (RestsPruned (plan_of layout.now) (logs_of files.now) file (D.files disk.old)
        → RestsPruned (plan_of layout.now) (logs_of files.now) (file + 1) (D.files disk.new)) }
    ensures err { D.tells → OnErr result (RestsPruned (plan_of layout.now) (logs_of files.now) file (D.files disk.old)
        → Durably (D.files disk.new) (ReadsPruned (plan_of layout.now) (logs_of files.now))) }
    ensures cause { Causes (ending result) (D.counts disk.old) (D.counts disk.new) }
    ensures sound { NotDamaged result }
{
    if log_at(files, file).is_none() {
        return Ok(());
    }
    if is_kept(layout, files, file) {
        return Ok(());
    }
    discard(disk, file)
}

/// Removes the files that aren't needed.
pub(crate) fn drop_rest<D: Disk>(
    disk: &mut D,
    layout: &Layout,
    files: &DiskFiles,
    above: u32,
) -> Result<(), LogFault>
    ensures ok { D.tells → OnOk result (NoneOutside files.now.base above (logs_of files.now) → Rests (logs_of files.now) (D.files disk.old)
        → RestsPruned (plan_of layout.now) (logs_of files.now) above (D.files disk.new)) }
    ensures err { D.tells → OnErr result (NoneOutside files.now.base above (logs_of files.now) → Rests (logs_of files.now) (D.files disk.old)
        → Durably (D.files disk.new) (ReadsPruned (plan_of layout.now) (logs_of files.now))) }
    ensures cause { Causes (ending result) (D.counts disk.old) (D.counts disk.new) }
    ensures sound { NotDamaged result }
{
    for file in files.base..above {
        drop_unneeded(disk, layout, files, file)?;
    }
    Ok(())
}
